// Laws of whole traces. Each function is one law, and does nothing.
ghost use Rattle.trace_laws.specs.TraceLaws.{GoodTracesAreBetween, ChildrenAreOfOne, OneChildIsUnsettled, StartsComeInTurn, ActsComeInForm, ExitsSettleAll, StartedAreReapedOnce, UnsentIsBounded, GoodTracesBreakNothing};

/// Starts are numbered from 0, each child is of one connection, nothing names a connection or a
/// child before it is there, and what the trace says of a connection stands in the connection's list.
pub fn good_traces_are_between()
    ensures { GoodTracesAreBetween }
{}

/// Each child was started once, for one exchange and hop of one connection.
pub fn children_are_of_one()
    ensures { ChildrenAreOfOne }
{}

/// A connection has one child at the most that is not settled.
pub fn one_child_is_unsettled()
    ensures { OneChildIsUnsettled }
{}

/// A child is started while neither Stop nor a Shut of its connection stands, and no other child of
/// the connection is unsettled.
pub fn starts_come_in_turn()
    ensures { StartsComeInTurn }
{}

/// Each act on a child may stand where it does: it is killed once and not after its exit, its input
/// is ended once, and so on.
pub fn acts_come_in_form()
    ensures { ActsComeInForm }
{}

/// Where Stop stands, every Start was answered and every child that was started has exited, every
/// child is settled.
pub fn exits_settle_all()
    ensures { ExitsSettleAll }
{}

/// Where every child is settled, as it is when the server ends well, each that was started was reaped
/// once.
pub fn started_are_reaped_once()
    ensures { StartedAreReapedOnce }
{}

/// Of a connection that speaks HTTP no more than 344,064 bytes were written and have not left.
pub fn unsent_is_bounded()
    ensures { UnsentIsBounded }
{}

/// A trace of which the tests name a rule that it breaks is not good.
pub fn good_traces_break_nothing()
    ensures { GoodTracesBreakNothing }
{}
