// Laws of the rules on a child. Each function is one law, and does nothing.
ghost use Rattle.trace_child.specs.ChildLaws.{DecidersAreFirst, DecidersAreFound, DecidersStay, OutcomesStay, BodiesAreFronts, BodiesAreWhole, ExitsSettle};

/// A run is decided by the first item that decides it.
pub fn deciders_are_first()
    ensures { DecidersAreFirst }
{}

/// Where a run is not decided, no item decides it.
pub fn deciders_are_found()
    ensures { DecidersAreFound }
{}

/// What decides a run decides it whatever follows.
pub fn deciders_stay()
    ensures { DecidersStay }
{}

/// So its outcome stays.
pub fn outcomes_stay()
    ensures { OutcomesStay }
{}

/// A child is fed a front of its request's body, in order (RFC 3875 4.2).
pub fn bodies_are_fronts()
    ensures { BodiesAreFronts }
{}

/// The front is the whole body where the host ended the input and nothing else had ended before.
pub fn bodies_are_whole()
    ensures { BodiesAreWhole }
{}

/// A child that was reaped after its run was decided is settled.
pub fn exits_settle()
    ensures { ExitsSettle }
{}
