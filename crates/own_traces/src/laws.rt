// Laws of the lists of connections. Each function is one law, and does nothing.
ghost use Rattle.own_traces.specs.OwnLaws.{NothingIsBetween, ActsAreOfOne, EventsAreOfOne, TicksAreOfAll, StopsAreOfAll, NewConnectionsBegin, OwnEventsFit, NumbersAreKnown, WordsAreKept};

/// Of the empty trace all holds that is between connections.
pub fn nothing_is_between()
    ensures { NothingIsBetween }
{}

/// Acts of one connection join its list alone, and keep what is between connections.
pub fn acts_are_of_one()
    ensures { ActsAreOfOne }
{}

/// So does an event of one connection.
pub fn events_are_of_one()
    ensures { EventsAreOfOne }
{}

/// A Tick joins every list.
pub fn ticks_are_of_all()
    ensures { TicksAreOfAll }
{}

/// Stop joins every list.
pub fn stops_are_of_all()
    ensures { StopsAreOfAll }
{}

/// An Accepted joins the list of the next connection alone.
pub fn new_connections_begin()
    ensures { NewConnectionsBegin }
{}

/// An event that joins the list of a connection fits it exactly where it fits the trace.
pub fn own_events_fit()
    ensures { OwnEventsFit }
{}

/// An event that fits names connections that were accepted and children that were started, and no others.
pub fn numbers_are_known()
    ensures { NumbersAreKnown }
{}

/// The list of a connection says of it, and of its children, what the trace says.
pub fn words_are_kept()
    ensures { WordsAreKept }
{}
