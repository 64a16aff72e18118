// Laws of the steps of a connection. Each function is one law, and does nothing.
ghost use Rattle.scgi_laws.specs.Dues.{BytesAreRead, RequestsBreakOff, RunsAreAnswered};
ghost use Rattle.scgi_laws.specs.Ends.{StepsEnd};
ghost use Rattle.scgi_laws.specs.Orders.{StepsAreOrdered};
ghost use Rattle.scgi_laws.specs.Runs.{EventsAreTold, UnkeptIsTold};

/// The acts of a step come in the order of their places.
pub fn steps_are_ordered()
    ensures { StepsAreOrdered }
{}

/// What the run of a child is told of an event is what the list says of it.
pub fn events_are_told()
    ensures { EventsAreTold }
{}

/// So it is of output that found no room, before the run is given up.
pub fn unkept_is_told()
    ensures { UnkeptIsTold }
{}

/// What the bytes of a client make due is what the model says of them.
pub fn bytes_are_read()
    ensures { BytesAreRead }
{}

/// What comes of a run that was decided is the model's answer.
pub fn runs_are_answered()
    ensures { RunsAreAnswered }
{}

/// A request of which no more comes is answered where a byte of it was heard, and else its connection is shut.
pub fn requests_break_off()
    ensures { RequestsBreakOff }
{}

/// Where a script runs or the connection is over after the acts for the child, nothing follows them but a Shut.
pub fn steps_end()
    ensures { StepsEnd }
{}
