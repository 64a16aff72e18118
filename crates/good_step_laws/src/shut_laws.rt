// Laws of the end of a step. Each function is one law, and does nothing.
ghost use Rattle.good_step_laws.specs.Shuts.Laws.{StepsEndAtStop, StepsShutDuly, StepsTakeNoMemory};

/// After Stop the connection is shut.
pub fn steps_end_at_stop()
    ensures { StepsEndAtStop }
{}

/// A step shuts the connection once at most, and for the reason that there is at its end.
pub fn steps_shut_duly()
    ensures { StepsShutDuly }
{}

/// No memory runs out in a step in which none is taken.
pub fn steps_take_no_memory()
    ensures { StepsTakeNoMemory }
{}
