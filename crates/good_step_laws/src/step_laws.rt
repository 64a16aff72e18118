// The law of a step. The function does nothing.
ghost use Rattle.good_step_laws.specs.Steps.Laws.{StepsAreGood};

/// A step of a connection at rest, by an event that fits, keeps all rules of the model on one connection, and leaves the
/// connection at rest.
pub fn steps_are_good()
    ensures { StepsAreGood }
{}
