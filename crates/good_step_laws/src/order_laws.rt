// Laws of a step. Each function is one law, and does nothing.
ghost use Rattle.good_step_laws.specs.Orders.Laws.{StepsAreOrdered, StepsAsk};

/// The acts of a step come in the order of their places.
pub fn steps_are_ordered()
    ensures { StepsAreOrdered }
{}

/// The client is asked in a step exactly where it must be heard by its end, and was not asked before.
pub fn steps_ask()
    ensures { StepsAsk }
{}
