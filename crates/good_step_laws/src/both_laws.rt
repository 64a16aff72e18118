// Laws of a connection as one of many. Each function is one law, and does nothing.
ghost use Rattle.good_step_laws.specs.Both.Laws.{PhasesBegin, PhasesGive, PhasesKeepLaws};

/// A step gives what the core of all connections asks of it.
pub fn phases_give()
    ensures { PhasesGive }
{}

/// What the core of all connections knows of one holds of each.
pub fn phases_keep_laws()
    ensures { PhasesKeepLaws }
{}

/// A new connection stands for each list of Ticks.
pub fn phases_begin()
    ensures { PhasesBegin }
{}
