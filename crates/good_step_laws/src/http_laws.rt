// Laws of a connection as one of many. Each function is one law, and does nothing.
ghost use Rattle.good_step_laws.specs.Http.Laws.{ConnsBegin, ConnsKeepLaws, StepsGive};

/// A step gives what the core of all connections asks of it.
pub fn steps_give()
    ensures { StepsGive }
{}

/// What the core of all connections knows of one holds of each.
pub fn conns_keep_laws()
    ensures { ConnsKeepLaws }
{}

/// A new connection stands for each list of Ticks.
pub fn conns_begin()
    ensures { ConnsBegin }
{}
