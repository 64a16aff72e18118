// Laws of a connection that speaks WebSocket, as one of many. Each function is one law, and does nothing.
ghost use Rattle.good_step_laws.specs.Talk.Laws.{TalksGive, TalksKeepLaws};

/// A step gives what the core of all connections asks of it.
pub fn talks_give()
    ensures { TalksGive }
{}

/// What the core of all connections knows of one holds of each.
pub fn talks_keep_laws()
    ensures { TalksKeepLaws }
{}
