// Laws of the step in which a handshake is accepted. Each function is one law, and does nothing.
ghost use Rattle.good_step_laws.specs.Opens.Laws.{ClosedPass, MissesAreGood, OpeningsAreGood, UntalkedStays};

/// Nothing of a WebSocket stands on the list of a connection that speaks HTTP.
pub fn untalked_stays()
    ensures { UntalkedStays }
{}

/// The step by which a connection at rest comes to speak WebSocket keeps all rules of the model on one connection, and the
/// connection that speaks WebSocket stands as its next step needs it.
pub fn openings_are_good()
    ensures { OpeningsAreGood }
{}

/// Where memory ran out for the Upgrade or the Start the step keeps them too, and the connection is over.
pub fn misses_are_good()
    ensures { MissesAreGood }
{}

/// Such a connection stays so.
pub fn closed_pass()
    ensures { ClosedPass }
{}
