// The law of a step. The function does nothing.
ghost use Rattle.talk_laws.specs.Stands.{StepsAreGood};

/// A step of a connection that speaks WebSocket, by an event that fits, keeps all rules of the model on one connection, and
/// leaves the connection as the next step needs it, whether memory is found or not.
pub fn conn_steps_are_good()
    ensures { StepsAreGood }
{}
