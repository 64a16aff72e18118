// Laws of a step. Each function is one law, and does nothing.
ghost use Rattle.scgi_conn.specs.Follows.{FlagsFollow};
ghost use Rattle.scgi_conn.specs.Keeps.{StepsKeep};

/// A step keeps the connection's site and number, turns nobody away, and its acts are of the connection and its child alone.
pub fn steps_keep()
    ensures { StepsKeep }
{}

/// Its flags know its items after each step.
pub fn flags_follow()
    ensures { FlagsFollow }
{}
