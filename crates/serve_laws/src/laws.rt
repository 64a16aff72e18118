// The end of loops. The function is a law, and does nothing.
ghost use Rattle.serve_laws.specs.EndLaws.{LoopsComeToTheirEnd};

/// Where each loop heard, within its turns, Stop, an answer to each Start and the exit of each child that was started, they
/// ended with `Done`: no turn was wanting, and nothing was left over.
pub fn loops_come_to_their_end()
    ensures { LoopsComeToTheirEnd }
{}
