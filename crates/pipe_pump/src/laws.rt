// Laws of pipes and rings. Each function is one law, and does nothing.
ghost use Rattle.pipe_pump.specs.PipeLaws.{PipesKeepTheirBytes, FeedsArriveInOrder};

/// What a tap handed up and what still stands in its ring, once its pump ended, are together the bytes that
/// the pipe gave, in order.
pub fn pipes_keep_their_bytes()
    ensures { PipesKeepTheirBytes }
{}

/// What an input pipe took is a front of what was fed, in order, and all of it where the pump came to the end.
pub fn feeds_arrive_in_order()
    ensures { FeedsArriveInOrder }
{}
