// Laws of what is known of the children within a step. Each function is one law, and does nothing.
ghost use Rattle.child_laws.specs.Moves.{EventsBegin, ActsMove, ServesMove, StartsMove, ShutsMove, LossesMove, DrainsMove, EndsMove, NoChildMoves, MovesTell, MovesEndWell};

/// An event that fits begins a step.
pub fn events_begin()
    ensures { EventsBegin }
{}

/// An act on the connection alone is given within a step.
pub fn acts_move()
    ensures { ActsMove }
{}

/// What is due for the last child is given in one go.
pub fn serves_move()
    ensures { ServesMove }
{}

/// The next child is started within a step.
pub fn starts_move()
    ensures { StartsMove }
{}

/// The Shut for want of memory is given.
pub fn shuts_move()
    ensures { ShutsMove }
{}

/// Memory is wanting within a step.
pub fn losses_move()
    ensures { LossesMove }
{}

/// The output of the last child is drained.
pub fn drains_move()
    ensures { DrainsMove }
{}

/// The exchange has ended, and the next begins.
pub fn ends_move()
    ensures { EndsMove }
{}

/// Where there is no child its turn doesn't matter.
pub fn no_child_moves()
    ensures { NoChildMoves }
{}

/// The exchange is the one that goes on, and its children are known.
pub fn moves_tell()
    ensures { MovesTell }
{}

/// At the end of a step all rules on its children hold.
pub fn moves_end_well()
    ensures { MovesEndWell }
{}
