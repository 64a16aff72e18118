//! Pumps between the pipes of a child and rings in memory, so that a loop never waits for a pipe. A pump
//! runs in a thread of its own; nothing is lost between its pipe and the loop's end of its ring.
#![tactic(auto)]

mod buffer;
mod ends;
mod feed_ring;
mod feed_state;
mod feeder;
mod from_pipe;
mod hand;
mod laws;
mod pipe;
mod pop;
mod tap;
mod to_pipe;

pub use ends::{PumpDone, PumpEnd, RingEnd};
pub use feed_ring::{FeedLook, FeedRing, feed_rings};
pub use feeder::Feeder;
pub use from_pipe::{PumpRing, pump_out, rings};
pub use laws::{feeds_arrive_in_order, pipes_keep_their_bytes};
pub use pipe::{PipeIn, PipeOut, PipeRead, PipeWrite};
pub use tap::Tap;
pub use to_pipe::pump_in;
