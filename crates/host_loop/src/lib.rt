//! The loops of a host: what an outside hands up goes to a core, event by event. Each loop has a core and an outside of its
//! own.
#![tactic(auto)]

mod lanes;
mod serve;
mod turns;
mod world;

pub use lanes::{Lane, empty, lanes_of};
pub use serve::{LoopEnd, serve_one};
pub use turns::{TakesTurns, take_all_turns};
pub use world::WorldEnd;
