//! Pumps that run in threads which are used again, and whose ends come back through a ring of their own: so a
//! loop learns of each end without waiting for a thread.
#![tactic(auto)]

mod back;
mod hand;
mod inward;
mod outward;
mod worker;

pub use back::OutBack;
pub use hand::{Hand, Mark};
pub use inward::{InHands, InJob, InPump, InRing};
pub use outward::{OutHands, OutJob, OutPump, OutRing};
pub use worker::{Busy, Job, Station, Worker, start_thread};
