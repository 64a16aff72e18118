//! Our end of a program's pipe, and where a thread waits for it: until it is ready, or until another thread ends the wait.
//! Nothing is claimed of what the system tells.
#![tactic(auto)]

mod end;
mod release;
mod wait;

pub use end::PipeSide;
pub use release::Release;
pub use wait::{PipeWait, PipeWaker};
