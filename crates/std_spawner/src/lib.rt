//! Real children: programs of the system, whose pipes are pumped by threads that are used again.
#![tactic(auto)]

mod cell;
mod command;
mod input;
mod job;
mod kid;
mod news;
mod pace;
mod pipes;
mod program;
mod spawner;
mod start;
mod threads;

pub use job::PumpJob;
pub use kid::StdKid;
pub use pipes::{BelledPipe, ChildInput, ChildOutput, OutputSide, Source, StandardInput};
pub use spawner::StdSpawner;
pub use threads::{StartThread, ThreadStarter};
