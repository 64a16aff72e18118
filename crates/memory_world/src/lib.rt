//! The outside in memory: lists of what comes and of what fails, in place of sockets, pipes and files.
#![tactic(auto)]

mod child_tallies;
mod client_tallies;
mod counted;
mod events;
mod find;
mod fit;
mod kinds;
mod open;
mod outside;
mod sink;
mod store;
mod sums;
mod tallies;
mod telling;
mod world;

pub use events::Listed;
pub use fit::fits;
pub use outside::MemoryOutside;
pub use sink::MemorySink;
pub use store::{MemoryStore, StoredFile};
pub use world::MemoryWorld;
