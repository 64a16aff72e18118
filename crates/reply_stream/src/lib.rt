//! The reply of a run, as its output comes: when it begins, and what is written of it.
#![tactic(auto)]

mod asked;
mod laws;
mod open;
mod pieces;
mod stage;
mod stream;

pub use asked::Asked;
pub use laws::{beginnings_stay, standings_hold};
pub use stream::{Last, Stream};
