//! What wakes a loop that sleeps, from any thread.
#![tactic(auto)]

mod bell;

pub use bell::Bell;
