//! What a script would be started with for a request, without starting it.
#![tactic(auto)]

mod explain;
mod first;
mod input;
mod report;

pub use explain::{Explained, explain_one};
