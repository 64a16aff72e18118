//! The answer to a request that came through a web server. Definitions and their laws, no code.
#![tactic(auto)]

mod laws;

pub use laws::{answers_are_filled, outputs_are_answers};
