//! The request of SCGI: a head of variables as a netstring, and the body. Whole, or heard piece by piece.
#![tactic(auto)]

mod head;
mod laws;
mod length;
mod pairs;
mod reader;
mod reading;

pub use laws::{heads_stay, readings_stay, requests_are_within};
pub use reader::{ScgiRequest, ScgiStep, read_scgi};
pub use reading::{Heard, Reading, Request};

#[cfg(test)]
mod tests;
