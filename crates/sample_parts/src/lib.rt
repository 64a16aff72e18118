//! The parts of a sample: the events that a seed says, and the counts of a trace as a text.
#![tactic(auto)]

mod counts;
mod events;
mod fronts;
mod plan;
mod report;

pub use events::sample;
pub use report::sample_text;
