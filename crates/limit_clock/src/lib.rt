// Limits on time, counted in ticks of 100 ms.
#![tactic(auto)]

mod deadline;
mod laws;

pub use deadline::Deadline;
pub use laws::{deadlines_are_met_once, deadlines_stay_over};
