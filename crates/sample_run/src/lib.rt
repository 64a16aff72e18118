//! A run over the events of a sample, in memory, by the loop that serves real connections.
#![tactic(auto)]

mod play;
mod played;
mod report;
mod run;

pub use report::sample_report;
pub use run::run_sample;
