//! Histories that exist in the proofs alone: a loop's trace, the traces that were given back, and what a world was
//! entered for. Nothing of them is kept at run time.
#![tactic(auto)]

mod entry_log;
mod given_log;
mod trace_log;

pub use entry_log::EntryLog;
pub use given_log::GivenLog;
pub use trace_log::TraceLog;
