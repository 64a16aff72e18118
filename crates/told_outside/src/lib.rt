//! An outside that tells its trace, over one that need not. The trace is kept in the proofs alone; what takes memory is a
//! row for each open connection and for each unsettled child.
#![tactic(auto)]

mod child_rows;
mod client_rows;
mod outside;
mod rows;
mod tallies;

pub use outside::ToldOutside;
