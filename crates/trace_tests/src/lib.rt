//! The tests and filters of a trace's items as functions that run: each answers what the definition of its name says.
#![tactic(auto)]

pub mod kinds;
pub mod parts;
pub mod words;
