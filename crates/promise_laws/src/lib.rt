//! The promise of `run` said whole, as laws of every trace that it gives back. `replies_are_right` is the one on replies,
//! and `answers_are_complete` says that none of them is left out. The functions are laws, and do nothing.
#![tactic(auto)]

mod laws;

pub use laws::{
    answers_are_complete, dates_are_of_the_first_byte, outputs_are_whole, replies_are_right,
    talks_have_programs,
};
