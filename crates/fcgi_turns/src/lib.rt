//! The turns of a connection that speaks FastCGI 1.0: what its records and the runs of its children make of it, and what
//! is due to be written. Definitions and their laws, no code.
#![tactic(auto)]

mod laws;

pub use laws::{
    answers_are_joined, pieces_join, records_are_due, replies_in_order, requests_end_once,
    seen_are_items, turns_go_on,
};
