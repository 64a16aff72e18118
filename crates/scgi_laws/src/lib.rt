//! What a connection that speaks SCGI has to do with the rules on its steps. Laws, no code.
#![tactic(auto)]

mod laws;

pub use laws::{
    bytes_are_read, events_are_told, requests_break_off, runs_are_answered, steps_are_ordered,
    steps_end, unkept_is_told,
};
