//! A step of a connection keeps step with the model: what is known of it goes on from part to part, and at the end the rules
//! on a step are kept. The functions here are laws, and do nothing.
#![tactic(auto)]

mod laws;

pub use laws::{
    answers_leave, handles_leave, lets_on_leave, reads_leave, rounds_leave, steps_come_to_rest,
    steps_keep_step,
};
