//! Lines as messages and messages as lines, between a program and a WebSocket.
#![tactic(auto)]

mod input;
mod laws;
mod message;
mod reading;
mod step;

pub use input::input_line;
pub use laws::{lines_join, long_lines_are_runs, outputs_are_lines, texts_are_themselves};
pub use reading::Lines;
pub use step::LineStep;
