//! One connection: it hears events and gives the acts that are due, exchange after exchange.
#![tactic(auto)]

mod close;
mod conn;
mod give;
mod greet;
mod laws;
mod serve;

pub use conn::{Onward, step};
pub use http_state::{Held, HttpConn};
pub use laws::{
    steps_are_in_form, steps_are_in_time, steps_are_known, steps_keep_fronts, steps_stop,
};
