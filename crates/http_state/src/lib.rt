//! The state of one connection: what an event makes of it, what may be done and is due, and what is made ready of its
//! answers and hops. It gives no act.
#![tactic(auto)]

mod answer;
mod begin;
mod conn;
mod due;
mod hear;
mod settle;

pub use begin::Welcome;
pub use conn::{Held, HttpConn};
