//! One connection of a web server that speaks SCGI: it hears events, and gives the acts that are due for it and its child.
#![tactic(auto)]

mod acts;
mod begin;
mod conn;
mod due;
mod hear;
mod laws;
mod stage;

pub use conn::ScgiConn;
pub use laws::{flags_follow, steps_keep};
pub use stage::{End, Stage};
