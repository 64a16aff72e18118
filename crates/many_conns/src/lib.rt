//! Many connections at once: what the core of all asks of one, and what they stand for together.
#![tactic(auto)]

mod connection;

pub use connection::{Connection, NewConnection};
