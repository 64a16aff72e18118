//! The connections of this server, as the core of all connections holds them.
#![tactic(auto)]

mod conn;
mod one_of_many;

pub use conn::Conn;
