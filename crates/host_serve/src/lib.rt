//! The loops over the connections of this server, with what is promised of every trace that a world tells of them.
#![tactic(auto)]

mod all;
mod site;

pub use all::serve_all;
pub use conn_core::Conn;
pub use site::serve_site;
