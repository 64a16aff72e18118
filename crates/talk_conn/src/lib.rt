//! A connection that speaks WebSocket: it hears events, and gives the acts that are due for its talk and its child.
#![tactic(auto)]

mod acts;
mod conn;

pub use conn::TalkConn;
