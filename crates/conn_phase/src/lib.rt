//! One connection of a site, by what it speaks: HTTP, and WebSocket once a handshake was accepted.
#![tactic(auto)]

mod phase;

pub use phase::Phase;
