//! The opening handshake of a WebSocket at its server (RFC 6455 4.2).
#![tactic(auto)]

mod accept;
mod checks;
mod key;
mod laws;

pub use accept::{Accept, accept_text};
pub use checks::check;
pub use laws::{handshakes_are_judged_in_order, keys_are_nonces, sample_is_answered};
