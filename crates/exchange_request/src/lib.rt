//! The request of one exchange of a connection, as far as its bytes have come.
#![tactic(auto)]

mod found;
mod incoming;

pub use found::{Found, Manner};
pub use incoming::Incoming;
