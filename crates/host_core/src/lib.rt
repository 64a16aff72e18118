//! The core of a host: it hears events and gives acts, for all connections.
#![tactic(auto)]

mod core_state;
mod keep;
mod laws;
mod named;

pub use core_state::Core;
pub use laws::stands_are_good;
pub use named::Named;
