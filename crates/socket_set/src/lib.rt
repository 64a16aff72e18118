//! The clients of a loop over any sockets: what they sent, what left for them, and when they are gone. A loop asks
//! the set for one event after the other, and is never kept waiting by a client.
#![tactic(auto)]

mod client;
mod outgoing;
mod ports;
mod set;
mod socket;

pub use client::{Client, Trouble};
pub use outgoing::Outgoing;
pub use ports::{Arrival, Ports, Ready};
pub use set::{Polled, SocketSet};
pub use socket::{Received, Sent, Socket};
