//! Real sockets for the set of a loop's clients: a listener, readiness by `mio`, and the clock. Nothing is claimed of
//! what a socket carries.
#![tactic(auto)]

mod listener;
mod network;
mod poll;
mod ports;
mod share;
mod socket;

pub use listener::Listener;
pub use network::{NetFault, Network};
pub use ports::NetPorts;
pub use socket::TcpSocket;
