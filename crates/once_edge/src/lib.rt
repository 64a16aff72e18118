//! The outside of one connection over standard input and output, with its children. It sleeps until the client or a
//! child has something to tell. Only a write to the client is waited for, until all of it was taken.
#![tactic(auto)]

mod asked;
mod outside;
mod socket;
mod world;

pub use asked::Asked;
pub use outside::OnceOutside;
pub use socket::StdioSocket;
pub use world::{OnceWorld, RealOutside};
