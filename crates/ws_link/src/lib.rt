//! A WebSocket for a server whose bytes come and go through memory: `tungstenite` over two buffers.
#![tactic(auto)]

mod answer;
mod link;
mod pipe;

pub use answer::{Linked, Said};
pub use link::Link;
