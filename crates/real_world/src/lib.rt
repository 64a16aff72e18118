//! The real world: one connection over standard input and output, or loops over sockets.
#![tactic(auto)]

mod leaving;
mod outside;
mod sides;
mod world;

pub use outside::{Either, LoopOutside, OneOutside, RealOutside};
pub use world::RealWorld;
