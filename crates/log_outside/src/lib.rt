//! An outside and a world that pass everything on, and tell a log of each reply that is written. A line is handed to a
//! queue that never waits: one that finds no room is dropped, and the next one says how many were.
#![tactic(auto)]

mod client;
mod exchange;
mod follower;
mod heard;
mod moves;
mod outside;
mod queue;
mod world;

pub use client::{Client, Stamp};
pub use exchange::Exchange;
pub use heard::Heard;
pub use outside::LogOutside;
pub use queue::LineQueue;
pub use world::LogWorld;
