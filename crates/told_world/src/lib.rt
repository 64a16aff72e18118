//! A world that tells, over any world.
#![tactic(auto)]

mod moves;
mod world;

pub use world::ToldWorld;
