//! A world whose outsides answer documents from a store, over any world.
#![tactic(auto)]

mod kits;
mod world;

pub use world::{DocWorld, Given};
