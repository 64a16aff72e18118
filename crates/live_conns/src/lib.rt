//! The connections that hold a slot, by rising number, in a slab.
#![tactic(auto)]

mod live;
mod place;

pub use live::Live;
pub use place::Place;
