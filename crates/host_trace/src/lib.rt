// What the host hears and does, item by item, and the traits of the outside.
#![tactic(auto)]

mod items;
mod outside;
mod world;

pub use items::{Act, Event, Events, Item, Items, Why};
pub use outside::{Acted, Outside};
pub use world::{EnterFault, Entry, Mode, World};
