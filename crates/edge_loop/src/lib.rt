//! The outside of one loop: its clients, its children and the orders that end it. It sleeps in one place until one of
//! them has something to tell. And the world that gives out the outsides of several loops, whose children are counted
//! in one book.
#![tactic(auto)]

mod asked;
mod ending;
mod leaving;
mod orders;
mod outside;
mod stock;
mod world;

pub use asked::Asked;
pub use ending::Ending;
pub use leaving::{Leaving, Sending, send_all};
pub use orders::{Order, Orders};
pub use outside::NetOutside;
pub use stock::{Maker, Parts};
pub use world::NetWorld;
