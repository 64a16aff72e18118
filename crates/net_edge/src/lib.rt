//! Real loops: what the outsides of several loops are made of, over sockets, programs of the system and standard input.
#![tactic(auto)]

mod line;
mod listening;
mod maker;
mod stdin;

pub use line::{OrderLine, Said};
pub use listening::{Listening, NotHad, Refused};
pub use maker::NetMaker;
pub use stdin::{StdinOrders, Told};
