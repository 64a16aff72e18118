//! The book of children: how many run, over all loops, and the right of each to run.
#![tactic(auto)]

mod book;
mod full;
mod laws;
mod ticket;

pub use book::Book;
pub use full::{FullCount, FullSeen};
pub use laws::tickets_differ;
pub use std::sync::ledger::{Blank, Ledger, Share};
pub use ticket::{Admit, Ticket};
