//! What is counted beside a trace, so that whether an event may come next is told without going over the trace: a tally
//! for each connection and for each child, how many connections were accepted, and whether Stop was heard.
#![tactic(auto)]

mod child_tally;
mod client_tally;
mod fits;
mod kinds;

pub use child_tally::ChildTally;
pub use client_tally::ClientTally;
pub use fits::{Rows, fits_rows, is_piece};
pub use kinds::{child_asked, child_heard, client_asked, client_heard, text_len};
