//! The text of a trace: one line for each item, which is that item's only spelling.
#![tactic(auto)]

mod fault;
mod fields;
mod known;
mod read;
mod spelling;
mod text;

pub use fault::TextFault;
pub use read::item_in;
pub use spelling::{push_done, push_heard, push_item, push_line};
pub use text::{MOST_ITEMS, read_trace, trace_text};
