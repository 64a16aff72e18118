//! The lines of a text that grows, up to and including its first empty line, as a request head
//! (RFC 9112 2.1) and a script header (RFC 3875 6.2) end.
#![tactic(auto)]

mod laws;
mod lines;
mod search;

pub use laws::{fronts_are_lines, fronts_stand_alone, fronts_stay};
pub use lines::{first_line, line_count, strip_cr};
pub use search::Search;
