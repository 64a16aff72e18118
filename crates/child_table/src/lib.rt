// The children of a host that are not settled: an exact map from their numbers to their owners and marks.
#![tactic(auto)]

mod mark;
mod places;
mod row;
mod table;

pub use mark::{Mark, TableFull};
pub use table::Table;
