//! How the items of a connection fall into exchanges, as a function that runs: one ends with the item by which its whole
//! answer stands and all its children are settled, and what comes then belongs to the next.
#![tactic(auto)]

mod cut;

pub use cut::{Cuts, View, current, first};
