//! The rules on one child as tests that run: each is a function that answers what the rule says of a list of items. They
//! scan the list; nothing is kept from one call to the next.
#![tactic(auto)]

mod acts;
mod bodies;
mod decided;
mod facts;
mod good;
mod lines;
mod offered;
mod rules;

pub use good::is_child_good;
pub use offered::{NoBody, Offered, Run};
