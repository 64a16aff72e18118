// What runs the host: the top call, and the loop over the events of one outside.
#![tactic(auto)]

mod explaining;
mod report;
mod sites;
mod top;
mod words;

pub use top::{Status, run};
