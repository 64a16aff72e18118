//! One loop over the connections of this server, with a record of what it heard and did.
#![tactic(auto)]

mod cover;
mod serve;

pub use serve::{RecordEnd, serve_recorded};
