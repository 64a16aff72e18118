//! Records of FastCGI 1.0, read in whatever pieces their bytes come, and written; and the pairs that some of them carry.
#![tactic(auto)]

pub mod kinds;
mod laws;
mod pairs;
mod reader;
mod record;

pub use laws::{
    bad_stays, last_value_stands, pairs_are_read, read_were_sent, records_join, sent_are_read,
    texts_are_read,
};
pub use pairs::{PairFault, pairs_of};
pub use reader::Records;
pub use record::{Header, RecStep, Record, record_header, record_text};

#[cfg(test)]
mod tests;
