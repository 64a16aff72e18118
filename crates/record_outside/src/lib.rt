//! An outside that passes everything on, and keeps a record of it: the text of the longest front of whole steps of its trace
//! within two limits. All room for it is found when the record is made.
#![tactic(auto)]

mod outside;
mod record;

pub use outside::RecordOutside;
pub use record::{MOST_BYTES, Record};

#[cfg(test)]
mod tests;
