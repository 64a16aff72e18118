//! Worked rows of one connection that speaks SCGI, over an outside that records. There is no code beside the tests.
#![tactic(auto)]

#[cfg(test)]
mod tests;
