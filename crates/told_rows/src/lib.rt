//! Rows of the outside that tells, over an outside in memory that hands up whatever is listed. There is no code beside the
//! tests.
#![tactic(auto)]

#[cfg(test)]
mod tests;
