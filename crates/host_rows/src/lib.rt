//! Runs of the top call over memory, act for act: worked rows, and what comes of hostile clients, failing scripts and
//! Stop at each place. There is no code beside the tests.
#![tactic(auto)]

#[cfg(test)]
mod tests;
