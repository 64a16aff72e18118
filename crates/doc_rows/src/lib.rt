//! Rows of documents: what a client is answered by the top call over memory, and a table of ranges. There is no code beside
//! the tests.
#![tactic(auto)]

#[cfg(test)]
mod tests;
