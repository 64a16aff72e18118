//! Worked rows and seeded lists of one connection, of a WebSocket's talk and of the run of a child, over outsides that record.
//! There is no code beside the tests.
#![tactic(auto)]

#[cfg(test)]
mod tests;
