//! Small traces that the promise on replies refuses, each with why. They stand in `proofs/`; there is no code.
#![tactic(auto)]
