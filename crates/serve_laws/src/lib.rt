//! When the loops of a world come to their end. The function is a law, and does nothing.
#![tactic(auto)]

mod laws;

pub use laws::loops_come_to_their_end;
