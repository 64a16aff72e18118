//! What bytes are as a reply: the chunks of a body, a whole reply, or one that was cut off.
#![tactic(auto)]

mod bodies;
mod chunks;
mod spelling;

pub use bodies::{body_part, is_whole_body};
pub use chunks::{Found, chunks_of};
pub use spelling::{Way, cut_part, is_spelling};
