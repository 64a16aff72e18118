//! How the body of a request is delimited (RFC 9112 6.3), and the body that comes in chunks (RFC 9112
//! 7.1), in whatever pieces its bytes come.
#![tactic(auto)]

mod chunks;
mod framing;
mod laws;
mod lengths;
mod place;
mod step;
mod words;

pub use chunks::Chunks;
pub use framing::framing_of;
pub use laws::{
    bodies_are_read, bodies_are_unique, bodiless_have_neither, chunks_are_coded, framing_causes,
    lengths_are_named, readings_stay, refused_are_none, two_framings_are_refused, unended_go_on,
};
pub use place::Place;
pub use step::ChunkStep;
pub use words::{count_field_words, has_other_word};
