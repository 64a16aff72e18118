//! Request heads (RFC 9112 2.1, 3 and 5): what the bytes of a connection begin with.
#![tactic(auto)]

mod laws;
mod parse;
mod read;
mod request_line;
mod step;

pub use laws::{
    answers_stay, bad_heads_are_refused, fronts_say_the_grammar, heads_are_read, heads_are_unique,
    long_heads_are_refused, long_targets_are_refused, many_fields_are_refused, more_is_open,
    says_the_grammar, wholes_are_heads,
};
pub use read::{read_head, read_head_from};
pub use step::HeadStep;
