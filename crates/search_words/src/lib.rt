//! The command-line arguments of a script: the search words of a query (RFC 3875 4.4).
#![tactic(auto)]

mod laws;
mod word;
mod words;

pub use laws::words_are_a_search_string;
pub use words::{MOST_WORDS, Words, words_of};
