// How replies are spelled: the text of a head, of a whole reply and of a chunk, and the host's own replies.
#![tactic(auto)]

mod chunk;
mod date;
mod fault;
mod laws;
mod phrases;
mod shape;
mod text;
mod whole_laws;

pub use chunk::{END_MARK, chunk_text};
pub use date::{DATES_END, DateText, date_text};
pub use fault::{fault_reply, fault_text};
pub use laws::{
    dates_are_plain, dates_read_back, dates_stand, ends_read_back, faults_are_plain,
    heads_read_back, heads_stand_alone, old_versions_have_no_coding, phrases_are_plain,
    wholes_read_back,
};
pub use phrases::phrase;
pub use shape::Shape;
pub use text::{head_text, whole_text};
pub use whole_laws::{
    chunks_read_back, chunks_spell, cuts_agree, cuts_are_not_whole, fronts_are_no_reply,
    fronts_are_not_whole, raws_agree, spellings_agree, wholes_spell,
};
