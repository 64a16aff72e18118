//! What a document is answered with: the output that stands in the place of a script's (RFC 3875 6), by the
//! method, the range that is asked for (RFC 9110 14) and the name of the file.
#![tactic(auto)]

mod answer;
mod folder;
mod laws;
mod media_type;
mod numbers;
mod output;
mod path;
mod pieces;
mod range;
mod read;
mod slices;
mod values;

pub use answer::Answer;
pub use folder::folder_of;
pub use laws::{folders_are_numbered, spans_join, suffixes_are_ends};
pub use output::document_output;
pub use path::document_path;
pub use pieces::document_pieces;
pub use range::{RangeSpec, Span, range_spec, span_of};
pub use read::DocRead;
