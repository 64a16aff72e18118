//! The header that a CGI script's output begins with (RFC 3875 6).
#![tactic(auto)]

mod field_line;
mod header;
mod laws;
mod lines;
mod read;
mod status;

pub use header::{CgiHead, Given, HdrStep};
pub use laws::{
    faults_are_first, headers_are_read, headers_stay, more_is_open, wholes_are_headers,
};
pub use read::{missing_cause, read_header};
