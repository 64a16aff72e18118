//! Lines of an access log: what one reply was, as one line of text, whatever the client sent.
#![tactic(auto)]

mod entry;
mod line;
mod reply;
mod request;
mod time;

pub use entry::{Entry, Remark};
pub use line::{lines_are_single, push_line};
pub use reply::{own_cause, status_of};
pub use request::{is_head_only, request_line};
