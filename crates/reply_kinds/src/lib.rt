//! What the output of a script derives (RFC 3875 5 and 6): a reply, a local redirect, raw bytes, or a cause.
#![tactic(auto)]

mod derived;
mod kind;
mod laws;
mod output;
mod reply;

pub use derived::Derived;
pub use kind::{ReplyKind, kind_of};
pub use laws::{begun_replies_go_on, others_stay, replies_are_fit};
pub use output::derive;
pub use reply::reply_of;
