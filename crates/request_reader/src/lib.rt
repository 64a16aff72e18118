//! Requests (RFC 9112 2.1) from the bytes of a connection, however they were cut.
#![tactic(auto)]

mod asked;
mod fault;
mod laws;
mod look;
mod opened;
mod parts;
mod reader;
mod redirect;
mod start;
mod step;

pub use asked::expects_continue;
pub use laws::{
    bare_is_head, begun_is_more, heads_are_answered, persists_unless_closed, readings_become,
    rests_stay, wholes_are_requests,
};
pub use parts::persists;
pub use reader::ReqReader;
pub use redirect::redirected;
pub use step::ReqStep;
