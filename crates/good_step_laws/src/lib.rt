//! A step of one connection is good by the model, whatever event comes: where the connection stands behind the event, in
//! which order its acts come and when its client is asked, why it is shut and in which steps memory is found. So a connection,
//! whether it speaks HTTP or WebSocket, is one of many: what the core of all connections asks of one holds of it. The
//! functions here are laws, and do nothing.
#![tactic(auto)]

mod both_laws;
mod event_laws;
mod http_laws;
mod open_laws;
mod order_laws;
mod shut_laws;
mod step_laws;
mod websocket_laws;

pub use both_laws::{phases_begin, phases_give, phases_keep_laws};
pub use event_laws::events_stand;
pub use http_laws::{conns_begin, conns_keep_laws, steps_give};
pub use open_laws::{closed_pass, misses_are_good, openings_are_good, untalked_stays};
pub use order_laws::{steps_are_ordered, steps_ask};
pub use shut_laws::{steps_end_at_stop, steps_shut_duly, steps_take_no_memory};
pub use step_laws::steps_are_good;
pub use websocket_laws::{talks_give, talks_keep_laws};
