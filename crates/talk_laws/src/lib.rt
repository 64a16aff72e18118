//! What is known of an exchange whose connection speaks WebSocket, in the model's words: laws by which its talk and the
//! model keep step, from the accepted handshake on.
#![tactic(auto)]

mod laws;
mod step_laws;

pub use laws::{
    acts_come_in_form, acts_move_talks, children_are_dealt_with, handshakes_are_welcome,
    http_is_kept, items_keep_talks, losses_move_talks, lost_steps_are_good,
    redirects_ask_no_websocket, rests_keep_rules, talk_steps_are_good, talks_end_well,
    talks_say_demands,
};
pub use step_laws::conn_steps_are_good;
