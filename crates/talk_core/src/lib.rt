//! The talk of a WebSocket with its program: lines become messages, and texts lines.
#![tactic(auto)]

mod acts;
mod hearing;
mod laws;
mod talk;

pub use laws::{
    acts_are_known, ends_are_talked, ends_once, events_are_known, inputs_are_alike,
    losses_are_known, losses_at_events_are_known, over_is_exact, parts_are_talked, parts_stay,
    run_acts_are_known, talk_acts_are_known, talks_begin, texts_are_heard, texts_are_wanted,
    texts_stay_wanted,
};
pub use talk::Talk;
