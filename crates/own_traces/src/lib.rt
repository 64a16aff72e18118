// The items of one connection in a trace of many: whose an item is, and what a step of one leaves of the others.
#![tactic(auto)]

mod laws;

pub use laws::{
    acts_are_of_one, events_are_of_one, new_connections_begin, nothing_is_between,
    numbers_are_known, own_events_fit, stops_are_of_all, ticks_are_of_all, words_are_kept,
};
