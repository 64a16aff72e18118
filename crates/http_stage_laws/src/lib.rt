//! The stage that a connection holds, in the words of the model: what each part of a step makes of it. The functions here
//! are laws, and do nothing.
#![tactic(auto)]

mod laws;

pub use laws::{
    answers_are_staged, asks_are_due, continues_are_staged, ends_are_noticed, ends_are_taken,
    events_are_staged, events_keep, events_lose, events_stay_lost, hops_are_staged,
    looks_are_heard, looks_are_staged, losses_are_staged, next_are_staged, offers_are_known,
    others_are_staged, parts_are_staged, rests_are_staged, serves_are_staged, starts_are_staged,
    starts_rest, whys_are_due,
};
