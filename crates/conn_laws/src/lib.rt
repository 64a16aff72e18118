//! What each item of a connection's list makes of the exchange that goes on, hop by hop: the words in which a state
//! keeps step with the model; and what a connection knows of its exchange beside its script, and how that goes on. The
//! functions here are laws, and do nothing.
#![tactic(auto)]

mod front_laws;
mod laws;

pub use front_laws::{
    acts_keep_fronts, continues_are_known, events_are_known, moves_are_cuts, next_are_known,
    starts_are_known,
};
pub use laws::{
    acts_break_nothing, acts_come_in_form, acts_come_in_time, ends_are_tested, flags_say_demands,
    form_is_by_flags, hops_are_walked, hops_stand_as_they_are, idle_end_is_the_last,
    idle_is_counted_down, last_child_decides, outcomes_tell_deciders, plain_acts_are_quiet,
    quiet_items_change_nothing, redirects_lead_on, settled_stay, starts_begin,
    unfinished_are_not_whole, walks_are_kept, whole_output_stays, whole_stays,
};
