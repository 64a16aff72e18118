//! The model: what a good trace is, at which the host is ready, and what holds of it. `specs/Good.antt` is the place to
//! begin: it names the rules, each of which stands in a file of its own. The functions here are laws, and do nothing.
#![tactic(auto)]

mod laws;

pub use laws::{
    answers_stay, completed_replies_are_derived, ended_stay, exchanges_are_a_cut,
    items_are_of_the_current, own_acts_keep_owners, parts_are_left, parts_go_on,
    replies_of_traces_are_derived, rising_acts_keep_owners, spellings_stay, tests_tell_apart,
    things_wait_for_room, verdicts_are_right, what_goes_on_may_stand,
};
