//! What is promised of each trace that is told, and what follows of it for connections and children. The functions are
//! laws, and do nothing.
#![tactic(auto)]

mod laws;

pub use laws::{
    acts_come_in_form, children_are_of_one, exits_settle_all, good_traces_are_between,
    good_traces_break_nothing, one_child_is_unsettled, started_are_reaped_once,
    starts_come_in_turn, unsent_is_bounded,
};
