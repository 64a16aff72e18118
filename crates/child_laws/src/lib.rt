//! What a connection knows of the children of its exchange, from item to item: the legs, of which all but the last are
//! settled, and the run of the last one; and that a step keeps all rules on its children. The functions here are laws,
//! and do nothing.
#![tactic(auto)]

mod laws;
mod move_laws;

pub use laws::{
    acts_bring_nothing, drains_are_known, ends_are_exact, events_are_known, events_hold,
    exchanges_follow, legs_are_known, losses_are_known, new_runs_are_offered, nothing_is_started,
    numbers_rise, other_acts_are_known, run_acts_are_known, runs_tell, serves_are_known,
    settings_are_of_legs, settings_are_still, shuts_are_known, some_calls_are_idle,
    starts_are_known, unsettled_is_exact,
};
pub use move_laws::{
    acts_move, drains_move, ends_move, events_begin, losses_move, moves_end_well, moves_tell,
    no_child_moves, serves_move, shuts_move, starts_move,
};
