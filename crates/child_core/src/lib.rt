// One child's run: it hears what names its child, and gives the acts that are due.
#![tactic(auto)]

mod acts;
mod ending;
mod laws;
mod memory_laws;
mod output_laws;
mod run;
mod tell_laws;
mod unfed;

pub use ending::{Ending, Outcome};
pub use laws::{
    acts_are_deserved, acts_are_good, acts_are_walked, acts_may_come, acts_rest, closes_are_items,
    ends_are_good, ends_are_items, events_may_come, fits_is_exact, hears_are_items,
    items_are_known, offers_are_items, starts_are_known, walks_are_known,
};
pub use memory_laws::{
    acts_are_due, due_acts_are_in_form, due_acts_may_come, ended_acts_agree,
    ended_acts_are_in_form, ended_acts_may_come, ended_steps_are_good, ended_steps_are_known,
    knows_early, knows_shut, pieces_are_fronts,
};
pub use output_laws::{
    acts_hold, drains_hold, ends_hold, holds_behind, items_hold, output_is_whole, starts_hold,
};
pub use run::Run;
pub use tell_laws::{
    acts_offer_nothing, fits_behind, fits_may_come, knows_behind, others_are_known,
    others_change_nothing, others_may_come, settled_is_exact, wants_more_is_exact,
};
