//! The flags of one connection: what it was told and what was done with it, beside its exchanges.
#![tactic(auto)]

mod flags;
mod laws;

pub use flags::Flags;
pub use laws::{
    acts_are_known, events_may_come, fits_are_exact, flags_are_exact, idle_items_change_nothing,
    items_are_known, starts_are_known,
};
