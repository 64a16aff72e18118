//! The rules on the acts of a step that the fronts for web servers share. Definitions and their laws, no code.
#![tactic(auto)]

mod laws;

pub use laws::{children_are_told, each_keeps, orders_rise, rules_join};
