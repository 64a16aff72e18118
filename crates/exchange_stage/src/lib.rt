//! Where an exchange of a connection stands.
#![tactic(auto)]

mod stage;

pub use stage::{Leg, Stage};
