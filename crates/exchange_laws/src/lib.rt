//! What the stage of an exchange says of the model's exchange: laws by which the two keep step, item by item. The functions
//! here do nothing.
#![tactic(auto)]

mod laws;

pub use laws::{
    acts_are_right, acts_move_stages, bodies_are_offered, exchanges_begin, items_keep_stages,
    items_pass, replies_move_stages, requests_move_stages, rests_keep_rules, stages_are_walked,
    stages_say_demands, wholes_are_answered,
};
