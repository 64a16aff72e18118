// The rules on one child, said of any list of items: what decides its run, what it is fed, what it is owed at a step's
// end, and which acts a step gives to it.
#![tactic(auto)]

mod laws;

pub use laws::{
    bodies_are_fronts, bodies_are_whole, deciders_are_first, deciders_are_found, deciders_stay,
    exits_settle, outcomes_stay,
};
