//! The reply of an exchange by the script of one of its legs, in the words of the model of a connection.
#![tactic(auto)]

mod fault;
mod laws;
mod reply;

pub use fault::fault_text;
pub use laws::{
    ends_conclude, faults_are_spelled, first_bytes_stay, handings_stand, lacks_are_allowed,
    legs_end, legs_go_on, standings_are_cuts, texts_come_no_sooner, texts_extend, ways_are_fixed,
};
pub use reply::LegReply;
