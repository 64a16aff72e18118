//! Documents from the files of the system.
#![tactic(auto)]

mod below;
mod store;

pub use store::FileDocs;
