//! The top call over a world that answers documents.
#![tactic(auto)]

mod laws;
mod top;

pub use laws::{documents_name_their_folders, programs_name_no_folder};
pub use top::run_docs;
