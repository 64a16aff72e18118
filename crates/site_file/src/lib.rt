//! The site file: what an operator writes to say what is served, read and written.
#![tactic(auto)]

mod doubles;
mod fault;
mod keys;
mod laws;
mod levels;
mod number;
mod one;
mod ranges;
mod read;
mod said;
mod site;
mod tables;
mod unknown;
mod write;

pub use fault::SiteFault;
pub use laws::sites_come_back;
pub use one::one_script;
pub use ranges::{is_program, is_script_path};
pub use site::read_site;
pub use write::write_site;
