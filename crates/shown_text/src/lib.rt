//! Texts as one line shows them, in reports and in fault lines.
#![tactic(auto)]

mod shown;

pub use shown::Shown;
