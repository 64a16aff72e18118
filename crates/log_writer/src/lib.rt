//! The access log of the program: its option among the words of a command, and a thread that writes the lines of all loops.
#![tactic(auto)]

mod begin;
mod said;
mod words;
mod writer;

pub use begin::{Log, LogFault, LogLines, OpenedLog};
pub use words::{LogWords, WordsFault, take_log};
pub use writer::Writer;
