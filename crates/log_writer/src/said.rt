// What is said of the log's file on standard error.
use std::{fmt, io};

/// What can't be done with the file, and why.
#[derive(Clone, Copy)]
pub struct FileLine<'s> {
    pub fault: &'s str,
    pub name: &'s str,
    pub reason: &'s io::Error,
}

impl fmt::Display for FileLine<'_> {
    fn fmt<W: fmt::Write>(&self, f: &mut fmt::Formatter<W>) -> fmt::Result {
        write!(
            f,
            "cgihost: log not {}: {}: {}",
            self.fault, self.name, self.reason
        )
    }
}
