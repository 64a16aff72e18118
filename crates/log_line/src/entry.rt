// What a line of the log tells.
use host_base::{Bytes, Cause, Text};

/// What is remarked of a reply beside its status.
#[derive(Clone, Copy, Debug, PartialEq, Eq)]
pub enum Remark {
    /// It is a script's, and was written to its end.
    Whole,
    /// It is the host's own, for this cause.
    Own(Cause),
    /// It is the host's own, and its head stands alone, so the cause isn't said.
    Bare,
    /// It had begun and was broken off, for this cause.
    Cut(Cause),
    /// The connection failed before its end.
    Gone,
    /// The server ended before its end.
    Stopped,
    /// Memory ran out before its end.
    NoMemory,
}

/// One reply, as a line tells it.
#[derive(Drop, Debug)]
pub struct Entry {
    /// The address of the client.
    pub peer: Text,
    /// When the request began, in Unix seconds.
    pub began: u64,
    /// The request line without its end; empty where none is known.
    pub request: Bytes,
    /// The status code that was written, where one was.
    pub status: Option<u16>,
    /// How many bytes were written, the reply's head included.
    pub bytes: u64,
    /// The path of the script; empty where none was started.
    pub script: Text,
    /// From the request's first byte to the reply's last one, in milliseconds.
    pub millis: u64,
    pub remark: Remark,
    /// How many lines were dropped since the line before this one.
    pub dropped: u64,
}
