// What a link answers.
use host_base::Bytes;

/// What the next message is.
#[derive(Drop, Debug)]
pub enum Linked {
    /// A text, in UTF-8.
    Text(Bytes),
    /// A binary message.
    Binary,
    /// The peer closed, or the link was closed before.
    Closed,
    /// What came is no frame or message that a server may take (RFC 6455 5 and 8.1), or is too large.
    Bad,
    /// All bytes were read, and no message is whole.
    NotYet,
    /// No memory was found.
    NoMemory,
}

/// How a text or a close was taken.
#[derive(Clone, Copy, Debug, PartialEq, Eq)]
pub enum Said {
    /// Its frame is among the bytes to be sent.
    Done,
    /// It may not be sent any more, or has a code that may not stand in a close frame (RFC 6455 7.4).
    Refused,
    /// No memory was found.
    NoMemory,
}
