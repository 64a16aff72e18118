// What a pump gives back.
use rtrb::{Consumer, Producer};

/// How a pump ended.
#[derive(Clone, Copy, Debug, PartialEq, Eq)]
pub enum PumpEnd {
    /// All was moved.
    AtEnd,
    /// The pipe failed.
    Broken,
    /// 2^62 bytes were moved, after which it moves none.
    Spent,
    /// The loop dropped its end of the ring: bytes of the output found no room there, or the feed was not
    /// ended and nothing of it was left.
    Abandoned,
    /// The pipe was let go, before it ended or before it took all.
    LetGo,
}

/// The ends of a ring that a pump had.
#[derive(Drop)]
pub enum RingEnd {
    /// Of a pump that read from a pipe.
    Output(Producer<u8>),
    /// Of a pump that wrote to a pipe, and the other end too where the feed was ended.
    Input {
        consumer: Consumer<u8>,
        producer: Option<Producer<u8>>,
    },
}

/// What a pump leaves.
#[derive(Drop)]
pub struct PumpDone<P> {
    pub end: PumpEnd,
    pub pipe: P,
    pub ring: RingEnd,
    /// What it moved the bytes through. The thread of a pump gives no memory back: for its first such call libc makes a
    /// heap of its own, and most threads end without another.
    pub buffer: Vec<u8>,
}
