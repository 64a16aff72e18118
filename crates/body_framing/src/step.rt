// What a reader of chunks answers.
use host_base::Cause;

/// What the bytes are that a reader of chunks was fed.
#[derive(Clone, Copy, Debug, PartialEq, Eq)]
pub enum ChunkStep {
    /// The body has not ended yet.
    More,
    /// The body has ended; `used` of the bytes fed last belong to it.
    End { used: usize },
    /// No chunked body within the limit, whatever follows: `BadChunk`, or `BodyTooLong` where it is one for
    /// a larger limit up to the byte that was refused.
    Bad(Cause),
}
