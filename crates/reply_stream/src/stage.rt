// Where a stream stands, and how its reply goes on.
use head_lines::Search;
use host_base::Bytes;

// How what follows a head goes on.
#[derive(Clone, Copy, Debug, PartialEq, Eq)]
pub enum Flow {
    // Nothing follows.
    Nothing,
    // No body in chunks: the end mark alone follows.
    Mark,
    // Each piece is a chunk, and the end mark follows them.
    Chunks,
    // Each piece as it is.
    Plain,
}

#[derive(Clone, Copy, Debug)]
pub enum Stage {
    // Nothing is written, all of the output is held, and its header is not whole. So far its end was searched for.
    Waiting(Search),
    // Nothing is written, all of the output is held, and the reply can begin.
    Ready,
    // Nothing is written before the end, and what is held tells what is derived.
    Settled,
    // The reply has begun, and nothing is held.
    Going(Flow),
}

// What the output so far tells of its reply.
#[derive(Drop, Debug)]
pub enum Opening {
    // The header is not whole.
    Wait,
    // No reply begins before the end.
    Settle,
    // The reply begins with these bytes.
    Begin(Flow, Bytes),
}

// What the header of the output so far tells.
#[derive(Clone, Copy, Debug)]
pub enum Header {
    // It is not whole.
    Open,
    // No reply begins before the end.
    Settled,
    // It is whole, and the reply can begin.
    Ready,
}
