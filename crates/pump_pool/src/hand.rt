// How the end of a pump comes back: what is known of it there is the protocol's.
ghost use Rattle.std.specs.Prelude.{◌≡◌};

use pipe_pump::PumpDone;
use std::snapshot::Snapshot;

/// The ring and the pipe that the end of a pump has to be of. It takes no bytes.
#[derive(Drop)]
pub struct Mark<G, P> {
    ring: Snapshot<G>,
    pipe: Snapshot<P>,
}

impl<G, P> Mark<G, P> {
    pub(crate) fn of(ring: &G, pipe: &P) -> Self
        ensures ring { result.ring.value ≡ ring.now }
        ensures pipe { result.pipe.value ≡ pipe.now }
    {
        Mark {
            ring: Snapshot::of(ring),
            pipe: Snapshot::of(pipe),
        }
    }
}

/// First a mark, and then the end of a pump.
#[derive(Drop)]
pub enum Hand<G, P> {
    Marked(Mark<G, P>),
    Done(PumpDone<P>),
}
