// What an event says of the first request.
ghost use Rattle.std.specs.Prelude.{◌≡◌};
ghost use Rattle.explain.specs.Inputs.{if_first, input_of};

use host_base::{Bytes, Cause, Peer, Request};
use host_trace::Event;

/// What connection 0 says.
#[derive(Drop)]
pub enum Input {
    /// A client connected.
    Accepted(Peer),
    /// The client sent bytes.
    Bytes(Bytes),
    /// The client ended its input.
    Eof,
    /// The client is gone, or the server is to end.
    Gone,
    /// No memory was found to hear the client.
    NoRoom,
    /// Nothing.
    Other,
}

/// How the first request ended.
#[derive(Drop)]
pub enum Ending {
    /// It is whole.
    Whole(Request),
    /// It is refused.
    Refused(Cause),
    /// None came.
    Nothing,
}

/// What follows an input.
#[derive(Drop)]
pub enum Heard {
    Passed,
    /// The client is to be asked for more.
    Asks,
    Ended(Ending),
    NoMemory,
}

fn if_first(c: u64, input: Input) -> Input
    ensures { result ≡ if_first c input }
{
    if c == 0 { input } else { Input::Other }
}

pub fn input_of(event: Event) -> Input
    ensures { result ≡ input_of event }
{
    match event {
        Event::Accepted { peer } => Input::Accepted(peer),
        Event::ClientBytes { c, bytes } => if_first(c, Input::Bytes(bytes)),
        Event::ClientEof { c } => if_first(c, Input::Eof),
        Event::ClientGone { c } => if_first(c, Input::Gone),
        Event::NoRoom { c } => if_first(c, Input::NoRoom),
        Event::Stop => Input::Gone,
        Event::Wrote { .. } | Event::Started { .. } | Event::StartFailed { .. } => Input::Other,
        Event::StartFull { .. } | Event::ChildBytes { .. } | Event::ChildEof { .. } => Input::Other,
        Event::ChildBroken { .. } | Event::Took { .. } | Event::InputGone { .. } => Input::Other,
        Event::Exited { .. } | Event::WsText { .. } | Event::WsBinary { .. } => Input::Other,
        Event::WsClosed { .. } | Event::WsBad { .. } | Event::Tick { .. } => Input::Other,
    }
}
