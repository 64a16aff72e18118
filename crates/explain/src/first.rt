// The first request of connection 0, as far as it has come.
ghost use Rattle.std.specs.Prelude.{◌≡◌, ◌≢◌, ℕ, ◌++◌, List, [], None, Option, true, false};
ghost use Rattle.host_base.specs.declared.launch.Peer.{Peer as APeer};
ghost use Rattle.host_base.specs.declared.limits.Limits.{Limits as TheLimits};
ghost use Rattle.request_reader.specs.Request.{is_begun, read_request};
ghost use Rattle.explain.specs.Inputs.{KnowsInputs, bytes_of, goes_on, heard_of, heard_of_reading, is_answer, peer_after};
ghost use Rattle.explain.specs.declared.input.Input.TheVariants as Is;

use crate::input::{Ending, Heard, Input};
use host_base::{Bytes, Cause, Limits, Peer};
use request_reader::{ReqReader, ReqStep};
use std::alloc::Global;

/// The client, once it connected, and a reader of what it sent.
#[derive(Drop)]
pub struct First {
    pub peer: Option<Peer>,
    pub reader: ReqReader,
}

impl First {
    pub fn new(alloc: Global, limits: &Limits) -> Self
        ensures { KnowsInputs result limits.now None [] }
    {
        First {
            peer: None,
            reader: ReqReader::new(alloc, limits),
        }
    }

    fn accept(&mut self, peer: Peer) -> Heard
        ensures heard { (limits : TheLimits) (known : Option APeer) (bytes : List ℕ) → KnowsInputs self.old limits known bytes
            → result ≡ heard_of limits known bytes (Is.Accepted peer) }
        ensures knows { (limits : TheLimits) (known : Option APeer) (bytes : List ℕ) → KnowsInputs self.old limits known bytes
            → KnowsInputs self.new limits (peer_after known (Is.Accepted peer)) bytes }
        ensures goes { goes_on result ≡ true }
    {
        if self.peer.is_some() {
            return Heard::Passed;
        }
        self.peer = Some(peer);
        Heard::Asks
    }

    fn read(&mut self, piece: &[u8]) -> Heard
        ensures heard { (limits : TheLimits) (known : Option APeer) (bytes : List ℕ) → KnowsInputs self.old limits known bytes
            → result ≢ Heard.NoMemory → result ≡ heard_of_reading (read_request limits (bytes ++ piece.now)) }
        ensures knows { (limits : TheLimits) (known : Option APeer) (bytes : List ℕ) → KnowsInputs self.old limits known bytes
            → result ≡ Heard.Asks → KnowsInputs self.new limits known (bytes ++ piece.now) }
        ensures asks { goes_on result ≡ true → result ≡ Heard.Asks }
        ensures peer { self.new.peer ≡ self.old.peer }
    {
        if self.reader.feed(piece).is_err() {
            return Heard::NoMemory;
        }
        match self.reader.step() {
            Ok(ReqStep::Whole(request)) => Heard::Ended(Ending::Whole(request)),
            Ok(ReqStep::Bad { cause, .. }) => Heard::Ended(Ending::Refused(cause)),
            Ok(ReqStep::More { .. }) => Heard::Asks,
            Err(_) => Heard::NoMemory,
        }
    }

    fn end(&self) -> Heard
        ensures { (limits : TheLimits) (known : Option APeer) (bytes : List ℕ) → KnowsInputs self.now limits known bytes
            → result ≡ heard_of limits known bytes Is.Eof }
    {
        if self.reader.begun() {
            Heard::Ended(Ending::Refused(Cause::Incomplete))
        } else {
            Heard::Ended(Ending::Nothing)
        }
    }

    /// Hears what connection 0 says. It takes memory for bytes alone.
    pub fn hear(&mut self, input: Input) -> Heard
        ensures heard { (limits : TheLimits) (known : Option APeer) (bytes : List ℕ) → KnowsInputs self.old limits known bytes
            → result ≢ Heard.NoMemory → result ≡ heard_of limits known bytes input }
        ensures knows { (limits : TheLimits) (known : Option APeer) (bytes : List ℕ) → KnowsInputs self.old limits known bytes
            → goes_on result ≡ true → KnowsInputs self.new limits (peer_after known input) (bytes ++ bytes_of input) }
        ensures peer { goes_on result ≡ false → self.new.peer ≡ self.old.peer }
    {
        match input {
            Input::Accepted(peer) => self.accept(peer),
            Input::Bytes(bytes) => self.read(bytes.as_slice()),
            Input::Eof => self.end(),
            Input::Gone => Heard::Ended(Ending::Nothing),
            Input::NoRoom => Heard::NoMemory,
            Input::Other => Heard::Passed,
        }
    }
}
