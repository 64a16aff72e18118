// The client at standard input and output.
ghost use Rattle.std.specs.Prelude.{◌≡◌, is_some};
ghost use Rattle.pipe_pump.specs.Rings.{IsRingOf, is_finished};
ghost use Rattle.pump_pool.specs.Pumps.{ring_of};

use host_base::Sink;
use pipe_pump::{PipeIn, PumpEnd, Tap};
use pump_pool::OutPump;
use socket_set::{Received, Sent, Socket};

/// A client whose bytes come through a pump's ring, and who is written to by a sink: at standard input and output as
/// the socket of a connection. A write waits until the sink took all.
#[derive(Drop)]
pub struct StdioSocket<P: PipeIn, K> {
    tap: Tap,
    pump: OutPump<P>,
    /// How the pump ended, once that is known.
    end: Option<PumpEnd>,
    sink: K,
    // The last read found that nothing has come, and the last write failed.
    dry: bool,
    full: bool,
    faults: u64,
    ghost pair: { IsRingOf (ring_of pump) tap },
    ghost finished: { is_finished tap ≡ is_some end },
}

impl<P: PipeIn + Drop, K: Sink> StdioSocket<P, K> {
    ghost use Rattle.std.specs.Prelude.{◌≡◌, ◌≤◌, true, false, Some, None, is_some};
    ghost use Rattle.host_base.specs.Outsides.{Rose};
    ghost use Rattle.pipe_pump.specs.Rings.{IsRingOf, is_finished, handed_up};
    ghost use Rattle.pipe_pump.specs.declared.ends.PumpEnd.{PumpEnd};
    ghost use Rattle.pump_pool.specs.Pumps.{ring_of, output_of};
    ghost use Rattle.once_edge.specs.Stdio.{heard_by, all_heard, Gave};

    /// The client whose bytes this pump brings, of which none was taken yet.
    pub fn new(tap: Tap, pump: OutPump<P>, sink: K) -> Self
        requires pair { IsRingOf (ring_of pump) tap }
        requires open { is_finished tap ≡ false }
        ensures heard { heard_by result ≡ handed_up tap }
        ensures pump { result.pump ≡ pump }
        ensures faults { result.faults ≡ 0 }
    {
        StdioSocket {
            tap,
            pump,
            end: None,
            sink,
            dry: false,
            full: false,
            faults: 0,
        }
    }

    // Asks for the end of the pump, until that is known.
    fn look(&mut self)
        ensures known { is_some self.old.end ≡ true → self.new ≡ self.old }
        ensures heard { heard_by self.new ≡ heard_by self.old }
        ensures pipe { output_of self.new.pump ≡ output_of self.old.pump }
        ensures gave { (end : PumpEnd) → self.old.end ≡ None → self.new.end ≡ Some end → Gave P.left (output_of self.old.pump) end (all_heard self.new) }
        ensures sink { self.new.sink ≡ self.old.sink }
        ensures state { (self.new.dry ≡ self.old.dry) × (self.new.full ≡ self.old.full) }
        ensures faults { self.new.faults ≡ self.old.faults }
    {
        if self.end.is_some() {
            return;
        }
        if let Some(done) = self.pump.done() {
            self.end = Some(done.end);
            self.tap.finish(done.ring);
        }
    }

    fn count(&mut self)
        ensures tap { self.new.tap ≡ self.old.tap }
        ensures pump { self.new.pump ≡ self.old.pump }
        ensures end { self.new.end ≡ self.old.end }
        ensures sink { self.new.sink ≡ self.old.sink }
        ensures state { (self.new.dry ≡ self.old.dry) × (self.new.full ≡ self.old.full) }
        ensures rose { Rose self.old.faults self.new.faults }
        ensures grown { self.old.faults ≤ self.new.faults }
    {
        self.faults = self.faults.saturating_add(1);
    }
}

impl<P: PipeIn + Drop, K: Sink> Socket for StdioSocket<P, K> {
    ghost use Rattle.std.specs.Prelude.{◌≡◌, ◌≤◌, ◌<◌, ◌++◌, ℕ, Some, None, is_some, true, length, take};
    ghost use Rattle.pipe_pump.specs.declared.ends.PumpEnd.{PumpEnd};
    ghost use Rattle.pump_pool.specs.Pumps.{output_of};
    ghost use Rattle.socket_set.specs.Sockets.{EndsReceiving, Receives, Sends};
    ghost use Rattle.socket_set.specs.declared.socket.Received.TheVariants.{Bytes};
    ghost use Rattle.socket_set.specs.declared.socket.Sent.TheVariants.{Took};
    ghost use Rattle.once_edge.specs.Stdio.{socket_tells, heard_by, heard_in, all_heard, Gave, IsDry, Ends, Puts};

    ghost tells = { socket_tells };

    #[tactic(auto, using(crate::proofs::Heard::same_all))]
    fn receive(&mut self, into: &mut [u8]) -> Received
        ensures within { (n : ℕ) → result ≡ Bytes n → n ≤ length into.old }
        ensures some { (n : ℕ) → result ≡ Bytes n → 0 < length into.old → 0 < n }
        ensures bytes { Receives (socket_tells self.old) (socket_tells self.new) into.new result }

        // What is given was handed up by the tap, and the end comes only where the pump came to its own.
        ensures heard { heard_by self.new ≡ heard_by self.old ++ heard_in result into.new }
        ensures end { Ends self.new result }
        ensures nothing { result ≡ Received.Nothing → 0 < length into.old → IsDry self.new }

        // Once the pump's end is known, what was given and what stands in the ring is what the pipe gave, in order. Its
        // thread has the pipe until then, so nothing is told of that before.
        ensures gave { (end : PumpEnd) → self.old.end ≡ None → self.new.end ≡ Some end → Gave P.left (output_of self.old.pump) end (all_heard self.new) }
        ensures kept { is_some self.old.end ≡ true → all_heard self.new ≡ all_heard self.old }
        ensures pipe { output_of self.new.pump ≡ output_of self.old.pump }
    {
        self.dry = into.is_empty();
        if self.dry {
            return Received::Nothing;
        }
        self.look();
        let count = self.tap.take(into);
        if count > 0 {
            return Received::Bytes(count);
        }
        match self.end {
            None => {
                self.dry = true;
                Received::Nothing
            }
            Some(PumpEnd::AtEnd) => Received::End,
            Some(PumpEnd::Broken | PumpEnd::Spent | PumpEnd::Abandoned | PumpEnd::LetGo) => {
                self.count();
                Received::Failed
            }
        }
    }

    fn send(&mut self, from: &[u8]) -> Sent
        ensures within { (n : ℕ) → result ≡ Took n → n ≤ length from.now }
        ensures some { (n : ℕ) → result ≡ Took n → 0 < length from.now → 0 < n }
        ensures bytes { Sends (socket_tells self.old) (socket_tells self.new) from.now result }

        // All was put, or a front of it.
        ensures put { Puts K.written self.old self.new from.now result }
    {
        match self.sink.put(from) {
            Ok(()) => {
                self.full = false;
                Sent::Took(from.len())
            }
            Err(_) => {
                self.full = true;
                self.count();
                Sent::Failed
            }
        }
    }

    // One connection is served to its end.
    #[tactic(auto, using(socket_set::proofs::Ends::nothing_cut))]
    fn end_receiving(&mut self)
        ensures { EndsReceiving (socket_tells self.old) (socket_tells self.new) }
    {}

    fn end_sending(&mut self)
        ensures same { socket_tells self.new ≡ socket_tells self.old }
    {}
}
