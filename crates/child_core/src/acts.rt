// The acts that are due for a run.
ghost use Rattle.std.specs.Prelude.{◌≡◌, ◌∷◌, [], true, is_ok, IsErr, OnOk, OnErr};
ghost use Rattle.host_trace.specs.declared.items.Act.TheVariants.{Feed, EndInput, Kill, Release, WantChild};
ghost use Rattle.host_trace.specs.Told.{Adds, when, carries_nothing};
ghost use Rattle.child_core.specs.View.{is_other};
ghost use Rattle.child_core.specs.Due.{is_feed_due, is_left_alone, has_lingered, is_fed_whole, is_input_due, is_kill_due, is_release_due, is_ask_due, piece_len, piece_of, feeding_by, feed_given_by, input_given, kill_given, release_given, ask_given, acted_by, acting_by};

use super::{Outcome, Run};
use host_base::{NoMemory, ScriptKind};
use host_trace::{Act, Acted, Outside};

// Gives an act that carries nothing, which always finds room.
fn give_plain<O: Outside>(act: &Act, out: &mut O)
    requires { carries_nothing act.now ≡ true }
    ensures told { Adds (O.trace out.old) (act.now ∷ []) (O.trace out.new) }
    ensures limit { O.limit out.new ≡ O.limit out.old }
{
    out.act(act);
}

impl Run {
    /// Gives the acts that are due for the child, in the order Feed, EndInput, Kill, Release, WantChild; `may_want`:
    /// not too much waits to be sent. `NoMemory` only where a Feed was due: then no act was given, and nothing
    /// changed.
    pub fn act<O: Outside>(&mut self, may_want: bool, out: &mut O) -> Result<(), NoMemory>
        ensures run { self.new ≡ acted_by (is_ok result) may_want self.old }
        ensures told { Adds (O.trace out.old) (acting_by (is_ok result) may_want self.old) (O.trace out.new) }
        ensures memory { IsErr result → is_feed_due self.old ≡ true }
        ensures limit { O.limit out.new ≡ O.limit out.old }
    {
        self.feed(out)?;
        self.end_input(out);
        self.kill(out);
        self.release(out);
        self.want(may_want, out);
        Ok(())
    }

    fn feed<O: Outside>(&mut self, out: &mut O) -> Result<(), NoMemory>
        ensures run { self.new ≡ feed_given_by (is_ok result) self.old }
        ensures told { Adds (O.trace out.old) (feeding_by (is_ok result) self.old) (O.trace out.new) }
        ensures memory { IsErr result → is_feed_due self.old ≡ true }
        ensures limit { O.limit out.new ≡ O.limit out.old }
    {
        if !self.is_feed_due() {
            return Ok(());
        }
        let count = self.piece_len();
        let piece = self.unfed.front(count)?;
        let acted = out.act(&Act::Feed {
            k: self.number,
            bytes: piece,
        });
        match acted {
            Acted::NoRoom => Err(NoMemory),
            Acted::Done => {
                self.unfed.advance(count);
                self.untaken = count as u64;
                Ok(())
            }
        }
    }

    fn is_feed_due(&self) -> bool
        ensures { result ≡ is_feed_due self.now }
    {
        let open = self.started && self.outcome.is_none() && !self.exited && !self.input_ended;
        let len = self.unfed.len();
        open && len != 0 && self.untaken == 0
    }

    fn piece_len(&self) -> usize
        ensures { result ≡ piece_len self.now }
    {
        let len = self.unfed.len();
        if self.kind == ScriptKind::WebSocket {
            len
        } else {
            len.min(65_536)
        }
    }

    // Nothing decided it, and the client closed its WebSocket as long ago as it may linger.
    fn is_left_alone(&self) -> bool
        ensures { result ≡ is_left_alone self.now }
    {
        let over = self.linger_left.is_over();
        self.hung_up && self.outcome.is_none() && over
    }

    fn has_lingered(&self) -> bool
        ensures { result ≡ has_lingered self.now }
    {
        let over = self.linger_left.is_over();
        self.outcome == Some(Outcome::Output) && (over || self.abandoned)
    }

    // Decided by another item than the end of its output.
    fn is_other(&self) -> bool
        ensures { result ≡ is_other self.now.outcome }
    {
        match self.outcome {
            None | Some(Outcome::Output) => false,
            Some(_) => true,
        }
    }

    fn is_fed_whole(&self) -> bool
        ensures { result ≡ is_fed_whole self.now }
    {
        let len = self.unfed.len();
        self.kind != ScriptKind::WebSocket && self.whole && len == 0
    }

    fn end_input<O: Outside>(&mut self, out: &mut O)
        ensures run { self.new ≡ input_given self.old }
        ensures told { Adds (O.trace out.old) (when (is_input_due self.old) (EndInput self.old.number)) (O.trace out.new) }
        ensures limit { O.limit out.new ≡ O.limit out.old }
    {
        let whole = self.is_fed_whole();
        let over = self.outcome.is_some() || self.hung_up || !self.exited && whole;
        if self.started && over && !self.input_ended {
            give_plain(&Act::EndInput { k: self.number }, out);
            self.input_ended = true;
        }
    }

    fn kill<O: Outside>(&mut self, out: &mut O)
        ensures run { self.new ≡ kill_given self.old }
        ensures told { Adds (O.trace out.old) (when (is_kill_due self.old) (Kill self.old.number)) (O.trace out.new) }
        ensures limit { O.limit out.new ≡ O.limit out.old }
    {
        let over = self.is_other() || self.is_left_alone() || self.has_lingered();
        if self.started && !self.exited && over && !self.killed {
            give_plain(&Act::Kill { k: self.number }, out);
            self.killed = true;
        }
    }

    fn release<O: Outside>(&mut self, out: &mut O)
        ensures run { self.new ≡ release_given self.old }
        ensures told { Adds (O.trace out.old) (when (is_release_due self.old) (Release self.old.number)) (O.trace out.new) }
        ensures limit { O.limit out.new ≡ O.limit out.old }
    {
        let over = self.is_other() || self.is_left_alone() || self.killed;
        if self.started && self.exited && over && !self.output_ended {
            give_plain(&Act::Release { k: self.number }, out);
            self.output_ended = true;
        }
    }

    fn want<O: Outside>(&mut self, may_want: bool, out: &mut O)
        ensures run { self.new ≡ ask_given may_want self.old }
        ensures told { Adds (O.trace out.old) (when (is_ask_due may_want self.old) (WantChild self.old.number)) (O.trace out.new) }
        ensures limit { O.limit out.new ≡ O.limit out.old }
    {
        let undecided = self.outcome.is_none();
        let open = !self.killed && !self.output_ended && may_want;
        if self.started && undecided && open && !self.asked {
            give_plain(&Act::WantChild { k: self.number }, out);
            self.asked = true;
        }
    }
}
