// The acts of a step.
ghost use Rattle.std.specs.Prelude.{◌≡◌, ◌∷◌, [], true};
ghost use Rattle.host_trace.specs.Told.{Adds, carries_nothing};

use crate::conn::ScgiConn;
use crate::stage::{End, Stage};
use host_base::Bytes;
use host_trace::{Act, Acted, Outside, Why};

// Gives an act that carries nothing, which always finds room.
fn give_plain<O: Outside>(act: &Act, out: &mut O)
    requires { carries_nothing act.now ≡ true }
    ensures told { Adds (O.trace out.old) (act.now ∷ []) (O.trace out.new) }
    ensures limit { O.limit out.new ≡ O.limit out.old }
{
    out.act(act);
}

impl<'s> ScgiConn<'s> {
    ghost use Rattle.std.specs.Prelude.{◌≡◌, true, false, is_ok};
    ghost use Rattle.host_trace.specs.Told.{Adds};
    ghost use Rattle.scgi_conn.specs.Parts.{acted_conn, acted_run, acting_run, acts_acted, acts_asked, acts_shut, acts_written, asked_conn, is_ask_due, is_run_fed, is_written, shut_conn, why_of, written_by, written_conn, acts_of_answer};
    // Writes the answer, where it is decided; false where memory ran out.
    pub(crate) fn write<O: Outside>(&mut self, out: &mut O) -> bool
        ensures value { self.new ≡ written_conn result self.old }
        ensures told { Adds (O.trace out.old) (acts_written result self.old) (O.trace out.new) }
        ensures memory { result ≡ false → is_written self.old.stage ≡ true }
        ensures limit { O.limit out.new ≡ O.limit out.old }
    {
        match self.take_stage() {
            Stage::Answered(bytes) => self.write_answer(bytes, out),
            stage => {
                self.put(stage);
                true
            }
        }
    }

    fn write_answer<O: Outside>(&mut self, bytes: Bytes, out: &mut O) -> bool
        ensures value { self.new ≡ written_by result bytes self.old }
        ensures told { Adds (O.trace out.old) (acts_of_answer result bytes self.old.flags.c) (O.trace out.new) }
        ensures limit { O.limit out.new ≡ O.limit out.old }
    {
        let len = bytes.len() as u64;
        if !self.flags.can_count(len) {
            self.lose();
            return false;
        }
        let act = Act::Write {
            c: self.flags.c(),
            bytes,
        };
        match out.act(&act) {
            Acted::Done => {
                self.flags.write(len);
                self.put(Stage::Over(End::Done));
                true
            }
            Acted::NoRoom => {
                self.lose();
                false
            }
        }
    }

    // Gives what is due for the child; false where memory ran out for a piece of its input. Nothing waits to be sent while
    // it runs: its answer is written when it is decided.
    pub(crate) fn act<O: Outside>(&mut self, out: &mut O) -> bool
        ensures value { self.new ≡ acted_conn result self.old }
        ensures told { Adds (O.trace out.old) (acts_acted result self.old) (O.trace out.new) }
        ensures memory { result ≡ false → is_run_fed self.old.run ≡ true }
        ensures limit { O.limit out.new ≡ O.limit out.old }
    {
        if self.act_run(out) {
            return true;
        }
        self.lose();
        let _acted = self.act_run(out);
        false
    }

    fn act_run<O: Outside>(&mut self, out: &mut O) -> bool
        ensures value { self.new ≡ record self.old { run = acted_run result self.old.run } }
        ensures told { Adds (O.trace out.old) (acting_run result self.old.run) (O.trace out.new) }
        ensures memory { result ≡ false → is_run_fed self.old.run ≡ true }
        ensures limit { O.limit out.new ≡ O.limit out.old }
    {
        match &mut self.run {
            None => true,
            Some(run) => run.act(true, out).is_ok(),
        }
    }

    // Why the connection is to be shut.
    fn why(&self) -> Option<Why>
        ensures { result ≡ why_of self.now }
    {
        match self.stage {
            Stage::Over(end) if self.flags.is_live() => Some(end.why()),
            _ => None,
        }
    }

    // Shuts the connection where that is due.
    pub(crate) fn close<O: Outside>(&mut self, out: &mut O)
        ensures value { self.new ≡ shut_conn (why_of self.old) self.old }
        ensures told { Adds (O.trace out.old) (acts_shut self.old.flags.c (why_of self.old)) (O.trace out.new) }
        ensures limit { O.limit out.new ≡ O.limit out.old }
    {
        if let Some(why) = self.why() {
            let number = self.flags.c();
            give_plain(&Act::Shut { c: number, why }, out);
            self.flags.shut();
        }
    }

    fn is_ask_due(&self) -> bool
        ensures { result ≡ is_ask_due self.now }
    {
        let hears = matches!(self.stage, Stage::Hearing(_));
        hears && self.flags.is_live() && !self.flags.is_asked()
    }

    // Asks the client where more of the request is to come.
    pub(crate) fn want<O: Outside>(&mut self, out: &mut O)
        ensures value { self.new ≡ asked_conn (is_ask_due self.old) self.old }
        ensures told { Adds (O.trace out.old) (acts_asked self.old.flags.c (is_ask_due self.old)) (O.trace out.new) }
        ensures limit { O.limit out.new ≡ O.limit out.old }
    {
        if self.is_ask_due() {
            let number = self.flags.c();
            give_plain(&Act::WantClient { c: number }, out);
            self.flags.ask();
        }
    }
}
