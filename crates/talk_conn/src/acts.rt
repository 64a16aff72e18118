// The acts of a step.
ghost use Rattle.std.specs.Prelude.{◌≡◌, ◌∷◌, [], true};
ghost use Rattle.host_trace.specs.Told.{Adds, carries_nothing};

use crate::conn::TalkConn;
use host_base::NoMemory;
use host_trace::{Act, Outside, Why};

// Gives an act that carries nothing, which always finds room.
fn give_plain<O: Outside>(act: &Act, out: &mut O)
    requires { carries_nothing act.now ≡ true }
    ensures told { Adds (O.trace out.old) (act.now ∷ []) (O.trace out.new) }
    ensures limit { O.limit out.new ≡ O.limit out.old }
{
    out.act(act);
}

impl<'s> TalkConn<'s> {
    ghost use Rattle.std.specs.Prelude.{◌≡◌, true, false};
    ghost use Rattle.host_trace.specs.Told.{Adds};
    ghost use Rattle.trace_child.specs.Words.{is_filled};
    ghost use Rattle.child_core.specs.Due.{is_feed_due};
    ghost use Rattle.talk_conn.specs.Parts.{acted_conn, acts_acted, acts_asked, acts_said, acts_shut, asked_conn, is_ask_due, may_want, said_conn, shut_conn, why_of};
    // Gives the messages and the close frame that are due; false where memory ran out for the messages.
    pub(crate) fn say<O: Outside>(&mut self, out: &mut O) -> bool
        ensures value { self.new ≡ said_conn result self.old }
        ensures told { Adds (O.trace out.old) (acts_said result self.old) (O.trace out.new) }
        ensures memory { result ≡ false → is_filled self.old.talk.texts ≡ true }
        ensures limit { O.limit out.new ≡ O.limit out.old }
    {
        let Some(len) = self.talk.texts_len() else {
            self.give_up();
            return false;
        };
        if 0 < len && !self.flags.can_count(len) {
            self.give_up();
            return false;
        }
        match self.talk.act(out) {
            Ok(_) => {
                if 0 < len {
                    self.flags.say(len);
                }
                true
            }
            Err(NoMemory) => {
                self.give_up();
                false
            }
        }
    }

    // The child's output may be asked for.
    fn may_want(&self) -> bool
        ensures { result ≡ may_want self.now }
    {
        self.flags.has_room() || self.talk.is_over()
    }

    // Gives what is due for the child; false where memory ran out for a text that is to be fed.
    pub(crate) fn act<O: Outside>(&mut self, out: &mut O) -> bool
        ensures value { self.new ≡ acted_conn result self.old }
        ensures told { Adds (O.trace out.old) (acts_acted result self.old) (O.trace out.new) }
        ensures memory { result ≡ false → is_feed_due self.old.run ≡ true }
        ensures limit { O.limit out.new ≡ O.limit out.old }
    {
        let may_want = self.may_want();
        if self.run.act(may_want, out).is_ok() {
            return true;
        }
        self.give_up();
        let _acted = self.run.act(may_want, out);
        false
    }

    // Why the connection is to be shut.
    fn why(&self) -> Option<Why>
        ensures { result ≡ why_of self.now }
    {
        if !self.flags.is_live() {
            None
        } else if self.lost {
            Some(Why::NoMemory)
        } else if self.flags.is_stopped() {
            Some(Why::Stopped)
        } else if self.flags.is_gone() {
            Some(Why::Gone)
        } else if self.talk.is_over() {
            Some(Why::Done)
        } else {
            None
        }
    }

    // Shuts the connection where that is due.
    pub(crate) fn close<O: Outside>(&mut self, out: &mut O)
        ensures value { self.new ≡ shut_conn (why_of self.old) self.old }
        ensures told { Adds (O.trace out.old) (acts_shut self.old.flags.c (why_of self.old)) (O.trace out.new) }
        ensures limit { O.limit out.new ≡ O.limit out.old }
    {
        if let Some(why) = self.why() {
            let number = self.flags.c();
            give_plain(&Act::Shut { c: number, why }, out);
            self.flags.shut();
            self.talk.shut();
        }
    }

    fn is_ask_due(&self) -> bool
        ensures { result ≡ is_ask_due self.now }
    {
        self.flags.is_live()
            && self.flags.has_room()
            && self.run.wants_text()
            && !self.flags.is_asked()
    }

    // Asks the client for a text where one may be heard.
    pub(crate) fn want<O: Outside>(&mut self, out: &mut O)
        ensures value { self.new ≡ asked_conn (is_ask_due self.old) self.old }
        ensures told { Adds (O.trace out.old) (acts_asked self.old.flags.c (is_ask_due self.old)) (O.trace out.new) }
        ensures limit { O.limit out.new ≡ O.limit out.old }
    {
        if self.is_ask_due() {
            let number = self.flags.c();
            give_plain(&Act::WantClient { c: number }, out);
            self.flags.ask();
        }
    }
}
