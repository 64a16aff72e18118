// The acts that are due for a talk.
ghost use Rattle.std.specs.Prelude.{◌≡◌, ◌∷◌, [], true, is_ok, IfOk, IsErr};
ghost use Rattle.host_trace.specs.Told.{Adds, carries_nothing};
ghost use Rattle.trace_child.specs.Words.{is_filled};
ghost use Rattle.talk_core.specs.Acting.{acting_by, acted_by, saying_by, said_by, closing, closed, len_of};

use crate::talk::Talk;
use host_base::{NoMemory, Text, Texts};
use host_trace::{Act, Acted, Outside};
use std::mem;

// Gives an act that carries nothing, which always finds room.
fn give_plain<O: Outside>(act: &Act, out: &mut O)
    requires { carries_nothing act.now ≡ true }
    ensures told { Adds (O.trace out.old) (act.now ∷ []) (O.trace out.new) }
    ensures limit { O.limit out.new ≡ O.limit out.old }
{
    out.act(act);
}

// How many bytes the texts have.
fn len_of(texts: &[Text]) -> u64
    ensures { result ≡ len_of texts.now }
{
    let mut len = 0u64;
    for text in texts {
        len = len.saturating_add(text.len() as u64);
    }
    len
}

impl Talk {
    ghost use Rattle.std.specs.Prelude.{◌≤◌, ◌^◌, ◌-◌, IfSome, None, length, sum_by};

    /// How many bytes the messages have that are to be said; nothing where they have 2^64 - 1 or more.
    pub fn texts_len(&self) -> Option<u64>
        ensures len { IfSome result (λ len. len ≡ sum_by length self.now.texts) }
        ensures many { result ≡ None → 2 ^ 64 - 1 ≤ sum_by length self.now.texts }
    {
        let len = len_of(self.texts.as_slice());
        if len < u64::MAX { Some(len) } else { None }
    }

    /// Gives the acts that are due: the messages, and then the close frame. The answer is how many bytes of messages
    /// were said. `NoMemory` only where a message was due: then no act was given, and the talk is given up.
    pub fn act<O: Outside>(&mut self, out: &mut O) -> Result<u64, NoMemory>
        ensures talk { self.new ≡ acted_by (is_ok result) self.old }
        ensures told { Adds (O.trace out.old) (acting_by (is_ok result) self.old) (O.trace out.new) }
        ensures len { IfOk result (λ len. len ≡ len_of self.old.texts) }
        ensures memory { IsErr result → is_filled self.old.texts ≡ true }
        ensures limit { O.limit out.new ≡ O.limit out.old }
    {
        let len = self.say(out)?;
        self.close(out);
        Ok(len)
    }

    fn say<O: Outside>(&mut self, out: &mut O) -> Result<u64, NoMemory>
        ensures talk { self.new ≡ said_by (is_ok result) self.old }
        ensures told { Adds (O.trace out.old) (saying_by (is_ok result) self.old) (O.trace out.new) }
        ensures len { IfOk result (λ len. len ≡ len_of self.old.texts) }
        ensures memory { IsErr result → is_filled self.old.texts ≡ true }
        ensures limit { O.limit out.new ≡ O.limit out.old }
    {
        if self.texts.is_empty() {
            return Ok(0);
        }
        let texts = mem::replace(&mut self.texts, Texts::new(self.alloc));
        let len = len_of(texts.as_slice());
        match out.act(&Act::Says {
            c: self.conn,
            texts,
        }) {
            Acted::Done => Ok(len),
            Acted::NoRoom => {
                self.shut();
                Err(NoMemory)
            }
        }
    }

    fn close<O: Outside>(&mut self, out: &mut O)
        ensures talk { self.new ≡ closed self.old }
        ensures told { Adds (O.trace out.old) (closing self.old.conn self.old.code) (O.trace out.new) }
        ensures limit { O.limit out.new ≡ O.limit out.old }
    {
        if let Some(code) = self.code {
            give_plain(&Act::CloseWs { c: self.conn, code }, out);
            self.code = None;
        }
    }
}
