// The reader of a program's output.
use crate::message::{cut_at_lf, is_long, message, push_lines};
use crate::step::LineStep;
use host_base::{NoMemory, Text, Texts};
use std::alloc::Global;
use std::marker::Model;

/// The reader of an output whose messages are lines. An ended line is a message without its LF and one CR
/// before it; bytes that are no UTF-8 are read as U+FFFD. It keeps what stands behind the last LF, at most
/// the limit.
#[derive(Drop, Debug)]
pub struct Lines {
    alloc: Global,
    limit: u64,
    rest: Vec<u8>,
    over: bool,
    ended: bool,
}

impl Model for Lines {
    ghost use Rattle.std.specs.Prelude.{◌≤◌, length};
    ghost use Rattle.head_lines.specs.Lines.{HasNoLf};
    ghost use Rattle.line_messages.specs.State.{Reading};

    ghost Value = { Reading };

    ghost view = { λ l. record { limit = l.limit; rest = l.rest.items; over = l.over; ended = l.ended } };

    ghost invariant = { λ l. HasNoLf l.rest.items × (length l.rest.items ≤ l.limit) };
}

impl Lines {
    ghost use Rattle.std.specs.Prelude.{◌≡◌, ◌++◌, ℕ, List, [], ◌∷◌, true, false, IfOk, OnOk, OnErr};
    ghost use Rattle.head_lines.specs.Lines.{HasNoLf};
    ghost use Rattle.line_messages.specs.Lines.{is_long, last_within, message_of};
    ghost use Rattle.line_messages.specs.Reading.{IsStep, StandsFor, Takes};

    /// A reader of an output that has given nothing yet. `limit` is the most bytes that a line may have
    /// before its LF, a CR counted.
    pub fn new(alloc: Global, limit: u64) -> Lines
        ensures stands { StandsFor result [] }
        ensures limit { result.limit ≡ limit }
        ensures not_ended { result.ended ≡ false }
    {
        Lines {
            alloc,
            limit,
            rest: Vec::new(alloc),
            over: false,
            ended: false,
        }
    }

    /// Whether the end of the output was heard: then nothing may be fed any more.
    pub fn is_ended(&self) -> bool
        ensures { result ≡ self.now.ended }
    {
        self.ended
    }

    /// Hears a piece of the output. TooLong comes exactly where more bytes than the limit stand in a row
    /// without an LF in what was fed so far; from then on it comes always, with no messages.
    pub fn feed(&mut self, piece: &[u8]) -> Result<LineStep, NoMemory>
        requires { self.old.ended ≡ false }
        ensures step { IfOk result (λ step. (output : List ℕ) → StandsFor self.old output
            → IsStep self.old.limit output piece.now step) }
        ensures stands { OnOk result ((output : List ℕ) → StandsFor self.old output
            → StandsFor self.new (output ++ piece.now)) }
        ensures limit { self.new.limit ≡ self.old.limit }
        ensures not_ended { self.new.ended ≡ false }
        ensures err { OnErr result (self.new ≡ self.old) }
    {
        if self.over {
            return Ok(LineStep::TooLong {
                before: Texts::new(self.alloc),
            });
        }
        match cut_at_lf(piece) {
            None => self.feed_open(piece),
            Some((line, more)) => self.feed_lines(line, more),
        }
    }

    // Hears a piece without an LF.
    fn feed_open(&mut self, piece: &[u8]) -> Result<LineStep, NoMemory>
        requires going { self.old.over ≡ false }
        requires no_lf { HasNoLf piece.now }
        ensures step { IfOk result (λ step. Takes self.old piece.now step self.new) }
        ensures err { OnErr result (self.new ≡ self.old) }
    {
        if self.passes_limit(piece) {
            self.over = true;
            return Ok(LineStep::TooLong {
                before: Texts::new(self.alloc),
            });
        }
        self.rest.extend_from_slice(piece)?;
        Ok(LineStep::Texts(Texts::new(self.alloc)))
    }

    // Hears what ends the open line, and what follows its LF.
    fn feed_lines(&mut self, line: &[u8], more: &[u8]) -> Result<LineStep, NoMemory>
        requires going { self.old.over ≡ false }
        requires no_lf { HasNoLf line.now }
        ensures step { IfOk result (λ step. Takes self.old (line.now ++ 10 ∷ more.now) step self.new) }
        ensures err { OnErr result (self.new ≡ self.old) }
    {
        let mut texts = Texts::new(self.alloc);
        if self.passes_limit(line) {
            self.over = true;
            return Ok(LineStep::TooLong { before: texts });
        }
        texts.push(self.ended_message(line)?)?;
        match push_lines(self.alloc, &mut texts, self.limit, more)? {
            None => {
                self.over = true;
                Ok(LineStep::TooLong { before: texts })
            }
            Some(open) => {
                self.rest = Vec::from_slice(self.alloc, open)?;
                Ok(LineStep::Texts(texts))
            }
        }
    }

    // Whether the open line would pass the limit with these bytes.
    fn passes_limit(&self, line: &[u8]) -> bool
        ensures { result ≡ is_long self.now.limit (self.now.rest ++ line.now) }
    {
        line.len() as u64 > self.limit - self.rest.len() as u64
    }

    // The message of the open line with these bytes at its end.
    fn ended_message(&self, line: &[u8]) -> Result<Text, NoMemory>
        ensures { IfOk result (λ text. text ≡ message_of (self.now.rest ++ line.now)) }
    {
        if self.rest.is_empty() {
            return message(self.alloc, line);
        }
        let mut whole = self.rest.clone()?;
        whole.extend_from_slice(line)?;
        message(self.alloc, whole.as_slice())
    }

    /// Hears the end of the output, and gives the message of a last line that no LF ends: none or one, none
    /// after TooLong. After an `Ok` neither this nor `feed` may be called again.
    pub fn end(&mut self) -> Result<Texts, NoMemory>
        requires { self.old.ended ≡ false }
        ensures texts { IfOk result (λ texts. (output : List ℕ) → StandsFor self.old output
            → texts ≡ last_within self.old.limit output) }
        ensures ended { OnOk result (self.new.ended ≡ true) }
        ensures err { OnErr result (self.new ≡ self.old) }
    {
        let mut texts = Texts::new(self.alloc);
        if !self.over && !self.rest.is_empty() {
            texts.push(message(self.alloc, self.rest.as_slice())?)?;
        }
        self.ended = true;
        Ok(texts)
    }
}
