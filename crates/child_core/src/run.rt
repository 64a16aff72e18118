// One child's run.
ghost use Rattle.std.specs.Prelude.{◌≡◌};

use super::unfed::Unfed;
use super::{Ending, Outcome};
use host_base::{Bytes, Cause, Limits, NoMemory, ScriptKind};
use host_trace::Event;
use limit_clock::Deadline;
use std::alloc::Global;
use std::marker::Model;
use std::mem;

/// One child's run, from its Start on.
#[derive(Drop)]
pub struct Run {
    pub(crate) number: u64,
    pub(crate) kind: ScriptKind,
    pub(crate) book: u32,
    pub(crate) linger_ticks: u32,
    pub(crate) started: bool,
    pub(crate) refused: bool,
    pub(crate) exited: bool,
    pub(crate) input_ended: bool,
    pub(crate) output_ended: bool,
    pub(crate) killed: bool,
    pub(crate) asked: bool,
    pub(crate) outcome: Option<Outcome>,
    pub(crate) hung_up: bool,
    pub(crate) abandoned: bool,
    pub(crate) run_left: Deadline,
    pub(crate) linger_left: Deadline,
    pub(crate) output_left: u64,
    pub(crate) unfed: Unfed,
    pub(crate) whole: bool,
    pub(crate) untaken: u64,
    pub(crate) output: Bytes,
    pub(crate) alloc: Global,
}

impl Model for Run {
    ghost use Rattle.child_core.specs.View.{View};

    ghost Value = { View };

    ghost view = { λ r. record { number = r.number; kind = r.kind; book = r.book; linger_ticks = r.linger_ticks; started = r.started; refused = r.refused; exited = r.exited; input_ended = r.input_ended; output_ended = r.output_ended; killed = r.killed; asked = r.asked; outcome = r.outcome; hung_up = r.hung_up; abandoned = r.abandoned; run_left = r.run_left; linger_left = r.linger_left; output_left = r.output_left; unfed = r.unfed; whole = r.whole; untaken = r.untaken; output = r.output } };
}

impl Run {
    ghost use Rattle.std.specs.Prelude.{◌≡◌, true, false, None, is_ok, IsErr, OnOk, OnErr};
    ghost use Rattle.host_trace.specs.Decider.{is_websocket};
    ghost use Rattle.child_core.specs.View.{begun, drops_output};
    ghost use Rattle.child_core.specs.Calls.{heard, is_kept, fits_run, offered, decided, refused, ended, closed, drained, is_settled, wants_more, takes_input, wants_text};
    ghost use Rattle.child_core.specs.declared.ending.Outcome.TheVariants.{Failed};
    ghost use Rattle.host_trace.specs.declared.items.Event.TheVariants.{Tick, ChildBytes, ChildEof, ChildBroken};

    /// The run of child `k`, whose Start is given. It takes no memory.
    pub fn new(alloc: Global, k: u64, kind: ScriptKind, limits: &Limits) -> Self
        ensures { result ≡ begun k kind limits.now }
    {
        Run {
            number: k,
            kind,
            book: limits.children,
            linger_ticks: limits.linger_ticks,
            started: false,
            refused: false,
            exited: false,
            input_ended: false,
            output_ended: false,
            killed: false,
            asked: false,
            outcome: None,
            hung_up: false,
            abandoned: false,
            run_left: Deadline::after(limits.run_ticks),
            linger_left: Deadline::after(limits.linger_ticks),
            output_left: limits.output,
            unfed: Unfed::new(alloc),
            whole: false,
            untaken: 0,
            output: Bytes::new(alloc),
            alloc,
        }
    }

    /// Whether an event that names the child may come next; true for every other event.
    pub fn fits(&self, ev: &Event) -> bool
        ensures { result ≡ fits_run self.now ev.now }
    {
        let open = self.started && !self.output_ended && self.asked;
        match ev {
            Event::Started { k } | Event::StartFailed { k } => self.number != *k
                || !(self.started || self.refused),
            Event::StartFull { k, seen } => {
                self.number != *k || !(self.started || self.refused) && *seen == self.book
            }
            Event::ChildBytes { k, bytes } => {
                let len = bytes.len();
                self.number != *k || open && 0 < len && len <= 65_536
            }
            Event::ChildEof { k } | Event::ChildBroken { k } => self.number != *k || open,
            Event::Took { k, n } => {
                self.number != *k || self.started && 1 <= *n && *n <= self.untaken
            }
            Event::InputGone { k } => self.number != *k || self.started && !self.input_ended,
            Event::Exited { k } => self.number != *k || self.started && !self.exited,
            _ => true,
        }
    }

    /// Takes an event of the child, Tick or Stop into account, and gives no act; every other event changes
    /// nothing. `NoMemory` only at output that is to be kept: the event counts as heard, and its bytes are not kept.
    pub fn hear(&mut self, ev: &Event) -> Result<(), NoMemory>
        ensures run { self.new ≡ heard self.old ev.now (is_ok result) }
        ensures memory { IsErr result → is_kept self.old ev.now ≡ true }
    {
        match ev {
            Event::Tick { .. } => self.hear_tick(),
            Event::Stop => self.end_by(Ending::Stopped),
            Event::ChildBytes { k, bytes } => return self.hear_output(*k, bytes),
            Event::ChildEof { k } => self.hear_end(*k),
            Event::ChildBroken { k } => self.hear_broken(*k),
            Event::StartFailed { k } => {
                if self.number == *k {
                    self.refuse(Cause::StartFailed);
                }
            }
            Event::StartFull { k, seen } => {
                if self.number == *k {
                    self.refuse(Cause::Full { seen: *seen });
                }
            }
            Event::Started { k } => self.started |= self.number == *k,
            Event::Exited { k } => self.exited |= self.number == *k,
            Event::InputGone { k } => self.input_ended |= self.number == *k,
            Event::Took { k, n } => {
                if self.number == *k {
                    self.untaken = self.untaken.saturating_sub(*n);
                }
            }
            _ => {}
        }
        Ok(())
    }

    fn hear_tick(&mut self)
        ensures { self.new ≡ heard self.old (Tick 0) true }
    {
        if self.hung_up || self.outcome == Some(Outcome::Output) {
            let _over = self.linger_left.tick();
        }
        let over = self.run_left.tick();
        if over && self.kind != ScriptKind::WebSocket {
            self.decide(Outcome::Failed(Cause::RunTime));
        }
    }

    // It could not be started.
    fn refuse(&mut self, cause: Cause)
        ensures { self.new ≡ refused self.old (Failed cause) }
    {
        self.refused = true;
        self.decide(Outcome::Failed(cause));
    }

    fn hear_broken(&mut self, k: u64)
        ensures { self.new ≡ heard self.old (ChildBroken k) true }
    {
        if self.number == k {
            self.asked = false;
            self.output_ended = true;
            self.decide(Outcome::Failed(Cause::OutputBroken));
        }
    }

    fn hear_end(&mut self, k: u64)
        ensures { self.new ≡ heard self.old (ChildEof k) true }
    {
        if self.number == k {
            self.asked = false;
            self.output_ended = true;
            if self.outcome.is_none() {
                self.abandoned = false;
                self.linger_left = Deadline::after(self.linger_ticks);
            }
            self.decide(Outcome::Output);
        }
    }

    fn hear_output(&mut self, k: u64, bytes: &Bytes) -> Result<(), NoMemory>
        ensures run { self.new ≡ heard self.old (ChildBytes k bytes.now) (is_ok result) }
        ensures memory { IsErr result → is_kept self.old (ChildBytes k bytes.now) ≡ true }
    {
        if self.number != k {
            return Ok(());
        }
        self.asked = false;
        let len = bytes.len() as u64;
        let long = self.output_left < len;
        self.output_left = self.output_left.saturating_sub(len);
        if long && self.kind != ScriptKind::WebSocket {
            self.decide(Outcome::Failed(Cause::OutputTooLarge));
        }
        if self.drops_output() {
            return Ok(());
        }
        self.output.extend_from_slice(bytes.as_slice())
    }

    // Whether output is not kept.
    fn drops_output(&self) -> bool
        ensures { result ≡ drops_output self.now.kind self.now.outcome }
    {
        let other = match self.outcome {
            None | Some(Outcome::Output) => false,
            Some(_) => true,
        };
        self.kind == ScriptKind::WebSocket || other
    }

    // Decides the run, unless it was.
    fn decide(&mut self, outcome: Outcome)
        ensures { self.new ≡ decided self.old outcome }
    {
        if self.outcome.is_none() {
            self.outcome = Some(outcome);
        }
        self.unfed.clear();
        self.whole = false;
        if self.drops_output() {
            self.output = Bytes::new(self.alloc);
        }
    }

    /// Keeps bytes to be fed, `last` where no more follow, and gives no act. Of a run that is decided nothing is
    /// kept. For want of memory nothing changes.
    pub fn offer(&mut self, bytes: &[u8], last: bool) -> Result<(), NoMemory>
        requires { self.old.whole ≡ false }
        ensures ok { OnOk result (self.new ≡ offered self.old bytes.now last) }
        ensures err { OnErr result (self.new ≡ self.old) }
        ensures memory { IsErr result → self.old.outcome ≡ None }
    {
        if self.outcome.is_some() {
            return Ok(());
        }
        self.unfed.push(bytes)?;
        self.whole = last;
        Ok(())
    }

    /// The child's number.
    pub fn number(&self) -> u64
        ensures { result ≡ self.now.number }
    {
        self.number
    }

    /// Whether all that is to be fed was offered; false for a run that is decided.
    pub fn is_offered_whole(&self) -> bool
        ensures { result ≡ self.now.whole }
    {
        self.whole
    }

    /// Ends the run for a reason of its connection, and gives no act. An outcome that stands is not changed. No Feed
    /// is due afterwards. It takes no memory.
    pub fn end_by(&mut self, end: Ending)
        ensures { self.new ≡ ended self.old end }
    {
        let outcome = match end {
            Ending::Gone => Outcome::Gone,
            Ending::Stopped => Outcome::Stopped,
            Ending::Dropped | Ending::Refused => Outcome::Dropped,
            Ending::Incomplete => Outcome::Failed(Cause::Incomplete),
        };
        let waits = match end {
            Ending::Gone | Ending::Stopped | Ending::Dropped => false,
            Ending::Refused | Ending::Incomplete => true,
        };
        if !waits {
            self.abandoned = true;
        }
        self.decide(outcome);
    }

    /// The client closed its WebSocket: the input is to be ended, and a child that is still undecided when it has
    /// lingered as long as it may is killed, or released if it has exited. It takes no memory.
    pub fn close_input(&mut self)
        requires { is_websocket self.old.kind ≡ true }
        ensures { self.new ≡ closed self.old }
    {
        self.hung_up = true;
    }

    /// What became of the run, where something decided it.
    pub fn outcome(&self) -> Option<Outcome>
        ensures { result ≡ self.now.outcome }
    {
        self.outcome
    }

    /// The output heard and not drained. It is empty for a WebSocket's program, and for a run that was decided by
    /// another item than the end of its output.
    pub fn output(&self) -> &[u8]
        ensures { result.now ≡ self.now.output }
    {
        self.output.as_slice()
    }

    /// Hands out the output heard and not drained before. The limit still counts all of it. It takes no memory.
    pub fn drain(&mut self) -> Bytes
        ensures output { result ≡ self.old.output }
        ensures run { self.new ≡ drained self.old }
    {
        mem::replace(&mut self.output, Bytes::new(self.alloc))
    }

    /// Whether nothing of the child is left: it was not started, or it was reaped and its input and its output ended.
    pub fn settled(&self) -> bool
        ensures { result ≡ is_settled self.now }
    {
        self.refused || self.exited && self.input_ended && self.output_ended
    }

    /// Whether more of its client may be heard for it: all that was fed was taken, or it is a WebSocket's program
    /// whose input ended or that has exited.
    pub fn wants_more(&self) -> bool
        ensures { result ≡ wants_more self.now }
    {
        let talks = self.kind == ScriptKind::WebSocket;
        self.untaken == 0 || talks && (self.input_ended || self.exited)
    }

    /// Whether it is the run of a WebSocket's program.
    pub fn is_websocket(&self) -> bool
        ensures { result ≡ is_websocket self.now.kind }
    {
        self.kind == ScriptKind::WebSocket
    }

    /// Whether bytes that are offered will be fed: nothing decided the run, its input has not ended, its child has not
    /// exited, and not all was offered.
    pub fn takes_input(&self) -> bool
        ensures { result ≡ takes_input self.now }
    {
        let decided = self.outcome.is_some();
        !(decided || self.input_ended || self.exited || self.whole)
    }

    /// For a WebSocket's program: whether a text of its client may be heard for it. It was started, and wants more.
    pub fn wants_text(&self) -> bool
        ensures { result ≡ wants_text self.now }
    {
        let wants = self.wants_more();
        self.started && wants
    }
}
