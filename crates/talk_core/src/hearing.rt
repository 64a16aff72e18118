// What an event makes of a talk.
ghost use Rattle.std.specs.Prelude.{◌≡◌, ◌++◌, false, true, nat_lt, length, is_ok, IfOk, OnOk, OnErr, IsErr};
ghost use Rattle.host_trace.specs.declared.items.Item.TheVariants.{In};
ghost use Rattle.host_trace.specs.Kinds.{is_ws_closed};
ghost use Rattle.host_trace.specs.Decider.{is_websocket};
ghost use Rattle.line_messages.specs.Lines.{has_long_line};
ghost use Rattle.child_core.specs.View.{plain, noted};
ghost use Rattle.child_core.specs.Calls.{offered, takes_input};
ghost use Rattle.talk_core.specs.Hearing.{too_long, line_of, text_line, run_heard_by, heard_by, takes_memory, code_of, read_on, read_out, taken, ended_if};

use crate::talk::Talk;
use child_core::{Ending, Run};
use host_base::{NoMemory, Texts};
use host_trace::Event;
use line_messages::{LineStep, Lines, input_line};
use std::alloc::Global;

// What the run makes of an event of its connection or its child, where nothing is offered with it.
fn hear_run(c: u64, ev: &Event, run: &mut Run)
    requires { is_websocket run.old.kind ≡ true }
    ensures { run.new ≡ noted c run.old plain (In ev.now) }
{
    // the output of a WebSocket's program is not kept by its run, so no memory is wanted
    let _heard = run.hear(ev);
    match ev {
        Event::ClientGone { c: of } | Event::WsBad { c: of } => {
            if c == *of {
                run.end_by(Ending::Gone);
            }
        }
        Event::WsBinary { c: of } => {
            if c == *of {
                run.end_by(Ending::Refused);
            }
        }
        Event::NoRoom { c: of } => {
            if c == *of {
                run.end_by(Ending::Dropped);
            }
        }
        Event::WsClosed { c: of } => {
            if c == *of {
                run.close_input();
            }
        }
        _ => {}
    }
}

// The code of the close frame for a talk that the event ends.
fn code_of(c: u64, k: u64, ev: &Event) -> Option<u16>
    ensures { result ≡ code_of c k ev.now }
{
    match ev {
        Event::ChildEof { k: of } if k == *of => Some(1000),
        Event::WsBinary { c: of } if c == *of => Some(1003),
        Event::WsText { c: of, .. } if c == *of => Some(1009),
        Event::ChildBytes { k: of, .. }
        | Event::ChildBroken { k: of }
        | Event::StartFailed { k: of }
        | Event::StartFull { k: of, .. }
            if k == *of => Some(1011),
        _ => None,
    }
}

// Offers a text as a line, unless it is too long, which is answered, or nothing is fed any more.
fn offer_text(alloc: Global, limit: u64, text: &[u8], run: &mut Run) -> Result<bool, NoMemory>
    ensures run { OnOk result (run.new ≡ offered run.old (text_line limit (takes_input run.old) text.now) false) }
    ensures long { IfOk result (λ long. long ≡ nat_lt limit (length text.now)) }
    ensures err { OnErr result (run.new ≡ run.old) }
{
    if text.len() as u64 > limit {
        return Ok(true);
    }
    if run.takes_input() {
        let line = input_line(alloc, text)?;
        run.offer(line.as_slice(), false)?;
    }
    Ok(false)
}

impl Talk {
    /// Takes an event into account, and gives no act; its run hears it too. What an event made due is to be given by
    /// `act` before the next event is heard. For want of memory the talk is given up, and its run is ended.
    pub fn hear(&mut self, ev: &Event, run: &mut Run) -> Result<(), NoMemory>
        requires talks { is_websocket run.old.kind ≡ true }
        ensures talk { self.new ≡ heard_by (is_ok result) self.old run.old ev.now }
        ensures run { run.new ≡ run_heard_by (is_ok result) self.old run.old ev.now }
        ensures memory { IsErr result → takes_memory self.old ev.now ≡ true }
    {
        let c = self.conn;
        if self.over {
            hear_run(c, ev, run);
            return Ok(());
        }
        let taken = self.take(ev, run);
        hear_run(c, ev, run);
        match taken {
            Err(NoMemory) => {
                run.end_by(Ending::Dropped);
                self.shut();
                Err(NoMemory)
            }
            Ok(is_long) => {
                if is_long {
                    run.end_by(Ending::Refused);
                }
                let decided = run.outcome().is_some();
                self.end_if(decided || self.is_closed_by(ev), ev);
                Ok(())
            }
        }
    }

    // What the event brings: messages, or a line for the child's input; whether it makes a text or a line too long.
    fn take(&mut self, ev: &Event, run: &mut Run) -> Result<bool, NoMemory>
        requires { self.old.over ≡ false }
        ensures talk { OnOk result (self.new ≡ taken self.old ev.now) }
        ensures run { OnOk result (run.new ≡ offered run.old (line_of self.old run.old ev.now) false) }
        ensures long { IfOk result (λ long. long ≡ too_long self.old ev.now) }
        ensures err { OnErr result (self.new ≡ self.old) }
        ensures err_run { OnErr result (run.new ≡ run.old) }
        ensures memory { IsErr result → takes_memory self.old ev.now ≡ true }
    {
        match ev {
            Event::WsText { c, bytes } if self.conn == *c => {
                let long = offer_text(self.alloc, self.limit, bytes.as_slice(), run)?;
                self.texts = Texts::new(self.alloc);
                Ok(long)
            }
            Event::ChildBytes { k, bytes } if self.child == *k => self.read(bytes.as_slice()),
            Event::ChildEof { k } if self.child == *k => {
                self.read_end()?;
                Ok(false)
            }
            _ => {
                self.texts = Texts::new(self.alloc);
                Ok(false)
            }
        }
    }

    // Reads a piece of the output; whether it makes a line too long.
    fn read(&mut self, piece: &[u8]) -> Result<bool, NoMemory>
        ensures ok { OnOk result (self.new ≡ read_on self.old piece.now) }
        ensures long { IfOk result (λ long. long ≡ has_long_line self.old.limit (self.old.rest ++ piece.now)) }
        ensures err { OnErr result (self.new ≡ self.old) }
    {
        match self.lines.feed(piece)? {
            LineStep::Texts(texts) => {
                self.texts = texts;
                Ok(false)
            }
            LineStep::TooLong { before } => {
                self.texts = before;
                self.lines = Lines::new(self.alloc, self.limit);
                Ok(true)
            }
        }
    }

    // The output has ended.
    fn read_end(&mut self) -> Result<(), NoMemory>
        ensures ok { OnOk result (self.new ≡ read_out self.old) }
        ensures err { OnErr result (self.new ≡ self.old) }
    {
        let texts = self.lines.end()?;
        self.texts = texts;
        self.lines = Lines::new(self.alloc, self.limit);
        Ok(())
    }

    fn is_closed_by(&self, ev: &Event) -> bool
        ensures { result ≡ is_ws_closed self.now.conn (In ev.now) }
    {
        match ev {
            Event::WsClosed { c } => self.conn == *c,
            _ => false,
        }
    }

    // The talk goes on, or the event ends it.
    fn end_if(&mut self, over: bool, ev: &Event)
        ensures { self.new ≡ ended_if over self.old ev.now }
    {
        self.code = None;
        self.over = over;
        if over {
            self.code = code_of(self.conn, self.child, ev);
            self.lines = Lines::new(self.alloc, self.limit);
        }
    }
}
