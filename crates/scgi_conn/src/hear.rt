// What an event changes.
ghost use Rattle.std.specs.Prelude.{◌≡◌, true, false, IfOk, OnOk};
ghost use Rattle.child_core.specs.Calls.{is_kept};
ghost use Rattle.scgi_conn.specs.Parts.{run_heard};

use crate::conn::ScgiConn;
use crate::due::{break_off, fault, with_bytes, with_output};
use crate::stage::{End, Stage};
use child_core::{Ending, Outcome, Run};
use host_base::{Bytes, Cause, NoMemory};
use host_trace::Event;
use limit_clock::Deadline;
use scgi_reader::Reading;

// What the run of a child of connection `c` hears; false where there was no room for the output of its child, and it is
// given up.
fn hear_in(run: &mut Run, c: u64, ev: &Event) -> bool
    ensures value { run.new ≡ run_heard c result ev.now run.old }
    ensures memory { result ≡ false → is_kept run.old ev.now ≡ true }
{
    match ev {
        Event::ClientGone { c: d } | Event::WsBad { c: d } => {
            if c == *d {
                run.end_by(Ending::Gone);
            }
            true
        }
        Event::NoRoom { c: d } => {
            if c == *d {
                run.end_by(Ending::Dropped);
            }
            true
        }
        _ => {
            let found = run.hear(ev).is_ok();
            if !found {
                run.end_by(Ending::Dropped);
            }
            found
        }
    }
}

impl<'s> ScgiConn<'s> {
    ghost use Rattle.std.specs.Prelude.{◌≡◌, true, false, IfOk, OnOk, Some};
    ghost use Rattle.host_base.specs.SiteRules.{HasHosts};
    ghost use Rattle.child_core.specs.declared.ending.Outcome.{Outcome as Ended};
    ghost use Rattle.scgi_conn.specs.Stages.{after_event, after_run};
    ghost use Rattle.scgi_conn.specs.Parts.{drained_run, handed_run, heard_by, heard_conn, idle_after, is_idle_end, outcome_of, output_of, run_kept, settled_by, settled_conn, told_conn};
    // The event, as far as its child and what stands beside its request go; false where memory ran out for the child's
    // output.
    pub(crate) fn hear_run(&mut self, ev: &Event) -> bool
        ensures value { self.new ≡ told_conn result ev.now self.old }
        ensures memory { result ≡ false → run_kept self.old.run ev.now ≡ true }
    {
        self.flags.hear(ev);
        let c = self.flags.c();
        match &mut self.run {
            Some(run) => hear_in(run, c, ev),
            None => true,
        }
    }

    // The event, where more of the request is to come; false where memory ran out.
    pub(crate) fn hear(&mut self, ev: &Event) -> bool
        requires { HasHosts self.old.site.now.hosts }
        ensures { self.new ≡ heard_conn result ev.now self.old }
    {
        match self.take_stage() {
            Stage::Hearing(reading) => self.go_on(reading, ev),
            stage => {
                self.put(stage);
                true
            }
        }
    }

    fn go_on(&mut self, reading: Reading, ev: &Event) -> bool
        requires { HasHosts self.old.site.now.hosts }
        ensures { self.new ≡ heard_by result reading ev.now self.old }
    {
        let met = self.hear_idle(ev);
        match self.next_stage(reading, ev, met) {
            Ok(stage) => {
                self.put(stage);
                true
            }
            Err(NoMemory) => {
                self.lose();
                false
            }
        }
    }

    // Counts the Ticks without a byte of the client; true for the one that meets the limit.
    fn hear_idle(&mut self, ev: &Event) -> bool
        ensures met { result ≡ is_idle_end self.old ev.now }
        ensures value { self.new ≡ record self.old { idle = idle_after self.old ev.now } }
    {
        match ev {
            Event::Accepted { .. } => self.rest(),
            Event::ClientBytes { c, .. } => {
                if self.flags.c() == *c {
                    self.rest();
                }
            }
            Event::Tick { .. } => {
                if self.flags.is_live() {
                    return self.idle.tick();
                }
            }
            _ => {}
        }
        false
    }

    // The count begins anew.
    fn rest(&mut self)
        ensures { self.new ≡ record self.old { idle = self.old.site.now.limits.idle_ticks } }
    {
        self.idle = Deadline::after(self.site.limits.idle_ticks);
    }

    fn next_stage(&self, reading: Reading, ev: &Event, met: bool) -> Result<Stage, NoMemory>
        requires { HasHosts self.now.site.now.hosts }
        ensures { IfOk result (λ stage. stage ≡ after_event self.now.site.now.hosts self.now.flags.c met ev.now reading) }
    {
        let own = self.flags.c();
        match ev {
            Event::ClientBytes { c, bytes } if own == *c => {
                with_bytes(self.alloc, self.site, reading, bytes.as_slice())
            }
            Event::ClientEof { c } if own == *c => {
                break_off(self.alloc, &reading, Cause::Incomplete, End::Done)
            }
            Event::Tick { .. } if met => {
                break_off(self.alloc, &reading, Cause::IdleTime, End::Idle)
            }
            Event::ClientGone { c } | Event::WsBad { c } if own == *c => Ok(Stage::Over(End::Gone)),
            Event::NoRoom { c } if own == *c => Ok(Stage::Over(End::NoMemory)),
            Event::Stop => Ok(Stage::Over(End::Stopped)),
            _ => Ok(Stage::Hearing(reading)),
        }
    }

    // Its answer, where its run was decided; false where memory ran out for it.
    pub(crate) fn settle(&mut self) -> bool
        ensures { self.new ≡ settled_conn result self.old }
    {
        match self.stage {
            Stage::Running => self.settle_run(),
            _ => true,
        }
    }

    fn settle_run(&mut self) -> bool
        ensures { self.new ≡ settled_by result (outcome_of self.old.run) self.old }
    {
        match self.outcome() {
            None => true,
            Some(outcome) => self.decide(outcome),
        }
    }

    fn decide(&mut self, outcome: Outcome) -> bool
        ensures { self.new ≡ settled_by result (Some outcome) self.old }
    {
        match self.answer(outcome) {
            Ok(stage) => {
                self.put(stage);
                true
            }
            Err(NoMemory) => {
                self.lose();
                false
            }
        }
    }

    // What decided its child's run.
    fn outcome(&self) -> Option<Outcome>
        ensures { result ≡ outcome_of self.now.run }
    {
        match &self.run {
            None => None,
            Some(run) => run.outcome(),
        }
    }

    // What comes of it. The output is moved.
    fn answer(&mut self, outcome: Outcome) -> Result<Stage, NoMemory>
        ensures stage { IfOk result (λ stage. stage ≡ after_run (output_of self.old.run) (Some outcome)) }
        ensures run { self.new ≡ record self.old { run = handed_run outcome self.old.run } }
    {
        match outcome {
            Outcome::Output => {
                let output = self.drain();
                with_output(self.alloc, output)
            }
            Outcome::Failed(cause) => fault(self.alloc, cause),
            Outcome::Gone => Ok(Stage::Over(End::Gone)),
            Outcome::Stopped => Ok(Stage::Over(End::Stopped)),
            Outcome::Dropped => Ok(Stage::Over(End::NoMemory)),
        }
    }

    fn drain(&mut self) -> Bytes
        ensures output { result ≡ output_of self.old.run }
        ensures run { self.new ≡ record self.old { run = drained_run self.old.run } }
    {
        match &mut self.run {
            Some(run) => run.drain(),
            None => Bytes::new(self.alloc),
        }
    }
}
