// What an event changes.
use crate::conn::HttpConn;
use child_core::Ending;
use exchange_stage::Stage;
use host_base::{Bytes, Cause, NoMemory, Peer};
use host_trace::Event;
use limit_clock::Deadline;

impl<'s> HttpConn<'s> {
    ghost use Rattle.std.specs.Prelude.{ℕ, ◌≡◌, ◌≤◌, ◌||◌, ◌&&◌, ◌==◌, not, IfOk, OnErr, OnOk, is_some};
    ghost use Rattle.std.specs.Prelude.{List, Some, true, false};
    ghost use Rattle.host_trace.specs.declared.items.Item.TheVariants.{In};
    ghost use Rattle.host_trace.specs.declared.items.Event.TheVariants.{Accepted, ClientBytes, Tick};
    ghost use Rattle.host_trace.specs.Kinds.{is_tick};
    ghost use Rattle.request_reader.specs.Request.{is_begun};
    ghost use Rattle.exchange_request.specs.Knows.{KnowsRequest, limits_of};
    ghost use Rattle.http_state.specs.Kept.{Heard, HeardOwn, Kept, peer_of, site_of};
    ghost use Rattle.http_state.specs.Moves.{IdlesOut, OnlyBody, grown_stage, ticked_stage};
    ghost use Rattle.http_state.specs.Settles.{is_answered};
    ghost use Rattle.http_state.specs.Slot.{run_settled};
    ghost use Rattle.http_state.specs.Hears.{Hears, HearsBody, HearsBytes, HearsEnd, HearsOwn, HearsTick, IdleEnds, Interrupts, Offers, accepted, is_untouched, keeps_of, offered_run, takes_body, told_run};
    ghost use Rattle.exchange_request.specs.Knows.{is_taken};
    ghost use Rattle.host_base.specs.declared.cause.Cause.TheVariants as Causes;
    /// Takes an event into account.
    pub fn hear(&mut self, ev: Event)
        ensures heard { Heard self.old ev self.new }
        ensures exact { Hears self.old ev self.new }
    {
        self.flags.hear(&ev);
        let _found = self.hear_run(&ev);
        self.hear_own(ev);
        self.settle();
    }

    fn hear_own(&mut self, ev: Event)
        ensures front { HeardOwn self.old ev self.new }
        ensures own { HearsOwn ev self.old self.new }
    {
        match ev {
            Event::Accepted { peer } => self.hear_accepted(peer),
            Event::ClientBytes { c, bytes } => {
                if self.flags.c() == c {
                    self.hear_bytes(bytes);
                }
            }
            Event::ClientEof { c } => {
                if self.flags.c() == c {
                    self.hear_end();
                }
            }
            Event::ClientGone { c } | Event::WsBad { c } => {
                if self.flags.c() == c {
                    self.end_run(Ending::Gone);
                }
            }
            Event::NoRoom { c } => {
                if self.flags.c() == c {
                    self.lose();
                }
            }
            Event::Tick { .. } => self.hear_tick(),
            _ => {}
        }
    }

    // What its child hears; false where there was no room for its output.
    fn hear_run(&mut self, ev: &Event) -> bool
        ensures value { self.new ≡ told_run ev.now result self.old }
        ensures memory { result ≡ false → keeps_of self.old.run ev.now ≡ true }
        ensures kept { Kept self.old self.new }
        ensures settled { is_tick (In ev.now) ≡ true → run_settled self.new.run ≡ run_settled self.old.run }
    {
        let heard = match &mut self.run {
            None => Ok(()),
            Some(run) => run.hear(ev),
        };
        let found = heard.is_ok();
        if !found {
            self.lose();
        }
        found
    }

    fn hear_accepted(&mut self, peer: Peer)
        ensures front { HeardOwn self.old (Accepted peer) self.new }
        ensures own { self.new ≡ accepted peer self.old }
    {
        self.idle_left = Deadline::after(self.site.limits.idle_ticks);
        if self.peer.is_none() {
            self.peer = Some(peer);
        }
    }

    fn hear_bytes(&mut self, bytes: Bytes)
        ensures front { HeardOwn self.old (ClientBytes self.old.flags.c bytes) self.new }
        ensures own { HearsBytes bytes self.old self.new }
    {
        self.idle_left = Deadline::after(self.site.limits.idle_ticks);
        match self.request.feed(bytes.as_slice()) {
            Ok(()) => {
                let _found = self.hear_body();
            }
            Err(_) => self.lose(),
        }
    }

    // Offers the child what came of the body of a request that is served already; false where memory ran out.
    fn hear_body(&mut self) -> bool
        ensures front { OnlyBody self.old self.new }
        ensures own { HearsBody result self.old self.new }
    {
        if matches!(self.stage, Stage::Reading)
            || self.request.is_whole()
            || self.request.manner().is_none()
        {
            return true;
        }
        match self.request.more_body() {
            Ok(body) => self.offer(body),
            Err(_) => {
                self.lose();
                false
            }
        }
    }

    // False where memory ran out.
    fn offer(&mut self, body: Bytes) -> bool
        ensures kept { Kept self.old self.new }
        ensures own { Offers result body self.old self.new }
    {
        let kept = self.keep_body(&body);
        let offered = self.offer_run(&body);
        let found = kept.is_ok() && offered.is_ok();
        if !found {
            self.lose();
        }
        found
    }

    // A script that waits for its turn is started with what came of the body until then.
    fn keep_body(&mut self, body: &Bytes) -> Result<(), NoMemory>
        ensures kept { Kept self.old self.new }
        ensures value { OnOk result (self.new ≡ record self.old { stage = grown_stage body.now self.old.stage }) }
        ensures rest { self.new ≡ record self.old { stage = self.new.stage } }
        ensures answered { is_answered self.new.stage ≡ is_answered self.old.stage }
    {
        if let Stage::Unstarted { hop, request } = &mut self.stage {
            if *hop == 0 {
                return request.body.extend_from_slice(body.as_slice());
            }
        }
        Ok(())
    }

    // One that runs is offered it.
    fn offer_run(&mut self, body: &Bytes) -> Result<(), NoMemory>
        ensures kept { Kept self.old self.new }
        ensures value { OnOk result (self.new ≡ record self.old { run = offered_run (takes_body self.old.stage self.old.run) body.now (is_taken self.old.request) self.old.run }) }
        ensures err { OnErr result (self.new ≡ self.old) }
    {
        let whole = self.request.is_whole();
        let is_first = matches!(&self.stage, Stage::Running(leg) if leg.hop == 0);
        match &mut self.run {
            Some(run) if is_first && !run.is_offered_whole() => run.offer(body.as_slice(), whole),
            _ => Ok(()),
        }
    }

    // The end of the client's input.
    fn hear_end(&mut self)
        ensures kept { Kept self.old self.new }
        ensures own { HearsEnd self.old self.new }
    {
        if self.request.is_whole() {
            return;
        }
        match &self.stage {
            Stage::Running(leg) => {
                if leg.hop == 0 {
                    self.end_run(Ending::Incomplete);
                }
            }
            _ => self.interrupt(Cause::Incomplete),
        }
    }

    // A request that has begun, and for which nothing was done, is broken.
    fn interrupt(&mut self, cause: Cause)
        ensures kept { Kept self.old self.new }
        ensures own { Interrupts cause self.old self.new }
    {
        if self.is_untouched() && !self.flags.is_shut() && self.request.has_begun() {
            self.put(Stage::Interrupted(cause));
        }
    }

    // Nothing was done for its request.
    fn is_untouched(&self) -> bool
        ensures { result ≡ is_untouched self.now }
    {
        match &self.stage {
            Stage::Reading | Stage::Refused(_) | Stage::Unstarted { .. } => self.run.is_none(),
            _ => false,
        }
    }

    fn hear_tick(&mut self)
        ensures front { (secs : ℕ) → HeardOwn self.old (Tick secs) self.new }
        ensures own { HearsTick self.old self.new }
    {
        self.note_tick();
        if self.is_settled() && self.idle_left.tick() {
            self.idle_out();
        }
    }

    // A reply may be due because of the Tick.
    fn note_tick(&mut self)
        ensures { self.new ≡ record self.old { stage = ticked_stage self.old.stage } }
    {
        if let Stage::Running(leg) = &mut self.stage {
            leg.ticked = true;
        }
    }

    // The client sent nothing for the idle time.
    fn idle_out(&mut self)
        ensures front { IdlesOut self.old self.new }
        ensures own { IdleEnds self.old self.new }
    {
        if self.request.has_begun() {
            self.interrupt(Cause::IdleTime);
        } else {
            self.idled |= self.peer.is_some();
        }
    }
}
