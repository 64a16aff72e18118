// The state of a connection that speaks WebSocket, and a step.
use child_core::{Ending, Run};
use conn_flags::Flags;
use host_base::Site;
use host_trace::{Event, Outside};
use talk_core::Talk;

/// One connection of a site that speaks WebSocket, from the Start of its program on.
#[derive(Drop)]
pub struct TalkConn<'s> {
    pub(crate) site: &'s Site,
    /// What was heard and done of it beside its talk.
    pub(crate) flags: Flags,
    /// Memory ran out.
    pub(crate) lost: bool,
    pub(crate) talk: Talk,
    /// The program.
    pub(crate) run: Run,
}

impl<'s> TalkConn<'s> {
    ghost use Rattle.std.specs.Prelude.{◌≡◌, ◌||◌, true, false};
    ghost use Rattle.host_trace.specs.declared.items.Item.TheVariants.{In};
    ghost use Rattle.host_trace.specs.Decider.{is_websocket};
    ghost use Rattle.host_trace.specs.Kinds.{is_no_room};
    ghost use Rattle.talk_core.specs.Hearing.{takes_memory};
    ghost use Rattle.talk_conn.specs.Parts.{given_up_conn, heard_conn};
    ghost use Rattle.talk_conn.specs.Step.{Stepped};
    ghost use Rattle.talk_conn.specs.Slot.{unsettled_child_of, fits_talk, is_held, last_child_of};
    ghost use Rattle.talk_conn.specs.View.{flags_of, run_of, site_of, talk_of, was_lost};
    /// A connection that was upgraded, with the talk that began with the Start of this run. It takes no memory.
    pub fn new(site: &'s Site, flags: Flags, talk: Talk, run: Run) -> Self
        ensures site { site_of result ≡ site.now }
        ensures flags { flags_of result ≡ flags }
        ensures talk { talk_of result ≡ talk }
        ensures run { run_of result ≡ run }
        ensures found { was_lost result ≡ false }
    {
        TalkConn {
            site,
            flags,
            lost: false,
            talk,
            run,
        }
    }

    /// One step: an event of the connection or of its child, a Tick or Stop, and the acts that it makes due.
    pub fn step<O: Outside>(&mut self, ev: &Event, out: &mut O)
        requires talks { is_websocket (run_of self.old).kind ≡ true }
        ensures stepped { Stepped self.old ev.now (O.trace out.old) self.new (O.trace out.new) }
        ensures limit { O.limit out.new ≡ O.limit out.old }
    {
        let _heard = self.hear(ev);
        let _said = self.say(out);
        let _acted = self.act(out);
        self.close(out);
        self.want(out);
    }

    /// Whether an event that names it or its child may come next.
    pub fn fits(&self, ev: &Event) -> bool
        ensures { result ≡ fits_talk self.now ev.now }
    {
        self.flags.fits(ev) && self.run.fits(ev)
    }

    /// Its child, settled or not.
    pub fn last_child(&self) -> u64
        ensures { result ≡ last_child_of self.now }
    {
        self.run.number()
    }

    /// The child that is not settled.
    pub fn unsettled_child(&self) -> Option<u64>
        ensures { result ≡ unsettled_child_of self.now }
    {
        if self.run.settled() {
            None
        } else {
            Some(self.run.number())
        }
    }

    /// Whether it still holds its slot: it is not shut, or its child is not settled.
    pub fn is_held(&self) -> bool
        ensures { result ≡ is_held self.now }
    {
        !self.flags.is_shut() || !self.run.settled()
    }

    // Takes an event into account, and gives no act; false where memory ran out for it.
    fn hear(&mut self, ev: &Event) -> bool
        requires talks { is_websocket self.old.run.kind ≡ true }
        ensures value { self.new ≡ heard_conn result ev.now self.old }
        ensures memory { result ≡ false → (takes_memory self.old.talk ev.now || is_no_room self.old.flags.c (In ev.now)) ≡ true }
        ensures room { result ≡ true → is_no_room self.old.flags.c (In ev.now) ≡ false }
    {
        let unheard = self.is_unheard(ev);
        self.flags.hear(ev);
        let heard = self.talk.hear(ev, &mut self.run).is_ok();
        if heard && !unheard {
            return true;
        }
        self.give_up();
        false
    }

    // No memory was found to hear it.
    fn is_unheard(&self, ev: &Event) -> bool
        ensures { result ≡ is_no_room self.now.flags.c (In ev.now) }
    {
        match ev {
            Event::NoRoom { c } => self.flags.c() == *c,
            _ => false,
        }
    }

    // Memory ran out: the talk is over, and its child given up.
    pub(crate) fn give_up(&mut self)
        ensures { self.new ≡ given_up_conn self.old }
    {
        self.lost = true;
        self.talk.shut();
        self.run.end_by(Ending::Dropped);
    }
}
