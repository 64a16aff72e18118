// An outside that tells its trace, over one that need not.
ghost use Rattle.std.specs.Prelude.{◌≡◌};
ghost use Rattle.told_outside.specs.Ties.{Ties};

use super::tallies::Tallies;
use host_trace::{Act, Acted, Event, Outside};
use std::alloc::Global;
use std::sync::Wait;
use trace_log::TraceLog;

/// An outside that tells what the one below it handed up and did. An event of that one that doesn't fit is dropped, and
/// the one below is asked again.
pub struct ToldOutside<O: Outside, R> {
    rt: R,
    inner: O,
    log: TraceLog,
    tallies: Tallies,
    limit: u32,
    dropped: u64,
    ghost limited: { O.limit inner ≡ limit },
    ghost ties: { Ties tallies log },
}

impl<O: Outside, R: Wait + Copy + Drop> ToldOutside<O, R> {
    ghost use Rattle.std.specs.Prelude.{◌≡◌, ◌≤◌, ◌++◌, ◌∷◌, [], true, false, None, IfSome, IsNone};
    ghost use Rattle.host_base.specs.Outsides.{Rose};
    ghost use Rattle.host_trace.specs.declared.items.Item.{Item};
    ghost use Rattle.host_trace.specs.Fits.{fits};
    ghost use Rattle.host_trace.specs.Account.{slots_held};
    ghost use Rattle.host_trace.specs.Told.{is_failure, is_full_book, carries_nothing};
    ghost use Rattle.told_outside.specs.Counts.{unsettled_count};

    /// Over an outside where as many children as `limit` may run.
    pub fn new(rt: R, alloc: Global, inner: O, limit: u32) -> Self
        requires { O.limit inner ≡ limit }
        ensures told { result.log ≡ [] }
        ensures inner { result.inner ≡ inner }
        ensures limit { result.limit ≡ limit }
        ensures dropped { result.dropped ≡ 0 }
    {
        ToldOutside {
            rt,
            inner,
            log: TraceLog::new(),
            tallies: Tallies::new(alloc),
            limit,
            dropped: 0,
        }
    }

    /// The outside below, and the trace.
    pub fn into_parts(self) -> (O, TraceLog)
        ensures { (result.0 ≡ self.inner) × (result.1 ≡ self.log) }
    {
        let ToldOutside {
            rt: _,
            inner,
            log,
            tallies: _,
            limit: _,
            dropped: _,
        } = self;
        (inner, log)
    }

    /// How many events of the outside below were dropped, up to the last value of a u64.
    pub fn dropped(&self) -> u64
        ensures { result ≡ self.now.dropped }
    {
        self.dropped
    }

    /// How many rows it keeps in memory: of connections, of which no more are kept than hold a slot, and of children, no
    /// more than are not settled.
    pub fn row_counts(&self) -> (usize, usize)
        ensures clients { result.0 ≤ slots_held self.now.log }
        ensures children { result.1 ≤ unsettled_count self.now.log }
    {
        (self.tallies.clients.count(), self.tallies.children.count())
    }

    // Tells that no memory was found for a connection, where that is so.
    fn tell_orphan(&mut self) -> Option<Event>
        ensures none { IsNone result → self.new.log ≡ self.old.log }
        ensures number { self.new.limit ≡ self.old.limit }
        ensures some { IfSome result (λ event. (fits self.old.limit self.old.log event ≡ true) × (self.new.log ≡ self.old.log ++ Item.In event ∷ [])) }
        ensures kind { IfSome result (λ event. (is_failure event ≡ false) × (is_full_book event ≡ false)) }
        ensures same { (self.new.inner ≡ self.old.inner) × (self.new.dropped ≡ self.old.dropped) }
    {
        let c = self.tallies.take_orphan()?;
        let event = Event::NoRoom { c };
        self.tallies.hear(&event);
        self.log = self.log.heard(&event);
        Some(event)
    }

    // The next event of the outside below where it fits, and else it is dropped.
    fn take_next(&mut self) -> Option<Event>
        ensures none { IsNone result → self.new.log ≡ self.old.log }
        ensures number { self.new.limit ≡ self.old.limit }
        ensures some { IfSome result (λ event. (fits self.old.limit self.old.log event ≡ true) × (self.new.log ≡ self.old.log ++ Item.In event ∷ [])) }
        ensures limit { O.limit self.new.inner ≡ O.limit self.old.inner }
        ensures faults { O.faults self.old.inner ≤ O.faults self.new.inner }
        ensures full_books { O.full_books self.old.inner ≤ O.full_books self.new.inner }
        ensures failure { IfSome result (λ event. is_failure event ≡ true → Rose (O.faults self.old.inner) (O.faults self.new.inner)) }
        ensures full { IfSome result (λ event. is_full_book event ≡ true → Rose (O.full_books self.old.inner) (O.full_books self.new.inner)) }
    {
        let event = self.inner.next();
        if !self.tallies.take(&event, self.limit) {
            self.dropped = self.dropped.saturating_add(1);
            return None;
        }
        self.log = self.log.heard(&event);
        Some(event)
    }

    // The next event that fits.
    fn wait_for_next(&mut self) -> Event
        ensures fits { fits self.old.limit self.old.log result ≡ true }
        ensures log { self.new.log ≡ self.old.log ++ Item.In result ∷ [] }
        ensures limit { O.limit self.new.inner ≡ O.limit self.old.inner }
        ensures faults { O.faults self.old.inner ≤ O.faults self.new.inner }
        ensures full_books { O.full_books self.old.inner ≤ O.full_books self.new.inner }
        ensures failure { is_failure result ≡ true → Rose (O.faults self.old.inner) (O.faults self.new.inner) }
        ensures full { is_full_book result ≡ true → Rose (O.full_books self.old.inner) (O.full_books self.new.inner) }
    {
        if let Some(event) = self.tell_orphan() {
            return event;
        }
        let rt = self.rt;
        for _ in rt.forever() {
            match self.take_next() {
                Some(event) => return event,
                None => {}
            }
        }
        unreachable!()
    }

    // The act, where a row was found for it.
    fn do_act(&mut self, act: &Act) -> Acted
        ensures done { result ≡ Acted.Done → self.new.log ≡ self.old.log ++ Item.Out act.now ∷ [] }
        ensures none { result ≡ Acted.NoRoom → self.new.log ≡ self.old.log }
        ensures room { carries_nothing act.now ≡ true → result ≡ Acted.Done }
        ensures limit { O.limit self.new.inner ≡ O.limit self.old.inner }
        ensures faults { O.faults self.old.inner ≤ O.faults self.new.inner }
        ensures full_books { O.full_books self.old.inner ≤ O.full_books self.new.inner }
    {
        if !self.tallies.make_room(act) {
            return Acted::NoRoom;
        }
        match self.inner.act(act) {
            Acted::Done => {
                self.tallies.ask(act);
                self.log = self.log.done(act);
                Acted::Done
            }
            Acted::NoRoom => Acted::NoRoom,
        }
    }
}

impl<O: Outside, R: Wait + Copy + Drop> Outside for ToldOutside<O, R> {
    ghost use Rattle.std.specs.Prelude.{◌≡◌, ◌≤◌, Some, true};
    ghost use Rattle.host_base.specs.Outsides.{Rose};
    ghost use Rattle.host_trace.specs.Told.{Hears, ActsOn, carries_nothing, is_failure, is_full_book};

    ghost trace = { λ o. Some o.log };

    ghost faults = { λ o. O.faults o.inner };

    ghost full_books = { λ o. O.full_books o.inner };

    ghost limit = { λ o. o.limit };

    fn next(&mut self) -> Event {
        self.wait_for_next()
    }

    fn act(&mut self, act: &Act) -> Acted {
        self.do_act(act)
    }
}
