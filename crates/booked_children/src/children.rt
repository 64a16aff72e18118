// The children of a loop and their tickets.
ghost use Rattle.std.specs.Prelude.{◌≡◌, ◌≤◌, if◌then◌else◌, false, vec_len};
ghost use Rattle.child_edge.specs.Rows.{EachSound};
ghost use Rattle.booked_children.specs.Booked.{HaveTickets, is_memory};
ghost use Rattle.host_base.specs.Outsides.{Rose};
ghost use Rattle.host_trace.specs.Told as told;

use super::tickets;
use super::tickets::Held;
use child_book::{Admit, Book, FullCount, FullSeen, Ledger, Share};
use child_edge::{ChildSet, SpawnFault, Spawner};
use host_base::Launch;
use host_trace::{Act, Acted, Event};
use std::alloc::Global;
use std::sync::{Arc, Mutex, Wait};

/// The children of a loop. Between any two calls each child that runs has its ticket, there are no other tickets, and
/// there are as many as its share of the book's ledger says. It can't be dropped: `end` ends the children and spends the tickets.
pub struct BookedChildren<S: Spawner, L: Ledger, R> {
    rt: R,
    book: Arc<Mutex<Book<L>>>,
    share: Share<L>,
    tickets: Vec<Held>,
    set: ChildSet<S>,
    full: FullCount,
    faults: u64,
    ghost one_part: { share.parts ≡ 1 },
    ghost held: { share.amount ≡ vec_len tickets },
    ghost matched: { HaveTickets tickets.items set.rows.items },
    ghost sound: { EachSound S.Kid.tells set.rows.items },
}

// Counts a full book, and tells what was seen.
fn refuse(full: &mut FullCount, k: u64, seen: FullSeen) -> Event
    ensures event { result ≡ Event.StartFull k seen }
    ensures rose { Rose full.old full.new }
    ensures grown { full.old ≤ full.new }
{
    let children = seen.seen();
    full.note(seen);
    Event::StartFull { k, seen: children }
}

fn is_failure(event: &Event) -> bool
    ensures { result ≡ told.is_failure event.now }
{
    match event {
        Event::ClientGone { .. }
        | Event::WsBad { .. }
        | Event::StartFailed { .. }
        | Event::ChildBroken { .. }
        | Event::InputGone { .. } => true,
        _ => false,
    }
}

impl<S: Spawner + Drop, L: Ledger, R: Wait + Drop> BookedChildren<S, L, R> {
    ghost use Rattle.std.specs.Prelude.{◌≡◌, ◌+◌, ◌≤◌, ◌<◌, [], true, ◌==◌, IfSome, IsNone, vec_len, count_by};
    ghost use Rattle.host_base.specs.Outsides.{Rose};
    ghost use Rattle.host_trace.specs.Told as told;
    ghost use Rattle.child_edge.specs.Rows.{OneSays, Each, IsQuiet, AreEnded, kept, is_kept, runs};
    ghost use Rattle.booked_children.specs.Booked.{Begins, ChildrenDo};

    /// Children of which none was started, with one part of the ledger.
    #[tactic(auto, using(crate::proofs::Sounds::each_none, crate::proofs::Matches::have_none))]
    pub fn new(
        rt: R,
        alloc: Global,
        book: Arc<Mutex<Book<L>>>,
        share: Share<L>,
        set: ChildSet<S>,
    ) -> Self
        requires one_part { share.parts ≡ 1 }
        requires none { share.amount ≡ 0 }
        requires empty { set.rows.items ≡ [] }
        ensures set { result.set ≡ set }
        ensures counts { (result.faults ≡ 0) × (result.full ≡ 0) }
    {
        BookedChildren {
            rt,
            book,
            share,
            tickets: Vec::new(alloc),
            set,
            full: FullCount::new(),
            faults: 0,
        }
    }

    /// Hands the start of child k of connection c over, where the book has a place for it: `poll` then tells what became
    /// of it. Else it answers why not. Want of memory is told as NoRoom of the connection, and then `fail` is to tell
    /// that the child was not started.
    #[tactic(auto, using(crate::proofs::Matches::have_same, crate::proofs::Matches::have_kept, crate::proofs::Matches::have_more, crate::proofs::Sounds::each_all, crate::proofs::Sounds::all_each))]
    pub fn begin(&mut self, k: u64, c: u64, launch: &Launch) -> Option<Event>
        ensures begins { Begins S.Kid.tells k c launch.now result (record { rows = self.old.set.rows.items; room = self.old.set.cap; tried = self.old.set.counts }) (record { rows = self.new.set.rows.items; room = self.new.set.cap; tried = self.new.set.counts }) }
        ensures room { self.new.set.cap ≡ self.old.set.cap }
        ensures faults { self.old.faults ≤ self.new.faults }
        ensures full_books { self.old.full ≤ self.new.full }
        ensures failure { IfSome result (λ event. told.is_failure event ≡ true → Rose self.old.faults self.new.faults) }
        ensures full { IfSome result (λ event. told.is_full_book event ≡ true → Rose self.old.full self.new.full) }
    {
        if self.tickets.reserve(1).is_err() {
            return Some(Event::NoRoom { c });
        }
        if !self.set.has_room() {
            return Some(self.fail(k));
        }
        let BookedChildren {
            rt,
            book,
            share,
            tickets,
            set,
            full,
            faults,
        } = self;
        match tickets::admit(rt, &**book, share) {
            Admit::Full(seen) => Some(refuse(full, k, seen)),
            Admit::Granted(ticket) => match set.start(k, c, launch) {
                Ok(()) => {
                    tickets.push_reserved(Held::new(k, ticket));
                    None
                }
                Err(fault) => {
                    tickets::give_back(rt, &**book, share, ticket);
                    Some(unstarted(faults, k, c, fault))
                }
            },
        }
    }

    /// Tells that child k was not started, and counts it.
    pub fn fail(&mut self, k: u64) -> Event
        ensures event { result ≡ Event.StartFailed k }
        ensures rose { Rose self.old.faults self.new.faults }
        ensures grown { self.old.faults ≤ self.new.faults }
        ensures same { (self.new.set ≡ self.old.set) × (self.new.full ≡ self.old.full) }
    {
        self.faults = self.faults.saturating_add(1);
        Event::StartFailed { k }
    }

    /// One event of a child, if there is any to tell.
    #[tactic(auto, using(crate::proofs::Matches::has_ticket, crate::proofs::Matches::have_told, crate::proofs::Matches::have_quiet, crate::proofs::Sounds::each_all, crate::proofs::Sounds::all_each))]
    pub fn poll(&mut self) -> Option<Event>
        ensures some { IfSome result (λ event. OneSays S.Kid.tells event (kept self.old.set.rows.items) self.new.set.rows.items) }
        ensures none { IsNone result → Each (IsQuiet S.Kid.tells) (kept self.old.set.rows.items) self.new.set.rows.items }
        ensures faults { self.old.faults ≤ self.new.faults }
        ensures failure { IfSome result (λ event. told.is_failure event ≡ true → Rose self.old.faults self.new.faults) }
        ensures full_books { self.new.full ≡ self.old.full }
        ensures starts { (self.new.set.cap ≡ self.old.set.cap) × (self.new.set.counts ≡ self.old.set.counts) }
    {
        let BookedChildren {
            rt,
            book,
            share,
            tickets,
            set,
            full: _,
            faults,
        } = self;
        let event = set.poll()?;
        tickets::settle(rt, &**book, share, tickets, &event);
        if is_failure(&event) {
            *faults = faults.saturating_add(1);
        }
        Some(event)
    }

    /// Does an act on a child that is kept. Others do nothing.
    #[tactic(auto, using(crate::proofs::Matches::have_fed, crate::proofs::Matches::have_wanted, crate::proofs::Matches::have_ended, crate::proofs::Matches::have_killed, crate::proofs::Matches::have_released, crate::proofs::Sounds::each_all, crate::proofs::Sounds::all_each))]
    pub fn act(&mut self, act: &Act) -> Acted
        ensures does { ChildrenDo S.Kid.tells act.now result self.old.set.rows.items self.new.set.rows.items }
        ensures room { told.carries_nothing act.now ≡ true → result ≡ Acted.Done }
        ensures counts { (self.new.faults ≡ self.old.faults) × (self.new.full ≡ self.old.full) }
        ensures starts { (self.new.set.cap ≡ self.old.set.cap) × (self.new.set.counts ≡ self.old.set.counts) }
    {
        match act {
            Act::Feed { k, bytes } => {
                if self.set.feed(*k, bytes.as_slice()).is_err() {
                    return Acted::NoRoom;
                }
            }
            Act::EndInput { k } => self.set.end_input(*k),
            Act::WantChild { k } => self.set.want(*k),
            Act::Kill { k } => self.set.kill(*k),
            Act::Release { k } => self.set.release(*k),
            _ => {}
        }
        Acted::Done
    }

    /// How many children run, as far as was told: as many as there are tickets.
    #[tactic(auto, using(crate::proofs::Matches::have_all))]
    pub fn running(&self) -> usize
        ensures exact { result ≡ count_by runs self.now.set.rows.items }
        ensures held { result ≡ vec_len self.now.tickets }
    {
        self.tickets.len()
    }

    /// No child is kept.
    pub fn is_empty(&self) -> bool
        ensures { result ≡ (count_by is_kept self.now.set.rows.items == 0) }
    {
        self.set.is_empty()
    }

    /// How many failures were counted, and how often the book was found full.
    pub fn counts(&self) -> (u64, u64)
        ensures { result ≡ (self.now.faults, self.now.full) }
    {
        (self.faults, self.full.count())
    }

    /// Ends every child, also those that are being started, and spends all tickets.
    #[tactic(auto, using(crate::proofs::Sounds::each_none, crate::proofs::Matches::have_none))]
    pub fn end_all(&mut self)
        ensures ended { AreEnded S.Kid.tells self.old.set.rows.items }
        ensures none_kept { self.new.set.rows.items ≡ [] }
        ensures none_held { self.new.tickets.items ≡ [] }
        ensures counts { (self.new.faults ≡ self.old.faults) × (self.new.full ≡ self.old.full) }
    {
        let BookedChildren {
            rt,
            book,
            share,
            tickets,
            set,
            full: _,
            faults: _,
        } = self;
        set.end();
        tickets::reap_all(rt, &**book, share, tickets, set);
    }

    /// Ends every child, also those that are being started, spends all tickets, and gives the part of the ledger back.
    pub fn end(self) -> Share<L>
        ensures ended { AreEnded S.Kid.tells self.set.rows.items }
        ensures one_part { result.parts ≡ 1 }
        ensures none { result.amount ≡ 0 }
    {
        let mut children = self;
        children.end_all();
        let BookedChildren {
            rt: _,
            book: _,
            share,
            tickets,
            set: _,
            full: _,
            faults: _,
        } = children;
        tickets.destroy_empty();
        share
    }
}

// What is told of a child that was not started.
fn unstarted(faults: &mut u64, k: u64, c: u64, fault: SpawnFault) -> Event
    ensures told { result ≡ (if is_memory fault then Event.NoRoom c else Event.StartFailed k) }
    ensures grown { faults.old ≤ faults.new }
    ensures rose { is_memory fault ≡ false → Rose faults.old faults.new }
{
    match fault {
        SpawnFault::NoMemory => Event::NoRoom { c },
        SpawnFault::Failed => {
            *faults = faults.saturating_add(1);
            Event::StartFailed { k }
        }
    }
}
