// An outside in memory.
ghost use Rattle.std.specs.Prelude.{◌≡◌, ◌≤◌, IfOk, map};
ghost use Rattle.memory_world.specs.ListedWords.{given_of};

use super::events::Listed;
use super::telling::Telling;
use host_base::NoMemory;
use host_trace::{Act, Acted, Event, Events, Item, Items, Outside};
use std::alloc::Global;
use std::collections::VecDeque;

/// An outside over a list of events. It hands up those that fit, and when the list is used up it lets
/// the server end: Stop, Started and Exited for the children that are open, then Ticks.
///
/// It tells its trace while that has no more items than it has room for.
#[derive(Drop)]
pub struct MemoryOutside {
    events: VecDeque<Listed>,
    refused: Vec<u64>,
    telling: Telling,
    wild: bool,
    limit: u32,
    acts: u64,
    faults: u64,
    full_books: u64,
}

// Each event twice over, in order.
fn twice(alloc: Global, events: Events) -> Result<VecDeque<Listed>, NoMemory>
    ensures { IfOk result (λ listed. map given_of listed.items ≡ events) }
{
    let mut listed = VecDeque::new(alloc);
    for event in events.into_vec() {
        listed.push_back(Listed::new(event)?)?;
    }
    Ok(listed)
}

impl MemoryOutside {
    ghost use Rattle.std.specs.Prelude.{◌≡◌, ◌≤◌, ◌++◌, ◌∷◌, ◌&&◌, ◌+◌, ◌-◌, ◌^◌, [], Some, None, true, false, if◌then◌else◌, IfOk, IfSome, IsSome, IsNone, is_some};
    ghost use Rattle.host_trace.specs.Told.{carries_nothing, is_failure, is_full_book};
    ghost use Rattle.memory_world.specs.NextEvent.{next_event, left_listed, after_list, is_taken};
    ghost use Rattle.memory_world.specs.ListedWords.{count_up};
    ghost use Rattle.memory_world.specs.MemoryWords.{listed_of, items_of, trace_of, refuses_now, is_new_for, IsMade};

    /// An outside that hands up those of the events that fit, and has room to tell `room` items. The acts
    /// with the numbers of `refused`, counted from 0 by calls of `act`, are answered NoRoom where they may be.
    pub fn new(
        alloc: Global,
        events: Events,
        refused: Vec<u64>,
        room: usize,
        limit: u32,
    ) -> Result<Self, NoMemory>
        ensures events { IfOk result (λ o. listed_of o ≡ events) }
        ensures told { IfOk result (λ o. trace_of o ≡ Some []) }
        ensures made { IfOk result (IsMade refused.items room limit false) }
    {
        Ok(MemoryOutside {
            events: twice(alloc, events)?,
            refused,
            telling: Telling::new(alloc, room)?,
            wild: false,
            limit,
            acts: 0,
            faults: 0,
            full_books: 0,
        })
    }

    /// An outside that hands up every listed event, whether it fits or not. It tells no trace.
    pub fn wild(
        alloc: Global,
        events: Events,
        refused: Vec<u64>,
        limit: u32,
    ) -> Result<Self, NoMemory>
        ensures events { IfOk result (λ o. listed_of o ≡ events) }
        ensures told { IfOk result (λ o. trace_of o ≡ None) }
        ensures made { IfOk result (IsMade refused.items 0 limit true) }
    {
        Ok(MemoryOutside {
            events: twice(alloc, events)?,
            refused,
            telling: Telling::silent(alloc)?,
            wild: true,
            limit,
            acts: 0,
            faults: 0,
            full_books: 0,
        })
    }

    /// The items so far. Once it tells no more, some may be missing.
    pub fn items(&self) -> &[Item]
        ensures { result.now ≡ items_of self.now }
    {
        self.telling.trace.items.as_slice()
    }

    /// Whether it tells its trace, which is then `items`.
    pub fn tells(&self) -> bool
        ensures which { result ≡ is_some (trace_of self.now) }
        ensures trace { trace_of self.now ≡ (if result then Some (items_of self.now) else None) }
    {
        self.telling.tells && !self.wild
    }

    /// Whether it has neither heard nor done anything, has this limit, and tells where `tells` is true.
    pub fn is_new(&self, limit: u32, tells: bool) -> bool
        ensures { result ≡ is_new_for limit tells self.now }
    {
        let same = if self.tells() { tells } else { !tells };
        self.telling.trace.items.is_empty() && self.limit == limit && same
    }

    /// Its items, and whether they are its trace.
    pub fn into_trace(self) -> (Items, bool)
        ensures { trace_of self ≡ (if result.1 then Some result.0 else None) }
    {
        let tells = self.tells();
        let MemoryOutside {
            events: _,
            refused: _,
            telling,
            wild: _,
            limit: _,
            acts: _,
            faults: _,
            full_books: _,
        } = self;
        (Items::from_vec(telling.into_items()), tells)
    }

    fn is_taken(&self, event: &Event) -> bool
        ensures { result ≡ is_taken self.now.wild self.now.limit (items_of self.now) event.now }
    {
        self.wild || self.telling.trace.fits(event, self.limit)
    }

    // The next event, from the list or after it.
    fn pick(&mut self) -> Listed
        ensures event { result.given ≡ next_event self.old.wild self.old.limit (items_of self.old) (listed_of self.old) }
        ensures listed { listed_of self.new ≡ left_listed self.old.wild self.old.limit (items_of self.old) (listed_of self.old) }
        ensures same { self.new ≡ record self.old { events = self.new.events } }
    {
        while let Some(listed) = self.events.pop_front() {
            if self.is_taken(&listed.given) {
                return listed;
            }
        }
        self.after_list()
    }

    fn after_list(&self) -> Listed
        ensures { result.given ≡ after_list (items_of self.now) }
    {
        let trace = &self.telling.trace;
        if !trace.is_stopped() {
            return Listed {
                told: Event::Stop,
                given: Event::Stop,
            };
        }
        if let Some(k) = trace.open_start() {
            return Listed {
                told: Event::Started { k },
                given: Event::Started { k },
            };
        }
        if let Some(k) = trace.running_child() {
            return Listed {
                told: Event::Exited { k },
                given: Event::Exited { k },
            };
        }
        Listed {
            told: Event::Tick { secs: 0 },
            given: Event::Tick { secs: 0 },
        }
    }

    // The act once more, unless it is to be refused, or no memory is found.
    fn copy_unless_refused(&self, act: &Act) -> Option<Act>
        ensures same { IfSome result (λ kept. kept ≡ act.now) }
        ensures plain { carries_nothing act.now ≡ true → IsSome result }
        ensures refused { refuses_now self.now ≡ true → carries_nothing act.now ≡ false → IsNone result }
    {
        match act.copy_plain() {
            Some(kept) => Some(kept),
            None => {
                if self.refused.contains(&self.acts) {
                    return None;
                }
                act.copy().ok()
            }
        }
    }

    // Counts what failed.
    fn count(&mut self, event: &Event)
        ensures { self.new ≡ record self.old { faults = count_up (is_failure event.now) self.old.faults; full_books = count_up (is_full_book event.now) self.old.full_books } }
    {
        match event {
            Event::ClientGone { .. }
            | Event::WsBad { .. }
            | Event::StartFailed { .. }
            | Event::ChildBroken { .. }
            | Event::InputGone { .. } => self.faults = self.faults.saturating_add(1),
            Event::StartFull { .. } => self.full_books = self.full_books.saturating_add(1),
            _ => {}
        }
    }
}

impl Outside for MemoryOutside {
    ghost use Rattle.std.specs.Prelude.{◌≡◌, ◌≤◌, ◌&&◌, true, false, nat_lt, length};
    ghost use Rattle.host_base.specs.Outsides.{Rose};
    ghost use Rattle.host_trace.specs.Told.{Hears, ActsOn, carries_nothing, is_failure, is_full_book};
    ghost use Rattle.memory_world.specs.NextEvent.{next_event, left_listed};
    ghost use Rattle.memory_world.specs.ListedWords.{count_up};
    ghost use Rattle.memory_world.specs.MemoryWords.{listed_of, items_of, trace_of, refuses_now, IsKept};

    ghost trace = { trace_of };

    ghost faults = { λ o. o.faults };

    ghost full_books = { λ o. o.full_books };

    ghost limit = { λ o. o.limit };

    fn next(&mut self) -> Event
        ensures told { Hears self.old.limit (trace_of self.old) result (trace_of self.new) }
        ensures limit { self.new.limit ≡ self.old.limit }
        ensures faults { self.old.faults ≤ self.new.faults }
        ensures full_books { self.old.full_books ≤ self.new.full_books }
        ensures failure { is_failure result ≡ true → Rose self.old.faults self.new.faults }
        ensures full { is_full_book result ≡ true → Rose self.old.full_books self.new.full_books }

        // The event is the one that the list and the trace name, and each failure is counted once.
        ensures event { result ≡ next_event self.old.wild self.old.limit (items_of self.old) (listed_of self.old) }
        ensures listed { listed_of self.new ≡ left_listed self.old.wild self.old.limit (items_of self.old) (listed_of self.old) }
        ensures tells { self.new.telling.tells ≡ (self.old.telling.tells && nat_lt (length (items_of self.old)) self.old.telling.room) }
        ensures counted { self.new.faults ≡ count_up (is_failure result) self.old.faults }
        ensures counted_full { self.new.full_books ≡ count_up (is_full_book result) self.old.full_books }
        ensures number { self.new.acts ≡ self.old.acts }
        ensures kept { IsKept self.old self.new }
    {
        let Listed { told, given } = self.pick();
        self.count(&given);
        self.telling.keep(Item::In(told));
        given
    }

    fn act(&mut self, act: &Act) -> Acted
        ensures told { ActsOn (trace_of self.old) act.now result (trace_of self.new) }
        ensures room { carries_nothing act.now ≡ true → result ≡ Acted.Done }
        ensures limit { self.new.limit ≡ self.old.limit }
        ensures faults { self.old.faults ≤ self.new.faults }
        ensures full_books { self.old.full_books ≤ self.new.full_books }

        // An act whose number is listed is refused where it may be, and nothing that is done is lost.
        ensures refused { refuses_now self.old ≡ true → carries_nothing act.now ≡ false → result ≡ Acted.NoRoom }
        ensures number { self.new.acts ≡ count_up true self.old.acts }
        ensures listed { listed_of self.new ≡ listed_of self.old }
        ensures tells { result ≡ Acted.Done → self.new.telling.tells ≡ (self.old.telling.tells && nat_lt (length (items_of self.old)) self.old.telling.room) }
        ensures tells_on { result ≡ Acted.NoRoom → self.new.telling ≡ self.old.telling }
        ensures counted { self.new.faults ≡ self.old.faults }
        ensures counted_full { self.new.full_books ≡ self.old.full_books }
        ensures kept { IsKept self.old self.new }
    {
        let kept = self.copy_unless_refused(act);
        self.acts = self.acts.saturating_add(1);
        match kept {
            Some(kept) => {
                self.telling.keep(Item::Out(kept));
                Acted::Done
            }
            None => Acted::NoRoom,
        }
    }
}
