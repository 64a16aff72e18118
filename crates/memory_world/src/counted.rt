// A trace, and beside it what is counted, so that what fits is told without going over the trace.
ghost use Rattle.std.specs.Prelude.{◌≡◌, ◌&&◌, true};
ghost use Rattle.memory_world.specs.Ties.{Ties};

use super::child_tallies::{child_in, first_of};
use super::client_tallies::client_in;
use super::fit::{fits, stopped};
use super::open::{open_start, running_child};
use super::tallies::Tallies;
use host_base::NoMemory;
use host_trace::{Event, Item};
use std::alloc::Global;
use trace_tallies::{ChildTally, ClientTally, Rows, child_heard, client_heard, fits_rows};

/// The items, and their tallies while `is_counted`. Where a number or the memory doesn't hold a tally, they are
/// counted no more, and the items are asked instead.
#[derive(Drop)]
pub struct Counted {
    pub items: Vec<Item>,
    tallies: Tallies,
    is_counted: bool,
    ghost ties: { is_counted ≡ true → Ties tallies items.items },
}

impl Counted {
    ghost use Rattle.std.specs.Prelude.{ℕ, ◌≡◌, ◌≤◌, ◌<◌, ◌++◌, ◌∷◌, [], true, Some, IfOk, vec_len, vec_capacity, if◌then◌else◌};
    ghost use Rattle.host_trace.specs.declared.items.Item.{Item};
    ghost use Rattle.host_trace.specs.Kinds.{names, names_child};
    ghost use Rattle.host_trace.specs.Projections.{stopped};
    ghost use Rattle.host_trace.specs.Fits.{fits};
    ghost use Rattle.trace_tallies.specs.ClientTallies.{client_tally};
    ghost use Rattle.trace_tallies.specs.ChildTallies.{child_tally};
    ghost use Rattle.trace_tallies.specs.RowFits.{AllRowsOf};
    ghost use Rattle.memory_world.specs.NextEvent.{least, open_starts, running};

    /// A trace without items, with room for so many.
    pub fn new(alloc: Global, room: usize) -> Result<Self, NoMemory>
        ensures empty { IfOk result (λ t. t.items.items ≡ []) }
        ensures room { IfOk result (λ t. room ≤ vec_capacity t.items) }
    {
        Ok(Counted {
            items: Vec::with_capacity(alloc, room)?,
            tallies: Tallies::new(alloc),
            is_counted: true,
        })
    }

    pub fn into_items(self) -> Vec<Item>
        ensures { result.items ≡ self.items.items }
    {
        let Counted {
            items,
            tallies: _,
            is_counted: _,
        } = self;
        items
    }

    /// One item more. False where there is no room and no memory: then the item is lost.
    pub fn push(&mut self, item: Item) -> bool
        ensures items { self.new.items.items ≡ (if result then self.old.items.items ++ item ∷ [] else self.old.items.items) }
        ensures room { vec_len self.old.items < vec_capacity self.old.items → result ≡ true }
        ensures capacity { vec_capacity self.old.items ≤ vec_capacity self.new.items }
    {
        let was_counted = self.is_counted;
        self.is_counted = false;
        let is_noted = self.tallies.note(&item);
        let is_kept = self.items.push(item).is_ok();
        self.is_counted = are_all(was_counted, is_noted, is_kept);
        is_kept
    }

    fn client(&self, c: u64) -> ClientTally
        requires { self.now.is_counted ≡ true }
        ensures { result ≡ client_tally self.now.items.items c }
    {
        client_in(&self.tallies.clients, c)
    }

    fn child(&self, k: u64) -> ChildTally
        requires { self.now.is_counted ≡ true }
        ensures { result ≡ child_tally self.now.items.items k }
    {
        child_in(&self.tallies.children.rows, k)
    }

    // The tally of the connection that the event names.
    fn client_row(&self, event: &Event) -> Option<ClientTally>
        requires { self.now.is_counted ≡ true }
        ensures { (c : ℕ) → names c (Item.In event.now) ≡ true → result ≡ Some (client_tally self.now.items.items c) }
    {
        match client_heard(event) {
            Some(c) => Some(self.client(c)),
            None => None,
        }
    }

    // .. and of the child.
    fn child_row(&self, event: &Event) -> Option<ChildTally>
        requires { self.now.is_counted ≡ true }
        ensures { (k : ℕ) → names_child k (Item.In event.now) ≡ true → result ≡ Some (child_tally self.now.items.items k) }
    {
        match child_heard(event) {
            Some(k) => Some(self.child(k)),
            None => None,
        }
    }

    fn rows(&self, event: &Event) -> Rows
        requires { self.now.is_counted ≡ true }
        ensures { AllRowsOf self.now.items.items event.now result }
    {
        Rows {
            client: self.client_row(event),
            child: self.child_row(event),
            accepted: self.tallies.accepted,
            is_stopped: self.tallies.stopped,
        }
    }

    fn least_waiting(&self) -> Option<u64>
        requires { self.now.is_counted ≡ true }
        ensures { result ≡ least (open_starts self.now.items.items) }
    {
        first_of(&self.tallies.children.waiting)
    }

    fn least_running(&self) -> Option<u64>
        requires { self.now.is_counted ≡ true }
        ensures { result ≡ least (running self.now.items.items) }
    {
        first_of(&self.tallies.children.running)
    }

    // Whether the event may come next, by the tallies.
    fn fits_by_tallies(&self, event: &Event, limit: u32) -> bool
        requires { self.now.is_counted ≡ true }
        ensures { result ≡ fits limit self.now.items.items event.now }
    {
        fits_rows(&self.rows(event), event, limit)
    }

    /// Whether the event may come next, where as many children as `limit` may run.
    pub fn fits(&self, event: &Event, limit: u32) -> bool
        ensures { result ≡ fits limit self.now.items.items event.now }
    {
        if self.is_counted {
            self.fits_by_tallies(event, limit)
        } else {
            fits(self.items.as_slice(), event, limit)
        }
    }

    /// Whether Stop was heard.
    pub fn is_stopped(&self) -> bool
        ensures { result ≡ stopped self.now.items.items }
    {
        if self.is_counted {
            self.tallies.stopped
        } else {
            stopped(self.items.as_slice())
        }
    }

    /// The least child whose Start was not answered.
    pub fn open_start(&self) -> Option<u64>
        ensures { result ≡ least (open_starts self.now.items.items) }
    {
        if self.is_counted {
            self.least_waiting()
        } else {
            open_start(self.items.as_slice())
        }
    }

    /// The least child that runs.
    pub fn running_child(&self) -> Option<u64>
        ensures { result ≡ least (running self.now.items.items) }
    {
        if self.is_counted {
            self.least_running()
        } else {
            running_child(self.items.as_slice())
        }
    }
}

fn are_all(one: bool, other: bool, third: bool) -> bool
    ensures { result ≡ (one && other && third) }
{
    one && other && third
}
