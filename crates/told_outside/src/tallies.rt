// What is counted beside a trace.
ghost use Rattle.std.specs.Prelude.{◌≡◌, ◌||◌, ℕ, true};
ghost use Rattle.host_trace.specs.declared.items.Item.{Item};
ghost use Rattle.host_trace.specs.Kinds.{is_stop};

use super::child_rows::ChildRows;
use super::client_rows::ClientRows;
use host_trace::{Act, Event};
use std::alloc::Global;
use trace_tallies::{ChildTally, ClientTally, Rows, child_heard, client_heard, fits_rows};

/// The rows of the connections and of the children, and whether Stop was heard.
#[derive(Drop)]
pub struct Tallies {
    pub clients: ClientRows,
    pub children: ChildRows,
    pub is_stopped: bool,
}

fn stopped_after(is_stopped: bool, event: &Event) -> bool
    ensures { result ≡ (is_stopped || is_stop (Item.In event.now)) }
{
    match event {
        Event::Stop => true,
        _ => is_stopped,
    }
}

impl Tallies {
    ghost use Rattle.std.specs.Prelude.{ℕ, ◌≡◌, [], ◌∷◌, ◌++◌, List, true, false, Some, IfSome};
    ghost use Rattle.host_trace.specs.declared.items.Item.{Item};
    ghost use Rattle.host_trace.specs.Kinds.{names, names_child};
    ghost use Rattle.host_trace.specs.Fits.{fits, is_open};
    ghost use Rattle.host_trace.specs.Told.{carries_nothing};
    ghost use Rattle.trace_tallies.specs.declared.client_tally.ClientTally.{ClientTally};
    ghost use Rattle.trace_tallies.specs.declared.child_tally.ChildTally.{ChildTally};
    ghost use Rattle.trace_tallies.specs.ClientTallies.{client_tally};
    ghost use Rattle.trace_tallies.specs.ChildTallies.{child_tally};
    ghost use Rattle.trace_tallies.specs.RowFits.{RowsOf};
    ghost use Rattle.told_outside.specs.Ties.{Ties};

    /// Of a trace without items.
    pub fn new(alloc: Global) -> Self
        ensures { Ties result [] }
    {
        Tallies {
            clients: ClientRows::new(alloc),
            children: ChildRows::new(alloc),
            is_stopped: false,
        }
    }

    // The row of the connection that the event names.
    fn client_row(&self, event: &Event) -> Option<ClientTally>
        ensures { (T : List Item) → Ties self.now T → (c : ℕ) (row : ClientTally) → names c (Item.In event.now) ≡ true → result ≡ Some row → row ≡ client_tally T c }
    {
        match client_heard(event) {
            Some(c) => self.clients.row(c),
            None => None,
        }
    }

    // .. and of the child.
    fn child_row(&self, event: &Event) -> Option<ChildTally>
        ensures { (T : List Item) → Ties self.now T → (k : ℕ) (row : ChildTally) → names_child k (Item.In event.now) ≡ true → result ≡ Some row → row ≡ child_tally T k }
    {
        match child_heard(event) {
            Some(k) => self.children.row(k),
            None => None,
        }
    }

    fn rows(&self, event: &Event) -> Rows
        ensures { (T : List Item) → Ties self.now T → RowsOf T event.now result }
    {
        Rows {
            client: self.client_row(event),
            child: self.child_row(event),
            accepted: self.clients.accepted,
            is_stopped: self.is_stopped,
        }
    }

    /// One event more.
    pub fn hear(&mut self, event: &Event)
        ensures { (T : List Item) → Ties self.old T → Ties self.new (T ++ Item.In event.now ∷ []) }
    {
        self.clients.hear(event);
        self.children.hear(event);
        self.is_stopped = stopped_after(self.is_stopped, event);
    }

    /// One event more, where it fits as far as the rows know, and as many children as `limit` may run. Else it is
    /// not counted.
    pub fn take(&mut self, event: &Event, limit: u32) -> bool
        ensures fits { result ≡ true → (T : List Item) → Ties self.old T → fits limit T event.now ≡ true }
        ensures ties { result ≡ true → (T : List Item) → Ties self.old T → Ties self.new (T ++ Item.In event.now ∷ []) }
        ensures same { result ≡ false → self.new ≡ self.old }
    {
        let fits = fits_rows(&self.rows(event), event, limit);
        if fits {
            self.hear(event);
        }
        fits
    }

    /// Room for what the act needs: a Start, a row. False where no memory is found for it.
    pub fn make_room(&mut self, act: &Act) -> bool
        ensures room { carries_nothing act.now ≡ true → result ≡ true }
        ensures ties { (T : List Item) → Ties self.old T → Ties self.new T }
    {
        match act {
            Act::Start { .. } => self.children.make_room(),
            _ => true,
        }
    }

    /// One act more.
    pub fn ask(&mut self, act: &Act)
        ensures { (T : List Item) → Ties self.old T → Ties self.new (T ++ Item.Out act.now ∷ []) }
    {
        self.clients.ask(act);
        self.children.ask(act);
    }

    /// A connection for whose row no memory was found. It is open, and is given once.
    pub fn take_orphan(&mut self) -> Option<u64>
        ensures open { IfSome result (λ c. (T : List Item) → Ties self.old T → is_open T c ≡ true) }
        ensures ties { (T : List Item) → Ties self.old T → Ties self.new T }
    {
        self.clients.take_orphan()
    }
}
