// The tallies of the connections that are open.
ghost use Rattle.std.specs.Prelude.{◌≡◌, ◌≤◌, ◌⊎◌, ℕ, List, [], ◌∷◌, ◌++◌, Some, IfSome, true};
ghost use Rattle.host_trace.specs.declared.items.Item.{Item};
ghost use Rattle.host_trace.specs.Kinds.{is_accepted, is_shut};
ghost use Rattle.host_trace.specs.Projections.{is_known};
ghost use Rattle.host_trace.specs.Account.{slots_held};
ghost use Rattle.trace_tallies.specs.declared.client_tally.ClientTally.{ClientTally};
ghost use Rattle.trace_tallies.specs.ClientTallies.{client_tally, no_client, stays_open};
ghost use Rattle.told_outside.specs.Rows.{row_at, kept, past};
ghost use Rattle.told_outside.specs.ClientRows.{ClientsTie, orphan_after};

use super::rows::{past, put};
use host_trace::{Act, Event};
use std::alloc::Global;
use std::collections::HashMap;
use trace_tallies::{ClientTally, client_asked, client_heard};

/// The rows by the connections' numbers, a bound that no number named so far has reached, how many connections were
/// accepted, and one for which no memory was found.
#[derive(Drop)]
pub struct ClientRows {
    pub rows: HashMap<u64, ClientTally>,
    pub named: u128,
    pub accepted: u64,
    pub orphan: Option<u64>,
}

// A row is kept while the connection is open.
fn kept(row: Option<ClientTally>) -> Option<ClientTally>
    ensures { result ≡ kept stays_open row }
{
    match row {
        Some(tally) => { if tally.is_open() { Some(tally) } else { None } }
        None => None,
    }
}

fn is_accepted(event: &Event) -> bool
    ensures { result ≡ is_accepted (Item.In event.now) }
{
    matches!(event, Event::Accepted { .. })
}

fn is_shut(act: &Act, c: u64) -> bool
    ensures { result ≡ is_shut c (Item.Out act.now) }
{
    matches!(act, Act::Shut { c: d, .. } if c == *d)
}

// It is no orphan any more once it is shut.
fn orphan_after(orphan: Option<u64>, shuts: bool, c: u64) -> Option<u64>
    ensures { result ≡ orphan_after orphan shuts c }
{
    if shuts && orphan == Some(c) {
        None
    } else {
        orphan
    }
}

impl ClientRows {
    /// Of a trace without items.
    pub fn new(alloc: Global) -> Self
        ensures { ClientsTie result [] }
    {
        ClientRows {
            rows: HashMap::new(alloc),
            named: 0,
            accepted: 0,
            orphan: None,
        }
    }

    /// The row of connection `c`.
    pub fn row(&self, c: u64) -> Option<ClientTally>
        ensures { result ≡ row_at self.now.rows c }
    {
        self.rows.get(&c).copied()
    }

    /// How many rows are kept: no more than slots are held.
    pub fn count(&self) -> usize
        ensures { (T : List Item) → ClientsTie self.now T → result ≤ slots_held T }
    {
        self.rows.len()
    }

    fn heard_row(&self, event: &Event, c: u64) -> Option<ClientTally>
        ensures { (T : List Item) → ClientsTie self.now T → IfSome result (λ t. (t ≡ client_tally (T ++ Item.In event.now ∷ []) c) × (is_known T c ≡ true)) }
    {
        match self.row(c) {
            Some(tally) => tally.heard(event, c),
            None => None,
        }
    }

    fn asked_row(&self, act: &Act, c: u64) -> Option<ClientTally>
        ensures { (T : List Item) → ClientsTie self.now T → IfSome result (λ t. (t ≡ client_tally (T ++ Item.Out act.now ∷ []) c) × (is_known T c ≡ true)) }
    {
        match self.row(c) {
            Some(tally) => tally.asked(act, c),
            None => None,
        }
    }

    // Begins a row for a connection that was never named.
    fn begin(&mut self, c: u64)
        ensures rows { (q : ℕ) (t : ClientTally) → row_at self.new.rows q ≡ Some t → (row_at self.old.rows q ≡ Some t) ⊎ ((q ≡ c) × (t ≡ no_client) × (self.old.named ≤ c)) }
        ensures orphan { (q : ℕ) → self.new.orphan ≡ Some q → (self.old.orphan ≡ Some q) ⊎ ((q ≡ c) × (self.old.named ≤ c)) }
        ensures same { (self.new.named ≡ self.old.named) × (self.new.accepted ≡ self.old.accepted) }
    {
        if self.named > c as u128 {
            return;
        }
        if !put(&mut self.rows, c, Some(ClientTally::new())) {
            self.orphan = Some(c);
        }
    }

    // A connection was accepted. Where no memory is found for its row, it is the orphan.
    fn accept(&mut self, event: &Event)
        requires { is_accepted (Item.In event.now) ≡ true }
        ensures { (T : List Item) → ClientsTie self.old T → ClientsTie self.new (T ++ Item.In event.now ∷ []) }
    {
        let c = self.accepted;
        let Some(next) = c.checked_add(1) else {
            return;
        };
        self.accepted = next;
        self.begin(c);
    }

    /// The connection for which no memory was found is told of.
    pub fn take_orphan(&mut self) -> Option<u64>
        ensures orphan { result ≡ self.old.orphan }
        ensures ties { (T : List Item) → ClientsTie self.old T → ClientsTie self.new T }
    {
        self.orphan.take()
    }

    // An event of a connection.
    fn hear_named(&mut self, event: &Event)
        ensures { (T : List Item) → ClientsTie self.old T → ClientsTie self.new (T ++ Item.In event.now ∷ []) }
    {
        let Some(c) = client_heard(event) else {
            return;
        };
        let row = kept(self.heard_row(event, c));
        self.named = past(self.named, c);
        let _ = put(&mut self.rows, c, row);
    }

    /// One event more.
    pub fn hear(&mut self, event: &Event)
        ensures { (T : List Item) → ClientsTie self.old T → ClientsTie self.new (T ++ Item.In event.now ∷ []) }
    {
        if is_accepted(event) {
            self.accept(event);
        } else {
            self.hear_named(event);
        }
    }

    /// One act more.
    pub fn ask(&mut self, act: &Act)
        ensures { (T : List Item) → ClientsTie self.old T → ClientsTie self.new (T ++ Item.Out act.now ∷ []) }
    {
        let Some(c) = client_asked(act) else {
            return;
        };
        let row = kept(self.asked_row(act, c));
        self.named = past(self.named, c);
        self.orphan = orphan_after(self.orphan, is_shut(act, c), c);
        let _ = put(&mut self.rows, c, row);
    }
}
