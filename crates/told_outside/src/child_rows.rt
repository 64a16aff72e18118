// The tallies of the children that are not settled.
ghost use Rattle.std.specs.Prelude.{◌≡◌, ◌≤◌, List, [], ◌∷◌, ◌++◌, IfSome};
ghost use Rattle.host_trace.specs.declared.items.Item.{Item};
ghost use Rattle.trace_tallies.specs.ChildTallies.{child_tally};
ghost use Rattle.told_outside.specs.Counts.{unsettled_count};
ghost use Rattle.told_outside.specs.Rows.{row_at, kept};
ghost use Rattle.told_outside.specs.ChildRows.{ChildrenTie, lives};

use super::rows::{past, put};
use host_trace::{Act, Event};
use std::alloc::Global;
use std::collections::HashMap;
use trace_tallies::{ChildTally, child_asked, child_heard};

/// The rows by the children's numbers, and a bound that no number named so far has reached.
#[derive(Drop)]
pub struct ChildRows {
    pub rows: HashMap<u64, ChildTally>,
    pub named: u128,
}

fn lives(tally: &ChildTally) -> bool
    ensures { result ≡ lives tally.now }
{
    tally.is_asked_for && !tally.is_settled()
}

// A row is kept from the Start until the child is settled.
fn kept(row: Option<ChildTally>) -> Option<ChildTally>
    ensures { result ≡ kept lives row }
{
    match row {
        Some(tally) => { if lives(&tally) { Some(tally) } else { None } }
        None => None,
    }
}

impl ChildRows {
    /// Of a trace without items.
    pub fn new(alloc: Global) -> Self
        ensures { ChildrenTie result [] }
    {
        ChildRows {
            rows: HashMap::new(alloc),
            named: 0,
        }
    }

    /// The row of child `k`.
    pub fn row(&self, k: u64) -> Option<ChildTally>
        ensures { result ≡ row_at self.now.rows k }
    {
        self.rows.get(&k).copied()
    }

    /// How many rows are kept: no more than there are children that are not settled.
    pub fn count(&self) -> usize
        ensures { (T : List Item) → ChildrenTie self.now T → result ≤ unsettled_count T }
    {
        self.rows.len()
    }

    // The row of the child, or one that is begun where it was never named.
    fn begun_row(&self, k: u64) -> Option<ChildTally>
        ensures { (T : List Item) → ChildrenTie self.now T → IfSome result (λ t. t ≡ child_tally T k) }
    {
        if self.named > k as u128 {
            self.row(k)
        } else {
            Some(ChildTally::new())
        }
    }

    fn heard_row(&self, event: &Event, k: u64) -> Option<ChildTally>
        ensures { (T : List Item) → ChildrenTie self.now T → IfSome result (λ t. t ≡ child_tally (T ++ Item.In event.now ∷ []) k) }
    {
        match self.row(k) {
            Some(tally) => tally.heard(event, k),
            None => None,
        }
    }

    fn asked_row(&self, act: &Act, k: u64) -> Option<ChildTally>
        ensures { (T : List Item) → ChildrenTie self.now T → IfSome result (λ t. t ≡ child_tally (T ++ Item.Out act.now ∷ []) k) }
    {
        match self.begun_row(k) {
            Some(tally) => tally.asked(act, k),
            None => None,
        }
    }

    /// Room for the row of one child more. False where no memory is found for it.
    pub fn make_room(&mut self) -> bool
        ensures { (T : List Item) → ChildrenTie self.old T → ChildrenTie self.new T }
    {
        self.rows.reserve(1).is_ok()
    }

    /// One event more.
    pub fn hear(&mut self, event: &Event)
        ensures { (T : List Item) → ChildrenTie self.old T → ChildrenTie self.new (T ++ Item.In event.now ∷ []) }
    {
        let Some(k) = child_heard(event) else {
            return;
        };
        let row = kept(self.heard_row(event, k));
        self.named = past(self.named, k);
        let _ = put(&mut self.rows, k, row);
    }

    /// One act more.
    pub fn ask(&mut self, act: &Act)
        ensures { (T : List Item) → ChildrenTie self.old T → ChildrenTie self.new (T ++ Item.Out act.now ∷ []) }
    {
        let Some(k) = child_asked(act) else {
            return;
        };
        let row = kept(self.asked_row(act, k));
        self.named = past(self.named, k);
        let _ = put(&mut self.rows, k, row);
    }
}
