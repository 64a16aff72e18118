// The tallies of all children.
ghost use Rattle.std.specs.Prelude.{◌≡◌, ◌==◌, ℕ, true, false, Some, MatchOption, if◌then◌else◌};
ghost use Rattle.std.specs.Ordering.{nat_cmp};
ghost use Rattle.std.specs.BTreeMap.{get};
ghost use Rattle.std.specs.BTreeSet.{contains};
ghost use Rattle.host_trace.specs.declared.items.Item.{Item};
ghost use Rattle.host_trace.specs.Kinds.{names_child};
ghost use Rattle.memory_world.specs.ChildTallies.{child_at, IsLeast};

use host_trace::Item;
use std::alloc::Global;
use std::collections::{BTreeMap, BTreeSet};
use trace_tallies::{ChildTally, child_asked, child_heard};

/// The tallies by the children's numbers, and the numbers of those whose Start waits and of those that run.
#[derive(Drop)]
pub struct ChildTallies {
    pub rows: BTreeMap<u64, ChildTally>,
    pub waiting: BTreeSet<u64>,
    pub running: BTreeSet<u64>,
}

// The child that an item names.
fn child_of(item: &Item) -> Option<u64>
    ensures { MatchOption result ((k : ℕ) → names_child k item.now ≡ false) (λ d. (k : ℕ) → names_child k item.now ≡ (k == d)) }
{
    match item {
        Item::In(event) => child_heard(event),
        Item::Out(act) => child_asked(act),
    }
}

/// The tally of child `k`.
pub fn child_in(rows: &BTreeMap<u64, ChildTally>, k: u64) -> ChildTally
    ensures { result ≡ child_at rows.now k }
{
    match rows.get(&k) {
        Some(tally) => *tally,
        None => ChildTally::new(),
    }
}

// False where no memory is found.
fn keep_child(rows: &mut BTreeMap<u64, ChildTally>, k: u64, tally: ChildTally) -> bool
    ensures { result ≡ true → (q : ℕ) → get nat_cmp rows.new q ≡ (if q == k then Some tally else get nat_cmp rows.old q) }
{
    rows.insert(k, tally).is_ok()
}

// Has `k` in the set, or not. False where no memory is found.
fn put(set: &mut BTreeSet<u64>, k: u64, is_in: bool) -> bool
    ensures { result ≡ true → (q : ℕ) → contains nat_cmp set.new q ≡ (if q == k then is_in else contains nat_cmp set.old q) }
{
    if is_in {
        set.insert(k).is_ok()
    } else {
        set.remove(&k);
        true
    }
}

/// The least number of the set.
pub fn first_of(set: &BTreeSet<u64>) -> Option<u64>
    ensures { IsLeast (λ k. contains nat_cmp set.now k) result }
{
    set.first().copied()
}

impl ChildTallies {
    ghost use Rattle.std.specs.Prelude.{◌≡◌, ◌==◌, ℕ, true, Some, if◌then◌else◌};
    ghost use Rattle.std.specs.Ordering.{nat_cmp};
    ghost use Rattle.std.specs.BTreeMap.{get};
    ghost use Rattle.std.specs.BTreeSet.{contains};
    ghost use Rattle.trace_tallies.specs.ChildTallies.{child_with, no_child, waits, runs};
    ghost use Rattle.memory_world.specs.ChildTallies.{child_at, Sets};

    /// Of a trace without items.
    pub fn new(alloc: Global) -> Self
        ensures rows { (k : ℕ) → child_at result.rows k ≡ no_child }
        ensures waiting { Sets waits result.rows result.waiting }
        ensures running { Sets runs result.rows result.running }
    {
        ChildTallies {
            rows: BTreeMap::new(alloc),
            waiting: BTreeSet::new(alloc),
            running: BTreeSet::new(alloc),
        }
    }

    // Keeps the tally of child `k`.
    fn keep(&mut self, k: u64, tally: ChildTally) -> bool
        ensures rows { result ≡ true → (q : ℕ) → get nat_cmp self.new.rows q ≡ (if q == k then Some tally else get nat_cmp self.old.rows q) }
        ensures waiting { result ≡ true → (q : ℕ) → contains nat_cmp self.new.waiting q ≡ (if q == k then waits tally else contains nat_cmp self.old.waiting q) }
        ensures running { result ≡ true → (q : ℕ) → contains nat_cmp self.new.running q ≡ (if q == k then runs tally else contains nat_cmp self.old.running q) }
    {
        keep_child(&mut self.rows, k, tally)
            && put(&mut self.waiting, k, tally.waits())
            && put(&mut self.running, k, tally.runs())
    }

    /// Counts an item. False where a number or the memory doesn't hold it: then the tallies are none.
    pub fn note(&mut self, item: &Item) -> bool
        ensures rows { result ≡ true → (k : ℕ) → child_at self.new.rows k ≡ child_with k item.now (child_at self.old.rows k) }
        ensures waiting { result ≡ true → Sets waits self.old.rows self.old.waiting → Sets waits self.new.rows self.new.waiting }
        ensures running { result ≡ true → Sets runs self.old.rows self.old.running → Sets runs self.new.rows self.new.running }
    {
        let Some(k) = child_of(item) else {
            return true;
        };
        let Some(tally) = child_in(&self.rows, k).with(item, k) else {
            return false;
        };
        self.keep(k, tally)
    }
}
