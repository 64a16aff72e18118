// The tallies of all connections.
ghost use Rattle.std.specs.Prelude.{◌≡◌, ◌==◌, ℕ, true, false, Some, MatchOption, if◌then◌else◌};
ghost use Rattle.std.specs.Ordering.{nat_cmp};
ghost use Rattle.std.specs.BTreeMap.{get};
ghost use Rattle.host_trace.specs.declared.items.Item.{Item};
ghost use Rattle.host_trace.specs.Kinds.{names};
ghost use Rattle.trace_tallies.specs.ClientTallies.{client_with};
ghost use Rattle.memory_world.specs.ClientTallies.{client_at};

use host_trace::Item;
use std::collections::BTreeMap;
use trace_tallies::{ClientTally, client_asked, client_heard};

// The connection that an item names.
fn client_of(item: &Item) -> Option<u64>
    ensures { MatchOption result ((c : ℕ) → names c item.now ≡ false) (λ d. (c : ℕ) → names c item.now ≡ (c == d)) }
{
    match item {
        Item::In(event) => client_heard(event),
        Item::Out(act) => client_asked(act),
    }
}

/// The tally of connection `c`.
pub fn client_in(rows: &BTreeMap<u64, ClientTally>, c: u64) -> ClientTally
    ensures { result ≡ client_at rows.now c }
{
    match rows.get(&c) {
        Some(tally) => *tally,
        None => ClientTally::new(),
    }
}

// False where no memory is found.
fn keep_client(rows: &mut BTreeMap<u64, ClientTally>, c: u64, tally: ClientTally) -> bool
    ensures { result ≡ true → (q : ℕ) → get nat_cmp rows.new q ≡ (if q == c then Some tally else get nat_cmp rows.old q) }
{
    rows.insert(c, tally).is_ok()
}

/// Counts an item. False where a number or the memory doesn't hold it: then the tallies are none.
pub fn note_client(rows: &mut BTreeMap<u64, ClientTally>, item: &Item) -> bool
    ensures { result ≡ true → (c : ℕ) → client_at rows.new c ≡ client_with c item.now (client_at rows.old c) }
{
    let Some(c) = client_of(item) else {
        return true;
    };
    let Some(tally) = client_in(rows, c).with(item, c) else {
        return false;
    };
    keep_client(rows, c, tally)
}
