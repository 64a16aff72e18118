// Rows by the numbers of what they count.
ghost use Rattle.std.specs.Prelude.{◌≡◌, ◌≤◌, ℕ, true};
ghost use Rattle.told_outside.specs.Rows.{Puts, PutsAll, past};

use std::collections::HashMap;

/// Puts a row in the place of the one before, or takes it away. False where no memory was found for it, and then there
/// is none.
pub fn put<T: Copy + Drop>(rows: &mut HashMap<u64, T>, number: u64, row: Option<T>) -> bool
    ensures puts { Puts rows.old number row rows.new }
    ensures all { result ≡ true → PutsAll rows.old number row rows.new }
{
    match row {
        Some(row) => rows.insert(number, row).is_ok(),
        None => {
            let _ = rows.remove(&number);
            true
        }
    }
}

/// A bound that no number named so far has reached, once this one was named.
pub fn past(named: u128, number: u64) -> u128
    ensures { result ≡ past named number }
{
    let next = number as u128 + 1;
    if named < next { next } else { named }
}
