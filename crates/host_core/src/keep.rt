// The table of children follows the connections.
ghost use Rattle.std.specs.Prelude.{◌≡◌, ◌==◌, ◌<◌, ◌+◌, ℕ, true, false, None, is_some, if◌then◌else◌};
ghost use Rattle.child_table.specs.Held.{cap_of, owner_of, table_len};
ghost use Rattle.many_conns.specs.Kept.{is_child, kept, one_if};

use child_table::{Mark, Table};

pub(crate) fn is_child(child: Option<u64>, k: u64) -> bool
    ensures { result ≡ is_child child k }
{
    match child {
        Some(child) => child == k,
        None => false,
    }
}

// Lets go of a child that is settled.
fn let_go(table: &mut Table, k: u64)
    ensures owners { (j : ℕ) → owner_of table.new j ≡ (if k == j then None else owner_of table.old j) }
    ensures len { is_some (owner_of table.old k) ≡ true → table_len table.new + 1 ≡ table_len table.old }
    ensures cap { cap_of table.new ≡ cap_of table.old }
{
    table.mark(k, Mark::NotStarted);
    table.remove_settled(k);
}

// Keeps the children of the table those of the connections: that of `c` was `before`, and is `after`.
pub(crate) fn keep(table: &mut Table, c: u64, before: Option<u64>, after: Option<u64>)
    requires fresh { (k : ℕ) → is_child after k ≡ true → is_child before k ≡ false → owner_of table.old k ≡ None }
    requires held { (k : ℕ) → is_child before k ≡ true → is_some (owner_of table.old k) ≡ true }
    requires room { table_len table.old + one_if after < cap_of table.old + one_if before + 1 }
    ensures owners { (k : ℕ) → owner_of table.new k ≡ kept c before after k (owner_of table.old k) }
    ensures len { table_len table.new + one_if before ≡ table_len table.old + one_if after }
    ensures cap { cap_of table.new ≡ cap_of table.old }
{
    if let Some(k) = before
        && !is_child(after, k)
    {
        let_go(table, k);
    }
    if let Some(k) = after
        && !is_child(before, k)
    {
        let _ = table.start(k, c);
    }
}
