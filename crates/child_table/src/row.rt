// What is kept of a child.
ghost use Rattle.std.specs.Prelude.{◌≡◌, ◌≢◌, ℕ, Some};
ghost use Rattle.slab.specs.Slab.{get, slab_len, ContainsKey};
ghost use Rattle.child_table.specs.declared.row.Row.{Row};
ghost use Rattle.child_table.specs.Rows.{marked, is_settled, new_row};

use super::Mark;
use slab::Slab;

/// The connection that a child was started for, and its marks.
#[derive(Clone, Copy)]
pub(crate) struct Row {
    pub owner: u64,
    pub started: bool,
    pub not_started: bool,
    pub input_ended: bool,
    pub output_ended: bool,
    pub exited: bool,
}

// A child that is to be started.
pub(crate) fn row_for(owner: u64) -> Row
    ensures { result ≡ new_row owner }
{
    Row {
        owner,
        started: false,
        not_started: false,
        input_ended: false,
        output_ended: false,
        exited: false,
    }
}

pub(crate) fn with_mark(row: Row, mark: Mark) -> Row
    ensures { result ≡ marked mark row }
{
    let mut marked = row;
    match mark {
        Mark::Started => marked.started = true,
        Mark::NotStarted => marked.not_started = true,
        Mark::InputEnded => marked.input_ended = true,
        Mark::OutputEnded => marked.output_ended = true,
        Mark::Exited => marked.exited = true,
    }
    marked
}

pub(crate) fn has_settled(row: Row) -> bool
    ensures { result ≡ is_settled row }
{
    row.not_started || row.exited && row.input_ended && row.output_ended
}

// Marks the row under a key.
pub(crate) fn mark_row(rows: &mut Slab<Row>, key: usize, mark: Mark)
    requires { ContainsKey rows.old key }
    ensures changed { (row : Row) → get rows.old key ≡ Some row → get rows.new key ≡ Some (marked mark row) }
    ensures others { (other : ℕ) → other ≢ key → get rows.new other ≡ get rows.old other }
    ensures len { slab_len rows.new ≡ slab_len rows.old }
    ensures capacity { rows.new.capacity ≡ rows.old.capacity }
{
    let row = rows.remove(key);
    rows.insert_reserved(with_mark(row, mark));
}
