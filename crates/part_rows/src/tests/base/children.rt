// Children of a table, call by call.
use child_table::{Mark, Table, TableFull};
use host_base::NoMemory;
use std::alloc::Global;
use std::test::Fail;

fn starts(table: &mut Table, k: u64, c: u64) -> bool {
    if table.owner(k).is_some() {
        return false;
    }
    table.start(k, c).is_ok()
}

fn marks(table: &mut Table, k: u64, mark: Mark) -> bool {
    table.mark(k, mark)
}

fn removes(table: &mut Table, k: u64) -> bool {
    table.remove_settled(k)
}

// One call: 0 starts child k for connection k + 100, 1 to 5 mark it, 6 lets go of it.
fn called(table: &mut Table, call: u8, k: u64) -> bool {
    match call {
        0 => starts(table, k, k.saturating_add(100)),
        1 => marks(table, k, Mark::Started),
        2 => marks(table, k, Mark::NotStarted),
        3 => marks(table, k, Mark::InputEnded),
        4 => marks(table, k, Mark::OutputEnded),
        5 => marks(table, k, Mark::Exited),
        _ => removes(table, k),
    }
}

// A call and a child; the call's answer, then the child's owner plus 1 or 0, whether it is settled, and how many are held.
type Row = (u8, u64, bool, u64, bool, u32);

static ROWS: [Row; 25] = [
    (6, 7, false, 0, false, 0),
    (1, 7, false, 0, false, 0),
    (0, 7, true, 108, false, 1),
    (0, 3, true, 104, false, 2),
    (0, 9, true, 110, false, 3),
    // it is full
    (0, 11, false, 0, false, 3),
    (1, 7, true, 108, false, 3),
    (6, 7, false, 108, false, 3),
    // reaped, and its input and its output ended, in any order
    (4, 7, true, 108, false, 3),
    (5, 7, true, 108, false, 3),
    (3, 7, true, 108, true, 3),
    // of others nothing changed
    (6, 3, false, 104, false, 3),
    (6, 9, false, 110, false, 3),
    (6, 7, true, 0, false, 2),
    (6, 7, false, 0, false, 2),
    // one that could not be started
    (0, 11, true, 112, false, 3),
    (2, 11, true, 112, true, 3),
    (3, 9, true, 110, false, 3),
    (6, 11, true, 0, false, 2),
    // a number may come back
    (0, 7, true, 108, false, 3),
    (5, 3, true, 104, false, 3),
    (3, 3, true, 104, false, 3),
    (4, 3, true, 104, true, 3),
    (6, 3, true, 0, false, 2),
    (1, 3, false, 0, false, 2),
];

fn owner_of(table: &Table, k: u64) -> u64 {
    match table.owner(k) {
        Some(c) => c.saturating_add(1),
        None => 0,
    }
}

fn has_settled(table: &Table, k: u64) -> bool {
    table.settled(k)
}

fn count_of(table: &Table) -> u32 {
    table.len()
}

fn is_row(table: &mut Table, (call, k, answer, owner, settled, held): Row) -> bool {
    called(table, call, k) == answer
        && owner_of(table, k) == owner
        && has_settled(table, k) == settled
        && count_of(table) == held
}

// The first row that goes otherwise; the number of rows where none does.
fn first_other(alloc: Global) -> Result<usize, NoMemory> {
    let mut table = new_table(alloc, 3)?;
    Ok(first_other_in(&mut table))
}

fn new_table(alloc: Global, cap: u32) -> Result<Table, NoMemory> {
    Table::new(alloc, cap)
}

fn first_other_in(table: &mut Table) -> usize {
    let mut place: usize = 0;
    for row in &ROWS {
        if !is_row(table, *row) {
            return place;
        }
        place = place.saturating_add(1);
    }
    place
}

#[test]
fn a_table_of_three(rt: HostRuntime) -> Result<(), Fail> {
    assert_eq!(rt; first_other(rt.alloc())?, 25);
    Ok(())
}

// Whether a child that is free to start finds the table full of so many.
fn is_full(table: &mut Table, k: u64, held: u32) -> bool {
    let full = TableFull { held, cap: held };
    table.owner(k).is_none() && table.start(k, 0) == Err(full)
}

fn is_full_of_one(alloc: Global) -> Result<bool, NoMemory> {
    let mut table = new_table(alloc, 1)?;
    Ok(starts(&mut table, 4, 0) && is_full(&mut table, 5, 1))
}

fn is_full_of_none(alloc: Global) -> Result<bool, NoMemory> {
    let mut none = new_table(alloc, 0)?;
    Ok(is_full(&mut none, 4, 0))
}

#[test]
fn a_full_table_says_how_full(rt: HostRuntime) -> Result<(), Fail> {
    assert!(rt; is_full_of_one(rt.alloc())?);
    assert!(rt; is_full_of_none(rt.alloc())?);
    Ok(())
}
