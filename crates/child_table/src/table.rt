// The rows lie in a slab under keys of its own; in front of it stands a list of the children's numbers with these
// keys, by rising number, so a look-up is a binary search and a child that is started goes to the list's end. All
// room is taken at the beginning.
ghost use Rattle.std.specs.Prelude.{◌≡◌, ◌≤◌, vec_len, vec_capacity};
ghost use Rattle.slab.specs.Slab.{slab_len};
ghost use Rattle.child_table.specs.Places.{IsRising};
ghost use Rattle.child_table.specs.Rows.{AreHeld, AreApart};

use super::places::{Place, place_of};
use super::row::{Row, has_settled, mark_row, row_for};
use super::{Mark, TableFull};
use host_base::NoMemory;
use slab::Slab;
use std::alloc::Global;

/// Children by their numbers: for each the connection that it was started for, and marks.
#[derive(Drop)]
pub struct Table {
    places: Vec<Place>,
    rows: Slab<Row>,
    cap: u32,
    ghost rising: { IsRising places.items },
    ghost held: { AreHeld places.items rows },
    ghost apart: { AreApart places.items },
    ghost within: { vec_len places ≤ cap },
    ghost room: { cap ≤ vec_capacity places },
    ghost same_len: { slab_len rows ≡ vec_len places },
    ghost row_room: { cap ≤ rows.capacity },
}

impl Table {
    ghost use Rattle.std.specs.Prelude.{◌≡◌, ◌+◌, ◌<◌, ℕ, true, Some, None, is_some, IfOk, IfErr, IsErr, OnOk, OnErr, ◌↔◌, option_map};
    ghost use Rattle.std.specs.Bool.{OnTrue, OnFalse};
    ghost use Rattle.child_table.specs.Rows.{key_in, new_row, marked};
    ghost use Rattle.child_table.specs.Held.{row_of, table_len, cap_of, owner_of, is_settled_in, Sets};

    /// An empty table with room for `cap` children. No other call takes memory.
    pub fn new(alloc: Global, cap: u32) -> Result<Table, NoMemory>
        ensures empty { IfOk result (λ t. (k : ℕ) → row_of t k ≡ None) }
        ensures len { IfOk result (λ t. table_len t ≡ 0) }
        ensures cap { IfOk result (λ t. cap_of t ≡ cap) }
    {
        let places = Vec::with_capacity(alloc, cap as usize)?;
        let rows = Slab::with_capacity(alloc, cap as usize)?;
        Ok(Table { places, rows, cap })
    }

    /// How many children are held.
    pub fn len(&self) -> u32
        ensures { result ≡ table_len self.now }
    {
        let _cap = self.cap;
        let len = self.places.len();
        len as u32
    }

    /// Holds a child that is to be started for connection `c`. `TableFull` exactly where as many are held as may.
    pub fn start(&mut self, k: u64, c: u64) -> Result<(), TableFull>
        requires { row_of self.old k ≡ None }
        ensures full { IsErr result ↔ (table_len self.old ≡ cap_of self.old) }
        ensures numbers { IfErr result (λ full. full ≡ record { held = table_len self.old; cap = cap_of self.old }) }
        ensures ok { OnOk result (Sets self.old self.new k (Some (new_row c))) }
        ensures len { OnOk result (table_len self.new ≡ table_len self.old + 1) }
        ensures err { OnErr result (self.new ≡ self.old) }
        ensures cap { cap_of self.new ≡ cap_of self.old }
    {
        if self.len() == self.cap {
            return Err(TableFull {
                held: self.len(),
                cap: self.cap,
            });
        }
        self.put(k, c);
        Ok(())
    }

    fn put(&mut self, k: u64, c: u64)
        requires absent { row_of self.old k ≡ None }
        requires room { table_len self.old < cap_of self.old }
        ensures sets { Sets self.old self.new k (Some (new_row c)) }
        ensures len { table_len self.new ≡ table_len self.old + 1 }
        ensures cap { cap_of self.new ≡ cap_of self.old }
    {
        match place_of(&self.places, k) {
            Ok(_) => {}
            Err(at) => {
                let key = self.rows.insert_reserved(row_for(c));
                let _ = self.places.insert(at, Place { number: k, key });
            }
        }
    }

    // The key of a child's row.
    fn key_of(&self, k: u64) -> Option<usize>
        ensures { result ≡ key_in self.now.places.items k }
    {
        match place_of(&self.places, k) {
            Ok(at) => Some(self.places[at].key),
            Err(_) => None,
        }
    }

    // A child's row.
    fn row(&self, k: u64) -> Option<Row>
        ensures { result ≡ row_of self.now k }
    {
        match self.key_of(k) {
            Some(key) => self.rows.get(key).copied(),
            None => None,
        }
    }

    /// Marks a child; false exactly where it is not held, and then nothing changes.
    pub fn mark(&mut self, k: u64, mark: Mark) -> bool
        ensures held { result ≡ is_some (row_of self.old k) }
        ensures marks { Sets self.old self.new k (option_map (marked mark) (row_of self.old k)) }
        ensures len { table_len self.new ≡ table_len self.old }
        ensures cap { cap_of self.new ≡ cap_of self.old }
    {
        match self.key_of(k) {
            Some(key) => {
                mark_row(&mut self.rows, key, mark);
                true
            }
            None => false,
        }
    }

    /// The connection that a child was started for, where the child is held.
    pub fn owner(&self, k: u64) -> Option<u64>
        ensures { result ≡ owner_of self.now k }
    {
        match self.row(k) {
            Some(row) => Some(row.owner),
            None => None,
        }
    }

    /// Whether a child is held and settled: it could not be started, or it was reaped and its input and its output
    /// ended.
    pub fn settled(&self, k: u64) -> bool
        ensures { result ≡ is_settled_in self.now k }
    {
        match self.row(k) {
            Some(row) => has_settled(row),
            None => false,
        }
    }

    /// Lets go of a child that is held and settled; true exactly where it was so, else nothing changes.
    pub fn remove_settled(&mut self, k: u64) -> bool
        ensures which { result ≡ is_settled_in self.old k }
        ensures gone { OnTrue result (Sets self.old self.new k None) }
        ensures len { OnTrue result (table_len self.new + 1 ≡ table_len self.old) }
        ensures kept { OnFalse result (self.new ≡ self.old) }
        ensures cap { cap_of self.new ≡ cap_of self.old }
    {
        if !self.settled(k) {
            return false;
        }
        self.take(k);
        true
    }

    fn take(&mut self, k: u64)
        requires { is_some (row_of self.old k) ≡ true }
        ensures gone { Sets self.old self.new k None }
        ensures len { table_len self.new + 1 ≡ table_len self.old }
        ensures cap { cap_of self.new ≡ cap_of self.old }
    {
        match place_of(&self.places, k) {
            Ok(at) => {
                let place = self.places.remove(at);
                let _row = self.rows.remove(place.key);
            }
            Err(_) => {}
        }
    }
}
