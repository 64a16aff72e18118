// Connections under keys of a slab; in front of it stands a list of their numbers with these keys, by rising number, so
// one is found by a binary search and a new one goes to the list's end. All room is taken at the beginning.
ghost use Rattle.std.specs.Prelude.{◌≡◌, ◌≤◌, vec_len, vec_capacity};
ghost use Rattle.slab.specs.Slab.{slab_len};
ghost use Rattle.live_conns.specs.Places.{AreKeys, AreNumbers, IsRising, keys_in};

use crate::place::{Place, place_of};
use host_base::NoMemory;
use host_trace::{Event, Outside};
use many_conns::Connection;
use slab::Slab;
use std::alloc::Global;

/// The connections that hold a slot, by rising number.
#[derive(Drop)]
pub struct Live<C: Connection> {
    places: Vec<Place>,
    rows: Slab<C>,
    cap: u32,
    ghost rising: { IsRising places.items },
    ghost keys: { AreKeys rows (keys_in places.items) },
    ghost numbers: { AreNumbers C.kind places.items rows },
    ghost within: { vec_len places ≤ cap },
    ghost room: { cap ≤ vec_capacity places },
    ghost same_len: { slab_len rows ≡ vec_len places },
    ghost row_room: { cap ≤ rows.capacity },
}

impl<C: Connection> Live<C> {
    ghost use Rattle.std.specs.Prelude.{◌≡◌, ◌<◌, ◌++◌, ◌∷◌, [], ℕ, List, length, slice_index_or, false, IfOk, MatchOption};
    ghost use Rattle.std.specs.List.{All, remove};
    ghost use Rattle.own_traces.specs.Whose.{has};
    ghost use Rattle.host_base.specs.SiteRules.{IsServed};
    ghost use Rattle.reply_writer.specs.WholeRules.{IsStamp};
    ghost use Rattle.many_conns.specs.Lists.{IsAtPlace, numbers};
    ghost use Rattle.live_conns.specs.Live.{StepsAt, cap_of, conns_of};

    /// No connection, with room for `cap` of them. No other call takes memory for itself.
    pub fn new(alloc: Global, cap: u32) -> Result<Self, NoMemory>
        ensures conns { IfOk result (λ live. conns_of live ≡ []) }
        ensures cap { IfOk result (λ live. cap_of live ≡ cap) }
    {
        let places = Vec::with_capacity(alloc, cap as usize)?;
        let rows = Slab::with_capacity(alloc, cap as usize)?;
        Ok(Live { places, rows, cap })
    }

    /// How many there are.
    pub fn len(&self) -> usize
        ensures { result ≡ length (conns_of self.now) }
    {
        self.places.len()
    }

    /// Adds a connection of a number above all others.
    pub fn push(&mut self, number: u64, conn: C)
        requires number { number ≡ C.kind.number_of conn }
        requires above { All (λ x. C.kind.number_of x < number) (conns_of self.old) }
        requires room { length (conns_of self.old) < cap_of self.old }
        ensures conns { conns_of self.new ≡ conns_of self.old ++ conn ∷ [] }
        ensures cap { cap_of self.new ≡ cap_of self.old }
    {
        let key = self.rows.insert_reserved(conn);
        let _ = self.places.push(Place { number, key });
    }

    /// Where the connection of a number lies.
    pub fn find(&self, c: u64) -> Option<usize>
        ensures { MatchOption result (has (numbers C.kind (conns_of self.now)) c ≡ false) (IsAtPlace C.kind (conns_of self.now) c) }
    {
        match place_of(&self.places, c) {
            Ok(at) => Some(at),
            Err(_) => None,
        }
    }

    /// The number of the connection at a place.
    pub fn number(&self, i: usize) -> u64
        requires { i < length (conns_of self.now) }
        ensures { (d : C) → result ≡ C.kind.number_of (slice_index_or (conns_of self.now) i d) }
    {
        self.places[i].number
    }

    /// The connection at a place.
    pub fn get(&self, i: usize) -> &C
        requires { i < length (conns_of self.now) }
        ensures { (d : C) → result.now ≡ slice_index_or (conns_of self.now) i d }
    {
        let key = self.places[i].key;
        &self.rows[key]
    }

    /// The connection at a place makes its step. Whether it needs its slot still.
    pub fn step<O: Outside>(
        &mut self,
        i: usize,
        ev: Event,
        now: Option<u64>,
        children: &mut u64,
        out: &mut O,
    ) -> bool
        requires place { i < length (conns_of self.old) }
        requires stamp { IsStamp now }
        requires served { All (λ x. IsServed (C.kind.site_of x)) (conns_of self.old) }
        ensures steps { StepsAt C.kind i ev now (conns_of self.old) children.old (O.trace out.old) (conns_of self.new) children.new (O.trace out.new) }
        ensures needs { (d : C) → result ≡ C.kind.needs (slice_index_or (conns_of self.new) i d) }
        ensures cap { cap_of self.new ≡ cap_of self.old }
        ensures limit { O.limit out.new ≡ O.limit out.old }
    {
        let key = self.places[i].key;
        self.rows[key].step(ev, now, children, out)
    }

    /// The connection at a place gives its slot back.
    pub fn remove(&mut self, i: usize)
        requires { i < length (conns_of self.old) }
        ensures conns { conns_of self.new ≡ remove (conns_of self.old) i }
        ensures cap { cap_of self.new ≡ cap_of self.old }
    {
        let place = self.places.remove(i);
        let _ = self.rows.try_remove(place.key);
    }
}
