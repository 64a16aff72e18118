// A world in memory.
ghost use Rattle.std.specs.Prelude.{◌≡◌, ◌≤◌, ◌+◌, true, All, vec_len, vec_capacity};
ghost use Rattle.std.specs.List.{list_all};
ghost use Rattle.memory_world.specs.MemoryWords.{is_new_for, tells_of};

use super::outside::MemoryOutside;
use host_base::Site;
use host_trace::{EnterFault, Entry, Items, Mode, World};
use std::alloc::Global;

/// A world that gives out the outsides it was made with, once, and keeps their traces when they come back.
/// Entering fails where it was entered before, where it has another number of outsides than loops are asked
/// for, and where one of them isn't new or has another limit than the site.
#[derive(Drop)]
pub struct MemoryWorld {
    fresh: Option<Vec<MemoryOutside>>,
    given: Vec<Items>,
    tells: bool,
    entries: Vec<Entry>,
    tells_entries: bool,
    out: u64,
    faults: u64,
    // The traces of those that are out find room.
    ghost roomy: { vec_len given + out ≤ vec_capacity given },
}

impl MemoryWorld {
    ghost use Rattle.std.specs.Prelude.{◌≡◌, ◌&&◌, [], ◌∷◌, if◌then◌else◌, Some, None, IfOk, OnOk, OnErr, map, All, vec_len, ◌+◌, ◌≤◌, take, true, length, ◌<◌, IsSomeAnd, vec_capacity};
    ghost use Rattle.std.specs.List.{list_all};
    ghost use Rattle.host_trace.specs.Told.{IsNew, Joins};
    ghost use Rattle.host_trace.specs.Entries.{Enters, entry_of};
    ghost use Rattle.memory_world.specs.MemoryWords.{trace_of, is_new_for, tells_of};
    ghost use Rattle.memory_world.specs.WorldWords.{given_of_world, entries_of_world, may_enter, IsRest};

    /// A world of these outsides. It tells its traces where each of them does.
    pub fn new(alloc: Global, fresh: Vec<MemoryOutside>) -> Self
        ensures told { given_of_world result ≡ (if list_all tells_of fresh.items then Some [] else None) }
        ensures fresh { result.fresh ≡ Some fresh }
        ensures entries { entries_of_world result ≡ Some [] }
        ensures counts { (result.out ≡ 0) × (result.faults ≡ 0) }
    {
        let tells = all_tell(fresh.as_slice());
        MemoryWorld {
            fresh: Some(fresh),
            given: Vec::new(alloc),
            tells,
            entries: Vec::new(alloc),
            tells_entries: true,
            out: 0,
            faults: 0,
        }
    }

    /// The traces that came back.
    pub fn given(&self) -> &[Items]
        ensures { given_of_world self.now ≡ (if self.now.tells then Some result.now else None) }
    {
        self.given.as_slice()
    }

    /// Whether it tells its traces, which are then `given`.
    pub fn tells(&self) -> bool
        ensures { result ≡ self.now.tells }
    {
        self.tells
    }

    /// What it was entered for.
    pub fn entries(&self) -> &[Entry]
        ensures { entries_of_world self.now ≡ (if self.now.tells_entries then Some result.now else None) }
    {
        self.entries.as_slice()
    }

    /// Whether it tells what it was entered for, which is then `entries`.
    pub fn tells_entries(&self) -> bool
        ensures { result ≡ self.now.tells_entries }
    {
        self.tells_entries
    }

    /// How often entering failed.
    pub fn faults(&self) -> u64
        ensures { result ≡ self.now.faults }
    {
        self.faults
    }

    // Whether it can be entered for so many loops over a site of this limit.
    fn can_enter(&self, limit: u32, loops: u32) -> bool
        ensures exact { result ≡ may_enter limit loops self.now }
        ensures count { result ≡ true → IsSomeAnd self.now.fresh (λ outs. vec_len outs ≡ loops) }
        ensures each { result ≡ true → IsSomeAnd self.now.fresh (λ outs. All (λ o. is_new_for limit self.now.tells o ≡ true) outs.items) }
    {
        match &self.fresh {
            Some(outs) => {
                outs.len() == loops as usize && are_new(outs.as_slice(), limit, self.tells)
            }
            None => false,
        }
    }

    // Keeps what it is entered for, or tells no more of its entries where no memory is found.
    fn note(&mut self, mode: Mode, site: &Site, loops: u32)
        ensures entered { Enters (entries_of_world self.old) (entry_of mode site.now loops) (entries_of_world self.new) }
        ensures rest { self.new ≡ record self.old { entries = self.new.entries; tells_entries = self.new.tells_entries } }
    {
        let kept = match site.clone() {
            Ok(site) => self.entries.push(Entry { mode, site, loops }).is_ok(),
            Err(_) => false,
        };
        if !kept {
            self.tells_entries = false;
        }
    }

    // Keeps the trace of an outside.
    fn take_back(&mut self, outside: MemoryOutside)
        requires { vec_len self.old.given + self.old.out < vec_capacity self.old.given }
        ensures given { Joins (given_of_world self.old) (trace_of outside ∷ []) (given_of_world self.new) }
        ensures tells { self.new.tells ≡ (self.old.tells && tells_of outside) }
        ensures same { IsRest self.old self.new }
        ensures grown { vec_len self.new.given ≤ vec_len self.old.given + 1 }
        ensures capacity { vec_capacity self.old.given ≤ vec_capacity self.new.given }
    {
        let (trace, tells) = outside.into_trace();
        if !tells || self.given.push(trace).is_err() {
            self.tells = false;
        }
    }

    // Keeps the traces of outsides, in their order.
    fn take_all(&mut self, outs: Vec<MemoryOutside>)
        requires { vec_len self.old.given + self.old.out + vec_len outs ≤ vec_capacity self.old.given }
        ensures given { Joins (given_of_world self.old) (map trace_of outs.items) (given_of_world self.new) }
        ensures tells { self.new.tells ≡ (self.old.tells && list_all tells_of outs.items) }
        ensures same { IsRest self.old self.new }
    {
        for outside in outs {
            self.take_back(outside);
        }
    }
}

fn all_tell(outs: &[MemoryOutside]) -> bool
    ensures { result ≡ list_all tells_of outs.now }
{
    outs.iter().all(|outside| outside.tells())
}

fn are_new(outs: &[MemoryOutside], limit: u32, tells: bool) -> bool
    ensures exact { result ≡ list_all (is_new_for limit tells) outs.now }
    ensures each { result ≡ true → All (λ o. is_new_for limit tells o ≡ true) outs.now }
{
    all_new(outs, limit, tells)
}

fn all_new(outs: &[MemoryOutside], limit: u32, tells: bool) -> bool
    ensures { result ≡ list_all (is_new_for limit tells) outs.now }
{
    outs.iter().all(|outside| outside.is_new(limit, tells))
}

impl World for MemoryWorld {
    ghost use Rattle.std.specs.Prelude.{◌≡◌, ◌≤◌, ◌<◌, ◌+◌, ◌↔◌, ◌&&◌, not, false, Some, None, IfOk, OnOk, OnErr, All, map, vec_len};
    ghost use Rattle.std.specs.List.{list_all};
    ghost use Rattle.host_base.specs.Outsides.{Rose};
    ghost use Rattle.host_trace.specs.Told.{IsNew, Joins};
    ghost use Rattle.memory_world.specs.MemoryWords.{trace_of, tells_of};
    ghost use Rattle.memory_world.specs.ListedWords.{count_up};
    ghost use Rattle.host_trace.specs.Entries.{Enters, entry_of};
    ghost use Rattle.memory_world.specs.WorldWords.{given_of_world, entries_of_world, may_enter};

    type Out = MemoryOutside;

    ghost given = { given_of_world };

    ghost entries = { entries_of_world };

    ghost out = { λ w. w.out };

    ghost faults = { λ w. w.faults };

    fn enter(
        &mut self,
        mode: Mode,
        site: &Site,
        loops: u32,
    ) -> Result<Vec<MemoryOutside>, EnterFault>
        requires loops { 0 < loops }
        requires once { mode ≡ Mode.Once → loops ≡ 1 }
        ensures count { IfOk result (λ outs. vec_len outs ≡ loops) }
        ensures told { IfOk result (λ outs. All (λ o. IsNew (given_of_world self.old) (trace_of o)) outs.items) }
        ensures limit { IfOk result (λ outs. All (λ o. o.limit ≡ site.now.limits.children) outs.items) }
        ensures out { OnOk result (self.new.out ≡ self.old.out + loops) }
        ensures entered { Enters (entries_of_world self.old) (entry_of mode site.now loops) (entries_of_world self.new) }
        ensures given { given_of_world self.new ≡ given_of_world self.old }
        ensures err { OnErr result (self.new.out ≡ self.old.out) }
        ensures faults { self.old.faults ≤ self.new.faults }
        ensures failed { result ≡ Err EnterFault.Failed → Rose self.old.faults self.new.faults }

        // It gives out the outsides that it was made with, once. What stands in the way is counted.
        ensures those { IfOk result (λ outs. self.old.fresh ≡ Some outs) }
        ensures given_out { OnOk result (self.new.fresh ≡ None) }
        ensures kept { OnErr result (self.new.fresh ≡ self.old.fresh) }
        ensures refused { (result ≡ Err EnterFault.Failed) ↔ (may_enter site.now.limits.children loops self.old ≡ false) }
        ensures counted { self.new.faults ≡ count_up (not (may_enter site.now.limits.children loops self.old)) self.old.faults }
    {
        self.note(mode, site, loops);
        if !self.can_enter(site.limits.children, loops) {
            self.faults = self.faults.saturating_add(1);
            return Err(EnterFault::Failed);
        }
        let Some(out) = self.out.checked_add(loops as u64) else {
            return Err(EnterFault::NoMemory);
        };
        if self.given.reserve(out as usize).is_err() {
            return Err(EnterFault::NoMemory);
        }
        match self.fresh.take() {
            Some(outs) => {
                self.out = out;
                Ok(outs)
            }
            None => unreachable!(),
        }
    }

    fn leave(&mut self, outs: Vec<MemoryOutside>)
        requires { vec_len outs ≤ self.old.out }
        ensures given { Joins (given_of_world self.old) (map trace_of outs.items) (given_of_world self.new) }
        ensures entries { entries_of_world self.new ≡ entries_of_world self.old }
        ensures out { self.new.out + vec_len outs ≡ self.old.out }
        ensures faults { self.old.faults ≤ self.new.faults }

        // It finds the room that was made, and tells on where each outside does.
        ensures tells { self.new.tells ≡ (self.old.tells && list_all tells_of outs.items) }
        ensures counted { self.new.faults ≡ self.old.faults }
        ensures fresh { self.new.fresh ≡ self.old.fresh }
    {
        self.out -= outs.len() as u64;
        self.take_all(outs);
    }
}
