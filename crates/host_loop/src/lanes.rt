// The lanes of several loops.
ghost use Rattle.std.specs.Prelude.{◌≡◌, ◌≤◌, ◌+◌, ◌^◌, ◌⊎◌, true, IfOk, OnOk, OnErr, All, map, reverse, vec_len, vec_capacity};
ghost use Rattle.host_base.specs.SiteRules.{IsServed};
ghost use Rattle.host_core.specs.Owners.{served};
ghost use Rattle.host_core.specs.Stands.{Good};
ghost use Rattle.host_loop.specs.Loops.{HasEnded, HasHeardNothing, IsAny, IsFresh, WasServed, WhereTold, is_ended};
ghost use Rattle.host_loop.specs.Served.{Served};

use crate::serve::LoopEnd;
use crate::turns::{TakesTurns, take_turns};
use host_base::{NoMemory, Site};
use host_core::Core;
use host_trace::Outside;
use many_conns::{Connection, NewConnection};
use std::alloc::Global;

/// The lane of one loop: its core, its outside, and how it ended.
pub struct Lane<'s, C: Connection, O> {
    pub core: Core<'s, C>,
    pub out: O,
    pub end: LoopEnd,
}

impl<'s, C: NewConnection<'s>, O: Outside> TakesTurns for Lane<'s, C, O> {
    ghost use Rattle.std.specs.Prelude.{◌≡◌, ◌≤◌, ◌^◌, true};
    ghost use Rattle.host_core.specs.Owners.{served};
    ghost use Rattle.host_core.specs.Stands.{Good};
    ghost use Rattle.host_loop.specs.Loops.{HasHeardNothing, IsFresh, WasServed, WasTold, is_ended};

    ghost begins = { λ l. HasHeardNothing (served l.core) l.core × (IsFresh (O.trace l.out) × (O.limit l.out ≡ (served l.core).limits.children)) };

    ghost ended = { λ turns l. WasServed (Good C.kind (served l.core)) turns l.end (O.trace l.out) × (is_ended l.end ≡ true) };

    ghost keeps = { λ before after. (served after.core ≡ served before.core) × WasTold (O.trace before.out) (O.trace after.out) };

    fn take_turns(&mut self, turns: u64) {
        self.end = take_turns(&mut self.core, &mut self.out, turns);
    }
}

// So many cores that have heard nothing.
fn cores<'s, C: NewConnection<'s>>(
    alloc: Global,
    site: &'s Site,
    count: usize,
) -> Result<Vec<Core<'s, C>>, NoMemory>
    requires { IsServed site.now }
    ensures count { IfOk result (λ cores. vec_len cores ≡ count) }
    ensures each { IfOk result (λ cores. All (HasHeardNothing site.now) cores.items) }
{
    let mut cores = Vec::with_capacity(alloc, count)?;
    for i in 0..count {
        cores.push_reserved(Core::<'s, C>::new(alloc, site)?);
    }
    Ok(cores)
}

// Moves outsides into lanes, the last first. It takes no memory.
fn fill<'s, C: NewConnection<'s>, O: Outside>(
    site: &'s Site,
    cores: Vec<Core<'s, C>>,
    outs: &mut Vec<O>,
    lanes: Vec<Lane<'s, C, O>>,
) -> Vec<Lane<'s, C, O>>
    requires count { vec_len cores ≡ vec_len outs.old }
    requires cores { All (HasHeardNothing site.now) cores.items }
    requires outs { All (λ o. IsFresh (O.trace o) × (O.limit o ≡ site.now.limits.children)) outs.old.items }
    requires none { vec_len lanes ≡ 0 }
    requires room { vec_len outs.old ≤ vec_capacity lanes }
    ensures count { vec_len result ≡ vec_len outs.old }
    ensures empty { vec_len outs.new ≡ 0 }
    ensures room { vec_capacity outs.new ≡ vec_capacity outs.old }
    ensures order { reverse (map (λ l. l.out) result.items) ≡ outs.old.items }
    ensures each { All (λ l. (served l.core ≡ site.now) × (HasHeardNothing (served l.core) l.core × (IsFresh (O.trace l.out) × (O.limit l.out ≡ (served l.core).limits.children)))) result.items }
{
    let mut cores = cores;
    let mut lanes = lanes;
    while let Some(core) = cores.pop() {
        let out = outs.take_last();
        lanes.push_reserved(Lane {
            core,
            out,
            end: LoopEnd::NoMemory,
        });
    }
    lanes
}

/// Moves outsides into lanes, the last first, each with a core that has heard nothing. All memory that their loops need
/// before the first event is taken here; where it is wanting the outsides stay where they are.
pub fn lanes_of<'s, C: NewConnection<'s>, O: Outside>(
    alloc: Global,
    site: &'s Site,
    outs: &mut Vec<O>,
) -> Result<Vec<Lane<'s, C, O>>, NoMemory>
    requires served { IsServed site.now }
    requires outs { All (λ o. IsFresh (O.trace o) × (O.limit o ≡ site.now.limits.children)) outs.old.items }
    ensures count { IfOk result (λ lanes. vec_len lanes ≡ vec_len outs.old) }
    ensures order { IfOk result (λ lanes. reverse (map (λ l. l.out) lanes.items) ≡ outs.old.items) }
    ensures each { IfOk result (λ lanes. All (λ l. (served l.core ≡ site.now) × (HasHeardNothing (served l.core) l.core × (IsFresh (O.trace l.out) × (O.limit l.out ≡ (served l.core).limits.children)))) lanes.items) }
    ensures empty { OnOk result (vec_len outs.new ≡ 0) }
    ensures room { OnOk result (vec_capacity outs.new ≡ vec_capacity outs.old) }
    ensures err { OnErr result (outs.new ≡ outs.old) }
{
    let cores = cores::<'s, C>(alloc, site, outs.len())?;
    let lanes = Vec::with_capacity(alloc, outs.len())?;
    Ok(fill(site, cores, outs, lanes))
}

// Spent if either is, else Done.
fn worse(so_far: LoopEnd, one: LoopEnd) -> LoopEnd
    requires so_far { is_ended so_far ≡ true }
    requires one { is_ended one ≡ true }
    ensures done { result ≡ LoopEnd.Done → (so_far ≡ LoopEnd.Done) × (one ≡ LoopEnd.Done) }
    ensures ended { is_ended result ≡ true }
    ensures spent { result ≡ LoopEnd.Spent → (so_far ≡ LoopEnd.Spent) ⊎ (one ≡ LoopEnd.Spent) }
{
    match so_far {
        LoopEnd::Done => one,
        LoopEnd::Spent | LoopEnd::NoMemory => so_far,
    }
}

/// Moves outsides back out of their lanes, the last first, so each comes to the place that it was taken from. It takes no
/// memory. It answers how the loops ended: Spent if one was, else Done.
pub fn empty<'s, C: NewConnection<'s>, O: Outside>(
    site: &'s Site,
    lanes: Vec<Lane<'s, C, O>>,
    outs: &mut Vec<O>,
    turns: u64,
) -> LoopEnd
    requires lanes { All (λ l. WasServed (Good C.kind site.now) turns l.end (O.trace l.out) × (is_ended l.end ≡ true)) lanes.items }
    requires none { vec_len outs.old ≡ 0 }
    requires room { vec_len lanes ≤ vec_capacity outs.old }
    ensures count { vec_len outs.new ≡ vec_len lanes.entry }
    ensures order { outs.new.items ≡ reverse (map (λ l. l.out) lanes.entry.items) }
    ensures good { All (λ o. WhereTold (Good C.kind site.now) (O.trace o)) outs.new.items }
    ensures each { All (λ o. WhereTold (HasEnded turns) (O.trace o)) outs.new.items }
    ensures done { result ≡ LoopEnd.Done → All (λ o. WhereTold (Served turns LoopEnd.Done) (O.trace o)) outs.new.items }
    ensures spent { result ≡ LoopEnd.Spent → IsAny (λ o. WhereTold (Served turns LoopEnd.Spent) (O.trace o)) outs.new.items }
    ensures ended { is_ended result ≡ true }
{
    let mut lanes = lanes;
    let mut end = LoopEnd::Done;
    while let Some(lane) = lanes.pop() {
        let Lane {
            core: _,
            out,
            end: one,
        } = lane;
        end = worse(end, one);
        outs.push_reserved(out);
    }
    lanes.destroy_empty();
    end
}
