// The turns of a loop.
ghost use Rattle.std.specs.Prelude.{◌≡◌, ◌≤◌, ◌<◌, ◌^◌, ℕ, true, All, length, slice_index_or};
ghost use Rattle.host_core.specs.Owners.{served};
ghost use Rattle.host_core.specs.Stands.{Good};
ghost use Rattle.host_loop.specs.Loops.{HasHeardNothing, IsFresh, WasServed, WasTold, is_ended};

use crate::serve::LoopEnd;
use host_core::Core;
use host_trace::Outside;
use many_conns::NewConnection;
use std::thread;
use std::thread::Threads;

// The most threads.
const THREADS: usize = 16;

/// Each turn hears one event and makes one step of the core, until it is stopped and settled. It waits only in the
/// outside's `next`.
pub(crate) fn take_turns<'s, C: NewConnection<'s>, O: Outside>(
    core: &mut Core<'s, C>,
    out: &mut O,
    turns: u64,
) -> LoopEnd
    requires turns { turns ≤ 2 ^ 62 }
    requires core { HasHeardNothing (served core.old) core.old }
    requires limit { O.limit out.old ≡ (served core.old).limits.children }
    requires fresh { IsFresh (O.trace out.old) }
    ensures served { WasServed (Good C.kind (served core.old)) turns result (O.trace out.new) }
    ensures ended { is_ended result ≡ true }
    ensures site { served core.new ≡ served core.old }
    ensures told { WasTold (O.trace out.old) (O.trace out.new) }
{
    for turn in 0..turns {
        let ev = out.next();
        core.step(ev, out);
        if core.stopped() && core.all_settled() {
            return LoopEnd::Done;
        }
    }
    LoopEnd::Spent
}

/// A loop that takes its turns by itself.
pub trait TakesTurns {
    /// It has heard nothing.
    ghost begins: { Self → Type 0 };

    /// It has taken its turns.
    ghost ended: { ℕ → Self → Type 0 };

    /// What its turns leave of it.
    ghost keeps: { Self → Self → Type 0 };

    fn take_turns(&mut self, turns: u64)
        requires turns { turns ≤ 2 ^ 62 }
        requires begins { begins self.old }
        ensures ended { ended turns self.new }
        ensures keeps { keeps self.old self.new };
}

/// Each loop takes its turns, in a thread of its own where there are at most 16; of more some share one, and take them one
/// after the other. A single one takes them in the thread of the caller.
pub fn take_all_turns<R: Threads + Sync, L: TakesTurns + Send>(rt: &R, loops: &mut [L], turns: u64)
    requires turns { turns ≤ 2 ^ 62 }
    requires begin { All L.begins loops.old }
    ensures ended { All (L.ended turns) loops.new }
    ensures keeps { (i : ℕ) (d : L) → i < length loops.old → L.keeps (slice_index_or loops.old i d) (slice_index_or loops.new i d) }
{
    thread::for_each_mut(rt, loops, THREADS, &|_, one| { one.take_turns(turns) });
}
