// The loops over the connections of this server, each in a thread.
ghost use Rattle.std.specs.Prelude.{◌≡◌, ◌≤◌, ◌^◌, All};
ghost use Rattle.std.specs.List.{AllZip};
ghost use Rattle.host_base.specs.SiteRules.{IsServed};
ghost use Rattle.trace_laws.specs.Promised.{Promised};
ghost use Rattle.host_loop.specs.Loops.{HasEnded, IsAny, IsFresh, WasTold, WhereTold};
ghost use Rattle.host_loop.specs.Served.{Served};

use conn_core::Conn;
use host_base::Site;
use host_loop::{LoopEnd, empty, lanes_of, take_all_turns};
use host_trace::Outside;
use std::alloc::Global;
use std::thread::Threads;

/// Serves what outsides hand up, each in a loop of its own for so many turns at most, and each loop in a thread of its own
/// where there are at most 16; of more some share one, and run one after the other. The outsides are new ones, and stay in
/// their places. It waits only in their `next`, and for the last loop.
pub fn serve_all<R: Threads + Sync, O: Outside + Send>(
    rt: &R,
    alloc: Global,
    site: &Site,
    outs: &mut Vec<O>,
    turns: u64,
) -> LoopEnd
    requires turns { turns ≤ 2 ^ 62 }
    requires served { IsServed site.now }
    requires outs { All (λ o. IsFresh (O.trace o) × (O.limit o ≡ site.now.limits.children)) outs.old.items }
    ensures places { AllZip (λ o p. WasTold (O.trace o) (O.trace p)) outs.old.items outs.new.items }
    ensures good { All (λ o. WhereTold (Promised site.now) (O.trace o)) outs.new.items }
    ensures done { result ≡ LoopEnd.Done → All (λ o. WhereTold (Served turns LoopEnd.Done) (O.trace o)) outs.new.items }
    ensures spent { result ≡ LoopEnd.Spent → IsAny (λ o. WhereTold (Served turns LoopEnd.Spent) (O.trace o)) outs.new.items }
    ensures each { result ≡ LoopEnd.Spent → All (λ o. WhereTold (HasEnded turns) (O.trace o)) outs.new.items }
    ensures memory { result ≡ LoopEnd.NoMemory → outs.new ≡ outs.old }
{
    let mut lanes = match lanes_of::<Conn<'_>, O>(alloc, site, outs) {
        Ok(lanes) => lanes,
        Err(_) => return LoopEnd::NoMemory,
    };
    take_all_turns(rt, lanes.as_mut_slice(), turns);
    empty(site, lanes, outs, turns)
}
