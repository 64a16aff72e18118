// A world that is served.
ghost use Rattle.std.specs.Prelude.{◌≡◌, ◌≤◌, ◌<◌, ◌^◌};
ghost use Rattle.host_base.specs.Outsides.{Rose};
ghost use Rattle.host_base.specs.SiteRules.{IsServed};
ghost use Rattle.host_trace.specs.Entries.{Enters, entry_of};
ghost use Rattle.trace_laws.specs.Promised.{Promised};
ghost use Rattle.host_loop.specs.Given.{GivesLoops};

use crate::all::serve_all;
use host_base::Site;
use host_loop::WorldEnd;
use host_trace::{EnterFault, Mode, World};
use std::alloc::Global;
use std::thread::Threads;

/// Enters a world for so many loops over a site, serves its connections for so many turns of each loop at most, each of
/// which hears one event, and gives its outsides back. Each of at most 16 loops runs in a thread of its own, a single one in
/// that of the caller; of more some share a thread, and run one after the other. Every trace that the world tells of them is
/// good, each of its events fits, and the host was ready at each step's end, whatever its clients, children and clock did.
pub fn serve_site<R: Threads + Sync, W: World>(
    rt: &R,
    alloc: Global,
    mode: Mode,
    site: &Site,
    loops: u32,
    turns: u64,
    world: &mut W,
) -> WorldEnd
    requires loops { 0 < loops }
    requires once { mode ≡ Mode.Once → loops ≡ 1 }
    requires turns { turns ≤ 2 ^ 62 }
    requires served { IsServed site.now }
    ensures gives { GivesLoops (Promised site.now) turns loops result (W.given world.old) (W.given world.new) }
    ensures entered { Enters (W.entries world.old) (entry_of mode site.now loops) (W.entries world.new) }
    ensures out { W.out world.new ≡ W.out world.old }
    ensures failed { result ≡ WorldEnd.Refused → Rose (W.faults world.old) (W.faults world.new) }
{
    let mut outs = match world.enter(mode, site, loops) {
        Ok(outs) => outs,
        Err(EnterFault::Failed) => return WorldEnd::Refused,
        Err(EnterFault::NoMemory) => return WorldEnd::Unentered,
    };
    let end = serve_all(rt, alloc, site, &mut outs, turns);
    world.leave(outs);
    WorldEnd::Ended(end)
}
