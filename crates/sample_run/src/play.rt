// A loop over the events of an outside in memory.
ghost use Rattle.std.specs.Prelude.{◌≡◌, ◌^◌, List, [], Some};
ghost use Rattle.host_base.specs.SiteRules.{IsServed};
ghost use Rattle.host_trace.specs.declared.items.Item.{Item};
ghost use Rattle.trace_model.specs.Good.{Good};
ghost use Rattle.host_loop.specs.Served.{Served};
ghost use Rattle.memory_world.specs.MemoryWords.{items_of, listed_of, trace_of};
ghost use Rattle.sample_run.specs.Played.{IsPlayed};
ghost use Rattle.sample_run.specs.Takes.{Takes};

use crate::played::{Plan, Played};
use conn_core::Conn;
use host_base::Site;
use host_loop::{LoopEnd, serve_one};
use memory_world::MemoryOutside;
use std::alloc::Global;
use std::marker::{Brand, PhantomData};

// The most events.
const TURNS: u64 = 1 << 62;

// Serves the events of a plan.
fn play_plan<K: Plan>(
    alloc: Global,
    site: &Site,
    outside: MemoryOutside,
) -> (MemoryOutside, LoopEnd)
    requires served { IsServed site.now }
    requires fresh { items_of outside ≡ [] }
    requires listed { listed_of outside ≡ K.events }
    requires children { K.children ≡ site.now.limits.children }
    requires limit { outside.limit ≡ K.children }
    ensures good { (T : List Item) → trace_of result.0 ≡ Some T → Good site.now T }
    ensures served { (T : List Item) → trace_of result.0 ≡ Some T → Served (2 ^ 62) result.1 T }
    ensures takes { (T : List Item) → trace_of result.0 ≡ Some T → Takes K.children K.events T }
{
    let mut played = Played::<K> {
        inside: outside,
        plan: PhantomData,
    };
    let end = serve_one::<Conn<'_>, Played<K>>(alloc, site, &mut played, TURNS);
    let Played { inside, plan: _ } = played;
    (inside, end)
}

/// Serves the events that an outside in memory hands up to connections of a site. The outside is a new one. It answers
/// the outside after the loop, and how the loop ended.
pub fn play(alloc: Global, site: &Site, outside: MemoryOutside) -> (MemoryOutside, LoopEnd)
    requires served { IsServed site.now }
    requires fresh { items_of outside ≡ [] }
    requires limit { outside.limit ≡ site.now.limits.children }
    ensures { (T : List Item) → trace_of result.0 ≡ Some T → IsPlayed site.now (listed_of outside) result.1 T }
{
    play_plan::<Brand>(alloc, site, outside)
}
