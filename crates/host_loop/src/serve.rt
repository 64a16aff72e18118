// The loop over the events of one outside.
ghost use Rattle.std.specs.Prelude.{◌≡◌, ◌≤◌, ◌^◌, List, [], Some};
ghost use Rattle.host_base.specs.SiteRules.{IsServed};
ghost use Rattle.host_trace.specs.declared.items.Item.{Item};
ghost use Rattle.host_core.specs.Stands.{Good};
ghost use Rattle.host_loop.specs.Served.{Served};

use crate::turns::take_turns;
use host_base::Site;
use host_core::Core;
use host_trace::Outside;
use many_conns::NewConnection;
use std::alloc::Global;

/// How a loop ended.
#[derive(Clone, Copy, Debug, PartialEq, Eq)]
pub enum LoopEnd {
    /// Stop was heard and every child is settled.
    Done,
    /// As many events were heard as there are turns, without that.
    Spent,
    /// No memory was found before the first event.
    NoMemory,
}

/// Serves what an outside hands up to connections of one type. It waits only in the outside's `next`. The outside is a new
/// one.
pub fn serve_one<'s, C: NewConnection<'s>, O: Outside>(
    alloc: Global,
    site: &'s Site,
    out: &mut O,
    turns: u64,
) -> LoopEnd
    requires turns { turns ≤ 2 ^ 62 }
    requires served { IsServed site.now }
    requires children { O.limit out.old ≡ site.now.limits.children }
    requires empty { (T : List Item) → O.trace out.old ≡ Some T → T ≡ [] }
    ensures good { (T : List Item) → O.trace out.new ≡ Some T → Good C.kind site.now T }
    ensures served { (T : List Item) → O.trace out.new ≡ Some T → Served turns result T }
    ensures memory { result ≡ LoopEnd.NoMemory → out.new ≡ out.old }
{
    match Core::<'s, C>::new(alloc, site) {
        Ok(core) => {
            let mut core = core;
            take_turns(&mut core, out, turns)
        }
        Err(_) => LoopEnd::NoMemory,
    }
}
