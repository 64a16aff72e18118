// Laws of the core. Each function is one law, and does nothing.
ghost use Rattle.std.specs.Prelude.{List};
ghost use Rattle.host_trace.specs.declared.items.Item.{Item};
ghost use Rattle.host_core.specs.Owners.{served};
ghost use Rattle.host_core.specs.Stands.{Good, Stands};

use crate::core_state::Core;
use many_conns::Connection;

/// What a core stands for is good: the part of each connection, and the part between connections.
pub fn stands_are_good<'s, C: Connection>(core: &Core<'s, C>)
    ensures { (T : List Item) → Stands core.now T → Good C.kind (served core.now) T }
{
    let _core = core;
}
