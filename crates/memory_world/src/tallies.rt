// What is counted beside a trace.
ghost use Rattle.std.specs.Prelude.{◌≡◌, ◌||◌};
ghost use Rattle.host_trace.specs.Kinds.{is_stop};

use super::child_tallies::ChildTallies;
use super::client_tallies::note_client;
use super::fit::one_if;
use super::kinds::{is_accepted, is_stop};
use host_trace::Item;
use std::alloc::Global;
use std::collections::BTreeMap;
use trace_tallies::ClientTally;

/// The tallies of the connections and of the children, how many connections were accepted, and whether Stop
/// was heard.
#[derive(Drop)]
pub struct Tallies {
    pub clients: BTreeMap<u64, ClientTally>,
    pub children: ChildTallies,
    pub accepted: u64,
    pub stopped: bool,
}

impl Tallies {
    ghost use Rattle.std.specs.Prelude.{◌≡◌, [], ◌∷◌, ◌++◌, List, true};
    ghost use Rattle.host_trace.specs.declared.items.Item.{Item};
    ghost use Rattle.memory_world.specs.Ties.{Ties};

    /// Of a trace without items.
    pub fn new(alloc: Global) -> Self
        ensures { Ties result [] }
    {
        Tallies {
            clients: BTreeMap::new(alloc),
            children: ChildTallies::new(alloc),
            accepted: 0,
            stopped: false,
        }
    }

    /// Counts one item more. False where a number or the memory doesn't hold it: then nothing is counted rightly.
    pub fn note(&mut self, item: &Item) -> bool
        ensures { result ≡ true → (T : List Item) → Ties self.old T → Ties self.new (T ++ item.now ∷ []) }
    {
        let Some(accepted) = self.accepted.checked_add(one_if(is_accepted(item))) else {
            return false;
        };
        self.accepted = accepted;
        self.stopped = is_stopped(self.stopped, item);
        if note_client(&mut self.clients, item) {
            return self.children.note(item);
        }
        false
    }
}

// Whether Stop was heard before or is now.
fn is_stopped(before: bool, item: &Item) -> bool
    ensures { result ≡ (before || is_stop item.now) }
{
    before || is_stop(item)
}
