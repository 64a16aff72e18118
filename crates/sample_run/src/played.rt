// An outside that hands up a list of events, and knows the list.
ghost use Rattle.std.specs.Prelude.{◌≡◌, ℕ, List, [], Some};
ghost use Rattle.host_trace.specs.declared.items.Event.{Event};
ghost use Rattle.host_trace.specs.declared.items.Item.{Item};
ghost use Rattle.memory_world.specs.MemoryWords.{listed_of, trace_of};
ghost use Rattle.sample_run.specs.Takes.{Leaves, Takes};

use host_trace::{Act, Acted, Event, Outside};
use memory_world::MemoryOutside;
use std::marker::{Brand, PhantomData};

/// What is to be handed up.
pub trait Plan {
    /// The events, in their order.
    ghost events: { List Event };

    /// How many children may run.
    ghost children: { ℕ };
}

impl Plan for Brand {
    ghost use Rattle.std.specs.Prelude.{[]};

    ghost events = { [] };

    ghost children = { 0 };
}

/// An outside in memory that began with the events of the plan.
#[derive(Drop)]
pub struct Played<K: Plan> {
    pub inside: MemoryOutside,
    pub plan: PhantomData<K>,
    // What was heard is what the list names, and what is left of it is still listed.
    ghost takes: { (T : List Item) → trace_of inside ≡ Some T → Takes K.children K.events T },
    ghost leaves: { (T : List Item) → trace_of inside ≡ Some T → Leaves K.children K.events T (listed_of inside) },
    ghost limit: { inside.limit ≡ K.children },
}

impl<K: Plan> Outside for Played<K> {
    ghost use Rattle.memory_world.specs.MemoryWords.{trace_of};

    ghost trace = { λ o. trace_of o.inside };

    ghost faults = { λ o. o.inside.faults };

    ghost full_books = { λ o. o.inside.full_books };

    ghost limit = { λ o. o.inside.limit };

    fn next(&mut self) -> Event {
        self.inside.next()
    }

    fn act(&mut self, act: &Act) -> Acted {
        self.inside.act(act)
    }
}
