// The items that an outside in memory keeps.
ghost use Rattle.std.specs.Prelude.{◌≡◌, ◌≤◌, ◌++◌, ◌∷◌, ◌&&◌, [], true, false, nat_lt, IfOk, length, vec_len, vec_capacity};

use super::counted::Counted;
use host_base::NoMemory;
use host_trace::Item;
use std::alloc::Global;

/// A trace with room for a number of items. One past the room ends the telling.
#[derive(Drop)]
pub struct Telling {
    pub trace: Counted,
    pub room: usize,
    pub tells: bool,
    ghost roomy: { room ≤ vec_capacity trace.items },
}

impl Telling {
    pub fn new(alloc: Global, room: usize) -> Result<Self, NoMemory>
        ensures empty { IfOk result (λ r. r.trace.items.items ≡ []) }
        ensures tells { IfOk result (λ r. r.tells ≡ true) }
        ensures room { IfOk result (λ r. r.room ≡ room) }
    {
        Ok(Telling {
            trace: Counted::new(alloc, room)?,
            room,
            tells: true,
        })
    }

    /// One that tells nothing.
    pub fn silent(alloc: Global) -> Result<Self, NoMemory>
        ensures empty { IfOk result (λ r. r.trace.items.items ≡ []) }
        ensures tells { IfOk result (λ r. r.tells ≡ false) }
        ensures room { IfOk result (λ r. r.room ≡ 0) }
    {
        Ok(Telling {
            trace: Counted::new(alloc, 0)?,
            room: 0,
            tells: false,
        })
    }

    pub fn into_items(self) -> Vec<Item>
        ensures { result.items ≡ self.trace.items.items }
    {
        let Telling {
            trace,
            room: _,
            tells: _,
        } = self;
        trace.into_items()
    }

    /// Keeps an item. It takes no memory where there is room; past it the item may be lost.
    pub fn keep(&mut self, item: Item)
        ensures kept { self.new.tells ≡ true → self.new.trace.items.items ≡ self.old.trace.items.items ++ item ∷ [] }
        ensures tells { self.new.tells ≡ (self.old.tells && nat_lt (length self.old.trace.items.items) self.old.room) }
        ensures room { self.new.room ≡ self.old.room }
    {
        let has_room = self.trace.items.len() < self.room;
        self.tells = self.tells && has_room;
        let _ = self.trace.push(item);
    }
}
