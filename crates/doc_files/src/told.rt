// The items of an outside that keeps its own trace.
ghost use Rattle.std.specs.Prelude.{◌≡◌, ℕ, ◌++◌, ◌∷◌, [], true};
ghost use Rattle.host_trace.specs.declared.items.Item.{Item as AnItem};
ghost use Rattle.host_trace.specs.declared.items.Item.TheVariants.{In, Out};
ghost use Rattle.host_trace.specs.Fits.{fits};
ghost use Rattle.host_trace.specs.Kinds.{is_start};
ghost use Rattle.host_trace.specs.Projections.{start_stands};
ghost use Rattle.doc_files.specs.Both.{is_of_limit, seen_by};
ghost use Rattle.doc_files.specs.Owed.{begins_once};

use host_base::NoMemory;
use host_trace::{Act, Event, Item};
use memory_world::fits;
use std::alloc::Global;

/// Items with room for a number of them. An item past the room, an event that doesn't fit, and a second Start of one
/// number end the telling.
#[derive(Drop)]
pub struct Told {
    pub items: Vec<Item>,
    pub room: usize,
    pub tells: bool,
}

// How many children ran where an event says that as many run as may.
fn seen_by(event: &Event) -> u32
    ensures { result ≡ seen_by event.now }
{
    match event {
        Event::StartFull { seen, .. } => *seen,
        _ => 0,
    }
}

// Whether an event fits what stands before it, but for the number that a full book has seen.
fn may_come(items: &[Item], event: &Event) -> bool
    ensures { result ≡ true → (limit : ℕ) → is_of_limit limit event.now ≡ true → fits limit items.now event.now ≡ true }
{
    fits(items, event, seen_by(event))
}

fn is_start(item: &Item, number: u64) -> bool
    ensures { result ≡ is_start number item.now }
{
    matches!(item, Item::Out(Act::Start { k, .. }) if number == *k)
}

fn start_stands(items: &[Item], number: u64) -> bool
    ensures { result ≡ start_stands items.now number }
{
    items.iter().any(|item| is_start(item, number))
}

// Whether an act is no second Start of one number.
fn begins_once(items: &[Item], act: &Act) -> bool
    ensures { result ≡ begins_once items.now act.now }
{
    match act {
        Act::Start { k, .. } => !start_stands(items, *k),
        _ => true,
    }
}

impl Told {
    ghost use Rattle.std.specs.Prelude.{IfOk, ◌≡◌, ℕ, ◌++◌, ◌∷◌, [], true};
    ghost use Rattle.host_trace.specs.declared.items.Item.TheVariants.{In, Out};
    ghost use Rattle.host_trace.specs.Fits.{fits};
    ghost use Rattle.doc_files.specs.Both.{is_of_limit};
    ghost use Rattle.doc_files.specs.Owed.{begins_once};

    /// Nothing yet, with room for so many items, which are told where `tells` is true.
    pub fn new(alloc: Global, room: usize, tells: bool) -> Result<Self, NoMemory>
        ensures empty { IfOk result (λ told. told.items.items ≡ []) }
        ensures tells { IfOk result (λ told. told.tells ≡ tells) }
    {
        Ok(Told {
            items: Vec::with_capacity(alloc, room)?,
            room,
            tells,
        })
    }

    fn push(&mut self, item: Item)
        ensures { self.new.tells ≡ true → (self.old.tells ≡ true) × (self.new.items.items ≡ self.old.items.items ++ item ∷ []) }
    {
        let has_room = self.items.len() < self.room;
        self.tells = self.tells && has_room && self.items.push(item).is_ok();
    }

    /// Keeps an event.
    pub fn hear(&mut self, event: &Event)
        ensures kept { self.new.tells ≡ true → (self.old.tells ≡ true) × (self.new.items.items ≡ self.old.items.items ++ In event.now ∷ []) }
        ensures fits { self.new.tells ≡ true → (limit : ℕ) → is_of_limit limit event.now ≡ true → fits limit self.old.items.items event.now ≡ true }
    {
        if !self.tells || !may_come(self.items.as_slice(), event) {
            self.tells = false;
            return;
        }
        match event.copy() {
            Ok(copy) => self.push(Item::In(copy)),
            Err(_) => self.tells = false,
        }
    }

    /// Keeps an act.
    pub fn note(&mut self, act: &Act)
        ensures once { self.new.tells ≡ true → begins_once self.old.items.items act.now ≡ true }
        ensures kept { self.new.tells ≡ true → (self.old.tells ≡ true) × (self.new.items.items ≡ self.old.items.items ++ Out act.now ∷ []) }
    {
        if !self.tells || !begins_once(self.items.as_slice(), act) {
            self.tells = false;
            return;
        }
        match act.copy() {
            Ok(copy) => self.push(Item::Out(copy)),
            Err(_) => self.tells = false,
        }
    }
}
