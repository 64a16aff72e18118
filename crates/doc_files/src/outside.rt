// An outside over another one.
ghost use Rattle.std.specs.Prelude.{◌≡◌, ◌≤◌, ◌+◌, ℕ, [], List, Option, true, false, vec_capacity};
ghost use Rattle.host_base.specs.Outsides.{Rose};
ghost use Rattle.host_trace.specs.declared.items.Item.{Item as AnItem};
ghost use Rattle.host_trace.specs.Told.{Hears, ActsOn, carries_nothing, is_failure, is_full_book};
ghost use Rattle.doc_files.specs.Both.{both};
ghost use Rattle.doc_files.specs.Owed.{KeepsWhere, begins_once};

use crate::child::Child;
use crate::children::{act_of, next_of};
use crate::store::DocStore;
use crate::told::Told;
use host_base::Docs;
use host_trace::{Act, Acted, Event, Outside};
use std::alloc::Global;

/// An outside over another one: what it hears and does is that one's, but for the children whose program names
/// a folder of documents. These are answered from a store, and the inner outside hears nothing of them.
///
/// A file is read in the `next` that answers the Start, so a slow disk holds up what else waits for that call.
#[derive(Drop)]
pub struct DocOutside<O: Outside, D: DocStore> {
    pub inner: O,
    pub store: D,
    pub told: Told,
    /// An empty list with room for one outside, in which the inner one is given back.
    pub single: Vec<O>,
    /// The folders of the site.
    pub docs: Docs,
    children: Vec<Child>,
    alloc: Global,
    pub ghost empty: { single.items ≡ [] },
    pub ghost roomy: { 1 ≤ vec_capacity single },
    // What its trace has of each document child is the front of a document's output that is not left to be handed up.
    ghost keeps: { KeepsWhere (D.held store) docs (both told (O.trace inner)) (O.trace inner) children.items },
}

/// What an outside is made of, and what is left of it.
#[derive(Drop)]
pub struct DocParts<O, D> {
    pub inner: O,
    pub store: D,
    pub told: Told,
    pub single: Vec<O>,
    pub docs: Docs,
}

impl<O: Outside, D: DocStore> DocOutside<O, D> {
    ghost use Rattle.std.specs.Prelude.{◌≡◌, ◌≤◌, [], List, Some, vec_capacity};
    ghost use Rattle.host_trace.specs.declared.items.Item.{Item as AnItem};
    ghost use Rattle.doc_files.specs.Both.{both};
    ghost use Rattle.doc_files.specs.Served.{ServesWhere};

    /// An outside without a document child, for the folders of a site. Nothing was heard or done yet.
    pub fn new(alloc: Global, parts: DocParts<O, D>) -> Self
        requires empty { parts.single.items ≡ [] }
        requires room { 1 ≤ vec_capacity parts.single }
        requires told { parts.told.items.items ≡ [] }
        requires fresh { (T : List AnItem) → O.trace parts.inner ≡ Some T → T ≡ [] }
        ensures inner { result.inner ≡ parts.inner }
        ensures store { result.store ≡ parts.store }
        ensures told { result.told ≡ parts.told }
        ensures docs { result.docs ≡ parts.docs }
    {
        let DocParts {
            inner,
            store,
            told,
            single,
            docs,
        } = parts;
        DocOutside {
            inner,
            store,
            told,
            single,
            docs,
            children: Vec::new(alloc),
            alloc,
        }
    }

    /// What it was made of. Its document children are let go: each has handed up a front of its document's output, and the
    /// whole of it where its end stands in the trace.
    pub fn into_parts(self) -> DocParts<O, D>
        ensures inner { result.inner ≡ self.inner }
        ensures store { result.store ≡ self.store }
        ensures told { result.told ≡ self.told }
        ensures empty { result.single.items ≡ [] }
        ensures room { 1 ≤ vec_capacity result.single }
        ensures docs { result.docs ≡ self.docs }
        ensures serves { ServesWhere (D.held self.store) self.docs (both self.told (O.trace self.inner)) }
    {
        let DocOutside {
            inner,
            store,
            told,
            single,
            docs,
            children: _,
            alloc: _,
        } = self;
        DocParts {
            inner,
            store,
            told,
            single,
            docs,
        }
    }
}

// An event of the inner outside.
fn hear_inner<O: Outside>(inner: &mut O, told: &mut Told) -> Event
    ensures told { Hears (O.limit inner.old) (both told.old (O.trace inner.old)) result (both told.new (O.trace inner.new)) }
    ensures heard { Hears (O.limit inner.old) (O.trace inner.old) result (O.trace inner.new) }
    ensures limit { O.limit inner.new ≡ O.limit inner.old }
    ensures faults { O.faults inner.old ≤ O.faults inner.new }
    ensures full_books { O.full_books inner.old ≤ O.full_books inner.new }
    ensures failure { is_failure result ≡ true → Rose (O.faults inner.old) (O.faults inner.new) }
    ensures full { is_full_book result ≡ true → Rose (O.full_books inner.old) (O.full_books inner.new) }
{
    let event = inner.next();
    told.hear(&event);
    event
}

// An act of the inner outside.
fn act_inner<O: Outside>(inner: &mut O, told: &mut Told, act: &Act) -> Acted
    ensures told { ActsOn (both told.old (O.trace inner.old)) act.now result (both told.new (O.trace inner.new)) }
    ensures acts { ActsOn (O.trace inner.old) act.now result (O.trace inner.new) }
    ensures once { result ≡ Acted.Done → told.new.tells ≡ true → begins_once told.old.items.items act.now ≡ true }
    ensures room { carries_nothing act.now ≡ true → result ≡ Acted.Done }
    ensures limit { O.limit inner.new ≡ O.limit inner.old }
    ensures faults { O.faults inner.old ≤ O.faults inner.new }
    ensures full_books { O.full_books inner.old ≤ O.full_books inner.new }
{
    match inner.act(act) {
        Acted::Done => {
            told.note(act);
            Acted::Done
        }
        Acted::NoRoom => Acted::NoRoom,
    }
}

// Adds a document child's event.
fn hear_child(told: &mut Told, event: Event) -> Event
    ensures same { result ≡ event }
    ensures told { (limit : ℕ) (inner : Option (List AnItem)) → is_full_book event ≡ false → Hears limit (both told.old inner) event (both told.new inner) }
{
    told.hear(&event);
    event
}

// Keeps an act of a document child, where it was done.
fn note_child(told: &mut Told, act: &Act, acted: Acted) -> Acted
    ensures same { result ≡ acted }
    ensures told { (inner : Option (List AnItem)) → ActsOn (both told.old inner) act.now acted (both told.new inner) }
    ensures once { acted ≡ Acted.Done → told.new.tells ≡ true → begins_once told.old.items.items act.now ≡ true }
{
    match acted {
        Acted::Done => {
            told.note(act);
            Acted::Done
        }
        Acted::NoRoom => Acted::NoRoom,
    }
}

impl<O: Outside, D: DocStore> Outside for DocOutside<O, D> {
    ghost use Rattle.std.specs.Prelude.{◌+◌};
    ghost use Rattle.doc_files.specs.Both.{both};
    ghost use Rattle.doc_files.specs.Owed.{KeepsWhere, begins_once};

    ghost trace = { λ o. both o.told (O.trace o.inner) };

    ghost faults = { λ o. O.faults o.inner + D.faults o.store };

    ghost full_books = { λ o. O.full_books o.inner };

    ghost limit = { λ o. O.limit o.inner };

    fn next(&mut self) -> Event {
        match next_of(
            &mut self.children,
            self.alloc,
            self.docs.as_slice(),
            &mut self.store,
        ) {
            Some(event) => hear_child(&mut self.told, event),
            None => hear_inner(&mut self.inner, &mut self.told),
        }
    }

    fn act(&mut self, act: &Act) -> Acted {
        match act_of(&mut self.children, self.docs.as_slice(), act) {
            Some(acted) => note_child(&mut self.told, act, acted),
            None => act_inner(&mut self.inner, &mut self.told, act),
        }
    }
}
