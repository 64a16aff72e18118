// A world whose outsides answer documents.
ghost use Rattle.std.specs.Prelude.{◌≡◌, ◌≤◌, ◌<◌, ◌+◌, ◌++◌, ◌∷◌, [], true, ℕ, List, Option, Some, Err, IfOk, OnOk, OnErr, All, map, vec_len, vec_capacity};
ghost use Rattle.host_base.specs.Outsides.{Rose};
ghost use Rattle.host_base.specs.declared.site.DocRoot.{DocRoot as AFolder};
ghost use Rattle.host_trace.specs.Told.{IsNew, Joins};
ghost use Rattle.doc_files.specs.Both.{both, given_by};
ghost use Rattle.doc_world.specs.Given.{IsEnteredFor, ServesEach, items_of};

use super::kits::{Prepared, Telling, give_back, prepare, wrap};
use doc_files::{Alike, DocOutside, DocParts, DocStore, Told, are_alike};
use host_base::{DocRoot, Docs, NoMemory, Site};
use host_trace::{EnterFault, Items, Mode, Outside, World};
use std::alloc::Global;
use trace_log::EntryLog;

/// A trace that was given back, and the folders of the site that its outside served.
#[derive(Drop, Debug)]
pub struct Given {
    pub items: Items,
    pub docs: Docs,
}

/// A world whose outsides answer documents from a store, over any world. It tells the traces that come back where the
/// inner world does, all were kept whole, and each outside is one of its own last entry: of that site's folders, with a
/// store that holds what its own does.
#[derive(Drop)]
pub struct DocWorld<W: World, D: DocStore> {
    pub world: W,
    pub docs: D,
    alloc: Global,
    // How many items a trace has room for.
    room: usize,
    given: Vec<Given>,
    tells: bool,
    // How many outsides are out, for whose traces there is room.
    out: usize,
    // What it was entered for, which only clauses read.
    entries: EntryLog,
    // The folders of the site that it was entered for last.
    folders: Option<Docs>,
    ghost entered: { (docs : List AFolder) → folders ≡ Some docs → ∥ IsEnteredFor entries docs ∥₁ },
    ghost serves: { ServesEach (D.held docs) entries given.items (given_by tells (map items_of given.items) (W.given world)) },
}

// One in a list that has room for it.
fn alone<T>(one: T, room: Vec<T>) -> Vec<T>
    requires empty { room.items ≡ [] }
    requires room { 1 ≤ vec_capacity room }
    ensures items { result.items ≡ one ∷ [] }
    ensures len { vec_len result ≡ 1 }
{
    let mut list = room;
    list.push_reserved(one);
    list
}

fn copy_of(folders: &Docs) -> Result<Docs, NoMemory>
    ensures { IfOk result (λ copy. copy ≡ folders.now) }
{
    Ok(folders.clone()?)
}

// Whether these are the folders.
fn are_folders(folders: &Option<Docs>, docs: &Docs) -> bool
    ensures { result ≡ true → folders.now ≡ Some docs.now }
{
    match folders {
        Some(folders) => are_alike(folders.as_slice(), docs.as_slice()),
        None => false,
    }
}

// Whether an outside's store and folders are those of its world.
fn is_ours<D: DocStore>(store: &D, folders: &Option<Docs>, other: &D, docs: &Docs) -> bool
    ensures { result ≡ true → (D.held store.now ≡ D.held other.now) × (folders.now ≡ Some docs.now) }
{
    store.holds_as(other) && are_folders(folders, docs)
}

// Keeps a trace that was given back, where it is one of ours and all before it were kept.
fn keep(given: &mut Vec<Given>, tells: bool, told: Told, docs: Docs, ours: bool) -> bool
    ensures kept { result ≡ true → (tells ≡ true) × (ours ≡ true) × (told.tells ≡ true) × (map items_of given.new.items ≡ map items_of given.old.items ++ told.items.items ∷ []) }
    ensures items { result ≡ true → (g : Given) × (given.new.items ≡ given.old.items ++ g ∷ []) × (g.items ≡ told.items.items) × (g.docs ≡ docs) }
{
    let Told {
        items,
        room: _,
        tells: is_whole,
    } = told;
    tells
        && ours
        && is_whole
        && given
            .push(Given {
                items: Items::from_vec(items),
                docs,
            })
            .is_ok()
}

// Room for so many traces more, where they are kept.
fn make_room(given: &mut Vec<Given>, tells: bool, more: usize) -> Result<(), NoMemory>
    ensures { given.new.items ≡ given.old.items }
{
    if tells {
        given.reserve(more)?;
    }
    Ok(())
}

impl<W: World, D: DocStore> DocWorld<W, D> {
    ghost use Rattle.std.specs.Prelude.{◌≡◌, ◌≤◌, ◌<◌, ◌+◌, ◌++◌, ◌∷◌, [], ℕ, nat_lt, map};
    ghost use Rattle.host_trace.specs.Told.{Joins};
    ghost use Rattle.host_trace.specs.Entries.{entry_of};
    ghost use Rattle.doc_files.specs.Both.{both, given_by};
    ghost use Rattle.doc_world.specs.Given.{items_of};

    /// Over a world and a store. Each outside keeps up to `room` items of its trace; with room for none nothing is told,
    /// and no list is kept.
    pub fn new(alloc: Global, world: W, docs: D, room: u64) -> Self
        ensures world { result.world ≡ world }
        ensures docs { result.docs ≡ docs }
        ensures given { result.given.items ≡ [] }
        ensures entries { result.entries ≡ [] }
        ensures tells { result.tells ≡ nat_lt 0 room }
    {
        DocWorld {
            world,
            docs,
            alloc,
            room: room as usize,
            given: Vec::new(alloc),
            tells: room > 0,
            out: 0,
            entries: EntryLog::new(),
            folders: None,
        }
    }

    /// The traces that came back, in their order.
    pub fn given(&self) -> &[Given]
        ensures { result.now ≡ self.now.given.items }
    {
        self.given.as_slice()
    }

    /// Whether the traces that came back are all of those that were given out so far, each kept whole.
    pub fn tells(&self) -> bool
        ensures { result ≡ self.now.tells }
    {
        self.tells
    }
}

impl<W: World, D: DocStore + Send> World for DocWorld<W, D> {
    ghost use Rattle.std.specs.Prelude.{◌≡◌, ◌≤◌, ◌<◌, ◌+◌, Some, Err, IfOk, OnOk, OnErr, All, map, vec_len};
    ghost use Rattle.host_base.specs.Outsides.{Rose};
    ghost use Rattle.host_trace.specs.Told.{IsNew, Joins};
    ghost use Rattle.host_trace.specs.Entries.{Enters, entry_of};
    ghost use Rattle.doc_files.specs.Both.{both, given_by};
    ghost use Rattle.doc_world.specs.Given.{items_of};

    type Out = DocOutside<W::Out, D>;

    ghost given = { λ w. given_by w.tells (map items_of w.given.items) (W.given w.world) };

    ghost entries = { λ w. Some w.entries };

    ghost out = { λ w. W.out w.world };

    ghost faults = { λ w. W.faults w.world };

    fn enter(
        &mut self,
        mode: Mode,
        site: &Site,
        loops: u32,
    ) -> Result<Vec<DocOutside<W::Out, D>>, EnterFault>
        requires loops { 0 < loops }
        requires once { mode ≡ Mode.Once → loops ≡ 1 }
        ensures count { IfOk result (λ outs. vec_len outs ≡ loops) }
        ensures told { IfOk result (λ outs. All (λ o. IsNew (given_by self.old.tells (map items_of self.old.given.items) (W.given self.old.world)) (both o.told (W.Out.trace o.inner))) outs.items) }
        ensures limit { IfOk result (λ outs. All (λ o. W.Out.limit o.inner ≡ site.now.limits.children) outs.items) }
        ensures out { OnOk result (W.out self.new.world ≡ W.out self.old.world + loops) }
        ensures entered { Enters (Some self.old.entries) (entry_of mode site.now loops) (Some self.new.entries) }
        ensures given { (given_by self.new.tells (map items_of self.new.given.items) (W.given self.new.world)) ≡ (given_by self.old.tells (map items_of self.old.given.items) (W.given self.old.world)) }
        ensures err { OnErr result (W.out self.new.world ≡ W.out self.old.world) }
        ensures faults { W.faults self.old.world ≤ W.faults self.new.world }
        ensures failed { result ≡ Err EnterFault.Failed → Rose (W.faults self.old.world) (W.faults self.new.world) }
    {
        self.entries = self.entries.with(mode, site, loops);
        let Ok(folders) = copy_of(&site.docs) else {
            return Err(EnterFault::NoMemory);
        };
        self.folders = Some(folders);
        let more = self.out.saturating_add(loops as usize);
        if make_room(&mut self.given, self.tells, more).is_err() {
            return Err(EnterFault::NoMemory);
        }
        let telling = Telling {
            room: self.room,
            tells: self.tells,
        };
        let Ok(prepared) = prepare(self.alloc, telling, &site.docs, &mut self.docs, loops) else {
            return Err(EnterFault::NoMemory);
        };
        let Prepared { outs, kits } = prepared;
        match self.world.enter(mode, site, loops) {
            Ok(entered) => {
                self.out = more;
                Ok(wrap(
                    self.alloc,
                    outs,
                    entered,
                    kits,
                    telling.tells,
                    site.limits.children,
                ))
            }
            Err(fault) => {
                outs.destroy_empty();
                give_back(kits, &mut self.docs);
                Err(fault)
            }
        }
    }

    fn leave(&mut self, outs: Vec<DocOutside<W::Out, D>>)
        requires { vec_len outs ≤ W.out self.old.world }
        ensures given { Joins (given_by self.old.tells (map items_of self.old.given.items) (W.given self.old.world)) (map (λ o. both o.told (W.Out.trace o.inner)) outs.items) (given_by self.new.tells (map items_of self.new.given.items) (W.given self.new.world)) }
        ensures entries { Some self.new.entries ≡ Some self.old.entries }
        ensures out { W.out self.new.world + vec_len outs ≡ W.out self.old.world }
        ensures faults { W.faults self.old.world ≤ W.faults self.new.world }
    {
        self.out = self.out.saturating_sub(outs.len());
        let mut outs = outs.into_iter();
        while let Some(out) = outs.next() {
            let DocParts {
                inner,
                store,
                told,
                single,
                docs,
            } = out.into_parts();
            let ours = is_ours(&self.docs, &self.folders, &store, &docs);
            self.world.leave(alone(inner, single));
            self.docs.take_back(store);
            self.tells = keep(&mut self.given, self.tells, told, docs, ours);
        }
        outs.destroy_empty();
    }
}
