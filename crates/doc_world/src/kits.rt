// What an outside needs but for the inner one, made before that comes.
ghost use Rattle.std.specs.Prelude.{◌≡◌, ◌≤◌, ◌+◌, [], ℕ, List, Option, Some, IfOk, All, vec_len, vec_capacity};
ghost use Rattle.host_trace.specs.Told.{IsNew};
ghost use Rattle.host_trace.specs.declared.items.Item.{Item as AnItem};

use doc_files::{DocOutside, DocParts, DocStore, Told};
use host_base::{Docs, NoMemory};
use host_trace::Outside;
use std::alloc::Global;

/// What an outside needs but for the inner one.
pub struct Kit<O, D> {
    pub store: D,
    pub told: Told,
    pub single: Vec<O>,
    pub docs: Docs,
}

/// Of the traces: how many items each has room for, and whether they are told.
#[derive(Clone, Copy, Debug)]
pub struct Telling {
    pub room: usize,
    pub tells: bool,
}

fn make_kit<O, D: DocStore>(
    alloc: Global,
    telling: Telling,
    docs: &Docs,
    store: &mut D,
) -> Result<Kit<O, D>, NoMemory>
    ensures made { IfOk result (λ kit. (kit.told.tells ≡ telling.tells) × (kit.told.items.items ≡ []) × (kit.single.items ≡ []) × (1 ≤ vec_capacity kit.single) × (kit.docs ≡ docs.now)) }
    ensures same { D.held store.new ≡ D.held store.old }
{
    let docs = docs.clone()?;
    let told = Told::new(alloc, telling.room, telling.tells)?;
    let Ok(single) = Vec::with_capacity(alloc, 1) else {
        return Err(NoMemory);
    };
    match store.another() {
        Ok(store) => Ok(Kit {
            store,
            told,
            single,
            docs,
        }),
        Err(NoMemory) => {
            single.destroy_empty();
            Err(NoMemory)
        }
    }
}

// Gives the store of one back.
fn unmake_kit<O, D: DocStore>(kit: Kit<O, D>, store: &mut D)
    requires { kit.single.items ≡ [] }
    ensures { D.held store.new ≡ D.held store.old }
{
    let Kit {
        store: other,
        told: _,
        single,
        docs: _,
    } = kit;
    single.destroy_empty();
    store.take_back(other);
}

/// Gives the stores of some back.
pub fn give_back<O, D: DocStore>(kits: Vec<Kit<O, D>>, store: &mut D)
    requires { All (λ kit. kit.single.items ≡ []) kits.items }
    ensures { D.held store.new ≡ D.held store.old }
{
    let mut kits = kits.into_iter();
    while let Some(kit) = kits.next() {
        unmake_kit(kit, store);
    }
    kits.destroy_empty();
}

// One for each loop, for the folders of a site.
fn make_kits<O, D: DocStore>(
    alloc: Global,
    telling: Telling,
    docs: &Docs,
    store: &mut D,
    loops: u32,
) -> Result<Vec<Kit<O, D>>, NoMemory>
    ensures made { IfOk result (λ kits. All (λ kit. (kit.told.tells ≡ telling.tells) × (kit.told.items.items ≡ []) × (kit.single.items ≡ []) × (1 ≤ vec_capacity kit.single) × (kit.docs ≡ docs.now)) kits.items) }
    ensures count { IfOk result (λ kits. vec_len kits ≡ loops) }
    ensures same { D.held store.new ≡ D.held store.old }
{
    let Ok(mut kits) = Vec::with_capacity(alloc, loops as usize) else {
        return Err(NoMemory);
    };
    for _ in 0..loops {
        match make_kit(alloc, telling, docs, store) {
            Ok(kit) => kits.push_reserved(kit),
            Err(NoMemory) => {
                give_back(kits, store);
                return Err(NoMemory);
            }
        }
    }
    Ok(kits)
}

/// The kits of so many loops, and room for the outsides that they are for.
pub struct Prepared<O: Outside, D: DocStore> {
    pub outs: Vec<DocOutside<O, D>>,
    pub kits: Vec<Kit<O, D>>,
}

/// All that an outside for each loop needs but for the inner ones.
pub fn prepare<O: Outside, D: DocStore>(
    alloc: Global,
    telling: Telling,
    docs: &Docs,
    store: &mut D,
    loops: u32,
) -> Result<Prepared<O, D>, NoMemory>
    ensures empty { IfOk result (λ p. vec_len p.outs ≡ 0) }
    ensures room { IfOk result (λ p. loops ≤ vec_capacity p.outs) }
    ensures made { IfOk result (λ p. All (λ kit. (kit.told.tells ≡ telling.tells) × (kit.told.items.items ≡ []) × (kit.single.items ≡ []) × (1 ≤ vec_capacity kit.single)) p.kits.items) }
    ensures count { IfOk result (λ p. vec_len p.kits ≡ loops) }
    ensures same { D.held store.new ≡ D.held store.old }
{
    let Ok(outs) = Vec::with_capacity(alloc, loops as usize) else {
        return Err(NoMemory);
    };
    match make_kits(alloc, telling, docs, store, loops) {
        Ok(kits) => Ok(Prepared { outs, kits }),
        Err(NoMemory) => {
            outs.destroy_empty();
            Err(NoMemory)
        }
    }
}

/// Puts each outside under one that answers documents, where there is room for them and a kit for each.
pub fn wrap<O: Outside, D: DocStore>(
    alloc: Global,
    outs: Vec<DocOutside<O, D>>,
    entered: Vec<O>,
    kits: Vec<Kit<O, D>>,
    tells: bool,
    limit: u32,
) -> Vec<DocOutside<O, D>>
    requires empty { vec_len outs ≡ 0 }
    requires room { vec_len entered ≤ vec_capacity outs }
    requires count { vec_len kits ≡ vec_len entered }
    requires made { All (λ kit. (kit.told.tells ≡ tells) × (kit.told.items.items ≡ []) × (kit.single.items ≡ []) × (1 ≤ vec_capacity kit.single)) kits.items }
    requires fresh { All (λ o. (T : List AnItem) → O.trace o ≡ Some T → T ≡ []) entered.items }
    requires limited { All (λ o. O.limit o ≡ limit) entered.items }
    ensures len { vec_len result ≡ vec_len entered }
    ensures told { All (λ o. (o.told.tells ≡ tells) × (o.told.items.items ≡ []) × (O.limit o.inner ≡ limit)) result.items }
    ensures new { (given : Option (List (List AnItem))) → All (λ o. IsNew given (O.trace o)) entered.items → All (λ o. IsNew given (O.trace o.inner)) result.items }
{
    let mut outs = outs;
    let mut kits = kits;
    let mut entered = entered.into_iter();
    while let Some(inner) = entered.next() {
        let Some(kit) = kits.pop() else {
            unreachable!();
        };
        let Kit {
            store,
            told,
            single,
            docs,
        } = kit;
        outs.push_reserved(DocOutside::new(
            alloc,
            DocParts {
                inner,
                store,
                told,
                single,
                docs,
            },
        ));
    }
    entered.destroy_empty();
    kits.destroy_empty();
    outs
}
