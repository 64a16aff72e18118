// The document children of an outside.
ghost use Rattle.std.specs.Prelude.{◌≡◌, ◌∷◌, ◌++◌, [], List, IfSome, IfOk, None, Some, true, false, is_some, length};
ghost use Rattle.host_trace.specs.Told.{carries_nothing};
ghost use Rattle.host_trace.specs.declared.items.Item.{Item as AnItem};
ghost use Rattle.host_trace.specs.declared.items.Item.TheVariants.{In, Out};
ghost use Rattle.doc_files.specs.Both.{IsDue};
ghost use Rattle.doc_files.specs.Held.{Held};
ghost use Rattle.doc_files.specs.Served.{is_document};
ghost use Rattle.doc_files.specs.Owed.{IsOrderly, Knows, begins_once, number_of, starts_document};

use crate::child::{Child, Output};
use crate::store::DocStore;
use document_output::folder_of;
use host_base::{DocRoot, Launch, NoMemory};
use host_trace::{Act, Acted, Event};
use std::alloc::Global;

// Which of them is the first of which an event is due.
fn first_due(children: &[Child]) -> Option<usize> {
    children.iter().position(|child| child.is_due())
}

fn due_at<D: DocStore>(
    children: &mut [Child],
    at: usize,
    alloc: Global,
    docs: &[DocRoot],
    store: &mut D,
) -> Option<Event>
    ensures some { IfSome result (IsDue D.faults store.old store.new) }
    ensures none { result ≡ None → (children.new ≡ children.old) × (D.faults store.new ≡ D.faults store.old) }
    ensures same { D.held store.new ≡ D.held store.old }
    ensures len { length children.new ≡ length children.old }
    ensures kept { (T : List AnItem) (held : Held) → D.held store.old ≡ Some held → Knows held docs.now T children.old → IfSome result (λ event. Knows held docs.now (T ++ In event ∷ []) children.new) }
{
    if at >= children.len() {
        return None;
    }
    children[at].due(alloc, docs, store)
}

// Lets a child go on which no act is to come.
fn settle(children: &mut Vec<Child>, at: usize)
    ensures { (T : List AnItem) (held : Held) (docs : List DocRoot) → Knows held docs T children.old.items → Knows held docs T children.new.items }
{
    if at < children.len() && children[at].is_settled() {
        let _ = children.remove(at);
    }
}

/// The next event of one of them, where one is due.
pub fn next_of<D: DocStore>(
    children: &mut Vec<Child>,
    alloc: Global,
    docs: &[DocRoot],
    store: &mut D,
) -> Option<Event>
    ensures some { IfSome result (IsDue D.faults store.old store.new) }
    ensures none { result ≡ None → (children.new.items ≡ children.old.items) × (D.faults store.new ≡ D.faults store.old) }
    ensures same { D.held store.new ≡ D.held store.old }
    ensures kept { (T : List AnItem) (held : Held) → D.held store.old ≡ Some held → Knows held docs.now T children.old.items → IfSome result (λ event. Knows held docs.now (T ++ In event ∷ []) children.new.items) }
{
    let at = first_due(children.as_slice())?;
    let event = due_at(children.as_mut_slice(), at, alloc, docs, store)?;
    settle(children, at);
    Some(event)
}

// A child that is to be started for a document.
fn child_of(k: u64, c: u64, launch: &Launch) -> Result<Child, NoMemory>
    ensures { IfOk result (λ child. (child.k ≡ k) × (child.output ≡ Output.Unread launch.now) × (child.over ≡ false)) }
{
    Ok(Child {
        k,
        c,
        output: Output::Unread(launch.copy()?),
        started: false,
        shut: false,
        wanted: false,
        fed: 0,
        closed: false,
        ended: false,
        over: false,
        exited: false,
        released: false,
    })
}

fn begin(children: &mut Vec<Child>, k: u64, c: u64, launch: &Launch) -> Acted
    ensures begun { result ≡ Acted.Done → (child : Child) × (children.new.items ≡ children.old.items ++ child ∷ []) × (child.k ≡ k) × (child.output ≡ Output.Unread launch.now) × (child.over ≡ false) }
    ensures refused { result ≡ Acted.NoRoom → children.new.items ≡ children.old.items }
{
    match child_of(k, c, launch) {
        Ok(child) => match children.push(child) {
            Ok(()) => Acted::Done,
            Err(_) => Acted::NoRoom,
        },
        Err(_) => Acted::NoRoom,
    }
}

// The child that an act on a running script names.
fn number_of(act: &Act) -> Option<u64>
    ensures { result ≡ number_of act.now }
{
    match act {
        Act::Feed { k, .. }
        | Act::EndInput { k }
        | Act::WantChild { k }
        | Act::Kill { k }
        | Act::Release { k } => Some(*k),
        _ => None,
    }
}

fn place_of(children: &[Child], k: u64) -> Option<usize> {
    children.iter().position(|child| child.k == k)
}

// Does an act on the child at a place.
fn give_at(children: &mut [Child], at: usize, act: &Act)
    requires { is_some (number_of act.now) ≡ true }
    ensures len { length children.new ≡ length children.old }
    ensures kept { (T : List AnItem) (held : Held) (docs : List DocRoot) → Knows held docs T children.old → Knows held docs (T ++ Out act.now ∷ []) children.new }
{
    if at < children.len() && number_of(act) == Some(children[at].k) {
        children[at].give(act);
    }
}

fn give_to(children: &mut Vec<Child>, k: u64, act: &Act) -> bool
    requires { is_some (number_of act.now) ≡ true }
    ensures kept { result ≡ true → (T : List AnItem) (held : Held) (docs : List DocRoot) → Knows held docs T children.old.items → Knows held docs (T ++ Out act.now ∷ []) children.new.items }
    ensures none { result ≡ false → children.new ≡ children.old }
{
    let Some(at) = place_of(children.as_slice(), k) else {
        return false;
    };
    give_at(children.as_mut_slice(), at, act);
    settle(children, at);
    true
}

// Marks the children of a connection that is shut.
fn note_shut(children: &mut [Child], shut: u64)
    ensures len { length children.new ≡ length children.old }
    ensures kept { (T : List AnItem) (held : Held) (docs : List DocRoot) → Knows held docs T children.old → Knows held docs T children.new }
{
    for at in 0..children.len() {
        children[at].hear_shut(shut);
    }
}

fn note_act(children: &mut Vec<Child>, act: &Act)
    ensures { (T : List AnItem) (held : Held) (docs : List DocRoot) → Knows held docs T children.old.items → Knows held docs T children.new.items }
{
    if let Act::Shut { c, .. } = act {
        note_shut(children.as_mut_slice(), *c);
    }
}

// Does an act on a running document child.
fn give_act(children: &mut Vec<Child>, act: &Act) -> Option<Acted>
    ensures room { IfSome result (λ acted. acted ≡ Acted.Done) }
    ensures kept { result ≡ Some Acted.Done → (T : List AnItem) (held : Held) (docs : List DocRoot) → Knows held docs T children.old.items → Knows held docs (T ++ Out act.now ∷ []) children.new.items }
    ensures none { result ≡ None → children.new ≡ children.old }
{
    match number_of(act) {
        Some(k) => {
            if give_to(children, k, act) {
                Some(Acted::Done)
            } else {
                None
            }
        }
        None => None,
    }
}

fn is_document(docs: &[DocRoot], launch: &Launch) -> bool
    ensures { result ≡ is_document docs.now launch.now }
{
    folder_of(docs, launch.program.as_str()).is_some()
}

// Whether an act starts a document's child.
fn starts_document(docs: &[DocRoot], act: &Act) -> bool
    ensures { result ≡ starts_document docs.now act.now }
{
    match act {
        Act::Start { launch, .. } => is_document(docs, launch),
        _ => false,
    }
}

// Starts a document's child.
fn start(children: &mut Vec<Child>, act: &Act) -> Acted
    ensures kept { result ≡ Acted.Done → (T : List AnItem) (held : Held) (docs : List DocRoot) → starts_document docs act.now ≡ true → IsOrderly T → begins_once T act.now ≡ true → Knows held docs T children.old.items → Knows held docs (T ++ Out act.now ∷ []) children.new.items }
    ensures refused { result ≡ Acted.NoRoom → children.new.items ≡ children.old.items }
{
    match act {
        Act::Start { k, c, launch, .. } => begin(children, *k, *c, launch),
        _ => Acted::NoRoom,
    }
}

/// Does an act that is a document child's, and says what became of it. None where it is nobody's of them.
pub fn act_of(children: &mut Vec<Child>, docs: &[DocRoot], act: &Act) -> Option<Acted>
    ensures room { IfSome result (λ acted. carries_nothing act.now ≡ true → acted ≡ Acted.Done) }
    ensures kept { result ≡ Some Acted.Done → (T : List AnItem) (held : Held) → IsOrderly T → begins_once T act.now ≡ true → Knows held docs.now T children.old.items → Knows held docs.now (T ++ Out act.now ∷ []) children.new.items }
    ensures refused { result ≡ Some Acted.NoRoom → children.new.items ≡ children.old.items }
    ensures other { result ≡ None → (T : List AnItem) (held : Held) → Knows held docs.now T children.old.items → Knows held docs.now T children.new.items }
    ensures elsewhere { result ≡ None → starts_document docs.now act.now ≡ false }
{
    if starts_document(docs, act) {
        return Some(start(children, act));
    }
    note_act(children, act);
    give_act(children, act)
}
