// A document in the place of a running script.
ghost use Rattle.std.specs.Prelude.{◌≡◌, ◌≤◌, ◌∷◌, ◌++◌, [], ℕ, List, IfSome, IfOk, None, Some, Err, true, false};
ghost use Rattle.std.specs.List.{concat};
ghost use Rattle.host_base.specs.Outsides.{Rose};
ghost use Rattle.host_trace.specs.Told.{carries_nothing, is_failure, is_full_book};
ghost use Rattle.doc_files.specs.Both.{IsDue};
ghost use Rattle.document_output.specs.Output.{bytes_of};
ghost use Rattle.doc_files.specs.Held.{Held, held_at, held_below, served_output};
ghost use Rattle.doc_files.specs.Owed.{TakesOf, is_known};

use crate::store::{DocFault, DocStore};
use document_output::{DocRead, document_path, document_pieces, folder_of};
use host_base::{Bytes, DocRoot, Launch, NoMemory};
use host_trace::{Act, Event};
use std::alloc::Global;
use std::collections::VecDeque;
use std::mem;

/// What a document child has to hand up.
#[derive(Drop)]
pub enum Output {
    /// Its file is still to be read, for what it is started with.
    Unread(Launch),
    /// Its file was not read: its output is not known.
    Lost,
    /// The pieces of its output that were not yet asked for.
    Left(VecDeque<Bytes>),
}

/// A document child, and what is due of it.
#[derive(Drop)]
pub struct Child {
    pub k: u64,
    pub c: u64,
    pub output: Output,
    pub started: bool,
    // Its connection was shut.
    pub shut: bool,
    pub wanted: bool,
    // How many bytes it was fed, which it has not yet taken.
    pub fed: u64,
    // Its input has ended.
    pub closed: bool,
    // Its output has ended.
    pub ended: bool,
    // Its output has ended, or it was killed.
    pub over: bool,
    pub exited: bool,
    pub released: bool,
}

// What the store has for a child.
fn found_at<D: DocStore>(
    alloc: Global,
    docs: &[DocRoot],
    launch: &Launch,
    store: &mut D,
) -> Result<DocRead, DocFault>
    ensures reads { (held : Held) → D.held store.old ≡ Some held → IfOk result (λ read. held_at held docs.now launch.now ≡ bytes_of read) }
    ensures same { D.held store.new ≡ D.held store.old }
    ensures count { D.faults store.old ≤ D.faults store.new }
    ensures cause { result ≡ Err DocFault.Failed → Rose (D.faults store.old) (D.faults store.new) }
{
    match folder_of(docs, launch.program.as_str()) {
        Some(folder) => read_below(alloc, folder, launch, store),
        None => Ok(DocRead::Missing),
    }
}

fn read_below<D: DocStore>(
    alloc: Global,
    folder: &DocRoot,
    launch: &Launch,
    store: &mut D,
) -> Result<DocRead, DocFault>
    ensures reads { (held : Held) → D.held store.old ≡ Some held → IfOk result (λ read. held_below held launch.now folder.now ≡ bytes_of read) }
    ensures same { D.held store.new ≡ D.held store.old }
    ensures count { D.faults store.old ≤ D.faults store.new }
    ensures cause { result ≡ Err DocFault.Failed → Rose (D.faults store.old) (D.faults store.new) }
{
    match document_path(alloc, launch.env.as_slice()) {
        Ok(path) => store.read(folder.root.as_str(), path.as_str()),
        Err(NoMemory) => Err(DocFault::NoMemory),
    }
}

// The output of a child, in pieces.
fn output_of<D: DocStore>(
    alloc: Global,
    docs: &[DocRoot],
    launch: &Launch,
    store: &mut D,
) -> Result<VecDeque<Bytes>, DocFault>
    ensures served { (held : Held) → D.held store.old ≡ Some held → IfOk result (λ pieces. concat pieces.items ≡ served_output held docs.now launch.now) }
    ensures same { D.held store.new ≡ D.held store.old }
    ensures count { D.faults store.old ≤ D.faults store.new }
    ensures cause { result ≡ Err DocFault.Failed → Rose (D.faults store.old) (D.faults store.new) }
{
    match found_at(alloc, docs, launch, store) {
        Ok(found) => match document_pieces(alloc, docs, launch, &found) {
            Ok(pieces) => Ok(pieces),
            Err(NoMemory) => Err(DocFault::NoMemory),
        },
        Err(fault) => Err(fault),
    }
}

// Whether the output is known.
fn is_known(output: &Output) -> bool
    ensures { result ≡ is_known output.now }
{
    matches!(output, Output::Left(_))
}

// The next piece of an output, or none at its end.
fn next_piece(output: &mut Output) -> Option<Bytes>
    requires { is_known output.old ≡ true }
    ensures { TakesOf output.old result output.new }
{
    match output {
        Output::Left(pieces) => pieces.pop_front(),
        Output::Unread(_) | Output::Lost => None,
    }
}

impl Child {
    ghost use Rattle.std.specs.Prelude.{◌≡◌, ◌≤◌, ◌==◌, ℕ, List, [], ◌∷◌, ◌++◌, IfSome, None, Some, true, false};
    ghost use Rattle.host_trace.specs.Told.{is_failure, is_full_book};
    ghost use Rattle.host_trace.specs.declared.items.Item.{Item as AnItem};
    ghost use Rattle.host_trace.specs.declared.items.Item.TheVariants.{In, Out};
    ghost use Rattle.doc_files.specs.Both.{IsDue};
    ghost use Rattle.doc_files.specs.Held.{Held};
    ghost use Rattle.doc_files.specs.Served.{launch_of};
    ghost use Rattle.doc_files.specs.Owed.{IsOf, Owes, OwesAs, is_known, number_of};

    // What answers its Start where no memory was found for its file: its connection is told, and the child is
    // started in the next call; where it was shut the child is started at once. Its output is not known then, so
    // it answers no question for it, and exits where it is killed.
    fn starve(&mut self) -> Event
        ensures plain { is_failure result ≡ false }
        ensures no_book { is_full_book result ≡ false }
        ensures number { self.new.k ≡ self.old.k }
        ensures own { IsOf self.old.k (In result) }
        ensures kept { (T : List AnItem) (held : Held) (docs : List DocRoot) → Owes held docs T self.old → Owes held docs (T ++ In result ∷ []) self.new }
    {
        if self.shut {
            self.started = true;
            return Event::Started { k: self.k };
        }
        Event::NoRoom { c: self.c }
    }

    // Reads its file, which answers its Start.
    fn read<D: DocStore>(
        &mut self,
        alloc: Global,
        docs: &[DocRoot],
        launch: &Launch,
        store: &mut D,
    ) -> Event
        requires { self.old.output ≡ Output.Lost }
        ensures due { IsDue D.faults store.old store.new result }
        ensures same { D.held store.new ≡ D.held store.old }
        ensures number { self.new.k ≡ self.old.k }
        ensures own { IsOf self.old.k (In result) }
        ensures kept { (T : List AnItem) (held : Held) → D.held store.old ≡ Some held → launch_of T self.old.k ≡ Some launch.now → Owes held docs.now T self.old → Owes held docs.now (T ++ In result ∷ []) self.new }
    {
        let k = self.k;
        match output_of(alloc, docs, launch, store) {
            Ok(pieces) => {
                self.output = Output::Left(pieces);
                self.started = true;
                Event::Started { k }
            }
            Err(DocFault::Failed) => {
                self.exited = true;
                self.released = true;
                Event::StartFailed { k }
            }
            Err(DocFault::NoMemory) => self.starve(),
        }
    }

    // Answers its Start, with this to hand up.
    fn resume(&mut self, known: Output) -> Event
        ensures plain { is_failure result ≡ false }
        ensures no_book { is_full_book result ≡ false }
        ensures number { self.new.k ≡ self.old.k }
        ensures own { IsOf self.old.k (In result) }
        ensures kept { (T : List AnItem) (held : Held) (docs : List DocRoot) → OwesAs held docs T self.old.k known self.old.over → Owes held docs (T ++ In result ∷ []) self.new }
    {
        self.output = known;
        self.started = true;
        Event::Started { k: self.k }
    }

    // Answers its Start.
    fn start<D: DocStore>(&mut self, alloc: Global, docs: &[DocRoot], store: &mut D) -> Event
        ensures due { IsDue D.faults store.old store.new result }
        ensures same { D.held store.new ≡ D.held store.old }
        ensures number { self.new.k ≡ self.old.k }
        ensures own { IsOf self.old.k (In result) }
        ensures kept { (T : List AnItem) (held : Held) → D.held store.old ≡ Some held → Owes held docs.now T self.old → Owes held docs.now (T ++ In result ∷ []) self.new }
    {
        match mem::replace(&mut self.output, Output::Lost) {
            Output::Unread(launch) => self.read(alloc, docs, &launch, store),
            known => self.resume(known),
        }
    }

    // Answers the question for its output, which is known.
    fn answer(&mut self) -> Event
        requires { is_known self.old.output ≡ true }
        ensures plain { is_failure result ≡ false }
        ensures no_book { is_full_book result ≡ false }
        ensures number { self.new.k ≡ self.old.k }
        ensures own { IsOf self.old.k (In result) }
        ensures kept { (T : List AnItem) (held : Held) (docs : List DocRoot) → Owes held docs T self.old → Owes held docs (T ++ In result ∷ []) self.new }
    {
        self.wanted = false;
        let k = self.k;
        match next_piece(&mut self.output) {
            Some(bytes) => Event::ChildBytes { k, bytes },
            None => {
                self.ended = true;
                self.over = true;
                Event::ChildEof { k }
            }
        }
    }

    // Takes what it was fed.
    fn take_input(&mut self) -> Event
        ensures plain { is_failure result ≡ false }
        ensures no_book { is_full_book result ≡ false }
        ensures number { self.new.k ≡ self.old.k }
        ensures own { IsOf self.old.k (In result) }
        ensures kept { (T : List AnItem) (held : Held) (docs : List DocRoot) → Owes held docs T self.old → Owes held docs (T ++ In result ∷ []) self.new }
    {
        let n = self.fed;
        self.fed = 0;
        Event::Took { k: self.k, n }
    }

    // Exits, once its output has ended or it was killed.
    fn exit(&mut self) -> Event
        requires { self.old.over ≡ true }
        ensures plain { is_failure result ≡ false }
        ensures no_book { is_full_book result ≡ false }
        ensures number { self.new.k ≡ self.old.k }
        ensures own { IsOf self.old.k (In result) }
        ensures kept { (T : List AnItem) (held : Held) (docs : List DocRoot) → Owes held docs T self.old → Owes held docs (T ++ In result ∷ []) self.new }
    {
        self.exited = true;
        Event::Exited { k: self.k }
    }

    /// Whether an event of it is due.
    pub fn is_due(&self) -> bool {
        !self.exited
            && (!self.started
                || self.fed > 0
                || (self.wanted && is_known(&self.output))
                || self.over)
    }

    /// Whether no act on it is to come: it could not be started, or it has exited, its input has ended, and its output has
    /// or was given up.
    pub fn is_settled(&self) -> bool {
        self.exited && (self.released || (self.closed && self.ended))
    }

    /// The next event of it, where one is due.
    pub fn due<D: DocStore>(
        &mut self,
        alloc: Global,
        docs: &[DocRoot],
        store: &mut D,
    ) -> Option<Event>
        ensures some { IfSome result (IsDue D.faults store.old store.new) }
        ensures none { result ≡ None → (self.new ≡ self.old) × (D.faults store.new ≡ D.faults store.old) }
        ensures same { D.held store.new ≡ D.held store.old }
        ensures number { self.new.k ≡ self.old.k }
        ensures own { IfSome result (λ event. IsOf self.old.k (In event)) }
        ensures kept { (T : List AnItem) (held : Held) → D.held store.old ≡ Some held → Owes held docs.now T self.old → IfSome result (λ event. Owes held docs.now (T ++ In event ∷ []) self.new) }
    {
        if self.exited {
            return None;
        }
        if !self.started {
            return Some(self.start(alloc, docs, store));
        }
        if self.fed > 0 {
            return Some(self.take_input());
        }
        if self.wanted && is_known(&self.output) {
            return Some(self.answer());
        }
        if self.over {
            return Some(self.exit());
        }
        None
    }

    /// Hears that this connection was shut.
    pub fn hear_shut(&mut self, shut: u64)
        ensures number { self.new.k ≡ self.old.k }
        ensures output { self.new.output ≡ self.old.output }
        ensures over { self.new.over ≡ self.old.over }
    {
        if self.c == shut {
            self.shut = true;
        }
    }

    /// Does an act on it.
    pub fn give(&mut self, act: &Act)
        requires { number_of act.now ≡ Some self.old.k }
        ensures number { self.new.k ≡ self.old.k }
        ensures kept { (T : List AnItem) (held : Held) (docs : List DocRoot) → Owes held docs T self.old → Owes held docs (T ++ Out act.now ∷ []) self.new }
    {
        match act {
            Act::Feed { bytes, .. } => self.fed = self.fed.saturating_add(bytes.len() as u64),
            Act::WantChild { .. } => self.wanted = true,
            Act::EndInput { .. } => self.closed = true,
            Act::Kill { .. } => self.over = true,
            Act::Release { .. } => self.released = true,
            _ => {}
        }
    }
}
