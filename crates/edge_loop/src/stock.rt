// The parts of the ledger: those that no loop has, and those that are given out with a loop and come back.
ghost use Rattle.std.specs.Prelude.{◌≡◌, ◌+◌, ◌<◌, ◌≤◌, ℕ, IfOk, OnOk, OnErr, All, vec_len, vec_capacity};
ghost use Rattle.host_base.specs.Outsides.{Rose};
ghost use Rattle.edge_loop.specs.Loops.{IsLimited, IsFresh, IsHalted, IsSent};

use super::{NetOutside, Orders};
use booked_children::BookedChildren;
use child_book::{Book, Ledger, Share};
use child_edge::{ChildSet, Spawner};
use host_base::{Limits, Site};
use host_trace::EnterFault;
use socket_set::{Ports, SocketSet};
use std::alloc::Global;
use std::marker::PhantomData;
use std::sync::{Arc, Mutex, Wait};

/// What one loop is made of.
#[derive(Drop)]
pub struct Parts<P, S, O> {
    pub ports: P,
    pub spawner: S,
    pub orders: O,
}

/// Makes what loops are made of.
pub trait Maker {
    type Ports: Ports + Drop;

    type Spawner: Spawner + Drop;

    type Orders: Orders + Drop;

    /// How often it failed. It never falls.
    ghost faults: { Self → ℕ };

    /// Listens at the address of a site, for so many loops.
    fn listen(&mut self, site: &Site, loops: u32) -> Result<(), EnterFault>
        ensures grown { faults self.old ≤ faults self.new }
        ensures failed { result ≡ Err EnterFault.Failed → Rose (faults self.old) (faults self.new) };

    /// What one more loop is made of.
    fn make(&mut self) -> Result<Parts<Self::Ports, Self::Spawner, Self::Orders>, EnterFault>
        ensures grown { faults self.old ≤ faults self.new }
        ensures failed { result ≡ Err EnterFault.Failed → Rose (faults self.old) (faults self.new) };

    /// All loops were made. Whoever waits for that may begin.
    fn begin(&mut self)
        ensures grown { faults self.old ≤ faults self.new };
}

// It says how many parts the ledger has, which no struct with a share can say itself.
#[derive(Drop)]
pub(crate) struct Sixteen<L: Ledger> {
    of: PhantomData<L>,
    ghost sixteen: { L.parts ≡ 16 },
}

impl<L: Ledger> Sixteen<L> {
    pub fn new() -> Self
        requires { L.parts ≡ 16 }
        ensures { L.parts ≡ 16 }
    {
        Sixteen { of: PhantomData }
    }

    // How many children run, where every part is at hand. It may wait for the lock.
    pub fn running<R: Wait>(&self, rt: &R, book: &Mutex<Book<L>>, rest: &mut Share<L>) -> u32
        ensures whole { rest.old.parts ≡ 16 → result ≡ rest.old.amount }
        ensures parts { rest.new.parts ≡ rest.old.parts }
        ensures amount { rest.new.amount ≡ rest.old.amount }
    {
        book.lock(rt).audit(rest)
    }

    // Takes parts in. No more come than the ledger has.
    pub fn take(&self, rest: &mut Share<L>, back: Share<L>)
        ensures parts { rest.new.parts ≡ rest.old.parts + back.parts }
        ensures amount { rest.new.amount ≡ rest.old.amount + back.amount }
        ensures fits { rest.new.parts ≤ 16 }
    {
        rest.merge(back);
    }

    // Says how many children may run, before any loop has a part.
    pub fn set_cap(&self, book: &mut Book<L>, rest: &mut Share<L>, cap: u32)
        requires whole { rest.old.parts ≡ 16 }
        requires none { rest.old.amount ≡ 0 }
        ensures parts { rest.new.parts ≡ rest.old.parts }
        ensures amount { rest.new.amount ≡ rest.old.amount }
    {
        book.set_cap(rest, cap);
    }
}

// Halts each.
pub(crate) fn halt_all<
    P: Ports + Drop,
    S: Spawner + Drop,
    O: Orders + Drop,
    L: Ledger,
    R: Wait + Copy + Drop,
>(outs: &mut [NetOutside<P, S, O, L, R>])
    ensures { All IsHalted outs.new }
{
    for i in 0..outs.len() {
        outs[i].halt();
    }
}

// Takes outsides back to whose clients nothing waits to be sent: their tickets are spent, and their parts come to the
// rest.
pub(crate) fn take_back<
    P: Ports + Drop,
    S: Spawner + Drop,
    O: Orders + Drop,
    L: Ledger,
    R: Wait + Copy + Drop,
>(rest: &mut Share<L>, outs: Vec<NetOutside<P, S, O, L, R>>)
    requires none { rest.old.amount ≡ 0 }
    requires sent { All IsSent outs.items }
    ensures none { rest.new.amount ≡ 0 }
    ensures parts { rest.new.parts ≡ rest.old.parts + vec_len outs }
{
    let mut outs = outs.into_iter();
    while let Some(out) = outs.next() {
        rest.merge(out.give_back());
    }
    outs.destroy_empty();
}

// One outside, with one part.
#[tactic(auto, using(crate::proofs::Fresh::is_fresh))]
fn join<P: Ports + Drop, S: Spawner + Drop, O: Orders + Drop, L: Ledger, R: Wait + Copy + Drop>(
    rt: R,
    alloc: Global,
    parts: Parts<P, S, O>,
    book: &Arc<Mutex<Book<L>>>,
    rest: &mut Share<L>,
    limits: &Limits,
) -> Result<NetOutside<P, S, O, L, R>, EnterFault>
    requires room { 0 < rest.old.parts }
    requires none { rest.old.amount ≡ 0 }
    ensures limits { IfOk result (IsLimited limits.now) }
    ensures fresh { IfOk result IsFresh }
    ensures none { rest.new.amount ≡ 0 }
    ensures ok { OnOk result (rest.new.parts + 1 ≡ rest.old.parts) }
    ensures err { OnErr result ((rest.new.parts ≡ rest.old.parts) × (result ≡ Err EnterFault.NoMemory)) }
{
    let Parts {
        ports,
        spawner,
        orders,
    } = parts;
    let (Ok(set), Ok(sockets), Ok(book)) = (
        ChildSet::new(alloc, spawner, limits.connections),
        SocketSet::new(alloc, ports, limits.connections),
        Arc::try_clone(book),
    ) else {
        return Err(EnterFault::NoMemory);
    };
    let children = BookedChildren::new(rt, alloc, book, rest.split_off(1, 0), set);
    Ok(NetOutside::new(rt, alloc, sockets, children, orders, limits.children))
}

// What one more loop is made of, joined.
fn give_one<M: Maker, L: Ledger, R: Wait + Copy + Drop>(
    rt: R,
    alloc: Global,
    maker: &mut M,
    book: &Arc<Mutex<Book<L>>>,
    rest: &mut Share<L>,
    limits: &Limits,
) -> Result<NetOutside<M::Ports, M::Spawner, M::Orders, L, R>, EnterFault>
    requires room { 0 < rest.old.parts }
    requires none { rest.old.amount ≡ 0 }
    ensures limits { IfOk result (IsLimited limits.now) }
    ensures fresh { IfOk result IsFresh }
    ensures none { rest.new.amount ≡ 0 }
    ensures ok { OnOk result (rest.new.parts + 1 ≡ rest.old.parts) }
    ensures err { OnErr result (rest.new.parts ≡ rest.old.parts) }
    ensures grown { M.faults maker.old ≤ M.faults maker.new }
    ensures failed { result ≡ Err EnterFault.Failed → Rose (M.faults maker.old) (M.faults maker.new) }
{
    let parts = maker.make()?;
    join(rt, alloc, parts, book, rest, limits)
}

// So many outsides.
pub(crate) fn give<M: Maker, L: Ledger, R: Wait + Copy + Drop>(
    rt: R,
    alloc: Global,
    maker: &mut M,
    book: &Arc<Mutex<Book<L>>>,
    rest: &mut Share<L>,
    limits: &Limits,
    loops: u32,
) -> Result<Vec<NetOutside<M::Ports, M::Spawner, M::Orders, L, R>>, EnterFault>
    requires room { loops ≤ rest.old.parts }
    requires none { rest.old.amount ≡ 0 }
    ensures count { IfOk result (λ outs. vec_len outs ≡ loops) }
    ensures limits { IfOk result (λ outs. All (IsLimited limits.now) outs.items) }
    ensures fresh { IfOk result (λ outs. All IsFresh outs.items) }
    ensures none { rest.new.amount ≡ 0 }
    ensures ok { OnOk result (rest.new.parts + loops ≡ rest.old.parts) }
    ensures err { OnErr result (rest.new.parts ≡ rest.old.parts) }
    ensures grown { M.faults maker.old ≤ M.faults maker.new }
    ensures failed { result ≡ Err EnterFault.Failed → Rose (M.faults maker.old) (M.faults maker.new) }
{
    let Ok(mut outs) = Vec::with_capacity(alloc, loops as usize) else {
        return Err(EnterFault::NoMemory);
    };
    for i in 0..loops {
        match give_one(rt, alloc, maker, book, rest, limits) {
            Ok(out) => outs.push_reserved(out),
            Err(fault) => {
                take_back(rest, outs);
                return Err(fault);
            }
        }
    }
    Ok(outs)
}
