// The world of several loops, whose children are counted in one book.
ghost use Rattle.std.specs.Prelude.{◌≡◌, ◌≢◌, ◌+◌, ◌≤◌, ◌⊎◌, true, is_ok, IfOk, OnOk, OnErr, IsSome, IsNone, All, vec_len};
ghost use Rattle.host_base.specs.Outsides.{Rose};
ghost use Rattle.edge_loop.specs.Loops.{IsLimited, IsFresh};

use super::stock::Sixteen;
use super::{Leaving, Maker, NetOutside, send_all, stock};
use child_book::{Blank, Book, Ledger, Share};
use host_base::{Limits, NoMemory, Site};
use host_trace::EnterFault;
use std::alloc::Global;
use std::sync::{Arc, Mutex, Wait};

/// The world of loops over sockets. It tells nothing. Its ledger has 16 parts: one for each outside that is out, the
/// others are here.
#[derive(Drop)]
pub struct NetWorld<M, L: Ledger, R> {
    rt: R,
    alloc: Global,
    maker: M,
    ledger: Sixteen<L>,
    rest: Share<L>,
    // The book, until it has its lock.
    fresh: Option<Book<L>>,
    book: Option<Arc<Mutex<Book<L>>>>,
    cap: u32,
    out: u32,
    faults: u64,
    ghost parts: { rest.parts + out ≡ 16 },
    ghost none_runs: { rest.amount ≡ 0 },
    ghost none_out: { IsNone book → out ≡ 0 },
}

impl<M: Maker, L: Ledger, R: Wait + Copy + Drop> NetWorld<M, L, R> {
    /// A world with a new ledger. How many children may run is said by the first `enter`.
    pub fn new(rt: R, alloc: Global, maker: M, blank: Blank) -> Self
        requires name { blank.name ≡ L.name }
        requires parts { blank.parts ≡ L.parts }
        requires sixteen { blank.parts ≡ 16 }
        ensures { (result.out ≡ 0) × (result.faults ≡ 0) }
    {
        let ledger = Sixteen::new();
        let (book, rest) = Book::<L>::new(blank, 0);
        NetWorld {
            rt,
            alloc,
            maker,
            ledger,
            rest,
            fresh: Some(book),
            book: None,
            cap: 0,
            out: 0,
            faults: 0,
        }
    }

    // Puts the book behind its lock, if it isn't there yet. For want of memory it stays as it was.
    fn open(&mut self, cap: u32) -> Result<(), NoMemory>
        ensures out { self.new.out ≡ self.old.out }
        ensures faults { self.new.faults ≡ self.old.faults }
        ensures open { OnOk result (IsSome self.new.book) }
        ensures kept { IsSome self.old.book → (is_ok result ≡ true) × (self.new.cap ≡ self.old.cap) }
    {
        if self.book.is_some() {
            return Ok(());
        }
        let Some(mut fresh) = self.fresh.take() else {
            return Err(NoMemory);
        };
        let NetWorld {
            rt: _,
            alloc,
            maker: _,
            ledger,
            rest,
            fresh: kept,
            book,
            cap: most,
            out: _,
            faults: _,
        } = self;
        ledger.set_cap(&mut fresh, rest, cap);
        match Arc::new(*alloc, Mutex::new(fresh)) {
            Ok(shared) => {
                *most = cap;
                *book = Some(shared);
                Ok(())
            }
            Err(failed) => {
                *kept = Some(failed.value.into_inner());
                Err(NoMemory)
            }
        }
    }

    /// How many children run. It may wait for the lock.
    pub fn running(&mut self) -> u32
        ensures none { self.old.out ≡ 0 → result ≡ 0 }
        ensures out { self.new.out ≡ self.old.out }
        ensures faults { self.new.faults ≡ self.old.faults }
    {
        match &self.book {
            None => 0,
            Some(book) => self.ledger.running(&self.rt, &**book, &mut self.rest),
        }
    }

    /// Takes one outside back, which is one that is out: it brings a part of the ledger.
    pub fn take_one(&mut self, back: NetOutside<M::Ports, M::Spawner, M::Orders, L, R>)
        ensures out { self.new.out + 1 ≡ self.old.out }
        ensures faults { self.new.faults ≡ self.old.faults }
    {
        let NetWorld {
            rt: _,
            alloc: _,
            maker: _,
            ledger,
            rest,
            fresh: _,
            book: _,
            cap: _,
            out,
            faults: _,
        } = self;
        ledger.take(rest, back.end());
        *out -= 1;
    }

    // Gives out so many outsides at the address of a site.
    fn give(
        &mut self,
        site: &Site,
        loops: u32,
    ) -> Result<Vec<NetOutside<M::Ports, M::Spawner, M::Orders, L, R>>, EnterFault>
        ensures count { IfOk result (λ outs. vec_len outs ≡ loops) }
        ensures limits { IfOk result (λ outs. All (IsLimited site.now.limits) outs.items) }
        ensures fresh { IfOk result (λ outs. All IsFresh outs.items) }
        ensures ok { OnOk result (self.new.out ≡ self.old.out + loops) }
        ensures err { OnErr result (self.new.out ≡ self.old.out) }
        ensures another { IsSome self.old.book → self.old.cap ≢ site.now.limits.children → result ≡ Err EnterFault.Failed }
        ensures faults { self.new.faults ≡ self.old.faults }
    {
        if loops > 16 - self.out {
            return Err(EnterFault::Failed);
        }
        if self.open(site.limits.children).is_err() {
            return Err(EnterFault::NoMemory);
        }
        if self.cap != site.limits.children {
            return Err(EnterFault::Failed);
        }
        self.maker.listen(site, loops)?;
        self.give_out(&site.limits, loops)
    }

    fn give_out(
        &mut self,
        limits: &Limits,
        loops: u32,
    ) -> Result<Vec<NetOutside<M::Ports, M::Spawner, M::Orders, L, R>>, EnterFault>
        requires room { self.old.out + loops ≤ 16 }
        requires open { IsSome self.old.book }
        ensures count { IfOk result (λ outs. vec_len outs ≡ loops) }
        ensures limits { IfOk result (λ outs. All (IsLimited limits.now) outs.items) }
        ensures fresh { IfOk result (λ outs. All IsFresh outs.items) }
        ensures ok { OnOk result (self.new.out ≡ self.old.out + loops) }
        ensures err { OnErr result (self.new.out ≡ self.old.out) }
        ensures faults { self.new.faults ≡ self.old.faults }
    {
        let NetWorld {
            rt,
            alloc,
            maker,
            ledger: _,
            rest,
            fresh: _,
            book,
            cap: _,
            out,
            faults: _,
        } = self;
        let Some(book) = book else {
            unreachable!();
        };
        let outs = stock::give(*rt, *alloc, maker, book, rest, limits, loops)?;
        maker.begin();
        *out += loops;
        Ok(outs)
    }
}

impl<M: Maker, L: Ledger, R: Wait + Copy + Drop> NetWorld<M, L, R> {
    ghost use Rattle.std.specs.Prelude.{◌≡◌, ◌≢◌, ◌≤◌, ◌+◌, IfOk, OnOk, OnErr, IsSome, All, vec_len};
    ghost use Rattle.host_base.specs.Outsides.{Rose};
    ghost use Rattle.edge_loop.specs.Loops.{IsLimited, IsFresh, IsSent};

    /// Gives one outside for each loop, at the address of a site. It fails where the address can't be taken, where
    /// more loops are asked for than the ledger has parts, and where another number of children may run than in the
    /// book that was made.
    pub fn enter(
        &mut self,
        site: &Site,
        loops: u32,
    ) -> Result<Vec<NetOutside<M::Ports, M::Spawner, M::Orders, L, R>>, EnterFault>
        ensures count { IfOk result (λ outs. vec_len outs ≡ loops) }
        ensures limits { IfOk result (λ outs. All (IsLimited site.now.limits) outs.items) }
        ensures fresh { IfOk result (λ outs. All IsFresh outs.items) }
        ensures out { OnOk result (self.new.out ≡ self.old.out + loops) }
        ensures err { OnErr result (self.new.out ≡ self.old.out) }
        ensures faults { self.old.faults ≤ self.new.faults }
        ensures failed { result ≡ Err EnterFault.Failed → Rose self.old.faults self.new.faults }
        ensures another { IsSome self.old.book → self.old.cap ≢ site.now.limits.children → result ≡ Err EnterFault.Failed }
    {
        let entered = self.give(site, loops);
        if let Err(EnterFault::Failed) = &entered {
            self.faults = self.faults.saturating_add(1);
        }
        entered
    }

    /// Sends what is unsent of loops that are over, beside each other. Each may be one of several kinds.
    pub fn send_all<E: Leaving>(&self, outs: &mut [E])
        ensures halted { All E.is_halted outs.old → All E.is_halted outs.new }
        ensures sent { All E.is_sent outs.new }
    {
        send_all(&self.rt, outs);
    }

    /// Takes outsides back. First the children of all are ended and their tickets are spent, and then what they have not
    /// sent is sent, beside each other.
    pub fn leave(&mut self, outs: Vec<NetOutside<M::Ports, M::Spawner, M::Orders, L, R>>)
        requires { vec_len outs ≤ self.old.out }
        ensures out { self.new.out + vec_len outs ≡ self.old.out }
        ensures faults { self.new.faults ≡ self.old.faults }
    {
        let mut outs = outs;
        self.end_all(outs.as_mut_slice());
        self.take_back(outs);
    }

    fn end_all(&self, outs: &mut [NetOutside<M::Ports, M::Spawner, M::Orders, L, R>])
        ensures { All IsSent outs.new }
    {
        stock::halt_all(outs);
        self.send_all(outs);
    }

    // Takes outsides back to whose clients nothing waits to be sent.
    fn take_back(&mut self, outs: Vec<NetOutside<M::Ports, M::Spawner, M::Orders, L, R>>)
        requires given { vec_len outs ≤ self.old.out }
        requires sent { All IsSent outs.items }
        ensures out { self.new.out + vec_len outs ≡ self.old.out }
        ensures faults { self.new.faults ≡ self.old.faults }
    {
        let NetWorld {
            rt: _,
            alloc: _,
            maker: _,
            ledger: _,
            rest,
            fresh: _,
            book: _,
            cap: _,
            out,
            faults: _,
        } = self;
        *out -= outs.len() as u32;
        stock::take_back(rest, outs);
    }
}
