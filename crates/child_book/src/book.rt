// The book itself.
ghost use Rattle.std.specs.Prelude.{◌≡◌, ◌+◌, ◌%◌, ◌^◌, ◌<◌, ◌≤◌, ◌↔◌, true};
ghost use Rattle.child_book.specs.Admitted.{is_full, granted, HasNumber, HasSeen};
ghost use Rattle.child_book.specs.Counts.{Balances, SameButCap};

use super::{Admit, FullSeen, Ticket};
use std::marker::Model;
use std::sync::ledger;
use std::sync::ledger::{Blank, Ledger, Share};

/// How many children run at most and at present, and how many were admitted and reaped. Loops share it
/// behind a lock, and each has a share of the ledger, whose amount is how many of the running are its own.
/// No call takes memory. The counts of starts and reaps go round at 2^64.
#[derive(Drop)]
pub struct Book<L: Ledger> {
    shares: ledger::Book<L>,
    running: u32,
    cap: u32,
    starts: u64,
    reaps: u64,
}

impl<L: Ledger> Model for Book<L> {
    ghost use Rattle.std.specs.Prelude.{◌≡◌};
    ghost use Rattle.child_book.specs.Counts.{Counts, Balances, counts_of};

    ghost Value = { Counts };

    ghost view = { λ b. counts_of b.running b.cap b.starts b.reaps };

    // The ledger's total is what runs, whatever the shares are.
    ghost invariant = { λ b. (b.shares.total ≡ b.running) × Balances (counts_of b.running b.cap b.starts b.reaps) };
}

impl<L: Ledger> Book<L> {
    /// The book of a ledger, under which at most `cap` children run at a time, and the share that has every
    /// part of it.
    pub fn new(blank: Blank, cap: u32) -> (Book<L>, Share<L>)
        requires name { blank.name ≡ L.name }
        requires parts { blank.parts ≡ L.parts }
        ensures cap { result.0.cap ≡ cap }
        ensures counts { (result.0.starts ≡ 0) × (result.0.reaps ≡ 0) × (result.0.running ≡ 0) }
        ensures parts { result.1.parts ≡ L.parts }
        ensures amount { result.1.amount ≡ 0 }
    {
        let (shares, share) = blank.open::<L>();
        (
            Book {
                shares,
                running: 0,
                cap,
                starts: 0,
                reaps: 0,
            },
            share,
        )
    }

    /// Lets one child more run, for the loop that has the share; `Full` exactly where as many run as may,
    /// and then nothing changes.
    pub fn admit(&mut self, share: &mut Share<L>) -> Admit
        requires { 0 < share.old.parts }
        ensures full { (is_full result ≡ true) ↔ (self.old.running ≡ self.old.cap) }
        ensures seen { HasSeen self.old.cap result }
        ensures number { HasNumber self.old.starts result }
        ensures running { self.new.running ≡ self.old.running + granted result }
        ensures starts { self.new.starts ≡ (self.old.starts + granted result) % 2 ^ 64 }
        ensures reaps { self.new.reaps ≡ self.old.reaps }
        ensures cap { self.new.cap ≡ self.old.cap }
        ensures amount { share.new.amount ≡ share.old.amount + granted result }
        ensures parts { share.new.parts ≡ share.old.parts }
        ensures kept { is_full result ≡ true → self.new ≡ self.old }
        ensures balanced { Balances self.new }
    {
        if self.running == self.cap {
            return Admit::Full(FullSeen::at(self.cap));
        }
        let number = self.starts;
        let Book {
            shares,
            running,
            cap: _,
            starts,
            reaps: _,
        } = self;
        shares.add(share, 1);
        *running += 1;
        *starts = starts.wrapping_add(1);
        Admit::Granted(Ticket::numbered(number))
    }

    /// Spends the ticket of a child that was reaped, or that could not be started.
    pub fn reap(&mut self, share: &mut Share<L>, ticket: Ticket)
        requires { 0 < share.old.amount }
        ensures running { self.new.running + 1 ≡ self.old.running }
        ensures reaps { self.new.reaps ≡ (self.old.reaps + 1) % 2 ^ 64 }
        ensures starts { self.new.starts ≡ self.old.starts }
        ensures cap { self.new.cap ≡ self.old.cap }
        ensures amount { share.new.amount + 1 ≡ share.old.amount }
        ensures parts { share.new.parts ≡ share.old.parts }
        ensures balanced { Balances self.new }
    {
        ticket.spend();
        let Book {
            shares,
            running,
            cap: _,
            starts: _,
            reaps,
        } = self;
        shares.audit(share);
        shares.sub(share, 1);
        *running -= 1;
        *reaps = reaps.wrapping_add(1);
    }

    /// How many children run.
    pub fn running(&self) -> u32
        ensures exact { result ≡ self.now.running }
        ensures capped { result ≤ self.now.cap }
    {
        self.running
    }

    /// How many tickets were given so far, modulo 2^64.
    pub fn starts(&self) -> u64
        ensures exact { result ≡ self.now.starts }
        ensures balanced { result ≡ (self.now.running + self.now.reaps) % 2 ^ 64 }
    {
        self.starts
    }

    /// How many tickets were spent so far, modulo 2^64.
    pub fn reaps(&self) -> u64
        ensures { result ≡ self.now.reaps }
    {
        self.reaps
    }

    /// How many children run: at least the share's amount, and exactly that where the share has every part.
    pub fn audit(&mut self, share: &mut Share<L>) -> u32
        ensures exact { result ≡ self.old.running }
        ensures whole { share.old.parts ≡ L.parts → result ≡ share.old.amount }
        ensures bound { share.old.amount ≤ result }
        ensures same { self.new ≡ self.old }
        ensures share { (share.new.parts ≡ share.old.parts) × (share.new.amount ≡ share.old.amount) }
    {
        self.shares.audit(share);
        self.running
    }

    /// Sets how many children may run at a time. Whoever has every part of the ledger, with the amount 0,
    /// may do so: then none runs.
    pub fn set_cap(&mut self, share: &mut Share<L>, cap: u32)
        requires whole { share.old.parts ≡ L.parts }
        requires none { share.old.amount ≡ 0 }
        ensures cap { self.new.cap ≡ cap }
        ensures none { self.new.running ≡ 0 }
        ensures same { SameButCap self.old self.new }
        ensures share { (share.new.parts ≡ share.old.parts) × (share.new.amount ≡ share.old.amount) }
    {
        let Book {
            shares,
            running: _,
            cap: most,
            starts: _,
            reaps: _,
        } = self;
        shares.audit(share);
        *most = cap;
    }
}
