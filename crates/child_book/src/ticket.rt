// The right of one child to run.
ghost use Rattle.std.specs.Prelude.{◌≡◌};

use super::FullSeen;
use std::marker::Model;

/// The right of one child to run. `Book::admit` makes it, `Book::reap` spends it, and it can be neither
/// copied nor dropped. Contracts see its number.
#[derive(Debug)]
pub struct Ticket {
    number: u64,
}

impl Model for Ticket {
    ghost use Rattle.std.specs.Prelude.{ℕ};

    ghost Value = { ℕ };

    ghost view = { λ ticket. ticket.number };
}

impl Ticket {
    pub(super) fn numbered(number: u64) -> Self
        ensures { result ≡ number }
    {
        Ticket { number }
    }

    pub(super) fn spend(self) {
        let Ticket { number: _ } = self;
    }

    /// How many tickets the book gave before it, modulo 2^64.
    pub fn number(&self) -> u64
        ensures { result ≡ self.now }
    {
        self.number
    }
}

/// What a book answers to a start.
#[derive(Debug)]
pub enum Admit {
    /// One child more may run.
    Granted(Ticket),
    /// As many children run as may.
    Full(FullSeen),
}
