// The outside of one loop: what is heard, and what is asked for.
ghost use Rattle.std.specs.Prelude.{◌≡◌, ◌≤◌, ℕ, List, Option, true};
ghost use Rattle.host_base.specs.Outsides.{Rose};
ghost use Rattle.host_trace.specs.declared.items.Item.{Item};
ghost use Rattle.host_trace.specs.Told.{Hears, ActsOn, carries_nothing, is_failure, is_full_book};

use super::{Act, Event};

/// What became of an act.
#[derive(Clone, Copy, Debug, PartialEq, Eq)]
pub enum Acted {
    Done,
    /// No memory was found to keep the act, and it is as if it had not been asked for.
    NoRoom,
}

/// The outside of a loop. Its clock is Tick.
pub trait Outside {
    /// What was handed up and done so far, where it tells.
    ghost trace: { Self → Option (List Item) };

    /// How often a connection, a child or a pipe failed. It never falls.
    ghost faults: { Self → ℕ };

    /// How often a start found as many children as may run. It never falls.
    ghost full_books: { Self → ℕ };

    /// How many children may run. No call changes it.
    ghost limit: { Self → ℕ };

    /// The next event. It may wait for one.
    fn next(&mut self) -> Event
        ensures told { Hears (limit self.old) (trace self.old) result (trace self.new) }
        ensures limit { limit self.new ≡ limit self.old }
        ensures faults { faults self.old ≤ faults self.new }
        ensures full_books { full_books self.old ≤ full_books self.new }

        ensures failure { is_failure result ≡ true → Rose (faults self.old) (faults self.new) }
        ensures full { is_full_book result ≡ true → Rose (full_books self.old) (full_books self.new) };

    /// Does an act. Only an act that carries bytes, texts or a launch can find no room.
    fn act(&mut self, act: &Act) -> Acted
        ensures told { ActsOn (trace self.old) act.now result (trace self.new) }
        ensures room { carries_nothing act.now ≡ true → result ≡ Acted.Done }
        ensures limit { limit self.new ≡ limit self.old }
        ensures faults { faults self.old ≤ faults self.new }
        ensures full_books { full_books self.old ≤ full_books self.new };
}
