// An outside that keeps a record of the one below it.
ghost use Rattle.std.specs.Prelude.{◌≡◌};
ghost use Rattle.record_outside.specs.Record.{IsKept};

use crate::Record;
use host_base::Text;
use host_trace::{Act, Acted, Event, Outside};

/// An outside that passes everything on, and keeps a record of it.
#[derive(Drop)]
pub struct RecordOutside<O: Outside> {
    inner: O,
    so_far: Record,
    ghost kept: { IsKept (O.trace inner) so_far },
}

impl<O: Outside> RecordOutside<O> {
    ghost use Rattle.std.specs.Prelude.{◌≡◌, [], Some, List};
    ghost use Rattle.host_trace.specs.declared.items.Item.{Item};
    ghost use Rattle.record_outside.specs.Record.{Keeps, Records};

    /// Over a new outside, with a new record.
    pub fn new(inner: O, empty: Record) -> Self
        requires fresh { (T : List Item) → O.trace inner ≡ Some T → T ≡ [] }
        requires empty { Keeps [] empty }
        ensures { result.inner ≡ inner }
    {
        RecordOutside {
            inner,
            so_far: empty,
        }
    }

    /// The outside below, and the record of what it tells.
    pub fn into_parts(self) -> (O, Text)
        ensures inner { result.0 ≡ self.inner }
        ensures text { Records (O.trace self.inner) result.1 }
    {
        let RecordOutside { inner, so_far } = self;
        (inner, so_far.into_text())
    }
}

impl<O: Outside> Outside for RecordOutside<O> {
    ghost use Rattle.std.specs.Prelude.{◌≡◌};

    ghost trace = { λ o. O.trace o.inner };

    ghost faults = { λ o. O.faults o.inner };

    ghost full_books = { λ o. O.full_books o.inner };

    ghost limit = { λ o. O.limit o.inner };

    fn next(&mut self) -> Event {
        let event = self.inner.next();
        self.so_far.hear(&event);
        event
    }

    fn act(&mut self, act: &Act) -> Acted {
        match self.inner.act(act) {
            Acted::Done => {
                self.so_far.note(act);
                Acted::Done
            }
            Acted::NoRoom => Acted::NoRoom,
        }
    }
}
