// The trace of a loop, which only clauses read.
use host_trace::{Act, Event};
use http_server::Log;
use std::marker::Model;
use std::snapshot::Snapshot;

/// What was heard or done, as clauses see it.
#[derive(Drop)]
pub enum Noted {
    Heard(Snapshot<Event>),
    Done(Snapshot<Act>),
}

/// What was heard and done so far. A clause sees it as the list of the items.
#[derive(Drop)]
pub struct TraceLog {
    notes: Log<Noted, ()>,
}

impl Model for TraceLog {
    ghost use Rattle.std.specs.Prelude.{List, map};
    ghost use Rattle.host_trace.specs.declared.items.Item.{Item};
    ghost use Rattle.trace_log.specs.NotedItems.{item_of};

    ghost Value = { List Item };

    ghost view = { λ log. map item_of log.notes.items };
}

impl TraceLog {
    ghost use Rattle.std.specs.Prelude.{◌≡◌, [], ◌∷◌, ◌++◌};
    ghost use Rattle.host_trace.specs.declared.items.Item.{Item};

    /// Of a loop that has neither heard nor done anything.
    pub fn new() -> Self
        ensures { result ≡ [] }
    {
        TraceLog { notes: Log::new() }
    }

    /// One event more, which `next` handed up.
    pub fn heard(&self, event: &Event) -> Self
        ensures { result ≡ self.now ++ Item.In event.now ∷ [] }
    {
        TraceLog {
            notes: self.notes.and(&Noted::Heard(Snapshot::of(event)), &()),
        }
    }

    /// One act more, which `act` has done.
    pub fn done(&self, act: &Act) -> Self
        ensures { result ≡ self.now ++ Item.Out act.now ∷ [] }
    {
        TraceLog {
            notes: self.notes.and(&Noted::Done(Snapshot::of(act)), &()),
        }
    }
}
