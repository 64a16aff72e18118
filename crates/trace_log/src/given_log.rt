// The traces that were given back, which only clauses read.
use super::TraceLog;
use http_server::Log;
use std::marker::Model;

/// The traces that were given back so far. A clause sees it as their list.
#[derive(Drop)]
pub struct GivenLog {
    notes: Log<TraceLog, ()>,
}

impl Model for GivenLog {
    ghost use Rattle.std.specs.Prelude.{List, map};
    ghost use Rattle.host_trace.specs.declared.items.Item.{Item};

    ghost Value = { List (List Item) };

    ghost view = { λ log. map (λ note. note.0) log.notes.items };
}

impl GivenLog {
    ghost use Rattle.std.specs.Prelude.{◌≡◌, [], ◌∷◌, ◌++◌};

    /// Where none was given back.
    pub fn new() -> Self
        ensures { result ≡ [] }
    {
        GivenLog { notes: Log::new() }
    }

    /// One trace more.
    pub fn joined(&self, trace: &TraceLog) -> Self
        ensures { result ≡ self.now ++ trace.now ∷ [] }
    {
        GivenLog {
            notes: self.notes.and(trace, &()),
        }
    }
}
