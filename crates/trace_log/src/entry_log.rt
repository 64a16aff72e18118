// What a world was entered for, which only clauses read.
use host_base::Site;
use host_trace::Mode;
use http_server::Log;
use std::marker::Model;
use std::snapshot::Snapshot;

/// What a world is entered for, with no copy of the site.
#[derive(Drop)]
pub struct Entered {
    mode: Mode,
    site: Snapshot<Site>,
    loops: u32,
}

/// What a world was entered for so far. A clause sees it as the list of the entries.
#[derive(Drop)]
pub struct EntryLog {
    notes: Log<Entered, ()>,
}

impl Model for EntryLog {
    ghost use Rattle.std.specs.Prelude.{List, map};
    ghost use Rattle.host_trace.specs.declared.world.Entry.{Entry};
    ghost use Rattle.trace_log.specs.NotedEntries.{noted_entry};

    ghost Value = { List Entry };

    ghost view = { λ log. map noted_entry log.notes.items };
}

impl EntryLog {
    ghost use Rattle.std.specs.Prelude.{◌≡◌, [], ◌∷◌, ◌++◌};
    ghost use Rattle.host_trace.specs.Entries.{entry_of};

    /// Of a world that was never entered.
    pub fn new() -> Self
        ensures { result ≡ [] }
    {
        EntryLog { notes: Log::new() }
    }

    /// One entry more: for this mode, this site and so many loops.
    pub fn with(&self, mode: Mode, site: &Site, loops: u32) -> Self
        ensures { result ≡ self.now ++ entry_of mode site.now loops ∷ [] }
    {
        let entered = Entered {
            mode,
            site: Snapshot::of(site),
            loops,
        };
        EntryLog {
            notes: self.notes.and(&entered, &()),
        }
    }
}
