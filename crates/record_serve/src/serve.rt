// A world that is served with a record.
ghost use Rattle.std.specs.Prelude.{◌≡◌, ◌≤◌, ◌^◌};
ghost use Rattle.host_base.specs.Outsides.{Rose};
ghost use Rattle.host_base.specs.SiteRules.{IsServed};
ghost use Rattle.host_trace.specs.Entries.{entry_of};
ghost use Rattle.trace_laws.specs.Promised.{Promised};
ghost use Rattle.host_loop.specs.Given.{GivesLoops};
ghost use Rattle.record_serve.specs.Recorded.{EntersBy, GivesRecord, end_of, refused};

use crate::cover::{cover, uncover};
use host_base::{Site, Text};
use host_loop::LoopEnd;
use host_serve::serve_all;
use host_trace::{EnterFault, Mode, World};
use record_outside::Record;
use std::alloc::Global;
use std::thread::Threads;

/// How serving a world with a record ended.
#[derive(Drop)]
pub enum RecordEnd {
    /// No memory was found for the record. The world was not entered.
    NoRoom,
    /// The world could not be entered.
    Refused,
    /// No memory was found to enter it.
    Unentered,
    /// The loop ended so, and this is its record.
    Ended { end: LoopEnd, record: Text },
}

fn refused(fault: EnterFault) -> RecordEnd
    ensures { result ≡ refused fault }
{
    match fault {
        EnterFault::Failed => RecordEnd::Refused,
        EnterFault::NoMemory => RecordEnd::Unentered,
    }
}

/// Enters a world for one loop over a site, serves its connections for so many turns at most, and gives its outside back.
/// Where the world tells the loop's trace, what is recorded is its longest front of whole steps within the limits. All room
/// for the record is found before the world is entered.
pub fn serve_recorded<R: Threads + Sync, W: World>(
    rt: &R,
    alloc: Global,
    site: &Site,
    turns: u64,
    world: &mut W,
) -> RecordEnd
    requires turns { turns ≤ 2 ^ 62 }
    requires served { IsServed site.now }
    ensures gives { GivesLoops (Promised site.now) turns 1 (end_of result) (W.given world.old) (W.given world.new) }
    ensures text { GivesRecord result (W.given world.old) (W.given world.new) }
    ensures entered { EntersBy result (entry_of Mode.Serve site.now 1) (W.entries world.old) (W.entries world.new) }
    ensures out { W.out world.new ≡ W.out world.old }
    ensures failed { result ≡ RecordEnd.Refused → Rose (W.faults world.old) (W.faults world.new) }
{
    let Ok(empty) = Record::new(alloc) else {
        return RecordEnd::NoRoom;
    };
    let Ok(mut covered) = Vec::with_capacity(alloc, 1) else {
        return RecordEnd::NoRoom;
    };
    let mut outs = match world.enter(Mode::Serve, site, 1) {
        Ok(outs) => outs,
        Err(fault) => {
            covered.destroy_empty();
            return refused(fault);
        }
    };
    cover(&mut outs, empty, &mut covered);
    let end = serve_all(rt, alloc, site, &mut covered, turns);
    let record = uncover(&mut covered, &mut outs);
    covered.destroy_empty();
    world.leave(outs);
    RecordEnd::Ended { end, record }
}
