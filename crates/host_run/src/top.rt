// The top call.
ghost use Rattle.std.specs.Prelude.{◌≡◌, ◌<◌, ◌≤◌, ◌^◌, ◌↔◌, None, Some, true, false};
ghost use Rattle.host_base.specs.Outsides.{Rose};
ghost use Rattle.host_base.specs.SiteRules.{IsServed};
ghost use Rattle.host_trace.specs.Entries.{Enters, entry_of};
ghost use Rattle.host_run.specs.Entered.{EntersAt};
ghost use Rattle.host_run.specs.Explains.{ExplainsAt};
ghost use Rattle.host_run.specs.Given.{GivesAt, GivesBy};
ghost use Rattle.host_run.specs.Statuses.{InOrder, ReadsBy, ReportsBy, SitesBy, enters_world, is_run, reads_store, writes_report};
ghost use Rattle.host_run.specs.Words.{Does, IsTask, form_of, place_at};

use super::explaining::run_explain;
use super::report::{HELP, VERSION, check, put, report_sample, upgrade};
use super::sites::site_at;
use super::words::{Command, Place, TURNS, Task, form_of};
use host_base::{Sink, Site, SiteStore};
use host_loop::{LoopEnd, WorldEnd};
use host_serve::serve_site;
use host_trace::{Mode, World};
use site_file::SiteFault;
use std::alloc::Global;
use std::thread::Threads;

/// How a run ended.
#[derive(Drop, Debug)]
pub enum Status {
    /// The work was finished: what was to be reported is put, or Stop was heard and every child is settled.
    Done,
    /// The words of the command line have no form that there is.
    Usage,
    /// The site file says no site that can be served.
    SiteRefused(SiteFault),
    /// The site file could not be read.
    SiteUnread,
    /// The world could not be entered.
    WorldRefused,
    /// All turns were used, and it was not both stopped and settled; for `explain`, and the request had not ended.
    Spent,
    /// The report could not be written.
    ReportFault,
    NoMemory,
}

// Serves the connections of so many loops.
fn run_loops<R: Threads + Sync, W: World>(
    rt: &R,
    alloc: Global,
    mode: Mode,
    site: &Site,
    loops: u32,
    turns: u64,
    world: &mut W,
) -> Status
    requires loops { 0 < loops }
    requires once { mode ≡ Mode.Once → loops ≡ 1 }
    requires turns { turns ≤ 2 ^ 62 }
    requires served { IsServed site.now }
    ensures status { is_run result ≡ true }
    ensures gives { GivesBy (λ s. s ≡ site.now) loops turns result (W.given world.old) (W.given world.new) }
    ensures entered { Enters (W.entries world.old) (entry_of mode site.now loops) (W.entries world.new) }
    ensures out { W.out world.new ≡ W.out world.old }
    ensures failed { result ≡ Status.WorldRefused → Rose (W.faults world.old) (W.faults world.new) }
{
    match serve_site(rt, alloc, mode, site, loops, turns, world) {
        WorldEnd::Refused => Status::WorldRefused,
        WorldEnd::Unentered => Status::NoMemory,
        WorldEnd::Ended(LoopEnd::Done) => Status::Done,
        WorldEnd::Ended(LoopEnd::Spent) => Status::Spent,
        WorldEnd::Ended(LoopEnd::NoMemory) => Status::NoMemory,
    }
}

// Does a task with the site that is said at a place.
fn run_at<R: Threads + Sync, F: SiteStore, S: Sink, W: World>(
    rt: &R,
    alloc: Global,
    task: Task,
    place: &Place,
    store: &mut F,
    report: &mut S,
    world: &mut W,
) -> Status
    requires { IsTask task }
    ensures site { ReadsBy (F.stored store.old) (place_at place.now) result }
    ensures gives { GivesAt (F.stored store.old) (Some (Does task (place_at place.now))) result (W.given world.old) (W.given world.new) }
    ensures entered { EntersAt (F.stored store.old) (Some (Does task (place_at place.now))) result (W.entries world.old) (W.entries world.new) }
    ensures out { W.out world.new ≡ W.out world.old }
    ensures report { ReportsBy (F.stored store.old) (Some (Does task (place_at place.now))) result (S.written report.old) (S.written report.new) }
    ensures explains { ExplainsAt (F.stored store.old) (Some (Does task (place_at place.now))) result (W.given world.old) (W.given world.new) (S.written report.old) (S.written report.new) }
    ensures unread { result ≡ Status.SiteUnread → Rose (F.faults store.old) (F.faults store.new) }
    ensures failed { result ≡ Status.WorldRefused → Rose (W.faults world.old) (W.faults world.new) }
    ensures fault { result ≡ Status.ReportFault → Rose (S.faults report.old) (S.faults report.new) }
    ensures order { InOrder result store.old store.new world.old world.new report.old report.new }
    ensures no_store { reads_store (Some (Does task (place_at place.now))) ≡ false → store.new ≡ store.old }
    ensures no_world { enters_world (Some (Does task (place_at place.now))) ≡ false → world.new ≡ world.old }
    ensures no_report { writes_report (Some (Does task (place_at place.now))) ≡ false → report.new ≡ report.old }
{
    let site = match site_at(alloc, place, store) {
        Ok(site) => site,
        Err(status) => return status,
    };
    match task {
        Task::Once => run_loops(rt, alloc, Mode::Once, &site, 1, TURNS, world),
        Task::Serve { loops, turns } => {
            run_loops(rt, alloc, Mode::Serve, &site, loops, turns, world)
        }
        Task::Check => check(alloc, &site, report),
        Task::Upgrade => upgrade(alloc, &site, report),
        Task::Explain => run_explain(alloc, &site, report, world),
    }
}

/// Runs the host by the words that follow the program's name. SITE is PATH=PROGRAM, which needs no file, or
/// the name of a site file, which is read from the store.
///
/// - `once SITE` serves one connection of the world, and `serve SITE` its sockets: in one loop, or with `--loops N` in N,
///   each in a thread of its own, and with `--turns N` until each loop heard N events. They write no report.
/// - `check SITE` reports how many scripts the site has, and `upgrade SITE` the site as a version 2 file.
/// - `explain SITE` asks the client of one connection for its first request and reports what would be started for it, or
///   how it would be refused. Nothing is started, and nothing is written to the client.
/// - `sample SEED N` runs N connections over memory, as the number SEED chooses them, and reports the counts of the run.
/// - `--help` and `--version` report what they say.
///
/// Threads are started for several loops alone.
pub fn run<R: Threads + Sync, F: SiteStore, S: Sink, W: World>(
    rt: &R,
    alloc: Global,
    words: &[String],
    store: &mut F,
    report: &mut S,
    world: &mut W,
) -> Status
    ensures usage { (result ≡ Status.Usage) ↔ (form_of words.now ≡ None) }
    ensures site { SitesBy (F.stored store.old) (form_of words.now) result }
    ensures gives { GivesAt (F.stored store.old) (form_of words.now) result (W.given world.old) (W.given world.new) }
    ensures entered { EntersAt (F.stored store.old) (form_of words.now) result (W.entries world.old) (W.entries world.new) }
    ensures out { W.out world.new ≡ W.out world.old }
    ensures report { ReportsBy (F.stored store.old) (form_of words.now) result (S.written report.old) (S.written report.new) }
    ensures explains { ExplainsAt (F.stored store.old) (form_of words.now) result (W.given world.old) (W.given world.new) (S.written report.old) (S.written report.new) }
    ensures unread { result ≡ Status.SiteUnread → Rose (F.faults store.old) (F.faults store.new) }
    ensures failed { result ≡ Status.WorldRefused → Rose (W.faults world.old) (W.faults world.new) }
    ensures fault { result ≡ Status.ReportFault → Rose (S.faults report.old) (S.faults report.new) }
    ensures order { InOrder result store.old store.new world.old world.new report.old report.new }
    ensures no_store { reads_store (form_of words.now) ≡ false → store.new ≡ store.old }
    ensures no_world { enters_world (form_of words.now) ≡ false → world.new ≡ world.old }
    ensures no_report { writes_report (form_of words.now) ≡ false → report.new ≡ report.old }
{
    match form_of(words) {
        Some(Command::Does(task, place)) => {
            run_at(rt, alloc, task, &place, store, report, world)
        }
        Some(Command::Sample { seed, count }) => report_sample(alloc, seed, count, report),
        Some(Command::Help) => put(report, HELP),
        Some(Command::Version) => put(report, VERSION),
        None => Status::Usage,
    }
}
