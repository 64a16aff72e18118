//! The program: it hands the words of the command line, the files, standard output and the real world to
//! `run`, says on standard error what went wrong, and ends with the number of the status.
#![tactic(auto)]

ghost use Rattle.std.specs.Prelude.{◌≡◌, ◌↔◌, ◌⊎◌, Some, None, false, drop, IfOk, IfErr, OnErr};
ghost use Rattle.std.specs.Process.{exit_status};
ghost use Rattle.std.specs.Vec.Iter.{into_iter_items};
ghost use Rattle.host_base.specs.Outsides.{Rose};
ghost use Rattle.host_run.specs.Entered.{EntersAt};
ghost use Rattle.host_run.specs.Explains.{ExplainsAt};
ghost use Rattle.host_run.specs.Given.{GivesAt};
ghost use Rattle.host_run.specs.Statuses.{InOrder, ReportsBy, SitesBy, enters_world, reads_store, writes_report};
ghost use Rattle.host_run.specs.Words.{form_of};
ghost use Rattle.cgihost.specs.StatusLines.{number_of as number};

mod fault;
mod listening;
mod sink;
mod standard;
mod store;
mod world;

use child_book::{Blank, Ledger};
use doc_files::DocStore;
use fault::{DroppedLine, FaultLine, number_of};
use host_base::{Sink, SiteStore};
use host_run::{Status, run};
use listening::say_listening;
use log_writer::{LogFault, LogLines, LogWords, OpenedLog, take_log};
use pipe_wait::PipeWaker;
use pump_pool::Station;
use real_docs::FileDocs;
use sink::StdSink;
use standard::open_closed;
use std::alloc::Global;
use std::env::Args;
use std::fs::File;
use std::io::ErrorKind;
use std::marker::Brand;
use std::net::Net;
use std::process::{ExitCode, Processes, SystemProcess};
use std::rt::{Env, Files};
use std::sync::Wait;
use std::thread::Threads;
use std::time::Clock;
use std::{env, thread};
use std_spawner::{PumpJob, StartThread, ThreadStarter};
use store::FileStore;
use world::{Devices, TellingWorld, telling_world};

// The words after the first.
fn after_first(alloc: Global, words: Args) -> Result<Vec<String>, Status>
    ensures words { IfOk result (λ rest. rest.items ≡ drop 1 (into_iter_items words)) }
    ensures memory { OnErr result (result ≡ Err Status.NoMemory) }
{
    match words.skip(1).collect(alloc) {
        Ok(rest) => Ok(rest),
        Err(_) => Err(Status::NoMemory),
    }
}

// The words after the program's name. A word that is not UTF-8 is of no form.
fn words<R: Env + AllocGlobal>(rt: &R) -> Result<Vec<String>, Status>
    ensures { IfErr result (λ status. (status ≡ Status.Usage) ⊎ (status ≡ Status.NoMemory)) }
{
    match env::args(rt) {
        Ok(words) => after_first(rt.alloc(), words),
        Err(error) => Err(match error.kind() {
            ErrorKind::OutOfMemory => Status::NoMemory,
            _ => Status::Usage,
        }),
    }
}

// Says on standard error what the status is, unless the work was done.
fn end<R: Eprint>(rt: &R, status: &Status) -> ExitCode
    ensures { exit_status result ≡ number status.now }
{
    let number = number_of(status);
    if number != 0 {
        let _ = rt.eprintln(FaultLine(status));
    }
    ExitCode::from(number)
}

// Says on standard error how many events didn't fit and were dropped, where any was.
fn say_dropped<R: Eprint>(rt: &R, dropped: u64) {
    if dropped != 0 {
        let _ = rt.eprintln(DroppedLine(dropped));
    }
}

// How many bytes the block has that is taken and given back first.
const BLOCK: usize = 1_048_576;

// Has the C library keep what is given back for later. It gives memory back to the system by blocks and by what lies free
// at the heap's end, both from 128 KiB on until a larger block was given back, and from that one's size and twice that
// from then on. Where threads run that takes some ten microseconds each time.
fn keep_memory(alloc: Global) {
    drop(Vec::<u8>::with_capacity(alloc, BLOCK));
}

// What starts threads for one connection, and for each of as many loops as there may be.
const STARTERS: u32 = 17;

// Runs the host by the words in this world: all that `run` promises, of the world that the program has. So what is promised
// of a trace that is told holds of each run of the program, whatever it answers: what the world was given back is what it
// had and behind it one trace for each loop, the list of what each call to sockets, pipes, programs and clock returned or
// was asked for and did.
fn run_in<
    R: Net
        + Threads
        + Sync
        + Processes<Started = SystemProcess>
        + Wait
        + Clock
        + Eprint
        + Copy
        + Drop
        + Send
        + 'static,
    T: StartThread + Drop + Send + 'static,
    K: Sink + Drop + Send + 'static,
    L: Ledger + Send + Sync,
    D: DocStore + Drop + Send,
    F: SiteStore,
    S: Sink,
>(
    rt: &R,
    alloc: Global,
    words: &[String],
    store: &mut F,
    report: &mut S,
    world: &mut TellingWorld<R, T, K, L, D>,
) -> Status
    ensures usage { (result ≡ Status.Usage) ↔ (form_of words.now ≡ None) }
    ensures site { SitesBy (F.stored store.old) (form_of words.now) result }
    ensures gives { GivesAt (F.stored store.old) (form_of words.now) result (Some world.old.given) (Some world.new.given) }
    ensures entered { EntersAt (F.stored store.old) (form_of words.now) result (Some world.old.entries) (Some world.new.entries) }
    ensures out { world.new.inner.inner.world.out ≡ world.old.inner.inner.world.out }
    ensures report { ReportsBy (F.stored store.old) (form_of words.now) result (S.written report.old) (S.written report.new) }
    ensures explains { ExplainsAt (F.stored store.old) (form_of words.now) result (Some world.old.given) (Some world.new.given) (S.written report.old) (S.written report.new) }
    ensures unread { result ≡ Status.SiteUnread → Rose (F.faults store.old) (F.faults store.new) }
    ensures failed { result ≡ Status.WorldRefused → Rose world.old.inner.inner.world.faults world.new.inner.inner.world.faults }
    ensures fault { result ≡ Status.ReportFault → Rose (S.faults report.old) (S.faults report.new) }
    ensures order { InOrder result store.old store.new world.old world.new report.old report.new }
    ensures no_store { reads_store (form_of words.now) ≡ false → store.new ≡ store.old }
    ensures no_world { enters_world (form_of words.now) ≡ false → world.new ≡ world.old }
    ensures no_report { writes_report (form_of words.now) ≡ false → report.new ≡ report.old }
{
    run(rt, alloc, words, store, report, world)
}

// Makes the world of these devices, runs the host by the words in it, and says how many events were dropped.
fn run_with<
    R: Net
        + Threads
        + Sync
        + Processes<Started = SystemProcess>
        + Wait
        + Clock
        + Eprint
        + Copy
        + Drop
        + Send
        + 'static,
    T: StartThread + Drop + Send + 'static,
    K: Sink + Drop + Send + 'static,
    L: Ledger + Send + Sync,
    D: DocStore + Drop + Send,
    F: SiteStore,
    S: Sink,
>(
    rt: &R,
    alloc: Global,
    words: &[String],
    store: &mut F,
    report: &mut S,
    devices: Devices<T, K>,
    docs: D,
    blank: Blank,
) -> Status
    requires name { blank.name ≡ L.name }
    requires parts { blank.parts ≡ L.parts }
    requires sixteen { blank.parts ≡ 16 }
{
    match telling_world::<R, T, K, L, D>(*rt, alloc, devices, docs, blank) {
        Ok(mut world) => {
            let status = run_in(rt, alloc, words, store, report, &mut world);
            say_dropped(rt, world.dropped());
            drop(world.into_world().into_world());
            status
        }
        Err(status) => status,
    }
}

// Whether help is asked for: by the one word, or behind a command.
fn asks_help(words: &[String]) -> bool {
    match words {
        [] => false,
        [word] if word.as_str() == "help" || word.as_str() == "-h" => true,
        [_, rest @ ..] => rest
            .iter()
            .any(|word| word.as_str() == "--help" || word.as_str() == "-h"),
    }
}

// The words of the command that gives help, where it is asked for, or those.
fn or_help(alloc: Global, words: Vec<String>) -> Result<Vec<String>, Status> {
    if !asks_help(words.as_slice()) {
        return Ok(words);
    }
    let mut help = Vec::new(alloc);
    let Ok(word) = "--help".to_string(alloc) else {
        return Err(Status::NoMemory);
    };
    match help.push(word) {
        Ok(()) => Ok(help),
        Err(_) => Err(Status::NoMemory),
    }
}

// Whether a site is to be checked.
fn asks_check(words: &[String]) -> bool {
    match words {
        [word, ..] => word.as_str() == "check",
        [] => false,
    }
}

// Opens the log, where there is to be one.
fn open_log<R: Files<File = File> + Eprint + Copy + Drop>(
    rt: R,
    alloc: Global,
    file: Option<String>,
) -> Result<Option<OpenedLog<R>>, Status> {
    let Some(name) = file else {
        return Ok(None);
    };
    match OpenedLog::open(rt, alloc, name) {
        Ok(opened) => Ok(Some(opened)),
        Err(LogFault::Failed) => Err(Status::WorldRefused),
        Err(LogFault::NoMemory) => Err(Status::NoMemory),
    }
}

fn main(rt: HostRuntime) -> ExitCode {
    open_closed(&rt);
    let alloc = rt.alloc();
    keep_memory(alloc);
    let words = match words(&rt) {
        Ok(words) => words,
        Err(status) => return end(&rt, &status),
    };
    let words = match or_help(alloc, words) {
        Ok(words) => words,
        Err(status) => return end(&rt, &status),
    };
    let LogWords { file, words } = match take_log(words) {
        Ok(taken) => taken,
        Err(_) => return end(&rt, &Status::Usage),
    };
    let (log, lines) = match open_log(rt, alloc, file) {
        Ok(None) => (None, LogLines::none(alloc)),
        Ok(Some(OpenedLog { log, lines, writer })) => {
            if thread::spawn(&rt, move || writer.run()).is_err() {
                return end(&rt, &Status::WorldRefused);
            }
            (Some(log), lines)
        }
        Err(status) => return end(&rt, &status),
    };
    let mut starters = Vec::new(alloc);
    for _ in 0..STARTERS {
        let start: Box<dyn Fn(Station<PumpJob>) -> Option<PipeWaker> + Send> = match Box::new(
            alloc,
            move |station: Station<PumpJob>| PumpJob::start_thread(&rt, station),
        ) {
            Ok(start) => start,
            Err(_) => return end(&rt, &Status::NoMemory),
        };
        if starters.push(ThreadStarter::new(start)).is_err() {
            return end(&rt, &Status::NoMemory);
        }
    }
    let LogLines { queues, anew } = lines;
    let devices = Devices {
        starters,
        input: rt.stdin(),
        output: StdSink::new(rt),
        orders: rt.stdin(),
        anew,
        queues,
    };
    let checks = asks_check(words.as_slice());
    let mut store = FileStore::new(rt, alloc, checks);
    let mut report = StdSink::new(rt);
    let status = run_with::<_, _, _, Brand, _, _, _>(
        &rt,
        alloc,
        words.as_slice(),
        &mut store,
        &mut report,
        devices,
        FileDocs::new(rt, alloc),
        Blank::new(16),
    );
    if let Some(log) = log {
        log.finish(&rt);
    }
    if checks && number_of(&status) == 0 {
        say_listening(&rt, alloc, store.kept());
    }
    end(&rt, &status)
}
