// Events that don't fit, handed up by an outside that hands up everything: nothing is done in their steps, and
// all goes on as if they had not come.
ghost use Rattle.std.specs.Prelude.{◌≡◌};
ghost use Rattle.host_base.specs.SiteRules.{IsServed};

use super::drive::SITE;
use super::lines::{lines_of, push_event};
use super::play::Play;
use super::script::{begins, behind, cut, is, lines_in, named_rows, size_of};
use host_base::{NoMemory, Site};
use host_loop::LoopEnd;
use host_serve::serve_all;
use host_trace::Item;
use memory_world::MemoryOutside;
use site_file::read_site;
use std::alloc::Global;
use std::process::Abort;
use std::test::Fail;
use std::thread::Threads;

// Runs of beats, of which the last is that in which all is over. Behind each stand, after `! `, after how many beats an event is
// heard that doesn't fit there, and the event.
const RUNS: &str = r"
== one that is served
Accepted
    WantClient 0
Client 0 $REQUEST
    $START
Started 0
    EndInput 0
    WantChild 0
Output 0 $OUTPUT
    WantChild 0
OutputEof 0
    $WRITE_REPLY
    Shut 0 Done
Exited 0
Stop
! 0 Client 0 x
! 0 ClientEof 0
! 0 Gone 0
! 0 NoRoom 0
! 0 Wrote 0 1
! 0 Started 0
! 0 StartFailed 0
! 0 StartFull 0 64
! 0 Output 0 x
! 0 OutputEof 0
! 0 Broken 0
! 0 Took 0 1
! 0 InputGone 0
! 0 Exited 0
! 0 WsText 0 x
! 0 WsBinary 0
! 0 WsClosed 0
! 0 WsBad 0
! 0 TickAt 253402300800
! 1 Client 0
! 1 ClientFill 0 65537
! 1 Client 1 x
! 1 Client 18446744073709551615 x
! 1 ClientEof 1
! 1 Gone 1
! 1 NoRoom 1
! 1 Wrote 0 0
! 1 Wrote 0 1
! 1 Started 0
! 1 StartFailed 0
! 1 StartFull 0 64
! 1 Output 0 x
! 1 OutputEof 0
! 1 Broken 0
! 1 Took 0 1
! 1 InputGone 0
! 1 Exited 0
! 1 WsText 0 x
! 1 WsBinary 0
! 1 WsClosed 0
! 1 WsBad 0
! 1 TickAt 18446744073709551615
! 2 Client 0 x
! 2 ClientEof 0
! 2 Gone 1
! 2 Wrote 0 1
! 2 Started 1
! 2 StartFailed 1
! 2 StartFull 0 63
! 2 StartFull 0 65
! 2 StartFull 1 64
! 2 Output 0 x
! 2 OutputEof 0
! 2 Broken 0
! 2 Took 0 1
! 2 InputGone 0
! 2 Exited 0
! 3 Client 0 x
! 3 Wrote 0 1
! 3 Started 0
! 3 StartFailed 0
! 3 StartFull 0 64
! 3 Output 0
! 3 OutputFill 0 65537
! 3 Output 1 x
! 3 OutputEof 1
! 3 Broken 1
! 3 Took 0 0
! 3 Took 0 1
! 3 InputGone 0
! 3 Exited 1
! 4 Started 0
! 4 Output 0
! 4 InputGone 0
! 5 Client 0 x
! 5 ClientEof 0
! 5 Gone 0
! 5 NoRoom 0
! 5 Wrote 0 1
! 5 WsText 0 x
! 5 Output 0 x
! 5 OutputEof 0
! 5 Broken 0
! 5 Took 0 1
! 6 Exited 0
! 6 Output 0 x
! 6 Gone 0
== one whose child is killed
Accepted
    WantClient 0
Client 0 $REQUEST
    $START
Started 0
    EndInput 0
    WantChild 0
Stop
    Kill 0
    Shut 0 Stopped
Exited 0
    Release 0
! 4 Stop
! 4 Accepted
! 4 Client 0 x
! 4 Gone 0
! 4 NoRoom 0
! 4 Started 0
! 4 InputGone 0
! 4 Exited 1
== one whose child starts after Stop
Accepted
    WantClient 0
Client 0 $REQUEST
    $START
Stop
    Shut 0 Stopped
Started 0
    EndInput 0
    Kill 0
Exited 0
    Release 0
! 3 Stop
! 3 Accepted
! 3 StartFull 0 63
! 3 OutputEof 0
! 3 Exited 0
! 4 Output 0 x
! 4 OutputEof 0
! 4 Broken 0
== one whose Start finds no room
Accepted
    WantClient 0
Client 0 $REQUEST
    no room
    Shut 0 NoMemory
Stop
! 2 Started 0
! 2 StartFailed 0
! 2 StartFull 0 64
! 2 Client 0 x
! 2 Gone 0
! 2 NoRoom 0
! 2 Exited 0
== one whose output is given up
Accepted
    WantClient 0
Client 0 $REQUEST
    $START
Started 0
    EndInput 0
    WantChild 0
Gone 0
    Kill 0
    Shut 0 Gone
Exited 0
    Release 0
Ticks 2
Stop
! 5 Output 0 x
! 5 OutputEof 0
! 5 Broken 0
! 5 Exited 0
! 5 Took 0 1
== two connections
Accepted
    WantClient 0
Accepted
    WantClient 1
Client 1 GET /none HTTP/1.1\r\nHost: a\r\n\r\n
    Write 1: HTTP/1.1 404 Not Found\r\nContent-Type: text/plain\r\nContent-Length: 24\r\n\r\nno script for this path\n
    WantClient 1
ClientEof 0
    Shut 0 Done
Stop
    Shut 1 Stopped
! 1 Client 1 x
! 2 Client 2 x
! 2 ClientEof 2
! 3 Wrote 1 97
! 3 Wrote 0 1
! 3 Wrote 2 1
! 4 ClientEof 0
! 4 Wrote 0 1
== one that speaks WebSocket
Accepted
    WantClient 0
Client 0 $HANDSHAKE
    $SWITCHED
    $UPGRADED
    $START_LINES
Started 0
    WantChild 0
    WantClient 0
WsText 0 a
    Feed 0: a\n
Took 0 2
    WantClient 0
WsText 0
    Feed 0: \n
Took 0 1
    WantClient 0
WsText 0 b\nc
    Feed 0: b\nc\n
Took 0 4
    WantClient 0
Output 0 x\r\n\ny
    Says 0: x; ;\x20
    WantChild 0
OutputEof 0
    Says 0: y;\x20
    CloseWs 0: 1000
    EndInput 0
    Shut 0 Done
Exited 0
Stop
! 2 Client 0 x
! 2 ClientEof 0
! 2 Wrote 0 1
! 2 WsText 0 x
! 2 WsBinary 0
! 2 WsClosed 0
! 2 WsBad 0
! 3 Client 0 x
! 3 ClientEof 0
! 3 Wrote 0 1
! 3 WsText 1 x
! 3 WsClosed 1
! 3 Took 0 1
! 4 WsText 0 x
! 4 WsBinary 0
! 4 WsClosed 0
! 4 WsBad 0
! 4 Took 0 3
! 5 Took 0 1
! 10 Wrote 0 2
! 11 WsText 0 x
! 11 WsBinary 0
! 11 WsClosed 0
! 11 WsBad 0
! 11 Wrote 0 1
! 11 Gone 0
! 11 NoRoom 0
";

// The beats, and after so many of them the other event, which nothing follows.
fn put_in(play: &mut Play, beats: &str, misfit: &str) -> Result<(), NoMemory> {
    let (at, event) = cut(misfit, " ");
    play.front(RUNS, beats, size_of(at))?;
    play.hear_line(RUNS, event)?;
    play.back(RUNS, beats, size_of(at))
}

fn are_lines(alloc: Global, items: &[Item], wanted: &str) -> Result<bool, NoMemory> {
    let lines = lines_of(alloc, items)?;
    Ok(is(lines.as_str(), wanted))
}

fn items_in(outs: &[MemoryOutside]) -> &[Item] {
    match outs {
        [out] => out.items(),
        _ => &[],
    }
}

// Whether an outside that hands up all of this is served.
fn serves<R: Threads + Sync>(rt: &R, site: &Site, play: Play) -> Result<bool, NoMemory>
    requires { IsServed site.now }
{
    let (alloc, events, refused, lines) = play.into_parts();
    let out = MemoryOutside::wild(alloc, events, refused, site.limits.children)?;
    let mut outs = vec![in alloc; out]?;
    let end = serve_all(rt, alloc, site, &mut outs, 1 << 32);
    let told = are_lines(alloc, items_in(outs.as_slice()), lines.as_str())?;
    Ok(told && end == LoopEnd::Done)
}

// The lines of a run that are beats.
fn beats_of(alloc: Global, run: &str) -> Result<String, NoMemory> {
    let mut beats = String::new(alloc);
    let lines = lines_in(alloc, run)?;
    for line in lines.as_slice() {
        if !begins(*line, "! ") {
            push_event(&mut beats, *line)?;
        }
    }
    Ok(beats)
}

// Whether nothing is done for a misfit among the beats.
fn passes_by<R: Threads + Sync>(
    rt: &R,
    alloc: Global,
    site: &Site,
    beats: &str,
    misfit: &str,
) -> Result<bool, NoMemory>
    requires { IsServed site.now }
{
    let mut play = Play::new(alloc);
    put_in(&mut play, beats, misfit)?;
    serves(rt, site, play)
}

// .. for any of those in these lines; how many they are.
fn passes_by_all<R: Threads + Abort + Sync>(
    rt: &R,
    alloc: Global,
    site: &Site,
    beats: &str,
    run: &str,
) -> Result<usize, Fail>
    requires { IsServed site.now }
{
    let mut count: usize = 0;
    let lines = lines_in(alloc, run)?;
    for line in lines.as_slice() {
        if let Some(misfit) = behind(*line, "! ") {
            assert!(rt; passes_by(rt, alloc, site, beats, misfit)?, "{misfit}");
            count = count.saturating_add(1);
        }
    }
    Ok(count)
}

// .. for any of a run.
fn passes<R: Threads + Abort + Sync>(
    rt: &R,
    alloc: Global,
    site: &Site,
    row: &str,
) -> Result<usize, Fail>
    requires { IsServed site.now }
{
    let (_, run) = cut(row, "\n");
    let beats = beats_of(alloc, run)?;
    passes_by_all(rt, alloc, site, beats.as_str(), run)
}

fn pass<R: Threads + Abort + Sync>(rt: &R, alloc: Global, site: &Site) -> Result<(), Fail>
    requires { IsServed site.now }
{
    let runs = named_rows(alloc, RUNS)?;
    let mut misfits: usize = 0;
    for row in runs.as_slice() {
        misfits = misfits.saturating_add(passes(rt, alloc, site, *row)?);
    }
    assert_eq!(rt; runs.len(), 7);
    assert_eq!(rt; misfits, 150);
    Ok(())
}

#[test]
fn events_that_do_not_fit(rt: HostRuntime) -> Result<(), Fail> {
    match read_site(rt.alloc(), SITE.as_bytes()) {
        Ok(site) => pass(&rt, rt.alloc(), &site),
        Err(fault) => panic!(rt; "{fault:?}"),
    }
}
