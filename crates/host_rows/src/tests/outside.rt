// Runs of an outside in memory.
use super::drive::Heard::{
    Accepted, Broken as ChildBroken, ClientFill as ClientBytes, Exited, Gone as ClientGone,
    InputGone, OutputFill as ChildBytes, StartFailed, StartFull, Started, Stop, Tick, Took, Wrote,
    WsBad, WsFill as WsText,
};
use super::drive::{Heard, events_of, outside_of, outside_with};
use super::words::Asked::{
    CloseWs, EndInput, Feed, Kill, Release, Says, Shut, Start, Upgrade, WantChild, WantClient,
    Write,
};
use super::words::{Asked, answers_all, hears_all};
use host_base::NoMemory;
use host_trace::Acted;
use memory_world::MemoryOutside;
use std::alloc::Global;
use std::test::Fail;

// How many children may run.
const LIMIT: u32 = 2;

fn has_items(out: &MemoryOutside, count: usize) -> bool {
    out.items().len() == count
}

// Two that don't fit among those that do.
const LIST: [Heard<'static>; 7] = [
    Accepted,
    ClientBytes(1, 1),
    ClientBytes(0, 3),
    Started(0),
    Accepted,
    Tick,
    ClientGone(1),
];

const HANDED_UP: [Heard<'static>; 5] = [ClientBytes(0, 3), Accepted, Tick, ClientGone(1), Stop];

// Whether all is so in a run of nine items: seven events, of which the last two come when the list is used up, and two
// acts.
fn runs(alloc: Global, out: &mut MemoryOutside) -> bool {
    hears_all(alloc, out, &[Accepted])
        && answers_all(alloc, out, &[WantClient(0), Write(0, 2)], Acted::Done)
        && hears_all(alloc, out, &HANDED_UP)
        && hears_all(alloc, out, &[Tick])
}

// Whether an outside of so much room tells before the run, and so after it.
fn tells_after(alloc: Global, room: usize, tells: bool) -> Result<bool, NoMemory> {
    let mut out = outside_of(alloc, &LIST, room, LIMIT)?;
    Ok(out.tells() && runs(alloc, &mut out) && out.tells() == tells && has_items(&out, 9))
}

#[test]
fn past_its_room_the_telling_alone_ends(rt: HostRuntime) -> Result<(), Fail> {
    for (room, tells) in [(9, true), (100, true), (8, false), (1, false), (0, false)] {
        assert!(rt; tells_after(rt.alloc(), room, tells)?, "room for {room}");
    }
    Ok(())
}

// Whether each Start is answered, and a later one too.
fn answers_starts(alloc: Global, out: &mut MemoryOutside) -> bool {
    let starts = [Start(3), Start(1), Start(0), Start(2)];
    hears_all(alloc, out, &[Accepted])
        && answers_all(alloc, out, &starts, Acted::Done)
        && hears_all(
            alloc,
            out,
            &[StartFailed(1), Stop, Started(0), Started(2), Started(3)],
        )
        && hears_all(alloc, out, &[Exited(0), Exited(2), Exited(3), Tick, Tick])
        && answers_all(alloc, out, &[Start(4)], Acted::Done)
        && hears_all(alloc, out, &[Started(4), Exited(4), Tick])
}

#[test]
fn a_list_that_is_used_up(rt: HostRuntime) -> Result<(), Fail> {
    let mut out = outside_of(rt.alloc(), &[Accepted, StartFailed(1)], 100, LIMIT)?;
    let right = answers_starts(rt.alloc(), &mut out) && out.tells();
    assert!(rt; right);
    Ok(())
}

fn hears_once(alloc: Global, out: &mut MemoryOutside) -> bool {
    hears_all(alloc, out, &[Accepted])
        && answers_all(alloc, out, &[Start(0), Start(1)], Acted::Done)
        && hears_all(
            alloc,
            out,
            &[Stop, Started(0), Exited(0), Started(1), Exited(1), Tick],
        )
}

#[test]
fn what_was_listed_comes_no_second_time(rt: HostRuntime) -> Result<(), Fail> {
    let mut out = outside_of(
        rt.alloc(),
        &[Accepted, Stop, Started(0), Exited(0)],
        100,
        LIMIT,
    )?;
    assert!(rt; hears_once(rt.alloc(), &mut out));
    Ok(())
}

const LIGHT: [Asked; 7] = [
    WantClient(0),
    Shut(0),
    EndInput(0),
    WantChild(0),
    Kill(0),
    Release(0),
    CloseWs(0),
];

const HEAVY: [Asked; 5] = [Write(0, 1), Start(0), Feed(0, 1), Upgrade(0), Says(0, 1)];

// Whether the first twelve acts, and the fifteenth, find no room where they carry anything.
fn finds_no_room(alloc: Global, out: &mut MemoryOutside) -> bool {
    answers_all(alloc, out, &LIGHT, Acted::Done)
        && answers_all(alloc, out, &HEAVY, Acted::NoRoom)
        && has_items(out, 7)
        && answers_all(alloc, out, &[Write(0, 1), WantClient(0)], Acted::Done)
        && answers_all(alloc, out, &[Write(0, 1)], Acted::NoRoom)
        && answers_all(alloc, out, &HEAVY, Acted::Done)
        && has_items(out, 14)
}

#[test]
fn acts_that_find_no_room(rt: HostRuntime) -> Result<(), Fail> {
    let alloc = rt.alloc();
    // The first twelve acts, and the fifteenth.
    let refused = vec![in alloc; 14, 11, 10, 9, 8, 7, 6, 5, 4, 3, 2, 1, 0]?;
    let mut out = outside_with(alloc, events_of(alloc, &[])?, refused, 100, LIMIT)?;
    let right = finds_no_room(alloc, &mut out) && out.tells();
    assert!(rt; right);
    Ok(())
}

// None of them fits an empty trace.
const WILD: [Heard<'static>; 14] = [
    ClientBytes(7, 0),
    ClientGone(0),
    Wrote(0, 5),
    Started(3),
    StartFailed(3),
    StartFull(3, 9),
    ChildBytes(0, 65_537),
    ChildBroken(0),
    Took(0, 0),
    InputGone(0),
    Exited(0),
    WsText(0, 1),
    WsBad(0),
    Started(3),
];

fn hands_up_all(alloc: Global, out: &mut MemoryOutside) -> bool {
    hears_all(alloc, out, &WILD)
        && answers_all(alloc, out, &[Write(9, 1)], Acted::Done)
        && answers_all(alloc, out, &[Write(9, 1)], Acted::NoRoom)
        && answers_all(alloc, out, &[Shut(9)], Acted::Done)
}

#[test]
fn the_wild_hands_up_everything(rt: HostRuntime) -> Result<(), Fail> {
    let alloc = rt.alloc();
    let mut out = MemoryOutside::wild(alloc, events_of(alloc, &WILD)?, vec![in alloc; 1]?, 2)?;
    let right = hands_up_all(alloc, &mut out) && !out.tells();
    assert!(rt; right);
    Ok(())
}
