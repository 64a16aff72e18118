ghost use Rattle.std.specs.Prelude.{◌≡◌};

mod late;
mod maker;

use super::acts::{act_of, site};
use super::events;
use super::events::number;
use super::kids::Start;
use super::ports::Ending;
use child_book::{Blank, Ledger};
use child_edge::Spawner;
use edge_loop::{Maker, NetOutside, NetWorld, Order, Orders};
use host_base::{NoMemory, Site};
use host_trace::Event;
use maker::{FakeMaker, Plan};
use socket_set::Ports;
use std::alloc::Global;
use std::marker::Brand;
use std::sync::Wait;
use std::test::Fail;

// What an event is, by a letter.
fn letter(event: &Event) -> u8 {
    match events::letter(event) {
        b'u' => b'f',
        b'f' => b'o',
        b'i' | b'm' | b'x' => b'?',
        other => other,
    }
}

// The acts that answer an event: a child is started for each client, whose number it has, and once it has exited, or
// was not started, the client is written to and shut. Where that is gone the child is killed and given up.
fn answer(letter: u8) -> &'static [u8] {
    match letter {
        b'a' => b"w",
        b'c' => b"Sw",
        b's' => b"FEc",
        b'b' => b"c",
        b'd' | b'q' | b'f' => b"h",
        b'g' => b"KRs",
        b'w' => b"s",
        _ => b"",
    }
}

// Does the acts on child n and on connection n that these letters stand for.
fn do_all<P: Ports + Drop, S: Spawner + Drop, O: Orders + Drop, L: Ledger, R: Wait + Copy + Drop>(
    alloc: Global,
    out: &mut NetOutside<P, S, O, L, R>,
    letters: &[u8],
    n: u64,
) -> Result<(), NoMemory> {
    for letter in letters {
        let act = act_of(alloc, *letter, n, n)?;
        out.do_act(&act);
    }
    Ok(())
}

// The next event, by its letter, after which is done what answers it.
fn step<P: Ports + Drop, S: Spawner + Drop, O: Orders + Drop, L: Ledger, R: Wait + Copy + Drop>(
    alloc: Global,
    out: &mut NetOutside<P, S, O, L, R>,
    clients: &mut Clients,
) -> Result<u8, NoMemory> {
    let event = out.next_event();
    let letter = letter(&event);
    do_all(alloc, out, answer(letter), clients.number(letter, &event))?;
    Ok(letter)
}

// So many events, by letters.
fn tell<P: Ports + Drop, S: Spawner + Drop, O: Orders + Drop, L: Ledger, R: Wait + Copy + Drop>(
    alloc: Global,
    out: &mut NetOutside<P, S, O, L, R>,
    events: u32,
) -> Result<Vec<u8>, NoMemory> {
    let mut told = Vec::new(alloc);
    let mut clients = Clients(0);
    for _ in 0..events {
        told.push(step(alloc, out, &mut clients)?)?;
    }
    Ok(told)
}

/// So many clients came.
#[derive(Clone, Copy)]
struct Clients(u64);

impl Clients {
    // The number of the client or the child that an event is of. One that comes has the next.
    fn number(&mut self, letter: u8, event: &Event) -> u64 {
        if letter != b'a' {
            return number(event);
        }
        let next = self.0;
        self.0 = next.saturating_add(1);
        next
    }
}

/// What one loop told, how often anything failed, and how many children the book counts once it is taken back.
#[derive(Drop)]
struct Ran {
    told: Vec<u8>,
    faults: u64,
    left: u32,
}

// What a loop told, and how often anything failed.
fn tell_with_faults<
    P: Ports + Drop,
    S: Spawner + Drop,
    O: Orders + Drop,
    L: Ledger,
    R: Wait + Copy + Drop,
>(
    alloc: Global,
    out: &mut NetOutside<P, S, O, L, R>,
    events: u32,
) -> Result<(Vec<u8>, u64), NoMemory> {
    let told = tell(alloc, out, events)?;
    Ok((told, out.faults()))
}

// So of the one loop of a world.
fn tell_in<M: Maker + Drop, L: Ledger, R: Wait + Copy + Drop>(
    alloc: Global,
    world: &mut NetWorld<M, L, R>,
    site: &Site,
    events: u32,
) -> Result<(Vec<u8>, u64), NoMemory> {
    let Ok(outs) = world.enter(site, 1) else {
        return Err(NoMemory);
    };
    let mut outs = outs;
    let mut told = Ok((Vec::new(alloc), 0));
    if let Some(out) = outs.first_mut() {
        told = tell_with_faults(alloc, out, events);
    }
    world.leave(outs);
    told
}

fn run_loop<M: Maker + Drop, L: Ledger, R: Wait + Copy + Drop>(
    rt: R,
    alloc: Global,
    blank: Blank,
    maker: M,
    events: u32,
) -> Result<Ran, NoMemory>
    requires name { blank.name ≡ L.name }
    requires parts { blank.parts ≡ L.parts }
    requires some { blank.parts ≡ 16 }
{
    let mut world = NetWorld::<M, L, R>::new(rt, alloc, maker, blank);
    let (told, faults) = tell_in(alloc, &mut world, &site(alloc, 1)?, events)?;
    let left = world.running();
    Ok(Ran { told, faults, left })
}

const PLAIN: Plan = Plan {
    clients: 1,
    accepts_fail: false,
    waits_fail: 0,
    start: Start::Good,
    starts_after: 0,
    exits_after: 2,
    order: None,
    at: 0,
    ending: Ending::Nothing,
};

/// What the devices do, how many events are heard, which those are, how often anything failed.
type Row = (Plan, u32, &'static [u8], u64);

// Which events the first row that isn't so wants.
fn check_rows<R: Wait + Copy + Drop>(
    rt: R,
    alloc: Global,
    rows: &[Row],
) -> Result<Option<&'static [u8]>, NoMemory> {
    for (plan, events, wanted, faults) in rows {
        let maker = FakeMaker::new(rt, alloc, *plan, 1);
        let ran = run_loop::<_, Brand, _>(rt, alloc, Blank::new(16), maker, *events)?;
        if ran.told.as_slice() != *wanted || ran.faults != *faults || ran.left != 0 {
            return Ok(Some(*wanted));
        }
    }
    Ok(None)
}

#[test]
fn a_loop_tells_what_is_due(rt: HostRuntime) -> Result<(), Fail> {
    let rows: [Row; 6] = [
        (PLAIN, 12, b"acstbedw....", 0),
        (
            Plan {
                clients: 2,
                ..PLAIN
            },
            16,
            b"aacstbedcstbedww",
            0,
        ),
        (
            Plan {
                start: Start::Refused,
                ..PLAIN
            },
            6,
            b"acqw..",
            1,
        ),
        // While the one child that may run goes on, no other is started.
        (
            Plan {
                clients: 2,
                exits_after: 1_000,
                ..PLAIN
            },
            12,
            b"aacstbecfw..",
            0,
        ),
        // A wait that fails is passed over.
        (
            Plan {
                waits_fail: 1,
                ..PLAIN
            },
            5,
            b"acstb",
            1,
        ),
        // A client that can't be taken is tried again at each tick.
        (
            Plan {
                accepts_fail: true,
                ..PLAIN
            },
            5,
            b".....",
            5,
        ),
    ];
    assert_eq!(rt; check_rows(rt, rt.alloc(), &rows)?, None);
    Ok(())
}

#[test]
fn a_loop_ends_as_it_is_told(rt: HostRuntime) -> Result<(), Fail> {
    let rows: [Row; 4] = [
        // Stop comes once, before all else that is waited for.
        (
            Plan {
                order: Some(Order::Stop),
                at: 3,
                ..PLAIN
            },
            12,
            b"acsztbedw...",
            0,
        ),
        // A quiet end waits for a child that runs and for what is to be written.
        (
            Plan {
                order: Some(Order::Drain),
                at: 3,
                ..PLAIN
            },
            12,
            b"acstbedwz...",
            0,
        ),
        // Nobody is accepted once it was ordered.
        (
            Plan {
                order: Some(Order::Drain),
                ..PLAIN
            },
            4,
            b"z...",
            0,
        ),
        (
            Plan {
                clients: 0,
                ..PLAIN
            },
            3,
            b"...",
            0,
        ),
    ];
    assert_eq!(rt; check_rows(rt, rt.alloc(), &rows)?, None);
    Ok(())
}

// Whether so many loops can be entered, which are left at once.
fn enters<M: Maker + Drop, L: Ledger, R: Wait + Copy + Drop>(
    world: &mut NetWorld<M, L, R>,
    site: &Site,
    loops: u32,
) -> bool
    ensures { world.new.out ≡ world.old.out }
{
    match world.enter(site, loops) {
        Ok(outs) => {
            world.leave(outs);
            true
        }
        Err(_) => false,
    }
}

// Whether loops can be entered beside ten others of a site: 7, 6, and one of another site.
fn enter_beside_ten<M: Maker + Drop, L: Ledger, R: Wait + Copy + Drop>(
    world: &mut NetWorld<M, L, R>,
    one: &Site,
    other: &Site,
) -> Result<(bool, bool, bool), NoMemory> {
    let Ok(ten) = world.enter(one, 10) else {
        return Err(NoMemory);
    };
    let seven = enters(world, one, 7);
    let six = enters(world, one, 6);
    let others = enters(world, other, 1);
    world.leave(ten);
    Ok((seven, six, others))
}

// So, and then alone 17, and 16.
fn enter_some<M: Maker + Drop, L: Ledger, R: Wait + Copy + Drop>(
    rt: R,
    alloc: Global,
    blank: Blank,
    maker: M,
) -> Result<[bool; 5], NoMemory>
    requires name { blank.name ≡ L.name }
    requires parts { blank.parts ≡ L.parts }
    requires some { blank.parts ≡ 16 }
{
    let one = site(alloc, 1)?;
    let other = site(alloc, 2)?;
    let mut world = NetWorld::<M, L, R>::new(rt, alloc, maker, blank);
    let (seven, six, others) = enter_beside_ten(&mut world, &one, &other)?;
    let seventeen = enters(&mut world, &one, 17);
    let sixteen = enters(&mut world, &one, 16);
    Ok([seven, six, others, seventeen, sixteen])
}

#[test]
fn loops_are_parts_of_one_ledger(rt: HostRuntime) -> Result<(), Fail> {
    let alloc = rt.alloc();
    // (how many loops can be made, which are entered)
    let rows = [
        (99, [false, true, false, false, true]),
        (16, [false, true, false, false, false]),
    ];
    for (made, wanted) in rows {
        let maker = FakeMaker::new(rt, alloc, PLAIN, made);
        let entered = enter_some::<_, Brand, _>(rt, alloc, Blank::new(16), maker)?;
        assert_eq!(rt; entered, wanted);
    }
    Ok(())
}
