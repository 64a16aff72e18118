use super::acts::act_of;
use super::events;
use super::pipes::all_or_none;
use super::ports::{Client, Ending, FakePorts, Room};
use host_base::NoMemory;
use host_trace::Event;
use socket_set::{Polled, Ports, SocketSet};
use std::alloc::Global;
use std::test::Fail;

// What was told, by a letter.
fn letter(polled: &Polled) -> u8 {
    match polled {
        Polled::Nothing => b'-',
        Polled::Again => b'+',
        Polled::Told(event) => letter_of_client(event),
    }
}

// What an event is, by a letter.
fn letter_of_client(event: &Event) -> u8 {
    match events::letter(event) {
        b'a' => b'A',
        b'.' => b't',
        b'c' => b'b',
        b'f' => b'e',
        letter @ (b'g' | b'w' | b'm') => letter,
        _ => b'?',
    }
}

// Asks the set at each `p`, waits at `z`, ends listening at `e` and else does an act; what was told at each ask.
fn told_in<P: Ports + Drop>(
    alloc: Global,
    set: &mut SocketSet<P>,
    script: &[u8],
) -> Result<Vec<u8>, NoMemory> {
    let mut told = Vec::new(alloc);
    for step in script {
        match *step {
            b'p' => told.push(letter(&set.poll()))?,
            b'z' => set.wait(1_000),
            b'e' => set.end_listening(),
            other => {
                let act = act_of(alloc, other, 0, 0)?;
                set.act(&act);
            }
        }
    }
    Ok(told)
}

/// What a client does.
#[derive(Clone, Copy)]
struct Plan {
    bytes: &'static [u8],
    ending: Ending,
    room: Room,
    /// So many of it come, one after the other.
    clients: u32,
    /// So many asks for it fail first, and so does each wait.
    accepts_fail: u32,
    waits_fail: bool,
}

impl Plan {
    fn ports(self, alloc: Global) -> FakePorts {
        let client = Client {
            bytes: self.bytes,
            ending: self.ending,
            room: self.room,
        };
        FakePorts::new(
            alloc,
            client,
            self.clients,
            self.accepts_fail,
            all_or_none(self.waits_fail),
        )
    }
}

const PLAIN: Plan = Plan {
    bytes: b"x",
    ending: Ending::Nothing,
    room: Room::All,
    clients: 1,
    accepts_fail: 0,
    waits_fail: false,
};

// A masked text frame, `Hello`.
const HELLO: &[u8] = &[
    0x81, 0x85, 0x37, 0xfa, 0x21, 0x3d, 0x7f, 0x9f, 0x4d, 0x51, 0x58,
];

// What a set over these ports tells, and how often something failed.
fn run<P: Ports + Drop>(
    alloc: Global,
    ports: P,
    script: &[u8],
) -> Result<(Vec<u8>, u64), NoMemory> {
    let mut set = SocketSet::new(alloc, ports, 4)?;
    let told = told_in(alloc, &mut set, script)?;
    Ok((told, set.faults()))
}

/// What the client does, what is asked for, what is told, how often something failed.
type Row = (Plan, &'static [u8], &'static [u8], u64);

// What the first row that isn't so wants to be told.
fn wrong_row(alloc: Global, rows: &[Row]) -> Result<Option<&'static [u8]>, NoMemory> {
    for (plan, script, wanted, faults) in rows {
        let (told, count) = run(alloc, plan.ports(alloc), script)?;
        if told.as_slice() != *wanted || count != *faults {
            return Ok(Some(*wanted));
        }
    }
    Ok(None)
}

#[test]
fn what_comes_is_told_once(rt: HostRuntime) -> Result<(), Fail> {
    let rows: [Row; 6] = [
        (PLAIN, b"ppwpwpp", b"A-b--", 0),
        (
            Plan {
                ending: Ending::End,
                ..PLAIN
            },
            b"pwpwpp",
            b"Abe-",
            0,
        ),
        (
            Plan {
                bytes: b"",
                ending: Ending::Failed,
                ..PLAIN
            },
            b"pwpp",
            b"Ag-",
            1,
        ),
        (PLAIN, b"pWpp", b"Aw-", 0),
        (
            Plan {
                room: Room::None,
                ..PLAIN
            },
            b"pWpwpp",
            b"A-b-",
            0,
        ),
        (
            Plan {
                room: Room::Failed,
                ..PLAIN
            },
            b"pWpp",
            b"Ag-",
            1,
        ),
    ];
    assert_eq!(rt; wrong_row(rt.alloc(), &rows)?, None);
    Ok(())
}

#[test]
fn ends_ticks_and_failures_are_told(rt: HostRuntime) -> Result<(), Fail> {
    let rows: [Row; 7] = [
        (PLAIN, b"pWspwp", b"A--", 0),
        (
            Plan {
                bytes: HELLO,
                ..PLAIN
            },
            b"pUwpppwpp",
            // What is read is told at once where it makes a message; behind the last there may be another.
            b"Am--+-",
            0,
        ),
        (PLAIN, b"pzppzppzp", b"A--t-t", 0),
        // Two ticks are owed: between them a client is heard, and the second comes once some time has passed.
        (PLAIN, b"ppzzwpppzp", b"A-tb+t", 0),
        (
            Plan {
                accepts_fail: 1,
                ..PLAIN
            },
            b"ppzpp",
            b"--tA",
            1,
        ),
        (
            Plan {
                waits_fail: true,
                ..PLAIN
            },
            b"pp",
            b"A-",
            2,
        ),
        (PLAIN, b"epzp", b"-t", 0),
    ];
    assert_eq!(rt; wrong_row(rt.alloc(), &rows)?, None);
    Ok(())
}

#[test]
fn who_waits_for_a_slot_comes_once_one_is_free_and_else_after_two_ticks(
    rt: HostRuntime,
) -> Result<(), Fail> {
    let alloc = rt.alloc();
    let plan = Plan {
        bytes: b"",
        ending: Ending::End,
        clients: 2,
        ..PLAIN
    };
    let mut set = SocketSet::new(alloc, plan.ports(alloc), 1)?;
    // Once the first is shut its slot is free for the next.
    let told = told_in(alloc, &mut set, b"ppspp")?;
    assert_eq!(rt; told.as_slice(), b"A-A-".as_slice());
    let mut set = SocketSet::new(alloc, plan.ports(alloc), 1)?;
    let told = told_in(alloc, &mut set, b"ppzppzpp")?;
    assert_eq!(rt; told.as_slice(), b"A-t-tA".as_slice());
    Ok(())
}
