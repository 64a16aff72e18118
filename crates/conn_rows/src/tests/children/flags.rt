use conn_flags::Flags;
use host_trace::Event;

// What is told of connection 1.
#[derive(Clone, Copy)]
enum Told {
    Ask,
    Write(u64),
    Say(u64),
    Upgrade,
    Shut,
    Eof(u64),
    Gone(u64),
    WsBad(u64),
    NoRoom(u64),
    Wrote(u64, u64),
    Stop,
    Tick,
}

use Told::*;

fn event_of(told: Told) -> Event {
    match told {
        Eof(c) => Event::ClientEof { c },
        Gone(c) => Event::ClientGone { c },
        WsBad(c) => Event::WsBad { c },
        NoRoom(c) => Event::NoRoom { c },
        Wrote(c, n) => Event::Wrote { c, n },
        Stop => Event::Stop,
        _ => Event::Tick { secs: 0 },
    }
}

fn tell(flags: &mut Flags, told: Told) {
    match told {
        Ask => flags.ask(),
        Shut => flags.shut(),
        Upgrade => flags.upgrade(),
        Write(len) if flags.can_count(len) => flags.write(len),
        Say(len) if flags.can_count(len) => flags.say(len),
        _ => flags.hear(&event_of(told)),
    }
}

// Asked, the client ended, gone, no memory found, stopped, shut, and room to send.
type Tells = (bool, bool, bool, bool, bool, bool, bool);

fn tells(told: &[Told]) -> Tells {
    let mut flags = Flags::new(1);
    for t in told.iter() {
        tell(&mut flags, *t);
    }
    (
        flags.is_asked(),
        flags.has_ended(),
        flags.is_gone(),
        flags.has_no_room(),
        flags.is_stopped(),
        flags.is_shut(),
        flags.has_room(),
    )
}

const Y: bool = true;

const N: bool = false;

const CLIENT: [(&[Told], Tells); 8] = [
    (&[], (N, N, N, N, N, N, Y)),
    (&[Ask, Tick], (Y, N, N, N, N, N, Y)),
    (&[Ask, Eof(2)], (Y, N, N, N, N, N, Y)),
    (&[Ask, Eof(1)], (N, Y, N, N, N, N, Y)),
    (&[Gone(2), Gone(1)], (N, N, Y, N, N, N, Y)),
    (&[Ask, WsBad(1)], (N, N, Y, N, N, N, Y)),
    (&[NoRoom(1)], (N, N, N, Y, N, N, Y)),
    (&[NoRoom(0), Stop, Shut], (N, N, N, N, Y, Y, Y)),
];

// 262,144 bytes may wait, and what has left or was written before an upgrade counts no more.
const SENT: [(&[Told], Tells); 8] = [
    (&[Write(262_144)], (N, N, N, N, N, N, Y)),
    (&[Write(262_144), Write(1)], (N, N, N, N, N, N, N)),
    (
        &[Write(262_144), Write(1), Wrote(1, 1)],
        (N, N, N, N, N, N, Y),
    ),
    (
        &[Write(262_144), Write(1), Wrote(2, 1)],
        (N, N, N, N, N, N, N),
    ),
    (&[Write(262_145), Shut], (N, N, N, N, N, Y, Y)),
    (&[Write(262_145), Upgrade], (N, N, N, N, N, N, Y)),
    (
        &[Upgrade, Write(262_145), Say(262_144)],
        (N, N, N, N, N, N, Y),
    ),
    (&[Upgrade, Say(262_145)], (N, N, N, N, N, N, N)),
];

// 344,064 bytes wait to be sent at most: whether so many more find a place.
const PLACES: [(&[Told], u64, bool); 8] = [
    (&[], 344_064, Y),
    (&[], 344_065, N),
    (&[], 18_446_744_073_709_551_615, N),
    (&[Write(262_144)], 81_920, Y),
    (&[Write(262_144)], 81_921, N),
    (&[Write(262_144), Wrote(1, 1)], 81_921, Y),
    (&[Write(344_064)], 0, Y),
    (&[Write(344_064)], 1, N),
];

#[test]
fn what_is_written_finds_a_place(rt: HostRuntime) {
    for row in PLACES.iter() {
        let mut flags = Flags::new(1);
        for t in row.0.iter() {
            tell(&mut flags, *t);
        }
        assert_eq!(rt; flags.has_place(row.1), row.2);
    }
}

#[test]
fn flags_are_what_was_told(rt: HostRuntime) {
    for row in CLIENT.iter() {
        assert_eq!(rt; tells(row.0), row.1);
    }
}

#[test]
fn what_waits_to_be_sent_is_counted(rt: HostRuntime) {
    for row in SENT.iter() {
        assert_eq!(rt; tells(row.0), row.1);
    }
}
