// Frames of a client, and what a server makes of them (RFC 6455 5 to 7).
use super::super::tables::{is, push, repeated};
use super::cases::are_right_in;
use host_base::{Bytes, NoMemory};
use std::alloc::Global;
use std::test::Fail;
use ws_link::{Link, Linked, Said};

// The masking key of the examples in RFC 6455 5.7.
const KEY: [u8; 4] = [0x37, 0xfa, 0x21, 0x3d];

fn push_length(bytes: &mut Vec<u8>, len: usize) -> Result<(), NoMemory> {
    if len < 126 {
        bytes.push(0x80 | (len as u8))?;
    } else if len < 65_536 {
        bytes.push(0xfe)?;
        push(bytes, &(len as u16).to_be_bytes())?;
    } else {
        bytes.push(0xff)?;
        push(bytes, &(len as u64).to_be_bytes())?;
    }
    Ok(())
}

// A masked frame: its first byte, and its payload.
fn push_frame(bytes: &mut Vec<u8>, first: u8, payload: &[u8]) -> Result<(), NoMemory> {
    bytes.push(first)?;
    push_length(bytes, payload.len())?;
    push(bytes, &KEY)?;
    push_masked(bytes, payload)
}

fn push_masked(bytes: &mut Vec<u8>, payload: &[u8]) -> Result<(), NoMemory> {
    let mut place: usize = 0;
    for byte in payload {
        bytes.push(*byte ^ KEY[place % 4])?;
        place = place.wrapping_add(1);
    }
    Ok(())
}

type Frame<'a> = (u8, &'a [u8]);

fn frames(alloc: Global, frames: &[Frame]) -> Result<Vec<u8>, NoMemory> {
    let mut bytes = Vec::new(alloc);
    for (first, payload) in frames {
        push_frame(&mut bytes, *first, payload)?;
    }
    Ok(bytes)
}

// What a link gave: each text and a `|`, `#` for a binary message, `.` for the close and `!` for what was
// refused; and what it sent.
#[derive(Drop)]
struct Log {
    words: Vec<u8>,
    sent: Vec<u8>,
    over: bool,
}

impl Log {
    fn new(alloc: Global) -> Self {
        Log {
            words: Vec::new(alloc),
            sent: Vec::new(alloc),
            over: false,
        }
    }

    // Adds what a link gave, and says whether it may give more.
    fn takes(&mut self, linked: &Linked) -> Result<bool, NoMemory> {
        match linked {
            Linked::Text(text) => self.adds(text.as_slice(), b'|'),
            Linked::Binary => self.adds(b"", b'#'),
            Linked::Closed => self.ends(b'.'),
            Linked::Bad => self.ends(b'!'),
            Linked::NotYet => Ok(false),
            Linked::NoMemory => Err(NoMemory),
        }
    }

    fn adds(&mut self, text: &[u8], mark: u8) -> Result<bool, NoMemory> {
        push(&mut self.words, text)?;
        self.words.push(mark)?;
        Ok(true)
    }

    fn ends(&mut self, mark: u8) -> Result<bool, NoMemory> {
        self.words.push(mark)?;
        self.over = true;
        Ok(false)
    }

    fn add_sent(&mut self, bytes: &[u8]) -> Result<(), NoMemory> {
        push(&mut self.sent, bytes)
    }
}

fn new_link(alloc: Global, rest: &[u8]) -> Result<Link, NoMemory> {
    Link::new(alloc, rest)
}

fn next(link: &mut Link) -> Linked {
    link.next()
}

fn take_out(link: &mut Link) -> Bytes {
    link.take_out()
}

fn feed(link: &mut Link, piece: &[u8]) -> Result<(), NoMemory> {
    link.feed(piece)
}

// Reads up to so many messages.
fn hear(link: &mut Link, log: &mut Log) -> Result<(), NoMemory> {
    for _ in 0..64 {
        if !log.takes(&next(link))? {
            return Ok(());
        }
    }
    Ok(())
}

fn step(link: &mut Link, log: &mut Log) -> Result<(), NoMemory> {
    if log.over {
        return Ok(());
    }
    hear(link, log)?;
    log.add_sent(take_out(link).as_slice())
}

fn step_on(link: &mut Link, log: &mut Log, bytes: &[u8], size: usize) -> Result<(), NoMemory> {
    step(link, log)?;
    for piece in bytes.chunks(size.max(1)) {
        feed(link, piece)?;
        step(link, log)?;
    }
    Ok(())
}

// The first bytes come with the handshake, the others in pieces of `size`.
fn push_log(
    alloc: Global,
    log: &mut Log,
    bytes: &[u8],
    cut: usize,
    size: usize,
) -> Result<(), NoMemory> {
    let (rest, more) = bytes.split_at(cut.min(bytes.len()));
    let mut link = new_link(alloc, rest)?;
    step_on(&mut link, log, more, size)
}

fn log_of(alloc: Global, bytes: &[u8], cut: usize, size: usize) -> Result<Log, NoMemory> {
    let mut log = Log::new(alloc);
    push_log(alloc, &mut log, bytes, cut, size)?;
    Ok(log)
}

fn is_cut_heard(
    alloc: Global,
    bytes: &[u8],
    (cut, size): (usize, usize),
    words: &[u8],
    sent: &[u8],
) -> Result<bool, NoMemory> {
    let log = log_of(alloc, bytes, cut, size)?;
    Ok(is(log.words.as_slice(), words) && is(log.sent.as_slice(), sent))
}

// Whether bytes give these words and are answered so, wherever they are cut.
fn is_heard(alloc: Global, bytes: &[u8], words: &[u8], sent: &[u8]) -> Result<bool, NoMemory> {
    for cut in 0..bytes.len().min(200) + 1 {
        if !is_heard_at(alloc, bytes, cut, words, sent)? {
            return Ok(false);
        }
    }
    Ok(true)
}

fn is_heard_at(
    alloc: Global,
    bytes: &[u8],
    cut: usize,
    words: &[u8],
    sent: &[u8],
) -> Result<bool, NoMemory> {
    Ok(
        is_cut_heard(alloc, bytes, (cut, bytes.len()), words, sent)?
            && is_cut_heard(alloc, bytes, (cut, 1), words, sent)?,
    )
}

// Whether this and no more is to be sent.
fn sends(link: &mut Link, due: &[u8]) -> bool {
    gives_out(link, due) && gives_out(link, b"")
}

fn gives_out(link: &mut Link, due: &[u8]) -> bool {
    is(take_out(link).as_slice(), due)
}

fn says(link: &mut Link, text: &str, said: Said) -> bool {
    link.say(text) == said
}

fn closes(link: &mut Link, code: u16, said: Said) -> bool {
    link.close(code) == said
}

fn sends_hello(alloc: Global) -> Result<bool, NoMemory> {
    let mut link = new_link(alloc, b"")?;
    Ok(says(&mut link, "Hello", Said::Done) && sends(&mut link, b"\x81\x05Hello"))
}

// What a client sends, the words that it gives, and what is sent.
type Heard = (&'static [u8], &'static [u8], &'static [u8]);

static EXAMPLES: [Heard; 3] = [
    (
        b"\x81\x85\x37\xfa\x21\x3d\x7f\x9f\x4d\x51\x58",
        b"Hello|",
        b"",
    ),
    (
        b"\x89\x85\x37\xfa\x21\x3d\x7f\x9f\x4d\x51\x58",
        b"",
        b"\x8a\x05Hello",
    ),
    // An unmasked frame must be refused (RFC 6455 5.1).
    (b"\x81\x05Hello", b"!", b""),
];

fn is_example(alloc: Global, (bytes, words, sent): &Heard) -> Result<bool, NoMemory> {
    is_heard(alloc, bytes, words, sent)
}

// The examples of RFC 6455 5.7, as a client sends them and as a server does.
#[test]
fn examples_of_the_standard(rt: HostRuntime) -> Result<(), Fail> {
    are_right_in(&rt, rt.alloc(), &EXAMPLES, is_example)?;
    assert!(rt; sends_hello(rt.alloc())?);
    Ok(())
}

const LONG: [u8; 126] = [b'a'; 126];

const MOST: [u8; 125] = [b'a'; 125];

// Masked frames, the words that they give, and what is sent.
type Taken = (&'static [Frame<'static>], &'static [u8], &'static [u8]);

static TAKEN: [Taken; 15] = [
    (
        &[(0x81, b"a"), (0x81, b""), (0x81, b"b\nc")],
        b"a||b\nc|",
        b"",
    ),
    (&[(0x82, b"\xff"), (0x81, b"a")], b"#a|", b""),
    // Fragments, with pings and pongs between them (RFC 6455 5.4).
    (&[(0x01, b"Hel"), (0x80, b"lo")], b"Hello|", b""),
    (
        &[
            (0x01, b"H"),
            (0x89, b"x"),
            (0x00, b"e"),
            (0x8a, b"y"),
            (0x89, b""),
            (0x80, b"y"),
        ],
        b"Hey|",
        b"\x8a\x01x\x8a\x00",
    ),
    (&[(0x01, b""), (0x00, b""), (0x80, b"")], b"|", b""),
    (&[(0x02, b"a"), (0x80, b"b")], b"#", b""),
    // A character in three frames.
    (
        &[(0x01, b"\xe2"), (0x00, b"\x82"), (0x80, b"\xac")],
        b"\xe2\x82\xac|",
        b"",
    ),
    (&[(0x8a, b"unasked")], b"", b""),
    // The close is answered with its code (RFC 6455 5.5.1).
    (
        &[(0x88, b"\x03\xe8"), (0x81, b"late")],
        b".",
        b"\x88\x02\x03\xe8",
    ),
    (&[(0x88, b"")], b".", b"\x88\x00"),
    (
        &[(0x81, b"a"), (0x88, b"\x03\xe9bye")],
        b"a|.",
        b"\x88\x05\x03\xe9bye",
    ),
    (
        &[(0x01, b"a"), (0x88, b"\x0b\xb8")],
        b".",
        b"\x88\x02\x0b\xb8",
    ),
    // Codes that may not be sent are answered with 1002 (RFC 6455 7.4).
    (
        &[(0x88, b"\x03\xed")],
        b".",
        b"\x88\x14\x03\xeaProtocol violation",
    ),
    (
        &[(0x88, b"\x03\xee")],
        b".",
        b"\x88\x14\x03\xeaProtocol violation",
    ),
    (
        &[(0x88, b"\x03\xe7")],
        b".",
        b"\x88\x14\x03\xeaProtocol violation",
    ),
];

// Whether frames give these words and are answered so.
fn are_heard(alloc: Global, list: &[Frame], words: &[u8], sent: &[u8]) -> Result<bool, NoMemory> {
    let bytes = frames(alloc, list)?;
    is_heard(alloc, bytes.as_slice(), words, sent)
}

fn is_taken(alloc: Global, (list, words, sent): &Taken) -> Result<bool, NoMemory> {
    are_heard(alloc, list, words, sent)
}

#[test]
fn frames_are_taken(rt: HostRuntime) -> Result<(), Fail> {
    are_right_in(&rt, rt.alloc(), &TAKEN, is_taken)
}

fn is_longest_ping_answered(alloc: Global) -> Result<bool, NoMemory> {
    let most = frames(alloc, &[(0x89, &MOST)])?;
    let log = log_of(alloc, most.as_slice(), 0, 1)?;
    Ok(log.words.is_empty() && log.sent.len() == 127)
}

fn push_pings(bytes: &mut Vec<u8>) -> Result<(), NoMemory> {
    for _ in 0..1_000 {
        push_frame(bytes, 0x89, b"x")?;
    }
    Ok(())
}

// What is sent to a peer that only pings has fewer bytes than what came.
fn are_pings_answered(alloc: Global) -> Result<bool, NoMemory> {
    let mut pings = Vec::new(alloc);
    push_pings(&mut pings)?;
    let log = log_of(alloc, pings.as_slice(), 0, 7_000)?;
    Ok(pings.len() == 7_000 && log.sent.len() == 3_000)
}

#[test]
fn pings_are_answered(rt: HostRuntime) -> Result<(), Fail> {
    assert!(rt; is_longest_ping_answered(rt.alloc())?);
    assert!(rt; are_pings_answered(rt.alloc())?);
    Ok(())
}

// Masked frames that must be refused after what they give.
type Refused = (&'static [Frame<'static>], &'static [u8]);

static REFUSED: [Refused; 25] = [
    // Reserved bits (RFC 6455 5.2).
    (&[(0xc1, b"a")], b"!"),
    (&[(0xa1, b"a")], b"!"),
    (&[(0x91, b"a")], b"!"),
    // Reserved codes.
    (&[(0x83, b"")], b"!"),
    (&[(0x84, b"")], b"!"),
    (&[(0x85, b"")], b"!"),
    (&[(0x86, b"")], b"!"),
    (&[(0x87, b"")], b"!"),
    (&[(0x8b, b"")], b"!"),
    (&[(0x8c, b"")], b"!"),
    (&[(0x8d, b"")], b"!"),
    (&[(0x8e, b"")], b"!"),
    (&[(0x81, b"a"), (0x8f, b"")], b"a|!"),
    // Control frames of 126 bytes and in fragments (RFC 6455 5.5).
    (&[(0x89, &LONG)], b"!"),
    (&[(0x8a, &LONG)], b"!"),
    (&[(0x88, &LONG)], b"!"),
    (&[(0x09, b"")], b"!"),
    (&[(0x08, b"")], b"!"),
    // A continuation of nothing, and a message within another (RFC 6455 5.4).
    (&[(0x80, b"a")], b"!"),
    (&[(0x81, b"a"), (0x00, b"b")], b"a|!"),
    (&[(0x01, b"a"), (0x81, b"b")], b"!"),
    // Texts and reasons that are no UTF-8 (RFC 6455 5.6 and 8.1).
    (&[(0x81, b"\xff")], b"!"),
    (&[(0x01, b"\xe2\x82"), (0x80, b"")], b"!"),
    (&[(0x88, b"\x03\xe8\xff")], b"!"),
    (&[(0x88, b"\x03")], b"!"),
];

fn is_refused(alloc: Global, (list, words): &Refused) -> Result<bool, NoMemory> {
    are_heard(alloc, list, words, b"")
}

#[test]
fn frames_are_refused(rt: HostRuntime) -> Result<(), Fail> {
    are_right_in(&rt, rt.alloc(), &REFUSED, is_refused)
}

// The fronts of a frame of 2 MiB and one byte, and of one whose length has its first bit set.
static LONG_FRONTS: [Heard; 2] = [
    (
        b"\x81\xff\x00\x00\x00\x00\x00\x20\x00\x01\x37\xfa\x21\x3d",
        b"!",
        b"",
    ),
    (
        b"\x81\xff\x80\x00\x00\x00\x00\x00\x00\x00\x37\xfa\x21\x3d",
        b"!",
        b"",
    ),
];

#[test]
fn long_frames_are_refused(rt: HostRuntime) -> Result<(), Fail> {
    are_right_in(&rt, rt.alloc(), &LONG_FRONTS, is_example)
}

fn word_count(alloc: Global, bytes: &[u8], size: usize) -> Result<usize, NoMemory> {
    let log = log_of(alloc, bytes, 0, size)?;
    Ok(log.words.len())
}

// Whether a message of 2 MiB in one frame is given however its bytes come.
fn is_given_whole(alloc: Global, message: &[u8]) -> Result<bool, NoMemory> {
    let whole = frames(alloc, &[(0x81, message)])?;
    for size in [1_000, 65_536, 4_194_304] {
        if word_count(alloc, whole.as_slice(), size)? != 2_097_153 {
            return Ok(false);
        }
    }
    Ok(true)
}

// Whether one byte more in a second frame is refused.
fn is_bounded(alloc: Global, message: &[u8]) -> Result<bool, NoMemory> {
    let parts = frames(alloc, &[(0x01, message), (0x80, b"a")])?;
    let log = log_of(alloc, parts.as_slice(), 0, 65_536)?;
    Ok(is(log.words.as_slice(), b"!"))
}

fn are_bounded(alloc: Global) -> Result<bool, NoMemory> {
    let most = repeated(alloc, b"", b"aaaaaaaaaaaaaaaa", 131_072, b"")?;
    let most = most.as_slice();
    Ok(is_given_whole(alloc, most)? && is_bounded(alloc, most)?)
}

#[test]
fn large_messages_are_bounded(rt: HostRuntime) -> Result<(), Fail> {
    assert!(rt; are_bounded(rt.alloc())?);
    Ok(())
}

// Codes of a close, and how they are taken.
static CODES: [(u16, Said); 9] = [
    (1_000, Said::Done),
    (1_003, Said::Done),
    (1_009, Said::Done),
    (1_011, Said::Done),
    (4_999, Said::Done),
    (1_005, Said::Refused),
    (1_006, Said::Refused),
    (1_015, Said::Refused),
    (999, Said::Refused),
];

fn push_close(due: &mut Vec<u8>, code: u16) -> Result<(), NoMemory> {
    let [high, low] = code.to_be_bytes();
    push(due, &[0x88, 2, high, low])
}

// A text, an empty one, and the close where it is taken.
fn due_of(alloc: Global, code: u16, said: Said) -> Result<Vec<u8>, NoMemory> {
    let mut due = [0x81, 3, 0xe2, 0x82, 0xac, 0x81, 0].to_vec(alloc)?;
    if said == Said::Done {
        push_close(&mut due, code)?;
    }
    Ok(due)
}

// Whether two texts and a close are taken so. Nothing is said behind a close (RFC 6455 5.5.1).
fn takes(link: &mut Link, code: u16, said: Said) -> bool {
    let texts = says(link, "\u{20ac}", Said::Done) && says(link, "", Said::Done);
    texts && closes(link, code, said) && (said != Said::Done || says(link, "a", Said::Refused))
}

fn is_closed_so(alloc: Global, (code, said): &(u16, Said)) -> Result<bool, NoMemory> {
    let due = due_of(alloc, *code, *said)?;
    let mut link = new_link(alloc, b"")?;
    Ok(takes(&mut link, *code, *said) && sends(&mut link, due.as_slice()))
}

#[test]
fn texts_and_closes_are_sent(rt: HostRuntime) -> Result<(), Fail> {
    are_right_in(&rt, rt.alloc(), &CODES, is_closed_so)
}
