// What no clause says: the tables of causes and limits against the texts that they come from, edge cases of
// the helpers, and that each call that takes memory can succeed.
use super::super::tables::{is, push_field, text_of};
use super::cases::are_right;
use host_base::*;
use std::alloc::Global;
use std::process::Abort;
use std::test::Fail;

// A cause, its status code, its text, and the length of the reply's body, which ends with a line feed.
type CauseRow = (Cause, u16, &'static str, usize);

static REQUEST_CAUSES: [CauseRow; 19] = [
    (Cause::BadHead, 400, "bad request head", 17),
    (Cause::Incomplete, 400, "request ended early", 20),
    (Cause::BadTarget, 400, "bad target", 11),
    (Cause::BadHost, 400, "bad host", 9),
    (Cause::BadFraming, 400, "bad body framing", 17),
    (Cause::BadChunk, 400, "bad chunk", 10),
    (Cause::BadPath, 400, "bad path", 9),
    (Cause::BadHandshake, 400, "bad websocket handshake", 24),
    (Cause::OriginRefused, 403, "origin refused", 15),
    (Cause::NoScript, 404, "no script for this path", 24),
    (Cause::IdleTime, 408, "request took too long", 22),
    (Cause::BodyTooLong, 413, "request body too large", 23),
    (Cause::TargetTooLong, 414, "target too long", 16),
    (Cause::BadExpect, 417, "expectation not met", 20),
    (
        Cause::UpgradeNeeded,
        426,
        "websocket version 13 required",
        30,
    ),
    (Cause::HeadTooLong, 431, "request head too large", 23),
    (Cause::TooManyFields, 431, "too many header fields", 23),
    (Cause::NotServed, 501, "method or target not served", 28),
    (Cause::CodingUnknown, 501, "transfer coding not served", 27),
];

static SCRIPT_CAUSES: [CauseRow; 14] = [
    (Cause::RedirectLoop, 500, "too many local redirects", 25),
    (Cause::StartFailed, 502, "script could not be started", 28),
    (Cause::OutputBroken, 502, "script output broken", 21),
    (Cause::OutputTooLarge, 502, "script output too large", 24),
    (Cause::NoOutput, 502, "script gave no output", 22),
    (Cause::HeaderIncomplete, 502, "script header incomplete", 25),
    (Cause::HeaderTooLarge, 502, "script header too large", 24),
    (Cause::HeaderLine, 502, "script header line refused", 27),
    (
        Cause::HeaderRepeated,
        502,
        "script header field repeated",
        29,
    ),
    (Cause::BadStatus, 502, "script status refused", 22),
    (Cause::BadLocation, 502, "script location refused", 24),
    (
        Cause::NoneOfThree,
        502,
        "script sent no type, status or location",
        40,
    ),
    // The number seen follows, here of two digits.
    (Cause::Full { seen: 64 }, 503, "children running: ", 19),
    (Cause::RunTime, 504, "script took too long", 21),
];

fn is_cause((cause, status, text, length): &CauseRow) -> bool {
    cause.status() == *status
        && is(cause.text().as_bytes(), text.as_bytes())
        && cause.text().len().saturating_add(1) == *length
}

#[test]
fn causes(rt: HostRuntime) {
    are_right(&rt, &REQUEST_CAUSES, is_cause);
    are_right(&rt, &SCRIPT_CAUSES, is_cause);
}

// Two words, and whether they are the same.
static WORDS: [(&str, &str, bool); 12] = [
    ("", "", true),
    ("Host", "hOST", true),
    ("host", "hosts", false),
    ("hosts", "host", false),
    ("AZ", "az", true),
    ("[", "{", false),
    ("@", "`", false),
    ("\\", "|", false),
    ("_", "\u{7f}", false),
    ("X-A", "x-a", true),
    ("X_A", "x-a", false),
    ("\u{c4}", "\u{e4}", false),
];

fn is_word((one, other, same): &(&str, &str, bool)) -> bool {
    is_same_word(one.as_bytes(), other.as_bytes()) == *same
}

#[test]
fn words_without_case(rt: HostRuntime) {
    are_right(&rt, &WORDS, is_word);
}

// Text, and what is left of it without blanks at its ends. A line end is no blank.
static TRIMMED: [(&str, &str); 10] = [
    ("", ""),
    (" ", ""),
    ("\t \t", ""),
    ("a", "a"),
    ("\ta\t", "a"),
    (" \t a b\t c \t ", "a b\t c"),
    ("a \r", "a \r"),
    ("\n a", "\n a"),
    ("\u{b}a\u{c}", "\u{b}a\u{c}"),
    ("\u{a0}a", "\u{a0}a"),
];

fn is_trimmed((text, rest): &(&str, &str)) -> bool {
    is(trim(text.as_bytes()), rest.as_bytes())
}

#[test]
fn blanks(rt: HostRuntime) {
    are_right(&rt, &TRIMMED, is_trimmed);
}

// A comma list, a word, and whether the list has it (RFC 9110 5.6.1).
static LISTED: [(&str, &str, bool); 16] = [
    ("close", "CLOSE", true),
    ("keep-alive, Upgrade", "upgrade", true),
    ("keep-alive,Upgrade", "keep-alive", true),
    ("a\t,\tb", "b", true),
    (",, ,close, ,", "close", true),
    ("", "", false),
    (" ", "", false),
    (",", "", false),
    ("a,,b", "", false),
    ("a, b", "a, b", false),
    ("closed", "close", false),
    ("clos", "close", false),
    ("not close", "close", false),
    ("a;close", "close", false),
    ("a,[", "{", false),
    ("a,b,c,d", "d", true),
];

fn is_listed((list, word, has): &(&str, &str, bool)) -> bool {
    has_comma_word(list.as_bytes(), word.as_bytes()) == *has
}

#[test]
fn comma_lists(rt: HostRuntime) {
    are_right(&rt, &LISTED, is_listed);
}

// A byte, its value as a decimal digit, and as a hex digit: each end of a range and its neighbour outside.
static DIGITS: [(u8, Option<u8>, Option<u8>); 14] = [
    (b'/', None, None),
    (b'0', Some(0), Some(0)),
    (b'9', Some(9), Some(9)),
    (b':', None, None),
    (b'@', None, None),
    (b'A', None, Some(10)),
    (b'F', None, Some(15)),
    (b'G', None, None),
    (b'`', None, None),
    (b'a', None, Some(10)),
    (b'f', None, Some(15)),
    (b'g', None, None),
    (0, None, None),
    (255, None, None),
];

fn is_digit((byte, decimal, hex): &(u8, Option<u8>, Option<u8>)) -> bool {
    decimal_digit(*byte) == *decimal && hex_digit(*byte) == *hex
}

#[test]
fn digits(rt: HostRuntime) {
    are_right(&rt, &DIGITS, is_digit);
}

fn fields(alloc: Global, lines: &[(&str, &str)]) -> Result<Fields, NoMemory> {
    let mut fields = Fields::new(alloc);
    for (name, value) in lines {
        push_field(alloc, &mut fields, name.as_bytes(), value.as_bytes())?;
    }
    Ok(fields)
}

static LINES: [(&str, &str); 6] = [
    ("Host", "a"),
    ("Connection", "keep-alive, , close"),
    ("host", "b"),
    ("Upgrade", "websocket"),
    ("CONNECTION", "\tUpgrade\t,x"),
    ("Connection", ""),
];

// A name, and how many of the lines have it.
static COUNTED: [(&str, usize); 6] = [
    ("hOsT", 2),
    ("connection", 3),
    ("Upgrade", 1),
    ("Hos", 0),
    ("Hosts", 0),
    ("", 0),
];

fn has_lines<R: Abort>(rt: &R, fields: &Fields, case: &(&str, usize)) {
    let (name, count) = case;
    assert!(rt; fields.count_named(name.as_bytes()) == *count, "{case:?}");
}

#[test]
fn lines_of_a_name(rt: HostRuntime) -> Result<(), Fail> {
    let fields = fields(rt.alloc(), &LINES)?;
    for case in &COUNTED {
        has_lines(&rt, &fields, case);
    }
    Ok(())
}

// A name, a word, and whether the list of the field has it.
static FIELD_WORDS: [(&str, &str, bool); 8] = [
    ("connection", "KEEP-ALIVE", true),
    ("connection", "close", true),
    ("connection", "upgrade", true),
    ("connection", "X", true),
    ("connection", "websocket", false),
    ("connection", "", false),
    ("upgrade", "WebSocket", true),
    ("te", "websocket", false),
];

fn has_list_word<R: Abort>(rt: &R, fields: &Fields, case: &(&str, &str, bool)) {
    let (name, word, has) = case;
    assert!(rt;
        fields.has_word(name.as_bytes(), word.as_bytes()) == *has,
        "{case:?}"
    );
}

#[test]
fn words_of_a_field(rt: HostRuntime) -> Result<(), Fail> {
    let fields = fields(rt.alloc(), &LINES)?;
    for case in &FIELD_WORDS {
        has_list_word(&rt, &fields, case);
    }
    Ok(())
}

// Bytes that were made in each way, one after the other.
fn grown(alloc: Global) -> Result<Bytes, NoMemory> {
    let mut bytes = Bytes::with_capacity(alloc, 2)?;
    bytes.push(b'a')?;
    bytes.extend_from_slice(b"bc")?;
    bytes.extend_from_slice(b"")?;
    bytes.push(b'd')?;
    Ok(bytes)
}

fn has_four(bytes: &Bytes) -> bool {
    bytes.len() == 4 && !bytes.is_empty() && is(bytes.as_slice(), b"abcd")
}

fn are_bytes_kept(alloc: Global) -> Result<bool, NoMemory> {
    let bytes = grown(alloc)?;
    let copy = bytes.clone()?;
    let back = Bytes::from_vec(bytes.into_vec());
    Ok(has_four(&copy) && has_four(&back))
}

#[test]
fn bytes_there_and_back(rt: HostRuntime) -> Result<(), Fail> {
    assert!(rt; are_bytes_kept(rt.alloc())?);
    assert!(rt; Bytes::new(rt.alloc()).is_empty());
    Ok(())
}

fn texts(alloc: Global) -> Result<Texts, NoMemory> {
    let mut texts = Texts::with_capacity(alloc, 1)?;
    texts.push(text_of(alloc, "-v")?)?;
    texts.push(text_of(alloc, "")?)?;
    Ok(texts)
}

fn has_six_bytes(text: &Text) -> bool {
    is(text.as_bytes(), "d\u{e9}j\u{e0}".as_bytes())
        && text.len() == 6
        && text.as_bytes().len() == 6
}

fn is_text_kept(alloc: Global) -> Result<bool, NoMemory> {
    let text = Text::from_string("d\u{e9}j\u{e0}".to_string(alloc)?);
    Ok(has_six_bytes(&text) && is(text.into_string().as_bytes(), "d\u{e9}j\u{e0}".as_bytes()))
}

fn is_last_empty(alloc: Global) -> Result<bool, NoMemory> {
    match texts(alloc)?.into_vec().pop() {
        Some(last) => Ok(last.is_empty()),
        None => Ok(false),
    }
}

#[test]
fn texts_there_and_back(rt: HostRuntime) -> Result<(), Fail> {
    assert!(rt; is_text_kept(rt.alloc())?);
    assert!(rt; is_last_empty(rt.alloc())?);
    Ok(())
}

fn pair(alloc: Global, name: &str, value: &str) -> Result<Pair, NoMemory> {
    let name = text_of(alloc, name)?;
    let value = text_of(alloc, value)?;
    Ok(Pair { name, value })
}

fn pairs(alloc: Global) -> Result<Pairs, NoMemory> {
    let mut env = Pairs::new(alloc);
    env.push(pair(alloc, "QUERY_STRING", "")?)?;
    Ok(env)
}

fn launch(alloc: Global) -> Result<Launch, NoMemory> {
    let program = text_of(alloc, "/srv/cgi/hello")?;
    let dir = text_of(alloc, "/srv/cgi")?;
    let args = texts(alloc)?;
    let env = pairs(alloc)?;
    Ok(Launch {
        program,
        dir,
        args,
        env,
    })
}

fn is_hello(launch: &Launch) -> bool {
    is(launch.program.as_bytes(), b"/srv/cgi/hello")
        && is(launch.dir.as_bytes(), b"/srv/cgi")
        && launch.args.len() == 2
}

fn has_a_query(env: Pairs) -> bool {
    match env.into_vec().pop() {
        Some(last) => is(last.name.as_bytes(), b"QUERY_STRING"),
        None => false,
    }
}

fn is_launch_copied(alloc: Global) -> Result<bool, NoMemory> {
    let launch = launch(alloc)?.copy()?;
    Ok(is_hello(&launch) && has_a_query(launch.env))
}

#[test]
fn launches(rt: HostRuntime) -> Result<(), Fail> {
    assert!(rt; is_launch_copied(rt.alloc())?);
    Ok(())
}

#[test]
fn limits_of_a_site_that_names_none(rt: HostRuntime) {
    let limits = Limits::default();
    let bytes = [
        limits.head,
        limits.target,
        limits.body,
        limits.output,
        limits.ws_text,
    ];
    assert_eq!(rt; bytes, [16_384, 8_000, 1_048_576, 16_777_216, 65_536]);
    let ticks = [limits.run_ticks, limits.idle_ticks, limits.linger_ticks];
    assert_eq!(rt; ticks, [300, 150, 20]);
    let counts = [limits.redirects, limits.connections, limits.children];
    assert_eq!(rt; counts, [10, 256, 64]);
}

#[test]
fn want_of_memory(rt: HostRuntime) {
    assert_eq!(rt; Refusal::from(NoMemory), Refusal::NoMemory);
}
