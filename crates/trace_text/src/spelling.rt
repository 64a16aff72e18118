// The line of an item.
ghost use Rattle.std.specs.Prelude.{◌≡◌, ◌+◌, ◌<◌, ◌≤◌, [], ◌++◌, ◌∷◌, false, length, map, codes, OnOk, OnErr, string_bytes, string_len, string_capacity};
ghost use Rattle.std.specs.Fmt.{decimal, digit_glyph};
ghost use Rattle.std.specs.List.{flat_map};
ghost use Rattle.host_trace.specs.declared.items.Item.TheVariants.{In, Out};
ghost use Rattle.trace_text.specs.Spelling.{act_tokens, cause_name, cause_tokens, ended_line, event_tokens, hex, hex_byte, launch_tokens, line_of, pair_tokens, pairs, spelled, texts, why_tokens};

use host_base::{Cause, Launch, NoMemory, Pair, Text};
use host_trace::{Act, Event, Item, Why};
use itoa::Buffer;

// Adds a piece, which fails only where there is no room for it.
fn push_piece(text: &mut String, piece: &str) -> Result<(), NoMemory>
    ensures text { OnOk result (string_bytes text.new ≡ string_bytes text.old ++ piece.now) }
    ensures full { OnErr result (string_capacity text.old < length (string_bytes text.old) + length (piece.now)) }
    ensures room { string_capacity text.old ≤ string_capacity text.new }
{
    text.push_str(piece)?;
    Ok(())
}

fn digit(value: u8) -> &'static str
    requires { value < 16 }
    ensures { result.now ≡ digit_glyph false value ∷ [] }
{
    match value {
        0 => "0",
        1 => "1",
        2 => "2",
        3 => "3",
        4 => "4",
        5 => "5",
        6 => "6",
        7 => "7",
        8 => "8",
        9 => "9",
        10 => "a",
        11 => "b",
        12 => "c",
        13 => "d",
        14 => "e",
        _ => "f",
    }
}

fn push_hex_byte(text: &mut String, byte: u8) -> Result<(), NoMemory>
    ensures text { OnOk result (string_bytes text.new ≡ string_bytes text.old ++ hex_byte byte) }
    ensures full { OnErr result (string_capacity text.old < length (string_bytes text.old) + length (hex_byte byte)) }
    ensures room { string_capacity text.old ≤ string_capacity text.new }
{
    push_piece(text, digit(byte / 16))?;
    push_piece(text, digit(byte % 16))
}

fn push_hex(text: &mut String, bytes: &[u8]) -> Result<(), NoMemory>
    ensures text { OnOk result (string_bytes text.new ≡ string_bytes text.old ++ flat_map hex_byte bytes.now) }
    ensures full { OnErr result (string_capacity text.old < length (string_bytes text.old) + length (flat_map hex_byte bytes.now)) }
    ensures room { string_capacity text.old ≤ string_capacity text.new }
{
    let mut rest = bytes;
    while let [byte, more @ ..] = rest {
        push_hex_byte(text, *byte)?;
        rest = more;
    }
    Ok(())
}

fn push_bytes(text: &mut String, bytes: &[u8]) -> Result<(), NoMemory>
    ensures text { OnOk result (string_bytes text.new ≡ string_bytes text.old ++ 32 ∷ hex bytes.now) }
    ensures full { OnErr result (string_capacity text.old < length (string_bytes text.old) + length (32 ∷ hex bytes.now)) }
    ensures room { string_capacity text.old ≤ string_capacity text.new }
{
    push_piece(text, " x")?;
    push_hex(text, bytes)
}

fn push_word(text: &mut String, word: &str) -> Result<(), NoMemory>
    ensures text { OnOk result (string_bytes text.new ≡ string_bytes text.old ++ 32 ∷ word.now) }
    ensures full { OnErr result (string_capacity text.old < length (string_bytes text.old) + length (32 ∷ word.now)) }
    ensures room { string_capacity text.old ≤ string_capacity text.new }
{
    push_piece(text, " ")?;
    push_piece(text, word)
}

fn push_digits(text: &mut String, number: u128) -> Result<(), NoMemory>
    ensures text { OnOk result (string_bytes text.new ≡ string_bytes text.old ++ decimal number) }
    ensures full { OnErr result (string_capacity text.old < length (string_bytes text.old) + length (decimal number)) }
    ensures room { string_capacity text.old ≤ string_capacity text.new }
{
    let mut buffer = Buffer::new();
    push_piece(text, buffer.format(number))
}

fn push_number(text: &mut String, number: u128) -> Result<(), NoMemory>
    ensures text { OnOk result (string_bytes text.new ≡ string_bytes text.old ++ 32 ∷ decimal number) }
    ensures full { OnErr result (string_capacity text.old < length (string_bytes text.old) + length (32 ∷ decimal number)) }
    ensures room { string_capacity text.old ≤ string_capacity text.new }
{
    push_piece(text, " ")?;
    push_digits(text, number)
}

// A name and a number.
fn push_one(text: &mut String, name: &str, number: u64) -> Result<(), NoMemory>
    ensures text { OnOk result (string_bytes text.new ≡ string_bytes text.old ++ spelled (name.now ∷ decimal number ∷ [])) }
    ensures full { OnErr result (string_capacity text.old < length (string_bytes text.old) + length (spelled (name.now ∷ decimal number ∷ []))) }
    ensures room { string_capacity text.old ≤ string_capacity text.new }
{
    push_word(text, name)?;
    push_number(text, u128::from(number))
}

// A name and two numbers.
fn push_two(text: &mut String, name: &str, one: u64, two: u64) -> Result<(), NoMemory>
    ensures text { OnOk result (string_bytes text.new ≡ string_bytes text.old ++ spelled (name.now ∷ decimal one ∷ decimal two ∷ [])) }
    ensures full { OnErr result (string_capacity text.old < length (string_bytes text.old) + length (spelled (name.now ∷ decimal one ∷ decimal two ∷ []))) }
    ensures room { string_capacity text.old ≤ string_capacity text.new }
{
    push_one(text, name, one)?;
    push_number(text, u128::from(two))
}

// A name, a number and bytes.
fn push_sized(text: &mut String, name: &str, number: u64, bytes: &[u8]) -> Result<(), NoMemory>
    ensures text { OnOk result (string_bytes text.new ≡ string_bytes text.old ++ spelled (name.now ∷ decimal number ∷ hex bytes.now ∷ [])) }
    ensures full { OnErr result (string_capacity text.old < length (string_bytes text.old) + length (spelled (name.now ∷ decimal number ∷ hex bytes.now ∷ []))) }
    ensures room { string_capacity text.old ≤ string_capacity text.new }
{
    push_one(text, name, number)?;
    push_bytes(text, bytes)
}

fn push_texts(text: &mut String, list: &[Text]) -> Result<(), NoMemory>
    ensures text { OnOk result (string_bytes text.new ≡ string_bytes text.old ++ spelled (texts list.now)) }
    ensures full { OnErr result (string_capacity text.old < length (string_bytes text.old) + length (spelled (texts list.now))) }
    ensures room { string_capacity text.old ≤ string_capacity text.new }
{
    let mut rest = list;
    while let [one, more @ ..] = rest {
        push_bytes(text, one.as_bytes())?;
        rest = more;
    }
    Ok(())
}

fn push_pair(text: &mut String, pair: &Pair) -> Result<(), NoMemory>
    ensures text { OnOk result (string_bytes text.new ≡ string_bytes text.old ++ spelled (pair_tokens pair.now)) }
    ensures full { OnErr result (string_capacity text.old < length (string_bytes text.old) + length (spelled (pair_tokens pair.now))) }
    ensures room { string_capacity text.old ≤ string_capacity text.new }
{
    push_bytes(text, pair.name.as_bytes())?;
    push_bytes(text, pair.value.as_bytes())
}

fn push_pairs(text: &mut String, list: &[Pair]) -> Result<(), NoMemory>
    ensures text { OnOk result (string_bytes text.new ≡ string_bytes text.old ++ spelled (pairs list.now)) }
    ensures full { OnErr result (string_capacity text.old < length (string_bytes text.old) + length (spelled (pairs list.now))) }
    ensures room { string_capacity text.old ≤ string_capacity text.new }
{
    let mut rest = list;
    while let [pair, more @ ..] = rest {
        push_pair(text, pair)?;
        rest = more;
    }
    Ok(())
}

// A list of texts with its length before it.
fn push_counted(text: &mut String, list: &[Text]) -> Result<(), NoMemory>
    ensures text { OnOk result (string_bytes text.new ≡ string_bytes text.old ++ spelled (decimal (length list.now) ∷ texts list.now)) }
    ensures full { OnErr result (string_capacity text.old < length (string_bytes text.old) + length (spelled (decimal (length list.now) ∷ texts list.now))) }
    ensures room { string_capacity text.old ≤ string_capacity text.new }
{
    push_number(text, list.len() as u128)?;
    push_texts(text, list)
}

fn push_env(text: &mut String, list: &[Pair]) -> Result<(), NoMemory>
    ensures text { OnOk result (string_bytes text.new ≡ string_bytes text.old ++ spelled (decimal (length list.now) ∷ pairs list.now)) }
    ensures full { OnErr result (string_capacity text.old < length (string_bytes text.old) + length (spelled (decimal (length list.now) ∷ pairs list.now))) }
    ensures room { string_capacity text.old ≤ string_capacity text.new }
{
    push_number(text, list.len() as u128)?;
    push_pairs(text, list)
}

fn push_launch(text: &mut String, launch: &Launch) -> Result<(), NoMemory>
    ensures text { OnOk result (string_bytes text.new ≡ string_bytes text.old ++ spelled (launch_tokens launch.now)) }
    ensures full { OnErr result (string_capacity text.old < length (string_bytes text.old) + length (spelled (launch_tokens launch.now))) }
    ensures room { string_capacity text.old ≤ string_capacity text.new }
{
    push_bytes(text, launch.program.as_bytes())?;
    push_bytes(text, launch.dir.as_bytes())?;
    push_counted(text, launch.args.as_slice())?;
    push_env(text, launch.env.as_slice())
}

fn cause_name(cause: Cause) -> &'static str
    ensures { result.now ≡ cause_name cause }
{
    match cause {
        Cause::BadHead => "BadHead",
        Cause::Incomplete => "Incomplete",
        Cause::BadTarget => "BadTarget",
        Cause::BadHost => "BadHost",
        Cause::BadFraming => "BadFraming",
        Cause::BadChunk => "BadChunk",
        Cause::BadPath => "BadPath",
        Cause::BadHandshake => "BadHandshake",
        Cause::BadScgi => "BadScgi",
        Cause::BadParams => "BadParams",
        Cause::BadRecord => "BadRecord",
        Cause::OriginRefused => "OriginRefused",
        Cause::NoScript => "NoScript",
        Cause::IdleTime => "IdleTime",
        Cause::BodyTooLong => "BodyTooLong",
        Cause::TargetTooLong => "TargetTooLong",
        Cause::BadExpect => "BadExpect",
        Cause::UnknownHost => "UnknownHost",
        Cause::UpgradeNeeded => "UpgradeNeeded",
        Cause::HeadTooLong => "HeadTooLong",
        Cause::TooManyFields => "TooManyFields",
        Cause::RedirectLoop => "RedirectLoop",
        Cause::NotServed => "NotServed",
        Cause::CodingUnknown => "CodingUnknown",
        Cause::StartFailed => "StartFailed",
        Cause::OutputBroken => "OutputBroken",
        Cause::OutputTooLarge => "OutputTooLarge",
        Cause::NoOutput => "NoOutput",
        Cause::HeaderIncomplete => "HeaderIncomplete",
        Cause::HeaderTooLarge => "HeaderTooLarge",
        Cause::HeaderLine => "HeaderLine",
        Cause::HeaderRepeated => "HeaderRepeated",
        Cause::BadStatus => "BadStatus",
        Cause::BadLocation => "BadLocation",
        Cause::NoneOfThree => "NoneOfThree",
        Cause::RunTime => "RunTime",
        Cause::Full { .. } => "Full",
    }
}

fn push_cause(text: &mut String, cause: Cause) -> Result<(), NoMemory>
    ensures text { OnOk result (string_bytes text.new ≡ string_bytes text.old ++ spelled (cause_tokens cause)) }
    ensures full { OnErr result (string_capacity text.old < length (string_bytes text.old) + length (spelled (cause_tokens cause))) }
    ensures room { string_capacity text.old ≤ string_capacity text.new }
{
    match cause {
        Cause::Full { seen } => push_one(text, "Full", u64::from(seen)),
        other => push_word(text, cause_name(other)),
    }
}

fn push_why(text: &mut String, why: Why) -> Result<(), NoMemory>
    ensures text { OnOk result (string_bytes text.new ≡ string_bytes text.old ++ spelled (why_tokens why)) }
    ensures full { OnErr result (string_capacity text.old < length (string_bytes text.old) + length (spelled (why_tokens why))) }
    ensures room { string_capacity text.old ≤ string_capacity text.new }
{
    match why {
        Why::Done => push_word(text, "Done"),
        Why::Gone => push_word(text, "Gone"),
        Why::Cut(cause) => {
            push_word(text, "Cut")?;
            push_cause(text, cause)
        }
        Why::Idle => push_word(text, "Idle"),
        Why::Full => push_word(text, "Full"),
        Why::Stopped => push_word(text, "Stopped"),
        Why::NoMemory => push_word(text, "NoMemory"),
    }
}

fn push_event(text: &mut String, event: &Event) -> Result<(), NoMemory>
    ensures text { OnOk result (string_bytes text.new ≡ string_bytes text.old ++ spelled (event_tokens event.now)) }
    ensures full { OnErr result (string_capacity text.old < length (string_bytes text.old) + length (spelled (event_tokens event.now))) }
    ensures room { string_capacity text.old ≤ string_capacity text.new }
{
    match event {
        Event::Accepted { peer } => {
            push_word(text, "Accepted")?;
            push_bytes(text, peer.0.as_bytes())
        }
        Event::ClientBytes { c, bytes } => push_sized(text, "ClientBytes", *c, bytes.as_slice()),
        Event::ClientEof { c } => push_one(text, "ClientEof", *c),
        Event::ClientGone { c } => push_one(text, "ClientGone", *c),
        Event::Wrote { c, n } => push_two(text, "Wrote", *c, *n),
        Event::Started { k } => push_one(text, "Started", *k),
        Event::StartFailed { k } => push_one(text, "StartFailed", *k),
        Event::StartFull { k, seen } => push_two(text, "StartFull", *k, u64::from(*seen)),
        Event::ChildBytes { k, bytes } => push_sized(text, "ChildBytes", *k, bytes.as_slice()),
        Event::ChildEof { k } => push_one(text, "ChildEof", *k),
        Event::ChildBroken { k } => push_one(text, "ChildBroken", *k),
        Event::Took { k, n } => push_two(text, "Took", *k, *n),
        Event::InputGone { k } => push_one(text, "InputGone", *k),
        Event::Exited { k } => push_one(text, "Exited", *k),
        Event::WsText { c, bytes } => push_sized(text, "WsText", *c, bytes.as_slice()),
        Event::WsBinary { c } => push_one(text, "WsBinary", *c),
        Event::WsClosed { c } => push_one(text, "WsClosed", *c),
        Event::WsBad { c } => push_one(text, "WsBad", *c),
        Event::NoRoom { c } => push_one(text, "NoRoom", *c),
        Event::Tick { secs } => push_one(text, "Tick", *secs),
        Event::Stop => push_word(text, "Stop"),
    }
}

fn push_start(
    text: &mut String,
    k: u64,
    c: u64,
    j: u128,
    hop: u32,
    launch: &Launch,
) -> Result<(), NoMemory>
    ensures text { OnOk result (string_bytes text.new ≡ string_bytes text.old ++ spelled (codes "Start" ∷ decimal k ∷ decimal c ∷ decimal j ∷ decimal hop ∷ launch_tokens launch.now)) }
    ensures full { OnErr result (string_capacity text.old < length (string_bytes text.old) + length (spelled (codes "Start" ∷ decimal k ∷ decimal c ∷ decimal j ∷ decimal hop ∷ launch_tokens launch.now))) }
    ensures room { string_capacity text.old ≤ string_capacity text.new }
{
    push_two(text, "Start", k, c)?;
    push_number(text, j)?;
    push_number(text, u128::from(hop))?;
    push_launch(text, launch)
}

fn push_shut(text: &mut String, c: u64, why: Why) -> Result<(), NoMemory>
    ensures text { OnOk result (string_bytes text.new ≡ string_bytes text.old ++ spelled (codes "Shut" ∷ decimal c ∷ why_tokens why)) }
    ensures full { OnErr result (string_capacity text.old < length (string_bytes text.old) + length (spelled (codes "Shut" ∷ decimal c ∷ why_tokens why))) }
    ensures room { string_capacity text.old ≤ string_capacity text.new }
{
    push_one(text, "Shut", c)?;
    push_why(text, why)
}

fn push_says(text: &mut String, c: u64, list: &[Text]) -> Result<(), NoMemory>
    ensures text { OnOk result (string_bytes text.new ≡ string_bytes text.old ++ spelled (codes "Says" ∷ decimal c ∷ decimal (length list.now) ∷ texts list.now)) }
    ensures full { OnErr result (string_capacity text.old < length (string_bytes text.old) + length (spelled (codes "Says" ∷ decimal c ∷ decimal (length list.now) ∷ texts list.now))) }
    ensures room { string_capacity text.old ≤ string_capacity text.new }
{
    push_one(text, "Says", c)?;
    push_counted(text, list)
}

fn push_act(text: &mut String, act: &Act) -> Result<(), NoMemory>
    ensures text { OnOk result (string_bytes text.new ≡ string_bytes text.old ++ spelled (act_tokens act.now)) }
    ensures full { OnErr result (string_capacity text.old < length (string_bytes text.old) + length (spelled (act_tokens act.now))) }
    ensures room { string_capacity text.old ≤ string_capacity text.new }
{
    match act {
        Act::Start {
            k,
            c,
            j,
            hop,
            launch,
        } => push_start(text, *k, *c, *j, *hop, launch),
        Act::Shut { c, why } => push_shut(text, *c, *why),
        Act::Says { c, texts } => push_says(text, *c, texts.as_slice()),
        Act::WantClient { c } => push_one(text, "WantClient", *c),
        Act::Write { c, bytes } => push_sized(text, "Write", *c, bytes.as_slice()),
        Act::Feed { k, bytes } => push_sized(text, "Feed", *k, bytes.as_slice()),
        Act::EndInput { k } => push_one(text, "EndInput", *k),
        Act::WantChild { k } => push_one(text, "WantChild", *k),
        Act::Kill { k } => push_one(text, "Kill", *k),
        Act::Release { k } => push_one(text, "Release", *k),
        Act::Upgrade { c, rest } => push_sized(text, "Upgrade", *c, rest.as_slice()),
        Act::CloseWs { c, code } => push_two(text, "CloseWs", *c, u64::from(*code)),
    }
}

fn push_in(text: &mut String, event: &Event) -> Result<(), NoMemory>
    ensures text { OnOk result (string_bytes text.new ≡ string_bytes text.old ++ line_of (In event.now)) }
    ensures full { OnErr result (string_capacity text.old < length (string_bytes text.old) + length (line_of (In event.now))) }
    ensures room { string_capacity text.old ≤ string_capacity text.new }
{
    push_piece(text, "<")?;
    push_event(text, event)
}

fn push_out(text: &mut String, act: &Act) -> Result<(), NoMemory>
    ensures text { OnOk result (string_bytes text.new ≡ string_bytes text.old ++ line_of (Out act.now)) }
    ensures full { OnErr result (string_capacity text.old < length (string_bytes text.old) + length (line_of (Out act.now))) }
    ensures room { string_capacity text.old ≤ string_capacity text.new }
{
    push_piece(text, ">")?;
    push_act(text, act)
}

/// Adds the line of an item, without its LF. It fails only where the text has no room for it and none is found.
pub fn push_line(text: &mut String, item: &Item) -> Result<(), NoMemory>
    ensures text { OnOk result (string_bytes text.new ≡ string_bytes text.old ++ line_of item.now) }
    ensures full { OnErr result (string_capacity text.old < length (string_bytes text.old) + length (line_of item.now)) }
    ensures room { string_capacity text.old ≤ string_capacity text.new }
{
    match item {
        Item::In(event) => push_in(text, event),
        Item::Out(act) => push_out(text, act),
    }
}

/// Adds the line of an event and its LF. It fails only where the text has no room for it and none is found.
pub fn push_heard(text: &mut String, event: &Event) -> Result<(), NoMemory>
    ensures text { OnOk result (string_bytes text.new ≡ string_bytes text.old ++ ended_line (In event.now)) }
    ensures full { OnErr result (string_capacity text.old < length (string_bytes text.old) + length (ended_line (In event.now))) }
    ensures room { string_capacity text.old ≤ string_capacity text.new }
{
    push_in(text, event)?;
    push_piece(text, "\n")
}

/// Adds the line of an act and its LF. It fails only where the text has no room for it and none is found.
pub fn push_done(text: &mut String, act: &Act) -> Result<(), NoMemory>
    ensures text { OnOk result (string_bytes text.new ≡ string_bytes text.old ++ ended_line (Out act.now)) }
    ensures full { OnErr result (string_capacity text.old < length (string_bytes text.old) + length (ended_line (Out act.now))) }
    ensures room { string_capacity text.old ≤ string_capacity text.new }
{
    push_out(text, act)?;
    push_piece(text, "\n")
}

/// Adds the line of an item and its LF. It fails only where the text has no room for it and none is found.
pub fn push_item(text: &mut String, item: &Item) -> Result<(), NoMemory>
    ensures text { OnOk result (string_bytes text.new ≡ string_bytes text.old ++ ended_line item.now) }
    ensures full { OnErr result (string_capacity text.old < length (string_bytes text.old) + length (ended_line item.now)) }
    ensures room { string_capacity text.old ≤ string_capacity text.new }
{
    match item {
        Item::In(event) => push_heard(text, event),
        Item::Out(act) => push_done(text, act),
    }
}
