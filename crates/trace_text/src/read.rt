// The item of a line.
ghost use Rattle.std.specs.Prelude.{◌≡◌, map, IfOk, bytes_eq};
ghost use Rattle.std.specs.List.{slice_split};
ghost use Rattle.trace_text.specs.Spelling.{line_of};
ghost use Rattle.trace_text.specs.Reading.{act_in, bytes_act, bytes_event, cause_in, child_event, client_event, counted_event, event_by, event_in, header_cause, is_space, item_in, likely, malformed_cause, now_of, number, other_act, other_event, plain_act, refused_cause, script_cause, start_in, why_in};

use crate::fields::{
    at, behind, bytes_in, launch_in, long_number, number, short_number, text_in, texts_in,
    tokens_of, wide_number,
};
use crate::spelling::push_line;
use host_base::{Cause, NoMemory, Peer};
use host_trace::{Act, Event, Item, Why};
use std::alloc::Global;

fn malformed_cause(name: &[u8]) -> Option<Cause>
    ensures { result ≡ malformed_cause name.now }
{
    if name == b"BadHead".as_slice() {
        Some(Cause::BadHead)
    } else if name == b"Incomplete".as_slice() {
        Some(Cause::Incomplete)
    } else if name == b"BadTarget".as_slice() {
        Some(Cause::BadTarget)
    } else if name == b"BadHost".as_slice() {
        Some(Cause::BadHost)
    } else if name == b"BadFraming".as_slice() {
        Some(Cause::BadFraming)
    } else if name == b"BadChunk".as_slice() {
        Some(Cause::BadChunk)
    } else if name == b"BadPath".as_slice() {
        Some(Cause::BadPath)
    } else if name == b"BadHandshake".as_slice() {
        Some(Cause::BadHandshake)
    } else if name == b"BadScgi".as_slice() {
        Some(Cause::BadScgi)
    } else if name == b"BadParams".as_slice() {
        Some(Cause::BadParams)
    } else if name == b"BadRecord".as_slice() {
        Some(Cause::BadRecord)
    } else {
        None
    }
}

fn refused_cause(name: &[u8]) -> Option<Cause>
    ensures { result ≡ refused_cause name.now }
{
    if name == b"OriginRefused".as_slice() {
        Some(Cause::OriginRefused)
    } else if name == b"NoScript".as_slice() {
        Some(Cause::NoScript)
    } else if name == b"IdleTime".as_slice() {
        Some(Cause::IdleTime)
    } else if name == b"BodyTooLong".as_slice() {
        Some(Cause::BodyTooLong)
    } else if name == b"TargetTooLong".as_slice() {
        Some(Cause::TargetTooLong)
    } else if name == b"BadExpect".as_slice() {
        Some(Cause::BadExpect)
    } else if name == b"UnknownHost".as_slice() {
        Some(Cause::UnknownHost)
    } else if name == b"UpgradeNeeded".as_slice() {
        Some(Cause::UpgradeNeeded)
    } else if name == b"HeadTooLong".as_slice() {
        Some(Cause::HeadTooLong)
    } else if name == b"TooManyFields".as_slice() {
        Some(Cause::TooManyFields)
    } else {
        None
    }
}

fn script_cause(name: &[u8]) -> Option<Cause>
    ensures { result ≡ script_cause name.now }
{
    if name == b"RedirectLoop".as_slice() {
        Some(Cause::RedirectLoop)
    } else if name == b"NotServed".as_slice() {
        Some(Cause::NotServed)
    } else if name == b"CodingUnknown".as_slice() {
        Some(Cause::CodingUnknown)
    } else if name == b"StartFailed".as_slice() {
        Some(Cause::StartFailed)
    } else if name == b"OutputBroken".as_slice() {
        Some(Cause::OutputBroken)
    } else if name == b"OutputTooLarge".as_slice() {
        Some(Cause::OutputTooLarge)
    } else if name == b"NoOutput".as_slice() {
        Some(Cause::NoOutput)
    } else {
        None
    }
}

fn header_cause(name: &[u8], seen: u32) -> Cause
    ensures { result ≡ header_cause name.now seen }
{
    if name == b"HeaderIncomplete".as_slice() {
        Cause::HeaderIncomplete
    } else if name == b"HeaderTooLarge".as_slice() {
        Cause::HeaderTooLarge
    } else if name == b"HeaderLine".as_slice() {
        Cause::HeaderLine
    } else if name == b"HeaderRepeated".as_slice() {
        Cause::HeaderRepeated
    } else if name == b"BadStatus".as_slice() {
        Cause::BadStatus
    } else if name == b"BadLocation".as_slice() {
        Cause::BadLocation
    } else if name == b"NoneOfThree".as_slice() {
        Cause::NoneOfThree
    } else if name == b"Full".as_slice() {
        Cause::Full { seen }
    } else {
        Cause::RunTime
    }
}

// The cause of a name; `seen` is the number behind it.
fn cause_in(name: &[u8], seen: u32) -> Cause
    ensures { result ≡ cause_in name.now seen }
{
    if let Some(cause) = malformed_cause(name) {
        return cause;
    }
    if let Some(cause) = refused_cause(name) {
        return cause;
    }
    if let Some(cause) = script_cause(name) {
        return cause;
    }
    header_cause(name, seen)
}

fn why_in(name: &[u8], cause: Cause) -> Why
    ensures { result ≡ why_in name.now cause }
{
    if name == b"Gone".as_slice() {
        Why::Gone
    } else if name == b"Idle".as_slice() {
        Why::Idle
    } else if name == b"Full".as_slice() {
        Why::Full
    } else if name == b"Stopped".as_slice() {
        Why::Stopped
    } else if name == b"NoMemory".as_slice() {
        Why::NoMemory
    } else if name == b"Cut".as_slice() {
        Why::Cut(cause)
    } else {
        Why::Done
    }
}

fn client_event(name: &[u8], c: u64) -> Option<Event>
    ensures { result ≡ client_event name.now c }
{
    if name == b"ClientEof".as_slice() {
        Some(Event::ClientEof { c })
    } else if name == b"ClientGone".as_slice() {
        Some(Event::ClientGone { c })
    } else if name == b"WsBinary".as_slice() {
        Some(Event::WsBinary { c })
    } else if name == b"WsClosed".as_slice() {
        Some(Event::WsClosed { c })
    } else if name == b"WsBad".as_slice() {
        Some(Event::WsBad { c })
    } else if name == b"NoRoom".as_slice() {
        Some(Event::NoRoom { c })
    } else {
        None
    }
}

fn child_event(name: &[u8], k: u64) -> Option<Event>
    ensures { result ≡ child_event name.now k }
{
    if name == b"Started".as_slice() {
        Some(Event::Started { k })
    } else if name == b"StartFailed".as_slice() {
        Some(Event::StartFailed { k })
    } else if name == b"ChildEof".as_slice() {
        Some(Event::ChildEof { k })
    } else if name == b"ChildBroken".as_slice() {
        Some(Event::ChildBroken { k })
    } else if name == b"InputGone".as_slice() {
        Some(Event::InputGone { k })
    } else if name == b"Exited".as_slice() {
        Some(Event::Exited { k })
    } else {
        None
    }
}

fn counted_event(name: &[u8], i: u64, token: &[u8]) -> Option<Event>
    ensures { result ≡ counted_event name.now i token.now }
{
    if name == b"Wrote".as_slice() {
        Some(Event::Wrote {
            c: i,
            n: long_number(token),
        })
    } else if name == b"Took".as_slice() {
        Some(Event::Took {
            k: i,
            n: long_number(token),
        })
    } else if name == b"StartFull".as_slice() {
        Some(Event::StartFull {
            k: i,
            seen: number(token),
        })
    } else {
        None
    }
}

fn bytes_event(alloc: Global, name: &[u8], i: u64, token: &[u8]) -> Result<Option<Event>, NoMemory>
    ensures { IfOk result (λ event. event ≡ bytes_event name.now i token.now) }
{
    if name == b"ClientBytes".as_slice() {
        let bytes = bytes_in(alloc, token)?;
        Ok(Some(Event::ClientBytes { c: i, bytes }))
    } else if name == b"ChildBytes".as_slice() {
        let bytes = bytes_in(alloc, token)?;
        Ok(Some(Event::ChildBytes { k: i, bytes }))
    } else if name == b"WsText".as_slice() {
        let bytes = bytes_in(alloc, token)?;
        Ok(Some(Event::WsText { c: i, bytes }))
    } else {
        Ok(None)
    }
}

fn other_event(alloc: Global, name: &[u8], token: &[u8]) -> Result<Event, NoMemory>
    ensures { IfOk result (λ event. event ≡ other_event name.now token.now) }
{
    if name == b"Accepted".as_slice() {
        let peer = Peer(text_in(alloc, token)?);
        Ok(Event::Accepted { peer })
    } else if name == b"Tick".as_slice() {
        Ok(Event::Tick {
            secs: long_number(token),
        })
    } else {
        Ok(Event::Stop)
    }
}

fn event_by(alloc: Global, name: &[u8], first: &[u8], second: &[u8]) -> Result<Event, NoMemory>
    ensures { IfOk result (λ event. event ≡ event_by name.now first.now second.now) }
{
    let i = long_number(first);
    if let Some(event) = client_event(name, i) {
        return Ok(event);
    }
    if let Some(event) = child_event(name, i) {
        return Ok(event);
    }
    if let Some(event) = counted_event(name, i, second) {
        return Ok(event);
    }
    if let Some(event) = bytes_event(alloc, name, i, second)? {
        return Ok(event);
    }
    other_event(alloc, name, first)
}

fn event_in(alloc: Global, tokens: &[&[u8]]) -> Result<Event, NoMemory>
    ensures { IfOk result (λ event. event ≡ event_in (map now_of tokens.now)) }
{
    event_by(alloc, at(tokens, 1), at(tokens, 2), at(tokens, 3))
}

fn plain_act(name: &[u8], i: u64) -> Option<Act>
    ensures { result ≡ plain_act name.now i }
{
    if name == b"WantClient".as_slice() {
        Some(Act::WantClient { c: i })
    } else if name == b"EndInput".as_slice() {
        Some(Act::EndInput { k: i })
    } else if name == b"WantChild".as_slice() {
        Some(Act::WantChild { k: i })
    } else if name == b"Kill".as_slice() {
        Some(Act::Kill { k: i })
    } else if name == b"Release".as_slice() {
        Some(Act::Release { k: i })
    } else {
        None
    }
}

fn bytes_act(alloc: Global, name: &[u8], i: u64, token: &[u8]) -> Result<Option<Act>, NoMemory>
    ensures { IfOk result (λ act. act ≡ bytes_act name.now i token.now) }
{
    if name == b"Write".as_slice() {
        let bytes = bytes_in(alloc, token)?;
        Ok(Some(Act::Write { c: i, bytes }))
    } else if name == b"Feed".as_slice() {
        let bytes = bytes_in(alloc, token)?;
        Ok(Some(Act::Feed { k: i, bytes }))
    } else if name == b"Upgrade".as_slice() {
        let rest = bytes_in(alloc, token)?;
        Ok(Some(Act::Upgrade { c: i, rest }))
    } else {
        Ok(None)
    }
}

fn start_in(alloc: Global, tokens: &[&[u8]]) -> Result<Act, NoMemory>
    ensures { IfOk result (λ act. act ≡ start_in (map now_of tokens.now)) }
{
    let launch = launch_in(alloc, behind(tokens, 6))?;
    Ok(Act::Start {
        k: long_number(at(tokens, 2)),
        c: long_number(at(tokens, 3)),
        j: wide_number(at(tokens, 4)),
        hop: number(at(tokens, 5)),
        launch,
    })
}

fn other_act(alloc: Global, tokens: &[&[u8]]) -> Result<Act, NoMemory>
    ensures { IfOk result (λ act. act ≡ other_act (map now_of tokens.now)) }
{
    let name = at(tokens, 1);
    let i = long_number(at(tokens, 2));
    if name == b"Start".as_slice() {
        start_in(alloc, tokens)
    } else if name == b"Shut".as_slice() {
        let cause = cause_in(at(tokens, 4), number(at(tokens, 5)));
        let why = why_in(at(tokens, 3), cause);
        Ok(Act::Shut { c: i, why })
    } else if name == b"Says".as_slice() {
        let texts = texts_in(alloc, behind(tokens, 4))?;
        Ok(Act::Says { c: i, texts })
    } else {
        let code = short_number(at(tokens, 3));
        Ok(Act::CloseWs { c: i, code })
    }
}

fn act_in(alloc: Global, tokens: &[&[u8]]) -> Result<Act, NoMemory>
    ensures { IfOk result (λ act. act ≡ act_in (map now_of tokens.now)) }
{
    let name = at(tokens, 1);
    let i = long_number(at(tokens, 2));
    if let Some(act) = plain_act(name, i) {
        return Ok(act);
    }
    if let Some(act) = bytes_act(alloc, name, i, at(tokens, 3))? {
        return Ok(act);
    }
    other_act(alloc, tokens)
}

fn likely(alloc: Global, tokens: &[&[u8]]) -> Result<Item, NoMemory>
    ensures { IfOk result (λ item. item ≡ likely (map now_of tokens.now)) }
{
    if at(tokens, 0) == b"<".as_slice() {
        Ok(Item::In(event_in(alloc, tokens)?))
    } else {
        Ok(Item::Out(act_in(alloc, tokens)?))
    }
}

// Whether a line is an item's.
fn is_line_of(alloc: Global, line: &[u8], item: &Item) -> Result<bool, NoMemory>
    ensures { IfOk result (λ is. is ≡ bytes_eq (line_of item.now) line.now) }
{
    let mut text = String::with_capacity(alloc, line.len())?;
    push_line(&mut text, item)?;
    Ok(text.as_bytes() == line)
}

fn likely_item(alloc: Global, line: &[u8]) -> Result<Item, NoMemory>
    ensures { IfOk result (λ item. item ≡ likely (slice_split is_space line.now)) }
{
    let tokens = tokens_of(alloc, line)?;
    likely(alloc, tokens.as_slice())
}

/// The item whose line this is, without its LF.
pub fn item_in(alloc: Global, line: &[u8]) -> Result<Option<Item>, NoMemory>
    ensures { IfOk result (λ item. item ≡ item_in line.now) }
{
    let item = likely_item(alloc, line)?;
    if is_line_of(alloc, line, &item)? {
        Ok(Some(item))
    } else {
        Ok(None)
    }
}
