// Traces as lines, an event at the margin and its acts below it, to compare whole traces.
use host_base::{Bytes, Launch, NoMemory, Pair, Text, Texts};
use host_trace::{Act, Event, Item, Why};
use memory_world::MemoryWorld;
use std::alloc::Global;

/// Bytes as text.
pub fn shown(bytes: &[u8]) -> &str {
    str::from_utf8(bytes).unwrap_or("(no text)")
}

fn push(text: &mut String, part: &str) -> Result<(), NoMemory> {
    text.push_str(part)?;
    Ok(())
}

/// These three texts, one behind the other.
pub fn joined(alloc: Global, first: &str, second: &str, third: &str) -> Result<String, NoMemory> {
    let mut all = String::new(alloc);
    push(&mut all, first)?;
    push(&mut all, second)?;
    push(&mut all, third)?;
    Ok(all)
}

fn digits(alloc: Global, number: u64) -> Result<String, NoMemory> {
    Ok(number.to_string(alloc)?)
}

// A letter that stands so often.
fn push_counted(alloc: Global, line: &mut String, one: char, count: u64) -> Result<(), NoMemory> {
    let start = with_words(alloc, "[", count, " times ")?;
    push(line, start.as_str())?;
    line.push(one)?;
    push(line, "]")?;
    Ok(())
}

fn push_run(alloc: Global, line: &mut String, one: char, count: usize) -> Result<(), NoMemory> {
    if count >= 100 {
        return push_counted(alloc, line, one, count as u64);
    }
    for _ in 0..count {
        line.push(one)?;
    }
    Ok(())
}

// Bytes as text, in which a hundred equal letters and more are counted.
fn counted(alloc: Global, bytes: &[u8]) -> Result<String, NoMemory> {
    let mut line = String::new(alloc);
    let mut last = 'x';
    let mut count = 0usize;
    for one in shown(bytes).chars() {
        if one == last {
            count = count.saturating_add(1);
        } else {
            push_run(alloc, &mut line, last, count)?;
            last = one;
            count = 1;
        }
    }
    push_run(alloc, &mut line, last, count)?;
    Ok(line)
}

/// A number between two texts.
pub fn with_words(alloc: Global, first: &str, number: u64, last: &str) -> Result<String, NoMemory> {
    let number = digits(alloc, number)?;
    joined(alloc, first, number.as_str(), last)
}

/// A name and a number, and a text behind this mark.
pub fn marked(
    alloc: Global,
    name: &str,
    number: u64,
    mark: &str,
    text: &str,
) -> Result<String, NoMemory> {
    let number = digits(alloc, number)?;
    let start = joined(alloc, name, " ", number.as_str())?;
    joined(alloc, start.as_str(), mark, text)
}

/// A name and a number.
pub fn numbered(alloc: Global, name: &str, number: u64) -> Result<String, NoMemory> {
    marked(alloc, name, number, "", "")
}

/// A name and a number, and a text behind them.
pub fn with_text(alloc: Global, name: &str, number: u64, text: &str) -> Result<String, NoMemory> {
    marked(alloc, name, number, ": ", text)
}

fn with_count(alloc: Global, name: &str, number: u64, count: u64) -> Result<String, NoMemory> {
    let count = digits(alloc, count)?;
    with_text(alloc, name, number, count.as_str())
}

/// The line of a Start: for the connection, the exchange and the hop.
pub fn start_line(
    alloc: Global,
    k: u64,
    (c, j, hop): (u64, u128, u32),
    program: &str,
) -> Result<String, NoMemory> {
    Ok(format!(in alloc; "Start {k} ({c}, {j}, {hop}) {program}")?)
}

/// The line of a Shut.
pub fn shut_line(alloc: Global, c: u64, why: &str) -> Result<String, NoMemory> {
    marked(alloc, "Shut", c, " ", why)
}

fn with_bytes(alloc: Global, name: &str, number: u64, bytes: &Bytes) -> Result<String, NoMemory> {
    let text = counted(alloc, bytes.as_slice())?;
    with_text(alloc, name, number, text.as_str())
}

fn client_line(alloc: Global, event: &Event) -> Result<String, NoMemory> {
    match event {
        Event::Accepted { peer } => joined(alloc, "Accepted ", peer.0.as_str(), ""),
        Event::ClientBytes { c, bytes } => {
            with_count(alloc, "ClientBytes", *c, bytes.len() as u64)
        }
        Event::ClientEof { c } => numbered(alloc, "ClientEof", *c),
        Event::ClientGone { c } => numbered(alloc, "ClientGone", *c),
        Event::NoRoom { c } => numbered(alloc, "NoRoom", *c),
        Event::Wrote { c, n } => with_count(alloc, "Wrote", *c, *n),
        Event::WsText { c, bytes } => with_count(alloc, "WsText", *c, bytes.len() as u64),
        Event::WsBinary { c } => numbered(alloc, "WsBinary", *c),
        Event::WsClosed { c } => numbered(alloc, "WsClosed", *c),
        Event::WsBad { c } => numbered(alloc, "WsBad", *c),
        Event::Tick { secs } => numbered(alloc, "Tick", *secs),
        _ => Ok("Stop".to_string(alloc)?),
    }
}

/// The line of an event.
pub fn event_line(alloc: Global, event: &Event) -> Result<String, NoMemory> {
    match event {
        Event::Started { k } => numbered(alloc, "Started", *k),
        Event::StartFailed { k } => numbered(alloc, "StartFailed", *k),
        Event::StartFull { k, seen } => with_count(alloc, "StartFull", *k, u64::from(*seen)),
        Event::ChildBytes { k, bytes } => with_count(alloc, "ChildBytes", *k, bytes.len() as u64),
        Event::ChildEof { k } => numbered(alloc, "ChildEof", *k),
        Event::ChildBroken { k } => numbered(alloc, "ChildBroken", *k),
        Event::Took { k, n } => with_count(alloc, "Took", *k, *n),
        Event::InputGone { k } => numbered(alloc, "InputGone", *k),
        Event::Exited { k } => numbered(alloc, "Exited", *k),
        _ => client_line(alloc, event),
    }
}

fn push_text(alloc: Global, line: &mut String, text: &Text) -> Result<(), NoMemory> {
    let text = counted(alloc, text.as_str().as_bytes())?;
    push(line, text.as_str())?;
    line.push_str("; ")?;
    Ok(())
}

fn says_line(alloc: Global, c: u64, texts: &Texts) -> Result<String, NoMemory> {
    let mut line = with_text(alloc, "Says", c, "")?;
    for text in texts.as_slice() {
        push_text(alloc, &mut line, text)?;
    }
    Ok(line)
}

fn child_act_line(alloc: Global, act: &Act) -> Result<String, NoMemory> {
    match act {
        Act::Start {
            k,
            c,
            j,
            hop,
            launch,
        } => start_line(alloc, *k, (*c, *j, *hop), launch.program.as_str()),
        Act::Feed { k, bytes } => with_bytes(alloc, "Feed", *k, bytes),
        Act::EndInput { k } => numbered(alloc, "EndInput", *k),
        Act::WantChild { k } => numbered(alloc, "WantChild", *k),
        Act::Kill { k } => numbered(alloc, "Kill", *k),
        Act::Release { k } => numbered(alloc, "Release", *k),
        _ => Ok(String::new(alloc)),
    }
}

fn shut_for(alloc: Global, c: u64, why: Why) -> Result<String, NoMemory> {
    let why = format!(in alloc; "{why:?}")?;
    shut_line(alloc, c, why.as_str())
}

/// The line of an act.
pub fn act_line(alloc: Global, act: &Act) -> Result<String, NoMemory> {
    match act {
        Act::WantClient { c } => numbered(alloc, "WantClient", *c),
        Act::Write { c, bytes } => with_bytes(alloc, "Write", *c, bytes),
        Act::Shut { c, why } => shut_for(alloc, *c, *why),
        Act::Upgrade { c, rest } => with_bytes(alloc, "Upgrade", *c, rest),
        Act::Says { c, texts } => says_line(alloc, *c, texts),
        Act::CloseWs { c, code } => with_count(alloc, "CloseWs", *c, u64::from(*code)),
        _ => child_act_line(alloc, act),
    }
}

/// Adds the line of an act, which begins below its event's.
pub fn push_act(lines: &mut String, line: &str) -> Result<(), NoMemory> {
    push(lines, "    ")?;
    push(lines, line)?;
    push(lines, "\n")?;
    Ok(())
}

/// Adds the line of an event.
pub fn push_event(lines: &mut String, line: &str) -> Result<(), NoMemory> {
    push(lines, line)?;
    push(lines, "\n")?;
    Ok(())
}

fn push_item(alloc: Global, lines: &mut String, item: &Item) -> Result<(), NoMemory> {
    match item {
        Item::In(event) => {
            let line = event_line(alloc, event)?;
            push_event(lines, line.as_str())
        }
        Item::Out(act) => {
            let line = act_line(alloc, act)?;
            push_act(lines, line.as_str())
        }
    }
}

/// The items as lines.
pub fn lines_of(alloc: Global, items: &[Item]) -> Result<String, NoMemory> {
    let mut lines = String::new(alloc);
    for item in items {
        push_item(alloc, &mut lines, item)?;
    }
    Ok(lines)
}

/// The items of the one trace that was given back; none where it isn't told.
pub fn given(world: &MemoryWorld) -> &[Item] {
    match world.given() {
        [items] if world.tells() => items.as_slice(),
        _ => &[],
    }
}

/// The one trace given back, as lines; a text that is no trace where there is another number, or it isn't told.
pub fn told(alloc: Global, world: &MemoryWorld) -> Result<String, NoMemory> {
    if world.tells() && world.given().len() == 1 {
        lines_of(alloc, given(world))
    } else {
        Ok("not one trace that is told".to_string(alloc)?)
    }
}

// ---- what children are started with

fn push_launch(text: &mut String, launch: &Launch) -> Result<(), NoMemory> {
    push_event(text, launch.program.as_str())?;
    push_act(text, launch.dir.as_str())?;
    for word in launch.args.as_slice() {
        push_act(text, "arg:")?;
        push_act(text, word.as_str())?;
    }
    for pair in launch.env.as_slice() {
        push_variable(text, pair)?;
    }
    Ok(())
}

fn push_variable(text: &mut String, pair: &Pair) -> Result<(), NoMemory> {
    push(text, "    ")?;
    push(text, pair.name.as_str())?;
    push(text, "=")?;
    push_event(text, pair.value.as_str())
}

/// What children are started with: their programs, and below each its folder, arguments and variables.
pub fn launches_of(alloc: Global, items: &[Item]) -> Result<String, NoMemory> {
    let mut text = String::new(alloc);
    for item in items {
        if let Item::Out(Act::Start { launch, .. }) = item {
            push_launch(&mut text, launch)?;
        }
    }
    Ok(text)
}

/// The programs that are started, each with its arguments in brackets.
pub fn words_of_launches(alloc: Global, items: &[Item]) -> Result<String, NoMemory> {
    let mut text = String::new(alloc);
    for item in items {
        if let Item::Out(Act::Start { launch, .. }) = item {
            push(&mut text, launch.program.as_str())?;
            for word in launch.args.as_slice() {
                push(&mut text, " [")?;
                push(&mut text, word.as_str())?;
                push(&mut text, "]")?;
            }
        }
    }
    Ok(text)
}

/// What children are fed.
pub fn fed(alloc: Global, items: &[Item]) -> Result<Vec<u8>, NoMemory> {
    let mut bytes = Vec::new(alloc);
    for item in items {
        if let Item::Out(Act::Feed { bytes: more, .. }) = item {
            bytes.extend_from_slice(more.as_slice())?;
        }
    }
    Ok(bytes)
}
