// Each row of the table of what fits, at its edges.
use super::drive::{Heard, event_of, outside_of};
use super::script::{counted_in, cut, rows_of, text_of};
use super::words::Word::{In, Out};
use super::words::{Word, answers, hears, push_items, word_in};
use host_base::NoMemory;
use host_trace::Acted;
use memory_world::{MemoryOutside, fits};
use std::alloc::Global;
use std::process::Abort;
use std::test::Fail;

// How many children may run.
const LIMIT: u32 = 2;

// Traces: an event stands by its name, the number of its connection or child, and a number; an act likewise, behind `> `.
const TRACES: &str = "
NOTHING =
STOPPED = Stop
ASKED = Accepted; > WantClient 0
OPEN = Accepted
ANSWERED = Accepted; > WantClient 0; ClientBytes 0 1
ASKED_AGAIN = Accepted; > WantClient 0; ClientBytes 0 1; > WantClient 0
SHUT = Accepted; > WantClient 0; > Shut 0
TALK = Accepted; > Upgrade 0; > WantClient 0
AT_END = Accepted; > WantClient 0; ClientEof 0
WRITTEN = Accepted; > Write 0 3
TWO_LEFT = Accepted; > Write 0 3; Wrote 0 2
WRITTEN_AND_SHUT = Accepted; > Write 0 3; > Shut 0
SAID = Accepted; > Write 0 3; > Upgrade 0; > Says 0 2
ALL_LEFT_AND_SAID = Accepted; > Write 0 3; Wrote 0 3; > Upgrade 0; > Says 0 2
ONE_SAID_LEFT = Accepted; > Upgrade 0; > Says 0 2; Wrote 0 1
NONE_SAID = Accepted; > Write 0 3; > Upgrade 0
TO_START = Accepted; > Start 0
STARTED = Accepted; > Start 0; Started 0
REFUSED = Accepted; > Start 0; StartFailed 0
FULL = Accepted; > Start 0; StartFull 0 2
WANTED = Accepted; > Start 0; Started 0; > WantChild 0
TOO_EARLY = Accepted; > Start 0; > WantChild 0; > Feed 0 3
GIVEN = Accepted; > Start 0; Started 0; > WantChild 0; ChildBytes 0 1
ENDED = Accepted; > Start 0; Started 0; > WantChild 0; ChildEof 0; > WantChild 0
RELEASED = Accepted; > Start 0; Started 0; > WantChild 0; Exited 0; > Release 0
BROKEN = Accepted; > Start 0; Started 0; > WantChild 0; ChildBroken 0; > WantChild 0
FED = Accepted; > Start 0; Started 0; > Feed 0 3
TWO_TAKEN = Accepted; > Start 0; Started 0; > Feed 0 3; Took 0 2
INPUT_FAILED = Accepted; > Start 0; Started 0; InputGone 0
INPUT_ENDED = Accepted; > Start 0; Started 0; > EndInput 0
KILLED = Accepted; > Start 0; Started 0; > Kill 0
REAPED = Accepted; > Start 0; Started 0; Exited 0
NOT_ASKED = Accepted; > Upgrade 0
TOLD = Accepted; > Upgrade 0; > WantClient 0; WsText 0 1
TALK_SHUT = Accepted; > Upgrade 0; > WantClient 0; > Shut 0
";

// After the trace the first event doesn't fit, and the second does.
const CLIENT_ROWS: &str = "
// Accepted and Stop come before Stop, Tick always.
NOTHING | ClientGone 0 | Accepted
NOTHING | NoRoom 0 | Stop
STOPPED | Accepted | Tick
STOPPED | Stop | Tick
// Bytes of the client are 1 to 65,536, one piece for each question.
ASKED | ClientBytes 0 0 | ClientBytes 0 1
ASKED | ClientBytes 0 65537 | ClientBytes 0 65536
ASKED | ClientBytes 1 1 | ClientBytes 0 1
OPEN | ClientBytes 0 1 | Tick
ANSWERED | ClientBytes 0 1 | ClientGone 0
ASKED_AGAIN | ClientEof 1 | ClientBytes 0 1
SHUT | ClientBytes 0 1 | Tick
TALK | ClientBytes 0 1 | WsText 0 1
// The end of its input, likewise.
ASKED | ClientEof 1 | ClientEof 0
OPEN | ClientEof 0 | Tick
AT_END | ClientEof 0 | Tick
SHUT | ClientEof 0 | Tick
TALK | ClientEof 0 | WsClosed 0
// A connection fails, or can't be heard, until it is shut.
OPEN | ClientGone 1 | ClientGone 0
OPEN | NoRoom 1 | NoRoom 0
SHUT | ClientGone 0 | Tick
SHUT | NoRoom 0 | Tick
// No more bytes leave than were written, and after Upgrade than were said.
WRITTEN | Wrote 0 4 | Wrote 0 3
WRITTEN | Wrote 0 0 | Wrote 0 1
WRITTEN | Wrote 1 1 | Wrote 0 3
TWO_LEFT | Wrote 0 2 | Wrote 0 1
WRITTEN_AND_SHUT | Wrote 0 1 | Tick
SAID | Wrote 0 3 | Wrote 0 2
SAID | Wrote 0 0 | Wrote 0 1
ALL_LEFT_AND_SAID | Wrote 0 3 | Wrote 0 2
ONE_SAID_LEFT | Wrote 0 2 | Wrote 0 1
NONE_SAID | Wrote 0 1 | Tick
";

const CHILD_ROWS: &str = "
// One event answers a Start, and a full book has seen as many as may run.
TO_START | Started 1 | Started 0
TO_START | StartFailed 1 | StartFailed 0
TO_START | StartFull 0 1 | StartFull 0 2
TO_START | StartFull 0 3 | StartFull 0 2
TO_START | StartFull 1 2 | StartFailed 0
STARTED | Started 0 | Tick
STARTED | StartFull 0 2 | Exited 0
REFUSED | Started 0 | Tick
FULL | StartFailed 0 | Tick
// Output is 1 to 65,536 bytes, one piece for each question, of a child that runs and whose output is open.
WANTED | ChildBytes 0 0 | ChildBytes 0 1
WANTED | ChildBytes 0 65537 | ChildBytes 0 65536
WANTED | ChildBytes 1 1 | ChildBytes 0 1
STARTED | ChildBytes 0 1 | Exited 0
TOO_EARLY | ChildBytes 0 1 | Started 0
GIVEN | ChildBytes 0 1 | Exited 0
ENDED | ChildBytes 0 1 | Exited 0
RELEASED | ChildBytes 0 1 | Tick
// Its end, and its failure, likewise.
WANTED | ChildEof 1 | ChildEof 0
WANTED | ChildBroken 1 | ChildBroken 0
STARTED | ChildEof 0 | Exited 0
STARTED | ChildBroken 0 | Exited 0
TOO_EARLY | ChildEof 0 | Started 0
GIVEN | ChildEof 0 | Exited 0
GIVEN | ChildBroken 0 | Exited 0
ENDED | ChildBroken 0 | Exited 0
BROKEN | ChildEof 0 | Exited 0
RELEASED | ChildBroken 0 | Tick
// No more bytes are taken than were fed.
FED | Took 0 4 | Took 0 3
FED | Took 0 0 | Took 0 1
FED | Took 1 1 | Took 0 3
TWO_TAKEN | Took 0 2 | Took 0 1
TOO_EARLY | Took 0 1 | Started 0
// The input fails once, unless it was ended, and a child is reaped once.
TOO_EARLY | InputGone 0 | Started 0
INPUT_FAILED | InputGone 0 | Exited 0
INPUT_ENDED | InputGone 0 | Exited 0
KILLED | Exited 1 | InputGone 0
TOO_EARLY | Exited 0 | StartFailed 0
REAPED | Exited 0 | InputGone 0
";

const TALK_ROWS: &str = "
// Messages come after Upgrade, one for each question. A text may be empty, and of any length.
TALK | WsText 1 1 | WsText 0 0
TALK | WsText 1 1 | WsText 0 65537
TALK | WsBinary 1 | WsBinary 0
TALK | WsClosed 1 | WsClosed 0
TALK | WsBad 1 | WsBad 0
ASKED | WsText 0 1 | ClientBytes 0 1
ASKED | WsBinary 0 | ClientEof 0
ASKED | WsClosed 0 | ClientEof 0
ASKED | WsBad 0 | ClientGone 0
NOT_ASKED | WsText 0 1 | Tick
TOLD | WsText 0 1 | ClientGone 0
TOLD | WsBinary 0 | ClientGone 0
TOLD | WsClosed 0 | ClientGone 0
TOLD | WsBad 0 | ClientGone 0
TALK_SHUT | WsText 0 1 | Tick
TALK_SHUT | WsClosed 0 | Tick
";

// The trace of these words; none where one of them is no event or act.
fn words_in(alloc: Global, text: &str) -> Result<Option<Vec<Word>>, NoMemory> {
    let mut trace = Vec::new(alloc);
    if text.is_empty() {
        return Ok(Some(trace));
    }
    for word in text.split(';') {
        match word_in(word.trim()) {
            Some(word) => trace.push(word)?,
            None => return Ok(None),
        }
    }
    Ok(Some(trace))
}

// A row: the words of a trace, an event that doesn't fit after it, and one that does.
#[derive(Clone, Copy)]
struct Row {
    words: &'static str,
    misfit: Heard<'static>,
    fit: Heard<'static>,
}

fn row_of(line: &str) -> Option<Row> {
    let (name, events) = cut(line, " | ");
    let (misfit, fit) = cut(events, " | ");
    Some(Row {
        words: text_of(TRACES, name, " =")?,
        misfit: counted_in(misfit)?,
        fit: counted_in(fit)?,
    })
}

// Whether the test of what fits says so of the event after the trace.
fn fits_after(alloc: Global, trace: &[Word], heard: Heard) -> Result<bool, NoMemory> {
    let mut items = Vec::new(alloc);
    push_items(alloc, &mut items, trace)?;
    let event = event_of(alloc, heard)?;
    Ok(fits(items.as_slice(), &event, LIMIT))
}

// The events of the trace, and then the two of the row.
fn listed(alloc: Global, trace: &[Word], row: Row) -> Result<Vec<Heard<'static>>, NoMemory> {
    let mut list = Vec::new(alloc);
    for word in trace {
        if let In(heard) = *word {
            list.push(heard)?;
        }
    }
    list.push(row.misfit)?;
    list.push(row.fit)?;
    Ok(list)
}

// Whether the outside goes along the trace.
fn follows(alloc: Global, out: &mut MemoryOutside, trace: &[Word]) -> bool {
    for word in trace {
        let follows = match *word {
            In(heard) => hears(alloc, out, heard),
            Out(asked) => answers(alloc, out, asked, Acted::Done),
        };
        if !follows {
            return false;
        }
    }
    true
}

// Whether the outside passes over the event that doesn't fit after the trace.
fn passes(alloc: Global, trace: &[Word], row: Row) -> Result<bool, NoMemory> {
    let list = listed(alloc, trace, row)?;
    let mut out = outside_of(alloc, list.as_slice(), 8, LIMIT)?;
    Ok(follows(alloc, &mut out, trace) && hears(alloc, &mut out, row.fit) && out.tells())
}

fn is_so(alloc: Global, trace: &[Word], row: Row) -> Result<bool, NoMemory> {
    Ok(
        !fits_after(alloc, trace, row.misfit)?
            && fits_after(alloc, trace, row.fit)?
            && passes(alloc, trace, row)?,
    )
}

// Whether the line is a row, and it is so.
fn has_row(alloc: Global, line: &str) -> Result<bool, NoMemory> {
    let Some(row) = row_of(line) else {
        return Ok(false);
    };
    match words_in(alloc, row.words)? {
        Some(trace) => is_so(alloc, trace.as_slice(), row),
        None => Ok(false),
    }
}

// The first row that isn't so.
fn wrong_row(alloc: Global, rows: &[&'static str]) -> Result<Option<&'static str>, NoMemory> {
    for row in rows {
        if !has_row(alloc, *row)? {
            return Ok(Some(*row));
        }
    }
    Ok(None)
}

// Each row of a table of so many is right.
fn rows_fit<R: Abort>(
    rt: &R,
    alloc: Global,
    table: &'static str,
    count: usize,
) -> Result<(), Fail> {
    let rows = rows_of(alloc, table)?;
    assert_eq!(rt; rows.len(), count);
    assert_eq!(rt; wrong_row(alloc, rows.as_slice())?, None);
    Ok(())
}

#[test]
fn clients(rt: HostRuntime) -> Result<(), Fail> {
    rows_fit(&rt, rt.alloc(), CLIENT_ROWS, 31)
}

#[test]
fn children(rt: HostRuntime) -> Result<(), Fail> {
    rows_fit(&rt, rt.alloc(), CHILD_ROWS, 38)
}

#[test]
fn talks(rt: HostRuntime) -> Result<(), Fail> {
    rows_fit(&rt, rt.alloc(), TALK_ROWS, 16)
}
