// Outputs and their messages, in whatever pieces they come.
use super::super::tables::{Cells, Rows, are_right, is, repeated};
use super::ReplyRows;
use host_base::{NoMemory, Text, Texts};
use line_messages::{LineStep, Lines, input_line};
use std::alloc::Global;
use std::test::Fail;

// A limit, an output, what stands behind its last LF (none; one, with its message; or nothing, since a line is too long), and the
// messages of its ended lines.
const OUTPUTS: &str = r"
8 |  | none |
8 | a\n | none |  | a
8 | a\r\n | none |  | a
8 | a\r\r\n | none |  | a\r
8 | a\rb\n | none |  | a\rb
8 | \n\r\n\n | none |  |  |  |
8 | a | one | a
8 | a\r | one | a
8 | \r | one |
8 | \r\r | one | \r
8 | x\r\n\ny | one | y | x |
8 | a\0b\n\t \n | none |  | a\0b | \t\x20
// As long as the limit, and one byte more; a CR counts.
8 | 12345678\n12345678 | one | 12345678 | 12345678
8 | 1234567\r\n | none |  | 1234567
8 | 12345678\r\n | long |
8 | 123456789 | long |
8 | a\n\nb\n123456789\nc\n | long |  | a |  | b
1 | a\nbc\nd | long |  | a
0 | \n\n | none |  |  |
0 | \n\r\n | long |  |
// A text of UTF-8 is itself, however it is cut.
64 | \xc3\xa9\xe2\x82\xac\xf0\x9f\x98\x80\n | none |  | \xc3\xa9\xe2\x82\xac\xf0\x9f\x98\x80
// Sequences that are cut short by an LF, and bytes that begin none.
64 | \xf0\x9f\x98\n\x80\n\xe2\x82 | one | \xef\xbf\xbd | \xef\xbf\xbd | \xef\xbf\xbd
64 | a\xffb\n | none |  | a\xef\xbf\xbdb
// The examples of the Unicode Standard, tables 3-8 to 3-11.
64 | \xc0\xaf\xe0\x80\xbf\xf0\x81\x82A\n | none |  | \xef\xbf\xbd\xef\xbf\xbd\xef\xbf\xbd\xef\xbf\xbd\xef\xbf\xbd\xef\xbf\xbd\xef\xbf\xbd\xef\xbf\xbdA
64 | \xed\xa0\x80\xed\xbf\xbf\xed\xafA\n | none |  | \xef\xbf\xbd\xef\xbf\xbd\xef\xbf\xbd\xef\xbf\xbd\xef\xbf\xbd\xef\xbf\xbd\xef\xbf\xbd\xef\xbf\xbdA
64 | \xe1\x80\xe2\xf0\x91\x92\xf1\xbfA\n | none |  | \xef\xbf\xbd\xef\xbf\xbd\xef\xbf\xbd\xef\xbf\xbdA
";

// What was heard of an output so far.
#[derive(Drop)]
struct Heard {
    texts: Vec<Text>,
    over: bool,
}

impl Heard {
    fn new(alloc: Global) -> Self {
        Heard {
            texts: Vec::new(alloc),
            over: false,
        }
    }

    fn push_all(&mut self, texts: Texts) -> Result<(), NoMemory> {
        for text in texts.into_vec() {
            self.texts.push(text)?;
        }
        Ok(())
    }

    fn hear(&mut self, step: LineStep) -> Result<(), NoMemory> {
        match step {
            LineStep::Texts(texts) => self.push_all(texts),
            LineStep::TooLong { before } => {
                self.over = true;
                self.push_all(before)
            }
        }
    }

    // Whether what was heard are the cells of a row.
    fn is_row(&self, row: &Cells) -> bool {
        self.over == row.is(2, "long") && are(self.texts.as_slice(), row, 4)
    }
}

fn new_lines(alloc: Global, limit: u64) -> Lines {
    Lines::new(alloc, limit)
}

// What a piece gives; none where the output has ended.
fn step_of(lines: &mut Lines, piece: &[u8]) -> Result<Option<LineStep>, NoMemory> {
    if lines.is_ended() {
        return Ok(None);
    }
    Ok(Some(lines.feed(piece)?))
}

// What the end gives; none where the output has ended.
fn last_of(lines: &mut Lines) -> Result<Option<Texts>, NoMemory> {
    if lines.is_ended() {
        return Ok(None);
    }
    Ok(Some(lines.end()?))
}

fn is_ended(lines: &Lines) -> bool {
    lines.is_ended()
}

// Whether the texts are the cells from one on, and no more.
fn are(texts: &[Text], row: &Cells, from: usize) -> bool {
    let mut place = from;
    for text in texts {
        if !is_text(text, row.at(place)) {
            return false;
        }
        place = place.saturating_add(1);
    }
    place == row.len()
}

fn is_text(text: &Text, due: &[u8]) -> bool {
    is(text.as_bytes(), due)
}

fn are_last(texts: &[Text], row: &Cells) -> bool {
    match texts {
        [] => row.is(2, "none") || row.is(2, "long"),
        [text] => row.is(2, "one") && is_text(text, row.at(3)),
        _ => false,
    }
}

// Hears a piece, and says whether the output had not ended before.
fn hears(lines: &mut Lines, heard: &mut Heard, piece: &[u8]) -> Result<bool, NoMemory> {
    match step_of(lines, piece)? {
        Some(step) => {
            heard.hear(step)?;
            Ok(true)
        }
        None => Ok(false),
    }
}

fn hears_all(
    lines: &mut Lines,
    heard: &mut Heard,
    output: &[u8],
    size: usize,
) -> Result<bool, NoMemory> {
    for piece in output.chunks(size.max(1)) {
        if !hears(lines, heard, piece)? {
            return Ok(false);
        }
    }
    Ok(true)
}

// Whether the output had not ended before, and what its end gives is the row's.
fn ends(lines: &mut Lines, row: &Cells) -> Result<bool, NoMemory> {
    match last_of(lines)? {
        Some(texts) => Ok(are_last(texts.as_slice(), row) && is_ended(lines)),
        None => Ok(false),
    }
}

// Whether an output whose first bytes come in one piece, and the others in pieces of `size`, is read so.
fn is_read(alloc: Global, row: &Cells, cut: usize, size: usize) -> Result<bool, NoMemory> {
    let mut lines = new_lines(alloc, row.number(0));
    let mut heard = Heard::new(alloc);
    let output = row.at(1);
    let (front, back) = output.split_at(cut.min(output.len()));
    let first = hears(&mut lines, &mut heard, front)?;
    let right = first && hears_all(&mut lines, &mut heard, back, size)?;
    Ok(right && ends(&mut lines, row)? && heard.is_row(row))
}

pub fn is_read_at_every_cut(alloc: Global, row: &Cells) -> Result<bool, NoMemory> {
    let len = row.at(1).len();
    for cut in 0..len + 1 {
        if !is_read(alloc, row, cut, len)? || !is_read(alloc, row, cut, 1)? {
            return Ok(false);
        }
    }
    Ok(true)
}

#[test]
fn outputs_are_read_at_every_cut(rt: HostRuntime) -> Result<(), Fail> {
    are_right(&rt, rt.alloc(), OUTPUTS, 26, Rows::Reply(ReplyRows::Output))
}

// Whether a step gave no message.
fn is_silent(step: &Option<LineStep>) -> bool {
    match step {
        Some(LineStep::Texts(texts)) => texts.is_empty(),
        _ => false,
    }
}

fn are_one(texts: &[Text], message: &[u8]) -> bool {
    match texts {
        [text] => is_text(text, message),
        _ => false,
    }
}

// Whether a step gave this message alone.
fn gives(step: &Option<LineStep>, message: &[u8]) -> bool {
    match step {
        Some(LineStep::Texts(texts)) => are_one(texts.as_slice(), message),
        _ => false,
    }
}

fn hears_silently(lines: &mut Lines, piece: &[u8]) -> Result<bool, NoMemory> {
    Ok(is_silent(&step_of(lines, piece)?))
}

fn hears_all_silently(lines: &mut Lines, line: &[u8], size: usize) -> Result<bool, NoMemory> {
    for piece in line.chunks(size.max(1)) {
        if !hears_silently(lines, piece)? {
            return Ok(false);
        }
    }
    Ok(true)
}

fn is_one_line(lines: &mut Lines, line: &[u8], size: usize) -> Result<bool, NoMemory> {
    Ok(hears_all_silently(lines, line, size)? && gives(&step_of(lines, b"\n")?, line))
}

// A line of so many bytes, in pieces of `size`: whether it is a message, and nothing before its LF.
fn is_one_message(alloc: Global, limit: u64, len: usize, size: usize) -> Result<bool, NoMemory> {
    let line = repeated(alloc, b"", b"aaaaaaaaaaaaaaaa", len / 16, b"")?;
    let mut lines = new_lines(alloc, limit);
    is_one_line(&mut lines, line.as_slice(), size)
}

#[test]
fn long_lines_are_read(rt: HostRuntime) -> Result<(), Fail> {
    for (limit, message) in [(1_048_576, true), (1_048_575, false)] {
        for size in [1, 4_096, 65_536, 1_048_576] {
            let found = is_one_message(rt.alloc(), limit, 1_048_576, size)?;
            assert!(rt; found == message, "{size}");
        }
    }
    Ok(())
}

fn is_line(alloc: Global, text: &[u8], line: &[u8]) -> Result<bool, NoMemory> {
    Ok(is(input_line(alloc, text)?.as_slice(), line))
}

static LINES: [(&[u8], &[u8]); 5] = [
    (b"a", b"a\n"),
    (b"", b"\n"),
    (b"b\nc", b"b\nc\n"),
    (b"a\r", b"a\r\n"),
    (b"a\n", b"a\n\n"),
];

#[test]
fn texts_become_lines(rt: HostRuntime) -> Result<(), Fail> {
    for (text, line) in &LINES {
        assert!(rt; is_line(rt.alloc(), text, line)?, "{text:?}");
    }
    Ok(())
}
