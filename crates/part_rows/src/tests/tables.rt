// Tables as text: a row is a line, and its cells stand between `|`. A line that begins with `//` is a comment. In a cell \n, \r,
// \t, \0 and \xHH are bytes, as in Rust, and blanks at its ends are left out. In a table of words the cells of a line have a space
// between, each line is a row, `-` is no value and `_` an empty one.
// Beside them stand the texts and fields that the tests make and compare.
use super::replies::ReplyRows;
use super::requests::RequestRows;
use super::{replies, requests};
use host_base::{Bytes, Cause, Field, Fields, NoMemory, Text, Version};
use std::alloc::Global;
use std::process::Abort;
use std::test::Fail;

// Whether a line of a table is a row.
fn is_row(line: &[u8], between: char) -> bool {
    match line {
        [] => false,
        [b'/', b'/', ..] => between == ' ',
        _ => true,
    }
}

// How many rows a table has.
fn count_of(table: &str, between: char) -> usize {
    let mut count: usize = 0;
    for line in table.lines() {
        if is_row(line.as_bytes(), between) {
            count = count.saturating_add(1);
        }
    }
    count
}

// The value of a digit of base 16, of those below `g`.
fn digit(byte: u8) -> u8 {
    if byte <= b'9' {
        byte.wrapping_sub(b'0')
    } else {
        byte.wrapping_sub(b'a').wrapping_add(10)
    }
}

// The byte of an escape whose part behind the backslash begins a text, and the rest of the text. What is no escape stays
// as it is.
fn escaped(part: &[u8]) -> (u8, &[u8]) {
    match part {
        [b'n', rest @ ..] => (b'\n', rest),
        [b'r', rest @ ..] => (b'\r', rest),
        [b't', rest @ ..] => (b'\t', rest),
        [b'0', rest @ ..] => (b'\0', rest),
        [b'x', high, low, rest @ ..] => {
            let byte = digit(*high).wrapping_mul(16).wrapping_add(digit(*low));
            (byte, rest)
        }
        _ => (b'\\', part),
    }
}

fn push_escaped(bytes: &mut Vec<u8>, part: &[u8]) -> Result<(), NoMemory> {
    let (byte, rest) = escaped(part);
    bytes.push(byte)?;
    push(bytes, rest)
}

fn push_unescaped(bytes: &mut Vec<u8>, text: &str) -> Result<(), NoMemory> {
    let mut first = true;
    for part in text.split('\\') {
        if first {
            push(bytes, part.as_bytes())?;
        } else {
            push_escaped(bytes, part.as_bytes())?;
        }
        first = false;
    }
    Ok(())
}

fn cell_of(alloc: Global, text: &str) -> Result<Vec<u8>, NoMemory> {
    let mut bytes = Vec::new(alloc);
    push_unescaped(&mut bytes, text)?;
    Ok(bytes)
}

/// The cells of a row.
#[derive(Drop)]
pub struct Cells {
    all: Vec<Vec<u8>>,
}

impl Cells {
    fn between(alloc: Global, row: &str, between: char) -> Result<Self, NoMemory> {
        let mut all = Vec::new(alloc);
        for text in row.split(between) {
            all.push(cell_of(alloc, text.trim())?)?;
        }
        Ok(Cells { all })
    }

    /// The cells of a row, with `|` between.
    pub fn new(alloc: Global, row: &str) -> Result<Self, NoMemory> {
        Cells::between(alloc, row, '|')
    }

    /// The words of a line.
    pub fn words(alloc: Global, line: &str) -> Result<Self, NoMemory> {
        Cells::between(alloc, line, ' ')
    }

    pub fn len(&self) -> usize {
        self.all.len()
    }

    /// A cell. It is empty where there are not so many.
    pub fn at(&self, place: usize) -> &[u8] {
        match self.all.as_slice().get(place) {
            Some(cell) => cell.as_slice(),
            None => b"",
        }
    }

    /// The value of a word.
    pub fn value(&self, place: usize) -> &[u8] {
        value(self.at(place))
    }

    /// The value of a word, or none.
    pub fn value_or_none(&self, place: usize) -> Option<&[u8]> {
        if self.is(place, "-") {
            None
        } else {
            Some(self.value(place))
        }
    }

    pub fn text(&self, place: usize) -> &str {
        shown(self.at(place))
    }

    /// The number in a cell; the largest one where it has none.
    pub fn number(&self, place: usize) -> u64 {
        number_of(self.text(place))
    }

    pub fn size(&self, place: usize) -> usize {
        usize::try_from(self.number(place)).unwrap_or(usize::MAX)
    }

    pub fn is(&self, place: usize, word: &str) -> bool {
        is(self.at(place), word.as_bytes())
    }

    /// Whether a cell says `yes`, or `no`, as this is.
    pub fn says(&self, place: usize, value: bool) -> bool {
        self.is(place, if value { "yes" } else { "no" })
    }

    pub fn is_yes(&self, place: usize) -> bool {
        self.is(place, "yes")
    }

    /// The cells from one on.
    pub fn from(&self, place: usize) -> &[Vec<u8>] {
        match self.all.as_slice().get(place..) {
            Some(cells) => cells,
            None => &[],
        }
    }

    /// Whether the cells from one on are the names and values of these fields, and no more.
    pub fn are_fields(&self, from: usize, fields: &Fields) -> bool {
        let mut place = from;
        for field in fields.as_slice() {
            if !is_field(field, self.at(place), self.at(place.saturating_add(1))) {
                return false;
            }
            place = place.saturating_add(2);
        }
        place == self.len()
    }

    /// Whether a cell is the name of a cause.
    pub fn names(&self, alloc: Global, place: usize, cause: Cause) -> Result<bool, NoMemory> {
        Ok(self.is(place, format!(in alloc; "{cause:?}")?.as_str()))
    }

    /// The cause that a cell names, and none for `-`. `NoOutput` stands for every other word.
    pub fn cause(&self, place: usize) -> Option<Cause> {
        Some(match self.text(place) {
            "-" => return None,
            "BadHead" => Cause::BadHead,
            "HeadTooLong" => Cause::HeadTooLong,
            "TargetTooLong" => Cause::TargetTooLong,
            "TooManyFields" => Cause::TooManyFields,
            "BadChunk" => Cause::BadChunk,
            "BodyTooLong" => Cause::BodyTooLong,
            "BadFraming" => Cause::BadFraming,
            "CodingUnknown" => Cause::CodingUnknown,
            "BadExpect" => Cause::BadExpect,
            "BadHost" => Cause::BadHost,
            "BadTarget" => Cause::BadTarget,
            "NotServed" => Cause::NotServed,
            _ => Cause::NoOutput,
        })
    }

    /// The version that a word names, 1.1 where it isn't the other.
    pub fn version(&self, place: usize) -> Version {
        if self.is(place, "1.0") {
            Version::V10
        } else {
            Version::V11
        }
    }
}

/// The tables, each with a function of its own that judges a row. They are told apart by these words, since a function that is handed
/// over by its name costs the gate three more proofs.
#[derive(Clone, Copy)]
pub enum Rows {
    Request(RequestRows),
    Reply(ReplyRows),
}

fn is_right(rows: Rows, alloc: Global, row: &Cells) -> Result<bool, NoMemory> {
    match rows {
        Rows::Request(rows) => requests::is_right(rows, alloc, row),
        Rows::Reply(rows) => replies::is_right(rows, alloc, row),
    }
}

fn is_right_row(alloc: Global, row: &str, between: char, rows: Rows) -> Result<bool, NoMemory> {
    is_right(rows, alloc, &Cells::between(alloc, row, between)?)
}

// The first row of a table whose cells are not right; nothing where all are.
fn wrong_row(
    alloc: Global,
    table: &'static str,
    between: char,
    rows: Rows,
) -> Result<&'static str, NoMemory> {
    for row in table.lines() {
        if is_row(row.as_bytes(), between) && !is_right_row(alloc, row, between, rows)? {
            return Ok(row);
        }
    }
    Ok("")
}

/// A table has so many rows.
pub fn has_count<R: Abort>(rt: &R, table: &str, count: usize) {
    has_rows(rt, count_of(table, '|'), count);
}

fn has_rows<R: Abort>(rt: &R, given: usize, count: usize) {
    assert_eq!(rt; given, count);
}

/// There is no wrong row.
pub fn is_nothing<R: Abort>(rt: &R, wrong: &str) {
    assert_eq!(rt; wrong, "");
}

/// Each row of a table of so many is right.
pub fn are_right<R: Abort>(
    rt: &R,
    alloc: Global,
    table: &'static str,
    count: usize,
    rows: Rows,
) -> Result<(), Fail> {
    has_count(rt, table, count);
    is_nothing(rt, wrong_row(alloc, table, '|', rows)?);
    Ok(())
}

/// Each row of a table of so many words is right.
pub fn are_words_right<R: Abort>(
    rt: &R,
    alloc: Global,
    table: &'static str,
    count: usize,
    rows: Rows,
) -> Result<(), Fail> {
    has_rows(rt, count_of(table, ' '), count);
    is_nothing(rt, wrong_row(alloc, table, ' ', rows)?);
    Ok(())
}

/// The number that a text is; the largest one where it is none.
pub fn number_of(text: &str) -> u64 {
    match text.parse::<u64>() {
        Ok(number) => number,
        Err(_) => u64::MAX,
    }
}

/// The two parts of a text; the first is all of it where nothing stands between.
pub fn parts_of<'t>(text: &'t str, between: &str) -> (&'t str, &'t str) {
    match text.split_once(between) {
        Some(parts) => parts,
        None => (text, ""),
    }
}

/// Bytes as a text.
pub fn shown(bytes: &[u8]) -> &str {
    match str::from_utf8(bytes) {
        Ok(text) => text,
        Err(_) => "(no text)",
    }
}

/// Whether two texts are the same.
pub fn is(one: &[u8], other: &[u8]) -> bool {
    one == other
}

/// The first bytes of a text, and all where there are not so many.
pub fn front_of(text: &[u8], count: usize) -> &[u8] {
    match text.get(..count) {
        Some(front) => front,
        None => text,
    }
}

/// The value of a word.
pub fn value(word: &[u8]) -> &[u8] {
    if is(word, b"_") { b"" } else { word }
}

/// Whether a field has this name and this value.
pub fn is_field(field: &Field, name: &[u8], value: &[u8]) -> bool {
    is(field.name.as_slice(), name) && is(field.value.as_slice(), value)
}

pub fn bytes_of(alloc: Global, text: &[u8]) -> Result<Bytes, NoMemory> {
    Bytes::from_slice(alloc, text)
}

pub fn text_of(alloc: Global, text: &str) -> Result<Text, NoMemory> {
    Text::copy_of(alloc, text)
}

fn field_of(alloc: Global, name: &[u8], value: &[u8]) -> Result<Field, NoMemory> {
    Ok(Field {
        name: bytes_of(alloc, name)?,
        value: bytes_of(alloc, value)?,
    })
}

pub fn push_field(
    alloc: Global,
    fields: &mut Fields,
    name: &[u8],
    value: &[u8],
) -> Result<(), NoMemory> {
    fields.push(field_of(alloc, name, value)?)
}

/// Adds a part.
pub fn push(text: &mut Vec<u8>, part: &[u8]) -> Result<(), NoMemory> {
    text.extend_from_slice(part)?;
    Ok(())
}

/// Adds a part so many times.
pub fn push_times(text: &mut Vec<u8>, part: &[u8], times: usize) -> Result<(), NoMemory> {
    for _ in 0..times {
        push(text, part)?;
    }
    Ok(())
}

/// A part so many times, between two texts.
pub fn repeated(
    alloc: Global,
    before: &[u8],
    part: &[u8],
    times: usize,
    after: &[u8],
) -> Result<Vec<u8>, NoMemory> {
    let mut text = Vec::new(alloc);
    push(&mut text, before)?;
    push_times(&mut text, part, times)?;
    push(&mut text, after)?;
    Ok(text)
}

fn push_all(text: &mut Vec<u8>, parts: &[&[u8]]) -> Result<(), NoMemory> {
    for part in parts {
        push(text, part)?;
    }
    Ok(())
}

/// These parts, one behind another.
pub fn joined(alloc: Global, parts: &[&[u8]]) -> Result<Vec<u8>, NoMemory> {
    let mut text = Vec::new(alloc);
    push_all(&mut text, parts)?;
    Ok(text)
}

/// Whether a text is these parts, one behind another.
pub fn is_joined(text: &[u8], parts: &[&[u8]]) -> bool {
    let mut rest = text;
    for part in parts {
        match rest.strip_prefix(*part) {
            Some(behind) => rest = behind,
            None => return false,
        }
    }
    rest.is_empty()
}
