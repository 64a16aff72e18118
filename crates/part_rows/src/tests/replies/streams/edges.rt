// Outputs of 8,192 and 8,193 bytes, cut at each place, with a tick at each place: what each call writes.
use super::super::super::tables::{Cells, Rows, are_right, is_joined, push, push_times};
use super::super::ReplyRows;
use super::long::{ends, filled_at};
use super::{GET, asked_of, hear, new_stream, tick};
use host_base::NoMemory;
use reply_stream::{Asked, Stream};
use std::alloc::Global;
use std::test::Fail;

// What is asked, the header, how many bytes follow it, the head of a reply that begins before the end, and that of one that doesn't:
// each header and head a text, how many `a` follow it, and a text.
const OUTPUTS: &str = r"
GET | Content-Type: text/plain\n\n | 0 |  | 8166 | HTTP/1.1 200 OK\r\nContent-Type: text/plain\r\nTransfer-Encoding: chunked\r\n\r\n | 0 |  | HTTP/1.1 200 OK\r\nContent-Type: text/plain\r\nContent-Length: 8166\r\n\r\n | 0 |
GET | Content-Type: text/plain\n\n | 0 |  | 8167 | HTTP/1.1 200 OK\r\nContent-Type: text/plain\r\nTransfer-Encoding: chunked\r\n\r\n | 0 |  |  | 0 |
OLD | Content-Type: text/plain\n\n | 0 |  | 8167 | HTTP/1.1 200 OK\r\nContent-Type: text/plain\r\n\r\n | 0 |  |  | 0 |
";

// A header of 8,192 bytes, of 8,191 with a byte after it, and of 8,192 with one.
const HEADERS: &str = r"
GET | Content-Type:\x20 | 8176 | \n\n | 0 | HTTP/1.1 200 OK\r\nContent-Type:\x20 | 8176 | \r\nTransfer-Encoding: chunked\r\n\r\n | HTTP/1.1 200 OK\r\nContent-Type:\x20 | 8176 | \r\nContent-Length: 0\r\n\r\n
GET | Content-Type:\x20 | 8175 | \n\n | 1 | HTTP/1.1 200 OK\r\nContent-Type:\x20 | 8175 | \r\nTransfer-Encoding: chunked\r\n\r\n | HTTP/1.1 200 OK\r\nContent-Type:\x20 | 8175 | \r\nContent-Length: 1\r\n\r\n
GET | Content-Type:\x20 | 8176 | \n\n | 1 | HTTP/1.1 200 OK\r\nContent-Type:\x20 | 8176 | \r\nTransfer-Encoding: chunked\r\n\r\n |  | 0 |
";

// A row with its texts.
#[derive(Drop)]
struct Texts {
    asked: Asked,
    header: usize,
    output: Vec<u8>,
    begun: Vec<u8>,
    whole: Vec<u8>,
}

impl Texts {
    fn new(alloc: Global, row: &Cells) -> Result<Self, NoMemory> {
        let header = filled_at(alloc, row, 1)?;
        let count = row.size(4).min(10_000);
        Ok(Texts {
            asked: asked_of(row),
            header: header.len(),
            output: with_body(header, count)?,
            begun: filled_at(alloc, row, 5)?,
            whole: with_body(filled_at(alloc, row, 8)?, count)?,
        })
    }

    fn part(&self, from: usize, to: usize) -> &[u8] {
        self.output.as_slice().get(from..to).unwrap_or(b"")
    }
}

fn with_body(front: Vec<u8>, count: usize) -> Result<Vec<u8>, NoMemory> {
    let mut text = front;
    push_times(&mut text, b"a", count)?;
    Ok(text)
}

// Adds a number below 65,536 in hexadecimal digits.
fn push_hex(text: &mut Vec<u8>, number: usize) -> Result<(), NoMemory> {
    for shift in [12_u32, 8, 4, 0] {
        push_digit(text, number >> shift)?;
    }
    Ok(())
}

// Adds the last hexadecimal digit of a number that is not 0.
fn push_digit(text: &mut Vec<u8>, number: usize) -> Result<(), NoMemory> {
    if number == 0 {
        return Ok(());
    }
    let place = number & 15;
    match b"0123456789abcdef".get(place..place.saturating_add(1)) {
        Some(digit) => push(text, digit),
        None => Ok(()),
    }
}

// Whether a text is a front and behind it bytes of the body as they are written.
fn is_written(
    alloc: Global,
    text: &[u8],
    front: &[u8],
    asked: Asked,
    bytes: &[u8],
) -> Result<bool, NoMemory> {
    if asked == GET && !bytes.is_empty() {
        is_chunk(alloc, text, front, bytes)
    } else {
        Ok(is_joined(text, &[front, bytes]))
    }
}

fn is_chunk(alloc: Global, text: &[u8], front: &[u8], bytes: &[u8]) -> Result<bool, NoMemory> {
    let end = b"\r\n".as_slice();
    let mut digits = Vec::new(alloc);
    push_hex(&mut digits, bytes.len())?;
    Ok(is_joined(text, &[front, digits.as_slice(), end, bytes, end]))
}

// A row that is told: how much of its output was heard, and whether its reply has begun.
#[derive(Drop)]
struct Telling {
    stream: Stream,
    heard: usize,
    begun: bool,
}

impl Telling {
    fn new(alloc: Global, texts: &Texts) -> Self {
        Telling {
            stream: new_stream(alloc, texts.asked),
            heard: 0,
            begun: false,
        }
    }

    // Whether this is due where the reply begins with this call, or doesn't, and the output was heard from one place on.
    fn is_due(
        &self,
        alloc: Global,
        texts: &Texts,
        text: &[u8],
        begins: bool,
        from: usize,
    ) -> Result<bool, NoMemory> {
        if begins {
            let body = texts.part(texts.header, self.heard);
            is_written(alloc, text, texts.begun.as_slice(), texts.asked, body)
        } else if self.begun {
            let body = texts.part(from.max(texts.header), self.heard);
            is_written(alloc, text, b"", texts.asked, body)
        } else {
            Ok(text.is_empty())
        }
    }

    // The next bytes of the output: with the 8,193rd one the reply begins.
    fn hears(&mut self, alloc: Global, texts: &Texts, to: usize) -> Result<bool, NoMemory> {
        let from = self.heard;
        let text = hear(alloc, &mut self.stream, texts.part(from, to), false, false)?;
        let begins = !self.begun && to > 8192;
        self.heard = to;
        let right = self.is_due(alloc, texts, text.as_slice(), begins, from)?;
        self.begun = self.begun || begins;
        Ok(right)
    }

    // A tick: it begins the reply where its header is whole.
    fn ticks(&mut self, alloc: Global, texts: &Texts) -> Result<bool, NoMemory> {
        let text = tick(&mut self.stream, false, false)?;
        let begins = !self.begun && self.heard >= texts.header;
        let right = self.is_due(alloc, texts, text.as_slice(), begins, self.heard)?;
        self.begun = self.begun || begins;
        Ok(right)
    }

    fn ticks_if(&mut self, now: bool, alloc: Global, texts: &Texts) -> Result<bool, NoMemory> {
        if now {
            self.ticks(alloc, texts)
        } else {
            Ok(true)
        }
    }

    fn is_cut(
        &mut self,
        alloc: Global,
        texts: &Texts,
        at: usize,
        ticks: bool,
    ) -> Result<bool, NoMemory> {
        Ok(
            self.hears(alloc, texts, at)?
                && self.ticks_if(ticks, alloc, texts)?
                && self.hears(alloc, texts, texts.output.len())?,
        )
    }

    fn is_single(&mut self, alloc: Global, texts: &Texts, ticks: bool) -> Result<bool, NoMemory> {
        for at in 0..texts.output.len() {
            if !self.is_one(alloc, texts, at.saturating_add(1), ticks)? {
                return Ok(false);
            }
        }
        Ok(true)
    }

    fn is_one(
        &mut self,
        alloc: Global,
        texts: &Texts,
        to: usize,
        ticks: bool,
    ) -> Result<bool, NoMemory> {
        Ok(self.hears(alloc, texts, to)? && self.ticks_if(ticks, alloc, texts)?)
    }

    // What is due at the end.
    fn rest<'t>(&self, texts: &'t Texts) -> &'t [u8] {
        match (self.begun, texts.asked == GET) {
            (true, true) => b"0\r\n\r\n",
            (true, false) => b"",
            (false, _) => texts.whole.as_slice(),
        }
    }

    // Whether the end is answered so.
    fn ends(self, texts: &Texts) -> Result<bool, NoMemory> {
        let due = self.rest(texts);
        ends(self.stream, due)
    }
}

// Whether the output is answered so where it is cut at one place, with a tick between its parts or with none.
fn is_cut(alloc: Global, texts: &Texts, at: usize, ticks: bool) -> Result<bool, NoMemory> {
    let mut telling = Telling::new(alloc, texts);
    let right = telling.is_cut(alloc, texts, at, ticks)?;
    Ok(telling.ends(texts)? && right)
}

// Whether it is in single bytes, with a tick behind each one or with none.
fn is_single(alloc: Global, texts: &Texts, ticks: bool) -> Result<bool, NoMemory> {
    let mut telling = Telling::new(alloc, texts);
    let right = telling.is_single(alloc, texts, ticks)?;
    Ok(telling.ends(texts)? && right)
}

fn is_cut_at_each(alloc: Global, texts: &Texts, ticks: bool) -> Result<bool, NoMemory> {
    for at in 0..texts.output.len() + 1 {
        if !is_cut(alloc, texts, at, ticks)? {
            return Ok(false);
        }
    }
    Ok(true)
}

// Whether it is in single bytes, and cut at each place, with ticks or without one.
fn is_answered(alloc: Global, texts: &Texts, ticks: bool) -> Result<bool, NoMemory> {
    Ok(is_cut_at_each(alloc, texts, ticks)? && is_single(alloc, texts, ticks)?)
}

pub fn is_edge(alloc: Global, row: &Cells) -> Result<bool, NoMemory> {
    let texts = Texts::new(alloc, row)?;
    let answered = is_answered(alloc, &texts, true)? && is_answered(alloc, &texts, false)?;
    Ok(row.len() == 11 && answered)
}

#[test]
fn outputs_about_8192_bytes(rt: HostRuntime) -> Result<(), Fail> {
    are_right(&rt, rt.alloc(), OUTPUTS, 3, Rows::Reply(ReplyRows::Edge))
}

#[test]
fn headers_about_8192_bytes(rt: HostRuntime) -> Result<(), Fail> {
    are_right(&rt, rt.alloc(), HEADERS, 3, Rows::Reply(ReplyRows::Edge))
}
