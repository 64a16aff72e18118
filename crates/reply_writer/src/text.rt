// The text of a head and of a whole reply.
ghost use Rattle.std.specs.Prelude.{◌≡◌, ◌+◌, ◌-◌, ◌^◌, ◌++◌, min, length, flat_map, codes, decimal, IfOk, OnOk, ℕ, Option, option_copied, option_map};
ghost use Rattle.host_base.specs.declared.request.Version.{Version};
ghost use Rattle.reply_writer.specs.Dates.{date_text_of};
ghost use Rattle.reply_writer.specs.Spelling.{closing_fields, date_value, dated, dated_fields, field_line, framing_fields, head_text_of, is_head_alone, status_line, whole_text_of};
ghost use Rattle.reply_writer.specs.WholeReply.{Spells};
ghost use Rattle.reply_writer.specs.WholeRules.{known_way};

use super::{DateText, Shape};
use host_base::{Bytes, Field, Fields, NoMemory, Reply};
use itoa::Buffer;
use std::alloc::Global;

// Room for the status line without its phrase, 17 bytes at most, the Date field, 37, the framing field, 38 at
// most, `Connection: close`, 19, and the empty line, 2.
const FIXED_ROOM: usize = 113;

// What stands in a field line beside the name and the value: `: ` and the line end.
const LINE_ROOM: usize = 4;

// Statuses whose replies have no body (RFC 9110 15.3.5 and 15.4.5).
const NO_CONTENT: u16 = 204;

const NOT_MODIFIED: u16 = 304;

// What ends a head (RFC 9112 2.1).
const EMPTY_LINE: &[u8] = b"\r\n";

/// The text of a reply's head, up to and with the empty line (RFC 9112 2.1). `shape` says how what
/// follows is framed, `close` whether the connection closes after this reply (RFC 9112 9.6). The date
/// stands after the reply's fields, unless one of these is named Date (RFC 9110 6.6.1).
pub fn head_text(
    alloc: Global,
    reply: &Reply,
    shape: Shape,
    close: bool,
    date: Option<&DateText>,
) -> Result<Bytes, NoMemory>
    ensures { IfOk result (λ text. text ≡ head_text_of (dated (date_value (option_copied date.entry)) reply.now) shape close) }
{
    let mut text = Bytes::with_capacity(alloc, head_room(reply))?;
    push_head(&mut text, reply, shape, close, date)?;
    Ok(text)
}

/// The text of a whole reply: its head with `Content-Length`, and its body. `head_only` says that the
/// reply is to HEAD: then, as with 204 and 304, the head stands alone and has no framing field
/// (RFC 9110 6.4.1, RFC 9112 6.3). `close` and `date` are those of `head_text`.
pub fn whole_text(
    alloc: Global,
    reply: &Reply,
    head_only: bool,
    close: bool,
    date: Option<&DateText>,
) -> Result<Bytes, NoMemory>
    ensures text { IfOk result (λ text. text ≡ whole_text_of (dated (date_value (option_copied date.entry)) reply.now) head_only close) }
    ensures spells { IfOk result (λ text. (version : Version) (stamp : Option ℕ) → date_value (option_copied date.entry) ≡ option_map date_text_of stamp
        → Spells text (known_way version head_only close stamp) reply.now) }
{
    if stands_alone(reply, head_only) {
        head_text(alloc, reply, Shape::Bare, close, date)
    } else {
        text_with_body(alloc, reply, close, date)
    }
}

// Whether nothing follows the head.
fn stands_alone(reply: &Reply, head_only: bool) -> bool
    ensures { result ≡ is_head_alone reply.now head_only }
{
    head_only || reply.status == NO_CONTENT || reply.status == NOT_MODIFIED
}

fn text_with_body(
    alloc: Global,
    reply: &Reply,
    close: bool,
    date: Option<&DateText>,
) -> Result<Bytes, NoMemory>
    ensures { IfOk result (λ text. text ≡ head_text_of (dated (date_value (option_copied date.entry)) reply.now) (Shape.Length (length reply.now.body)) close ++ reply.now.body) }
{
    let body = reply.body.as_slice();
    let room = head_room(reply).saturating_add(body.len());
    let mut text = Bytes::with_capacity(alloc, room)?;
    push_head(
        &mut text,
        reply,
        Shape::Length(body.len() as u64),
        close,
        date,
    )?;
    text.extend_from_slice(body)?;
    Ok(text)
}

// Room enough for any head of the reply.
fn head_room(reply: &Reply) -> usize
    ensures { result ≡ min (length (flat_map field_line reply.now.fields) + length reply.now.phrase + FIXED_ROOM) usize.MAX }
{
    fields_len(reply.fields.as_slice())
        .saturating_add(reply.phrase.len())
        .saturating_add(FIXED_ROOM)
}

// How long the field lines are, or the greatest number where they are longer.
fn fields_len(fields: &[Field]) -> usize
    ensures { result ≡ min (length (flat_map field_line fields.now)) usize.MAX }
{
    let mut len: usize = 0;
    for field in fields {
        len = len
            .saturating_add(field.name.len())
            .saturating_add(field.value.len())
            .saturating_add(LINE_ROOM);
    }
    len
}

fn push_head(
    text: &mut Bytes,
    reply: &Reply,
    shape: Shape,
    close: bool,
    date: Option<&DateText>,
) -> Result<(), NoMemory>
    ensures { OnOk result (text.new ≡ text.old ++ head_text_of (dated (date_value (option_copied date.entry)) reply.now) shape close) }
{
    push_status_line(text, reply)?;
    push_dated_fields(text, &reply.fields, date)?;
    push_framing(text, shape)?;
    push_closing(text, close)?;
    text.extend_from_slice(EMPTY_LINE)
}

fn push_status_line(text: &mut Bytes, reply: &Reply) -> Result<(), NoMemory>
    ensures { OnOk result (text.new ≡ text.old ++ status_line reply.now) }
{
    text.extend_from_slice(b"HTTP/1.1 ")?;
    push_number(text, u64::from(reply.status))?;
    text.push(b' ')?;
    text.extend_from_slice(reply.phrase.as_slice())?;
    text.extend_from_slice(b"\r\n")
}

fn push_fields(text: &mut Bytes, fields: &[Field]) -> Result<(), NoMemory>
    ensures { OnOk result (text.new ≡ text.old ++ flat_map field_line fields.now) }
{
    for field in fields {
        push_field(text, field.name.as_slice(), field.value.as_slice())?;
    }
    Ok(())
}

// The field lines, and after them the Date where it is wanted.
fn push_dated_fields(
    text: &mut Bytes,
    fields: &Fields,
    date: Option<&DateText>,
) -> Result<(), NoMemory>
    ensures { OnOk result (text.new ≡ text.old ++ flat_map field_line (dated_fields (date_value (option_copied date.entry)) fields.now)) }
{
    push_fields(text, fields.as_slice())?;
    match date {
        Some(date) if fields.count_named(b"Date") == 0 => push_field(text, b"Date", &date.text),
        _ => Ok(()),
    }
}

fn push_framing(text: &mut Bytes, shape: Shape) -> Result<(), NoMemory>
    ensures { OnOk result (text.new ≡ text.old ++ flat_map field_line (framing_fields shape)) }
{
    match shape {
        Shape::Length(n) => {
            let mut digits = Buffer::new();
            push_field(text, b"Content-Length", digits.format(n).as_bytes())
        }
        Shape::Chunked => push_field(text, b"Transfer-Encoding", b"chunked"),
        Shape::Bare | Shape::ToClose => Ok(()),
    }
}

fn push_closing(text: &mut Bytes, close: bool) -> Result<(), NoMemory>
    ensures { OnOk result (text.new ≡ text.old ++ flat_map field_line (closing_fields close)) }
{
    if close {
        push_field(text, b"Connection", b"close")?;
    }
    Ok(())
}

fn push_field(text: &mut Bytes, name: &[u8], value: &[u8]) -> Result<(), NoMemory>
    ensures { OnOk result (text.new ≡ text.old ++ (name.now ++ codes ": " ++ value.now ++ codes "\r\n")) }
{
    text.extend_from_slice(name)?;
    text.extend_from_slice(b": ")?;
    text.extend_from_slice(value)?;
    text.extend_from_slice(b"\r\n")
}

// Adds a number in decimal digits.
pub(super) fn push_number(text: &mut Bytes, number: u64) -> Result<(), NoMemory>
    ensures { OnOk result (text.new ≡ text.old ++ decimal number) }
{
    let mut digits = Buffer::new();
    text.extend_from_slice(digits.format(number).as_bytes())
}
