// The host's own replies.
ghost use Rattle.std.specs.Prelude.{◌≡◌, [], ◌∷◌, ◌++◌, codes, IfOk, OnOk};
ghost use Rattle.host_base.specs.CauseText.{text_of};
ghost use Rattle.reply_writer.specs.FaultReply.{fault_reply_of, fault_text, text_number, upgrade_fields};
ghost use Rattle.reply_writer.specs.Spelling.{named_field};

use super::phrases::phrase;
use super::text::push_number;
use host_base::{Bytes, Cause, Field, Fields, NoMemory, Reply};
use std::alloc::Global;

// Room for a number of 32 bits and a line end.
const NUMBER_ROOM: usize = 11;

/// The reply for a cause: its text as a line of `text/plain`. A client that should have asked for a
/// WebSocket is told how to (RFC 9110 15.5.22, RFC 6455 4.4).
pub fn fault_reply(alloc: Global, cause: Cause) -> Result<Reply, NoMemory>
    ensures { IfOk result (λ reply. reply ≡ fault_reply_of cause) }
{
    let status = cause.status();
    Ok(Reply {
        status,
        phrase: Bytes::from_slice(alloc, phrase(status))?,
        fields: fault_fields(alloc, cause)?,
        body: fault_body(alloc, cause)?,
    })
}

/// The answer for a cause in the form of a script's output (RFC 3875 6.3), as a gateway is given it: its status,
/// its type, and its text as a line.
pub fn fault_text(alloc: Global, cause: Cause) -> Result<Bytes, NoMemory>
    ensures { IfOk result (λ text. text ≡ fault_text cause) }
{
    let reply = fault_reply(alloc, cause)?;
    let mut text = Bytes::from_slice(alloc, b"Status: ")?;
    push_number(&mut text, u64::from(reply.status))?;
    text.extend_from_slice(b" ")?;
    text.extend_from_slice(reply.phrase.as_slice())?;
    text.extend_from_slice(b"\r\nContent-Type: text/plain\r\n\r\n")?;
    text.extend_from_slice(reply.body.as_slice())?;
    Ok(text)
}

fn fault_fields(alloc: Global, cause: Cause) -> Result<Fields, NoMemory>
    ensures { IfOk result (λ fields. fields ≡ (fault_reply_of cause).fields) }
{
    let mut fields = Fields::with_capacity(alloc, 4)?;
    push_cause_fields(alloc, &mut fields, cause)?;
    push_field(alloc, &mut fields, b"Content-Type", b"text/plain")?;
    Ok(fields)
}

// What is said for this cause alone.
fn push_cause_fields(alloc: Global, fields: &mut Fields, cause: Cause) -> Result<(), NoMemory>
    ensures { OnOk result (fields.new ≡ fields.old ++ upgrade_fields cause) }
{
    match cause {
        Cause::UpgradeNeeded => push_upgrade_fields(alloc, fields),
        _ => Ok(()),
    }
}

fn push_upgrade_fields(alloc: Global, fields: &mut Fields) -> Result<(), NoMemory>
    ensures { OnOk result (fields.new ≡ fields.old ++ upgrade_fields Cause.UpgradeNeeded) }
{
    push_field(alloc, fields, b"Upgrade", b"websocket")?;
    push_field(alloc, fields, b"Connection", b"Upgrade")?;
    push_field(alloc, fields, b"Sec-WebSocket-Version", b"13")
}

fn push_field(alloc: Global, fields: &mut Fields, name: &[u8], value: &[u8]) -> Result<(), NoMemory>
    ensures { OnOk result (fields.new ≡ fields.old ++ named_field name.now value.now ∷ []) }
{
    let name = Bytes::from_slice(alloc, name)?;
    let value = Bytes::from_slice(alloc, value)?;
    fields.push(Field { name, value })
}

// The text of the cause, for `Full` with its number, and a line end.
fn fault_body(alloc: Global, cause: Cause) -> Result<Bytes, NoMemory>
    ensures { IfOk result (λ body. body ≡ text_of cause ++ text_number cause ++ codes "\n") }
{
    let text = cause.text();
    let mut body = Bytes::with_capacity(alloc, text.len().saturating_add(NUMBER_ROOM))?;
    body.extend_from_slice(text.as_bytes())?;
    push_text_number(&mut body, cause)?;
    body.push(b'\n')?;
    Ok(body)
}

fn push_text_number(body: &mut Bytes, cause: Cause) -> Result<(), NoMemory>
    ensures { OnOk result (body.new ≡ body.old ++ text_number cause) }
{
    match cause {
        Cause::Full { seen } => push_number(body, u64::from(seen)),
        _ => Ok(()),
    }
}
