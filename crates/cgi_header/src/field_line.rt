// One line of a header: the field that it is (RFC 3875 6.3, RFC 9112 5).
ghost use Rattle.std.specs.Prelude.{◌≡◌, IfOk, position};
ghost use Rattle.std.specs.List.{list_all};
ghost use Rattle.httparse.specs.Grammar.{is_token, is_token_byte, is_value_byte};
ghost use Rattle.head_reader.specs.RequestHead.{field_of, is_colon};

use host_base::{Bytes, Field, NoMemory, trim};
use std::alloc::Global;

// Where the first colon stands.
fn colon_at(line: &[u8]) -> Option<usize>
    ensures { result ≡ position is_colon line.now }
{
    line.iter().position(|byte| *byte == b':')
}

#[tactic(auto, unfolding(httparse::specs::Grammar::is_token_byte))]
fn is_token_byte(byte: u8) -> bool
    ensures { result ≡ is_token_byte byte }
{
    byte.is_ascii_alphanumeric() || b"!#$%&'*+-.^_`|~".contains(&byte)
}

fn are_token_bytes(bytes: &[u8]) -> bool
    ensures { result ≡ list_all is_token_byte bytes.now }
{
    bytes.iter().all(|byte| is_token_byte(*byte))
}

// Whether it is a token (RFC 9110 5.6.2).
fn is_token(word: &[u8]) -> bool
    ensures { result ≡ is_token word.now }
{
    word.len() > 0 && are_token_bytes(word)
}

// Whether each byte may stand in a value.
fn is_value(bytes: &[u8]) -> bool
    ensures { result ≡ list_all is_value_byte bytes.now }
{
    bytes
        .iter()
        .all(|byte| *byte == b'\t' || (*byte >= b' ' && *byte != 0x7f))
}

// The field of a line without its end, or None where it is no field line.
pub fn read_field(alloc: Global, line: &[u8]) -> Result<Option<Field>, NoMemory>
    ensures { IfOk result (λ field. field ≡ field_of line.now) }
{
    let Some(at) = colon_at(line) else {
        return Ok(None);
    };
    let name = &line[..at];
    let value = &line[at + 1..];
    if !is_token(name) || !is_value(value) {
        return Ok(None);
    }
    Ok(Some(Field {
        name: Bytes::from_slice(alloc, name)?,
        value: Bytes::from_slice(alloc, trim(value))?,
    }))
}
