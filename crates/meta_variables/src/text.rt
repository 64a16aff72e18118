// The text that a value is given as.
ghost use Rattle.std.specs.Prelude.{◌≡◌, ◌++◌, ◌<◌, true, filter, map, length, string_bytes, IfOk, OnOk, IsTrue, encode_utf8, is_some};
ghost use Rattle.std.specs.List.{flat_map};
ghost use Rattle.std.specs.Str.{is_utf8};
ghost use Rattle.httparse.specs.Grammar.{trim_ows};
ghost use Rattle.host_base.specs.FieldLists.{values_named};
ghost use Rattle.meta_variables.specs.Variables.{as_text, value_text, joined_values};
ghost use Rattle.meta_variables.specs.Parts.{joined_more};

use host_base::{Field, NoMemory, Text, is_same_word, trim};
use std::alloc::Global;

// The bytes as characters of ISO 8859-1.
fn push_latin1(text: &mut String, bytes: &[u8]) -> Result<(), NoMemory>
    ensures { OnOk result (string_bytes text.new ≡ string_bytes text.old ++ flat_map encode_utf8 bytes.now) }
{
    for byte in bytes {
        text.push(char::from(*byte))?;
    }
    Ok(())
}

// Adds bytes, which are read as ISO 8859-1 where they are no UTF-8 (RFC 9110 5.5).
fn push_text(text: &mut String, bytes: &[u8]) -> Result<(), NoMemory>
    ensures { OnOk result (string_bytes text.new ≡ string_bytes text.old ++ as_text bytes.now) }
{
    match str::from_utf8(bytes) {
        Ok(more) => {
            text.push_str(more)?;
            Ok(())
        }
        Err(_) => push_latin1(text, bytes),
    }
}

// A value as a text, without blanks around it.
pub fn value_text(alloc: Global, value: &[u8]) -> Result<String, NoMemory>
    ensures { IfOk result (λ text. string_bytes text ≡ value_text value.now) }
{
    let mut text = String::new(alloc);
    push_text(&mut text, trim(value))?;
    Ok(text)
}

// Adds a value to those that are joined.
fn push_joined(text: &mut String, separator: &str, value: &[u8]) -> Result<(), NoMemory>
    ensures { OnOk result (string_bytes text.new ≡ joined_more separator.now (string_bytes text.old) (trim_ows value.now)) }
{
    let value = trim(value);
    if value.is_empty() {
        return Ok(());
    }
    if text.len() > 0 {
        text.push_str(separator)?;
    }
    push_text(text, value)
}

// All values of a field as one text.
pub fn joined_values(
    alloc: Global,
    fields: &[Field],
    name: &[u8],
    separator: &str,
) -> Result<String, NoMemory>
    ensures { IfOk result (λ text. string_bytes text ≡ joined_values separator.now (values_named name.now fields.now)) }
{
    let mut text = String::new(alloc);
    for field in fields {
        if is_same_word(name, field.name.as_slice()) {
            push_joined(&mut text, separator, field.value.as_slice())?;
        }
    }
    Ok(text)
}

// Bytes that are known to be a text.
pub fn known_text(bytes: &[u8]) -> &str
    requires { is_utf8 bytes.now ≡ true }
    ensures { result.now ≡ bytes.now }
{
    match str::from_utf8(bytes) {
        Ok(text) => text,
        Err(_) => unreachable!(),
    }
}
