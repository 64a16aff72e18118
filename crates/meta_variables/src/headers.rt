// The variables that carry the fields of a request (RFC 3875 4.1.18).
ghost use Rattle.std.specs.Prelude.{◌≡◌, ◌++◌, ◌∷◌, [], ◌&&◌, true, filter, map, IfOk, OnOk, codes, string_bytes, take};
ghost use Rattle.std.specs.List.{list_any, list_all};
ghost use Rattle.std.specs.Str.{str_eq_ignore_ascii_case};
ghost use Rattle.meta_variables.specs.Variables.{is_kept};
ghost use Rattle.meta_variables.specs.HeaderVariables.{is_name_char, variable_char, variable_name, withheld_names, is_passed, name_of, separator_of, header_variable, header_variables};

use crate::text::joined_values;
use crate::variables::push_kept;
use host_base::{Field, NoMemory, Pairs, is_same_word};
use std::alloc::Global;

fn is_name_char(byte: u8) -> bool
    ensures { result ≡ is_name_char byte }
{
    byte.is_ascii_alphanumeric() || byte == b'-'
}

fn are_name_chars(name: &[u8]) -> bool
    ensures { result ≡ list_all is_name_char name.now }
{
    name.iter().all(|byte| is_name_char(*byte))
}

fn is_withheld(name: &[u8]) -> bool
    ensures { result ≡ list_any (str_eq_ignore_ascii_case name.now) withheld_names }
{
    is_same_word(name, b"Authorization")
        || is_same_word(name, b"Proxy-Authorization")
        || is_same_word(name, b"Proxy")
        || is_same_word(name, b"Content-Length")
        || is_same_word(name, b"Content-Type")
        || is_same_word(name, b"Transfer-Encoding")
        || is_same_word(name, b"Connection")
        || is_same_word(name, b"Expect")
        || is_same_word(name, b"Upgrade")
}

fn is_passed(name: &[u8]) -> bool
    ensures { result ≡ is_passed name.now }
{
    !is_withheld(name) && are_name_chars(name)
}

fn variable_char(byte: u8) -> u8
    ensures { result ≡ variable_char byte }
{
    if byte == b'-' {
        b'_'
    } else {
        byte.to_ascii_uppercase()
    }
}

fn variable_name(alloc: Global, name: &[u8]) -> Result<String, NoMemory>
    requires { list_all is_name_char name.now ≡ true }
    ensures { IfOk result (λ text. string_bytes text ≡ variable_name name.now) }
{
    let mut text = String::from_str(alloc, "HTTP_")?;
    for byte in name {
        text.push(char::from(variable_char(*byte)))?;
    }
    Ok(text)
}

fn separator_of(name: &[u8]) -> &'static str
    ensures { result.now ≡ separator_of name.now }
{
    if is_same_word(b"Cookie", name) {
        "; "
    } else {
        ", "
    }
}

// Adds the variable of a field's name.
fn push_variable(
    alloc: Global,
    variables: &mut Pairs,
    fields: &[Field],
    name: &[u8],
) -> Result<(), NoMemory>
    requires { is_passed name.now ≡ true }
    ensures { OnOk result (variables.new ≡ variables.old ++ filter is_kept (header_variable fields.now name.now ∷ [])) }
{
    let called = variable_name(alloc, name)?;
    let value = joined_values(alloc, fields, name, separator_of(name))?;
    push_kept(alloc, variables, called.as_str(), value.as_str())
}

// Whether a field before has the name, and is passed on.
fn is_repeated(before: &[Field], name: &[u8]) -> bool
    ensures { result ≡ list_any (λ f. is_passed f.name && str_eq_ignore_ascii_case f.name name.now) before.now }
{
    before.iter().any(|field| {
        is_passed(field.name.as_slice()) && is_same_word(field.name.as_slice(), name)
    })
}

// Adds the variables of the fields, by the first appearance of their names.
pub fn push_headers(alloc: Global, variables: &mut Pairs, fields: &[Field]) -> Result<(), NoMemory>
    ensures { OnOk result (variables.new ≡ variables.old ++ header_variables fields.now) }
{
    for (i, field) in fields.iter().enumerate() {
        let name = field.name.as_slice();
        if is_passed(name) && !is_repeated(&fields[..i], name) {
            push_variable(alloc, variables, fields, name)?;
        }
    }
    Ok(())
}
