// The value of Status (RFC 3875 6.3.3).
ghost use Rattle.std.specs.Prelude.{◌≡◌, ◌≤◌, take, IfOk, IfSome, Some, None, option_map, is_some, length, if◌then◌else◌};
ghost use Rattle.std.specs.Str.Parse.{digits_value};
ghost use Rattle.cgi_header.specs.ScriptHeader.{are_three_digits, is_final, is_set_off, status_of};

use crate::Given;
use host_base::{Bytes, NoMemory, decimal_digit, trim};
use std::alloc::Global;

// The number that three digits at the front write.
fn three_digits(value: &[u8]) -> Option<u16>
    ensures { result ≡ (if are_three_digits (take 3 value.now) then Some (digits_value 10 (take 3 value.now)) else None) }
{
    let [hundreds, tens, ones, ..] = value else {
        return None;
    };
    let hundreds = u16::from(decimal_digit(*hundreds)?);
    let tens = u16::from(decimal_digit(*tens)?);
    let ones = u16::from(decimal_digit(*ones)?);
    Some(hundreds * 100 + tens * 10 + ones)
}

fn is_final(code: u16) -> bool
    ensures { result ≡ is_final code }
{
    200 <= code && code <= 599
}

// Whether nothing follows a code, or a blank first.
fn is_set_off(phrase: &[u8]) -> bool
    ensures { result ≡ is_set_off phrase.now }
{
    match phrase {
        [first, ..] => *first == b' ' || *first == b'\t',
        [] => true,
    }
}

// The code of a Status value.
fn status_code(value: &[u8]) -> Option<u16>
    ensures code { result ≡ option_map (λ given. given.code) (status_of value.now) }
    ensures within { IfSome result (λ _. 3 ≤ length value.now) }
{
    match three_digits(value) {
        Some(code) if is_final(code) && is_set_off(&value[3..]) => Some(code),
        _ => None,
    }
}

// Whether the value is one of Status.
pub fn is_status(value: &[u8]) -> bool
    ensures { result ≡ is_some (status_of value.now) }
{
    status_code(value).is_some()
}

// What a value says, where it is one of Status.
pub fn read_status(alloc: Global, value: &[u8]) -> Result<Option<Given>, NoMemory>
    ensures { IfOk result (λ given. given ≡ status_of value.now) }
{
    match status_code(value) {
        Some(code) => Ok(Some(Given {
            code,
            phrase: Bytes::from_slice(alloc, trim(&value[3..]))?,
        })),
        None => Ok(None),
    }
}
