// The values of Content-Length (RFC 9110 8.6). None of this takes memory.
ghost use Rattle.std.specs.Prelude.{◌≡◌, ◌^◌, nat_lt, Some, None, if◌then◌else◌};
ghost use Rattle.std.specs.List.{list_all};
ghost use Rattle.std.specs.Char.{is_ascii_digit};
ghost use Rattle.std.specs.Option.{option_copied};
ghost use Rattle.body_framing.specs.Framing.{is_length, length_digits, number_of, without_zeros, with_decimal};

use host_base::trim;

fn is_number(word: &[u8]) -> bool
    ensures { result ≡ list_all is_ascii_digit word.now }
{
    word.iter().all(|byte| byte.is_ascii_digit())
}

fn without_zeros(digits: &[u8]) -> &[u8]
    ensures { result.now ≡ without_zeros digits.now }
{
    let mut digits = digits;
    while let [b'0', rest @ ..] = digits {
        digits = rest;
    }
    digits
}

// The digits of a length, without blanks around them and without the zeros before them.
pub fn length_digits(value: &[u8]) -> Option<&[u8]>
    ensures { option_copied result ≡ length_digits value.now }
{
    let word = trim(value);
    if !word.is_empty() && is_number(word) {
        Some(without_zeros(word))
    } else {
        None
    }
}

// Whether a value names the length of these digits.
pub fn is_length(digits: &[u8], value: &[u8]) -> bool
    ensures { result ≡ is_length digits.now value.now }
{
    match length_digits(value) {
        Some(other) => digits == other,
        None => false,
    }
}

// One more digit of a number, where it fits.
fn with_decimal(number: u64, byte: u8) -> Option<u64>
    ensures { result ≡ (if nat_lt (with_decimal number byte) (2 ^ 64) then Some (with_decimal number byte) else None) }
{
    number
        .checked_mul(10)?
        .checked_add(u64::from(byte.saturating_sub(b'0')))
}

// The number that decimal digits write, where it fits.
pub fn number_of(digits: &[u8]) -> Option<u64>
    ensures { result ≡ (if nat_lt (number_of digits.now) (2 ^ 64) then Some (number_of digits.now) else None) }
{
    let mut number = 0_u64;
    for byte in digits {
        number = with_decimal(number, *byte)?;
    }
    Some(number)
}
