// Decimal numbers of 1 to 18 digits. None of this takes memory.
ghost use Rattle.std.specs.Prelude.{◌≡◌, true};
ghost use Rattle.std.specs.Char.{is_ascii_digit};
ghost use Rattle.std.specs.List.{list_all};
ghost use Rattle.std.specs.Str.Parse.{digits_value};
ghost use Rattle.document_output.specs.Numbers.{is_number, number_in};

/// The most digits of a number.
pub const MOST_DIGITS: usize = 18;

fn are_digits(bytes: &[u8]) -> bool
    ensures { result ≡ list_all is_ascii_digit bytes.now }
{
    bytes.iter().all(|byte| byte.is_ascii_digit())
}

fn is_number(bytes: &[u8]) -> bool
    ensures { result ≡ is_number bytes.now }
{
    !bytes.is_empty() && bytes.len() <= MOST_DIGITS && are_digits(bytes)
}

fn value_of(digits: &[u8]) -> u64
    requires { is_number digits.now ≡ true }
    ensures { result ≡ digits_value 10 digits.now }
{
    let mut value = 0_u64;
    for digit in digits {
        value = value * 10 + u64::from(*digit - b'0');
    }
    value
}

// The number that the bytes write, where they are one.
pub fn number_in(bytes: &[u8]) -> Option<u64>
    ensures { result ≡ number_in bytes.now }
{
    if is_number(bytes) {
        Some(value_of(bytes))
    } else {
        None
    }
}
