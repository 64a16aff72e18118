// The fields of a line.
ghost use Rattle.std.specs.Prelude.{◌≡◌, ◌+◌, ◌*◌, ◌^◌, ◌<◌, Some, None, nat_lt, map, drop, take, length, IfOk, IfSome, IfNone, ◌∷◌, [], if◌then◌else◌};
ghost use Rattle.std.specs.Char.{digit_value};
ghost use Rattle.std.specs.List.{position, slice_split};
ghost use Rattle.std.specs.Option.{option_copied};
ghost use Rattle.std.specs.Str.Parse.{digits_value};
ghost use Rattle.trace_text.specs.Reading.{at, byte_of, bytes_in, is_space, launch_in, now_of, number, pairs_in, text_by, text_in, unhex, utf8_of};

use host_base::{Bytes, Launch, NoMemory, Pair, Pairs, Text, Texts};
use std::alloc::Global;

// The value of a digit, in upper or lower case; 36 for any other byte.
fn digit_value(byte: u8) -> u8
    ensures { result ≡ digit_value byte }
{
    match byte {
        b'0'..=b'9' => byte - b'0',
        b'A'..=b'Z' => byte - b'A' + 10,
        b'a'..=b'z' => byte - b'a' + 10,
        _ => 36,
    }
}

fn with_digit(value: u128, byte: u8) -> Option<u128>
    ensures { result ≡ (if nat_lt (value * 10 + digit_value byte) (2 ^ 128) then Some (value * 10 + digit_value byte) else None) }
{
    value
        .checked_mul(10)?
        .checked_add(u128::from(digit_value(byte)))
}

pub fn wide_number(token: &[u8]) -> u128
    ensures { result ≡ number 128 token.now }
{
    let mut value = 0_u128;
    for byte in token {
        match with_digit(value, *byte) {
            Some(more) => value = more,
            None => return 0,
        }
    }
    value
}

pub fn long_number(token: &[u8]) -> u64
    ensures { result ≡ number 64 token.now }
{
    u64::try_from(wide_number(token)).unwrap_or(0)
}

pub fn number(token: &[u8]) -> u32
    ensures { result ≡ number 32 token.now }
{
    u32::try_from(wide_number(token)).unwrap_or(0)
}

pub fn short_number(token: &[u8]) -> u16
    ensures { result ≡ number 16 token.now }
{
    u16::try_from(wide_number(token)).unwrap_or(0)
}

fn byte_of(high: u8, low: u8) -> u8
    ensures { result ≡ byte_of high low }
{
    ((16 * u32::from(digit_value(high)) + u32::from(digit_value(low))) % 256) as u8
}

fn unhex(alloc: Global, digits: &[u8]) -> Result<Bytes, NoMemory>
    ensures { IfOk result (λ bytes. bytes ≡ unhex digits.now) }
{
    let mut bytes = Bytes::with_capacity(alloc, digits.len() / 2)?;
    let mut rest = digits;
    while let [high, low, more @ ..] = rest {
        bytes.push(byte_of(*high, *low))?;
        rest = more;
    }
    Ok(bytes)
}

pub fn bytes_in(alloc: Global, token: &[u8]) -> Result<Bytes, NoMemory>
    ensures { IfOk result (λ bytes. bytes ≡ bytes_in token.now) }
{
    match token {
        [_, digits @ ..] => unhex(alloc, digits),
        [] => Ok(Bytes::new(alloc)),
    }
}

fn as_text(bytes: &[u8]) -> Option<&str>
    ensures { option_copied result ≡ utf8_of bytes.now }
{
    str::from_utf8(bytes).ok()
}

// The text that bytes are, or the empty one.
fn text_by(alloc: Global, bytes: &[u8]) -> Result<Text, NoMemory>
    ensures { IfOk result (λ text. text ≡ text_by bytes.now) }
{
    match as_text(bytes) {
        Some(text) => Ok(Text::copy_of(alloc, text)?),
        None => Ok(Text::copy_of(alloc, "")?),
    }
}

pub fn text_in(alloc: Global, token: &[u8]) -> Result<Text, NoMemory>
    ensures { IfOk result (λ text. text ≡ text_in token.now) }
{
    let bytes = bytes_in(alloc, token)?;
    text_by(alloc, bytes.as_slice())
}

// The token with this number, or the empty one.
pub fn at<'t>(tokens: &[&'t [u8]], i: usize) -> &'t [u8]
    ensures { result.now ≡ at (map now_of tokens.now) i }
{
    if i < tokens.len() { tokens[i] } else { &[] }
}

// The tokens behind so many.
pub fn behind<'s, 't>(tokens: &'s [&'t [u8]], count: u64) -> &'s [&'t [u8]]
    ensures { map now_of result.now ≡ drop count (map now_of tokens.now) }
{
    if count < tokens.len() as u64 {
        &tokens[count as usize..]
    } else {
        &[]
    }
}

// So many tokens, or all.
fn front<'s, 't>(tokens: &'s [&'t [u8]], count: u64) -> &'s [&'t [u8]]
    ensures { map now_of result.now ≡ take count (map now_of tokens.now) }
{
    if count < tokens.len() as u64 {
        &tokens[..count as usize]
    } else {
        tokens
    }
}

pub fn texts_in(alloc: Global, tokens: &[&[u8]]) -> Result<Texts, NoMemory>
    ensures { IfOk result (λ texts. texts ≡ map text_in (map now_of tokens.now)) }
{
    let mut texts = Texts::new(alloc);
    let mut rest = tokens;
    while let [token, more @ ..] = rest {
        texts.push(text_in(alloc, token)?)?;
        rest = more;
    }
    Ok(texts)
}

fn pair_in(alloc: Global, name: &[u8], value: &[u8]) -> Result<Pair, NoMemory>
    ensures { IfOk result (λ pair. pair ≡ record { name = text_in name.now; value = text_in value.now }) }
{
    Ok(Pair {
        name: text_in(alloc, name)?,
        value: text_in(alloc, value)?,
    })
}

fn pairs_in(alloc: Global, tokens: &[&[u8]]) -> Result<Pairs, NoMemory>
    ensures { IfOk result (λ pairs. pairs ≡ pairs_in (map now_of tokens.now)) }
{
    let mut pairs = Pairs::new(alloc);
    let mut rest = tokens;
    while let [name, value, more @ ..] = rest {
        pairs.push(pair_in(alloc, name, value)?)?;
        rest = more;
    }
    Ok(pairs)
}

pub fn launch_in(alloc: Global, tokens: &[&[u8]]) -> Result<Launch, NoMemory>
    ensures { IfOk result (λ launch. launch ≡ launch_in (map now_of tokens.now)) }
{
    let count = long_number(at(tokens, 2));
    let lists = behind(tokens, 3);
    Ok(Launch {
        program: text_in(alloc, at(tokens, 0))?,
        dir: text_in(alloc, at(tokens, 1))?,
        args: texts_in(alloc, front(lists, count))?,
        env: pairs_in(alloc, behind(behind(lists, count), 1))?,
    })
}

fn space_at(line: &[u8]) -> Option<usize>
    ensures { result ≡ position is_space line.now }
{
    line.iter().position(|byte| *byte == b' ')
}

// The part before the first space, and what follows it.
fn cut_at_space(line: &[u8]) -> Option<(&[u8], &[u8])>
    ensures alone { IfNone result (slice_split is_space line.now ≡ line.now ∷ []) }
    ensures parts { IfSome result (λ cut. slice_split is_space line.now ≡ cut.0.now ∷ slice_split is_space cut.1.now) }
    ensures shorter { IfSome result (λ cut. length cut.1.now < length line.now) }
{
    match space_at(line) {
        Some(at) => Some((&line[..at], &line[at + 1..])),
        None => None,
    }
}

// The tokens of a line.
pub fn tokens_of<'t>(alloc: Global, line: &'t [u8]) -> Result<Vec<&'t [u8]>, NoMemory>
    ensures { IfOk result (λ tokens. map now_of tokens.items ≡ slice_split is_space line.now) }
{
    let mut tokens = Vec::new(alloc);
    let mut rest = line;
    while let Some((token, more)) = cut_at_space(rest) {
        tokens.push(token)?;
        rest = more;
    }
    tokens.push(rest)?;
    Ok(tokens)
}
