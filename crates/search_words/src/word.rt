// One search word (RFC 3875 4.4).
ghost use Rattle.std.specs.Prelude.{◌≡◌, ◌<◌, length, ◌∷◌, [], ◌&&◌, IfOk, OnErr, IfNone, IfSome, IsTrue, option_map, string_bytes, position};
ghost use Rattle.std.specs.Cow.{cow_str_bytes};
ghost use Rattle.std.specs.List.{list_any, list_all, slice_split};
ghost use Rattle.search_words.specs.SearchWords.{is_plus, is_word_mark, is_word_byte, has_word_bytes, word_of};
ghost use Rattle.script_map.specs.Mapping.{is_nul, decoded_text};

use host_base::{NoMemory, Text};
use script_map::decode_text;
use std::alloc::Global;
use std::borrow::CowStr;

fn is_word_mark(byte: u8) -> bool
    ensures { result ≡ is_word_mark byte }
{
    b"-_.!~*'();/?:@&,$".contains(&byte)
}

fn is_word_byte(byte: u8) -> bool
    ensures { result ≡ is_word_byte byte }
{
    byte.is_ascii_alphanumeric() || is_word_mark(byte) || byte == b'%'
}

fn are_word_bytes(bytes: &[u8]) -> bool
    ensures { result ≡ list_all is_word_byte bytes.now }
{
    bytes.iter().all(|byte| is_word_byte(*byte))
}

// Whether a part of a query has the bytes of a search word. None of this takes memory.
fn has_word_bytes(part: &[u8]) -> bool
    ensures { result ≡ has_word_bytes part.now }
{
    !part.is_empty() && are_word_bytes(part)
}

fn has_nul(bytes: &[u8]) -> bool
    ensures { result ≡ list_any is_nul bytes.now }
{
    bytes.iter().any(|byte| *byte == 0)
}

fn plus_at(query: &[u8]) -> Option<usize>
    ensures { result ≡ position is_plus query.now }
{
    query.iter().position(|byte| *byte == b'+')
}

// The part before the first `+`, and what follows it.
pub fn cut_at_plus(query: &[u8]) -> Option<(&[u8], &[u8])>
    ensures alone { IfNone result (slice_split is_plus query.now ≡ query.now ∷ []) }
    ensures parts { IfSome result (λ cut. slice_split is_plus query.now ≡ cut.0.now ∷ slice_split is_plus cut.1.now) }
    ensures shorter { IfSome result (λ cut. length cut.1.now < length query.now) }
{
    match plus_at(query) {
        Some(at) => Some((&query[..at], &query[at + 1..])),
        None => None,
    }
}

fn owned(alloc: Global, text: CowStr<'_, Global>) -> Result<Text, NoMemory>
    ensures { IfOk result (λ owned. owned ≡ cow_str_bytes text.entry) }
{
    Ok(Text::from_string(text.into_owned(alloc)?))
}

// A part of a query, decoded where it is a search word.
pub fn word_of(alloc: Global, part: &[u8]) -> Result<Option<Text>, NoMemory>
    ensures exact { IfOk result (λ word. word ≡ word_of part.now) }
    ensures memory { OnErr result (IsTrue (has_word_bytes part.now)) }
{
    if !has_word_bytes(part) {
        return Ok(None);
    }
    let Some(text) = decode_text(alloc, part)? else {
        return Ok(None);
    };
    if has_nul(text.as_str().as_bytes()) {
        return Ok(None);
    }
    Ok(Some(owned(alloc, text)?))
}
