// The search words of a query (RFC 3875 4.4).
ghost use Rattle.std.specs.Prelude.{◌≡◌, ◌+◌, ◌++◌, [], ◌∷◌, length, IfOk, OnErr, IsTrue, count_by, ◌&&◌, Some, is_some, option_map};
ghost use Rattle.std.specs.List.{list_any, list_all, slice_split};
ghost use Rattle.std.specs.Option.{option_copied};
ghost use Rattle.search_words.specs.SearchWords.{is_plus, is_few, is_search_method, search_words_of, words_in, asks_for_words};

use crate::word::{cut_at_plus, word_of};
use host_base::{NoMemory, Text, Texts};
use std::alloc::Global;

/// The most arguments that a query gives.
pub const MOST_WORDS: usize = 64;

/// The command-line arguments of a request.
#[derive(Drop, Debug)]
pub enum Words {
    /// The words of the query, decoded, in their order.
    Args(Texts),
    /// The query is no search string, or it is not asked for by GET or HEAD.
    Nothing,
}

fn is_search_method(method: &[u8]) -> bool
    ensures { result ≡ is_search_method method.now }
{
    method == b"GET".as_slice() || method == b"HEAD".as_slice()
}

fn plus_count(query: &[u8]) -> usize
    ensures { result ≡ count_by is_plus query.now }
{
    query.iter().filter(|byte| **byte == b'+').count()
}

// Whether there are at most `MOST_WORDS` parts between `+`. It takes no memory.
fn is_few(query: &[u8]) -> bool
    ensures { result ≡ is_few query.now }
{
    plus_count(query) < MOST_WORDS
}

// All words of a query, or none.
fn search_words(alloc: Global, query: &[u8]) -> Result<Option<Texts>, NoMemory>
    ensures { IfOk result (λ words. words ≡ search_words_of query.now) }
{
    let mut words = Texts::new(alloc);
    let mut rest = query;
    while let Some((part, more)) = cut_at_plus(rest) {
        let Some(word) = word_of(alloc, part)? else {
            return Ok(None);
        };
        words.push(word)?;
        rest = more;
    }
    let Some(word) = word_of(alloc, rest)? else {
        return Ok(None);
    };
    words.push(word)?;
    Ok(Some(words))
}

/// The arguments of a script (RFC 3875 4.4): the words of the query between `+`, decoded, where the method is
/// GET or HEAD and the whole query is at most `MOST_WORDS` search words. `Nothing` where there is no query, a
/// part of it is empty or has another byte (so `=` too), or a word decodes to a NUL or to no UTF-8.
pub fn words_of(alloc: Global, method: &[u8], query: Option<&[u8]>) -> Result<Words, NoMemory>
    ensures exact { IfOk result (λ words. words ≡ words_in method.now (option_copied query.entry)) }
    // Nothing else takes memory.
    ensures memory { OnErr result (IsTrue (asks_for_words method.now (option_copied query.entry))) }
{
    let Some(query) = query else {
        return Ok(Words::Nothing);
    };
    if !is_search_method(method) || !is_few(query) {
        return Ok(Words::Nothing);
    }
    match search_words(alloc, query)? {
        Some(words) => Ok(Words::Args(words)),
        None => Ok(Words::Nothing),
    }
}
