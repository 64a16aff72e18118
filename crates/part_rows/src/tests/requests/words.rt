// Queries and their words, by the grammar of search strings.
// A table has a case a line, its words with a space between: `-` is no query and `_` an empty one.
use super::super::tables::{is, is_nothing, parts_of, repeated, value};
use super::launches::push_args;
use host_base::{NoMemory, Text};
use search_words::{Words, words_of};
use std::alloc::Global;
use std::test::Fail;

fn query(word: &[u8]) -> Option<&[u8]> {
    if is(word, b"-") {
        None
    } else {
        Some(value(word))
    }
}

// Whether these are the words with a bar after each.
fn are_shown(alloc: Global, args: &[Text], wanted: &[u8]) -> Result<bool, NoMemory> {
    let mut text = Vec::new(alloc);
    push_args(&mut text, args)?;
    Ok(is(text.as_slice(), wanted))
}

fn is_shown(alloc: Global, words: &Words, wanted: &[u8]) -> Result<bool, NoMemory> {
    match words {
        Words::Args(args) => are_shown(alloc, args.as_slice(), wanted),
        Words::Nothing => Ok(is(wanted, b"none")),
    }
}

fn words_of_query(alloc: Global, method: &[u8], word: &[u8]) -> Result<Words, NoMemory> {
    words_of(alloc, method, query(word))
}

// A method, a query and its words; `none` where there are no arguments.
const QUERIES: &str = "\
GET a+b%2Fc a|b/c|
HEAD a+b%2Fc a|b/c|
GET a a|
GET %3D =|
GET a%3Db a=b|
GET A-z0_.!~*'();/?:@&,$ A-z0_.!~*'();/?:@&,$|
GET %C3%A9+%c3%A9 é|é|
GET %2B+%25 +|%|
GET a%20b a b|
GET a++b none
GET ++ none
GET + none
GET +a none
GET a+ none
GET a=b none
GET a+b=c none
GET _ none
GET - none
GET %00 none
GET a+b%00c none
GET %C3%28 none
GET a+%FF none
GET a+%zz none
GET a+%2 none
GET % none
GET a\"b none
GET a#b none
GET a[b] none
GET é none
POST a+b none
get a+b none
PUT a none
_ a none";

// A method, and a query with what stands behind it.
fn is_right(alloc: Global, method: &str, rest: &str) -> Result<bool, NoMemory> {
    let (word, wanted) = parts_of(rest, " ");
    let given = words_of_query(alloc, method.as_bytes(), word.as_bytes())?;
    is_shown(alloc, &given, wanted.as_bytes())
}

fn is_right_line(alloc: Global, line: &str) -> Result<bool, NoMemory> {
    let (method, rest) = parts_of(line, " ");
    is_right(alloc, method, rest)
}

// The first wrong line of a table; nothing where none is.
fn wrong_line(alloc: Global, table: &'static str) -> Result<&'static str, NoMemory> {
    for line in table.lines() {
        if !is_right_line(alloc, line)? {
            return Ok(line);
        }
    }
    Ok("")
}

#[test]
fn queries(rt: HostRuntime) -> Result<(), Fail> {
    is_nothing(&rt, wrong_line(rt.alloc(), QUERIES)?);
    Ok(())
}

fn count_of(words: &Words) -> usize {
    match words {
        Words::Args(args) => args.len(),
        Words::Nothing => 0,
    }
}

// How many words `a` and so many more of it are.
fn count_given(alloc: Global, more: usize) -> Result<usize, NoMemory> {
    let text = repeated(alloc, b"a", b"+a", more, b"")?;
    Ok(count_of(&words_of_query(alloc, b"GET", text.as_slice())?))
}

#[test]
fn at_most_sixty_four(rt: HostRuntime) -> Result<(), NoMemory> {
    for (more, count) in [(0, 1), (63, 64), (64, 0), (4000, 0)] {
        assert!(&rt; count_given(rt.alloc(), more)? == count);
    }
    Ok(())
}
