// The text of a trace, both ways.
ghost use Rattle.std.specs.Prelude.{◌≡◌, ◌≤◌, ◌<◌, ◌+◌, ◌∷◌, [], true, length, Ok, count_by, IfOk, IfSome, IfNone};
ghost use Rattle.std.specs.List.{position, slice_split};
ghost use Rattle.trace_text.specs.Reading.{Reads, ReadsAs, event_only, is_lf, item_at, lines_in, trace_in};
ghost use Rattle.trace_text.specs.Spelling.{begins_with_event, text_of};

use crate::fault::TextFault;
use crate::known::items_are_known;
use crate::read::item_in;
use crate::spelling::push_item;
use host_base::{NoMemory, Text};
use host_trace::{Item, Items};
use std::alloc::Global;

/// The most items of a trace that a text is read as.
pub const MOST_ITEMS: usize = 2048;

fn text_of(alloc: Global, items: &[Item]) -> Result<Text, NoMemory>
    ensures { IfOk result (λ text. text ≡ text_of items.now) }
{
    let mut text = String::new(alloc);
    for item in items {
        push_item(&mut text, item)?;
    }
    Ok(Text::from_string(text))
}

/// The text of a trace: a line for each item, each ended by LF. A trace of `MOST_ITEMS` items at most that begins with an
/// event is read back from it.
pub fn trace_text(alloc: Global, items: &Items) -> Result<Text, NoMemory>
    ensures text { IfOk result (λ text. text ≡ text_of items.now) }
    ensures back { IfOk result (λ text. begins_with_event items.now ≡ true → length items.now ≤ 2048 → trace_in text ≡ Ok items.now) }
{
    items_are_known(items.as_slice());
    text_of(alloc, items.as_slice())
}

fn event_only(item: Option<Item>) -> Option<Item>
    ensures { result ≡ event_only item }
{
    match item {
        Some(Item::In(event)) => Some(Item::In(event)),
        _ => None,
    }
}

// The item of the line with this number: the first is an event's.
fn item_at(alloc: Global, number: u32, line: &[u8]) -> Result<Option<Item>, NoMemory>
    ensures { IfOk result (λ item. item ≡ item_at number line.now) }
{
    let item = item_in(alloc, line)?;
    if number == 0 {
        Ok(event_only(item))
    } else {
        Ok(item)
    }
}

fn line_count(text: &[u8]) -> usize
    ensures { result ≡ count_by is_lf text.now }
{
    text.iter().filter(|byte| **byte == b'\n').count()
}

fn lf_at(text: &[u8]) -> Option<usize>
    ensures { result ≡ position is_lf text.now }
{
    text.iter().position(|byte| *byte == b'\n')
}

// The first line, without its LF, and what follows it.
fn cut_line(text: &[u8]) -> Option<(&[u8], &[u8])>
    ensures alone { IfNone result (slice_split is_lf text.now ≡ text.now ∷ []) }
    ensures parts { IfSome result (λ cut. slice_split is_lf text.now ≡ cut.0.now ∷ slice_split is_lf cut.1.now) }
    ensures shorter { IfSome result (λ cut. length cut.1.now < length text.now) }
{
    match lf_at(text) {
        Some(at) => Some((&text[..at], &text[at + 1..])),
        None => None,
    }
}

// The items of a text's lines.
#[tactic(auto, using(crate::proofs::ReadToLaws::read_none, crate::proofs::ReadToLaws::read_more, crate::proofs::ReadToLaws::read_fault, crate::proofs::ReadToLaws::read_all, crate::proofs::ReadToLaws::read_open))]
fn read_lines(alloc: Global, text: &[u8]) -> Result<Items, TextFault>
    requires few { count_by is_lf text.now ≤ 2048 }
    ensures { ReadsAs result (lines_in 0 (slice_split is_lf text.now)) }
{
    let mut items = Items::new(alloc);
    let mut number = 0_u32;
    let mut rest = text;
    while let Some((line, more)) = cut_line(rest) {
        let Some(item) = item_at(alloc, number, line)? else {
            return Err(TextFault::Line(number));
        };
        items.push(item)?;
        number += 1;
        rest = more;
    }
    if rest.is_empty() {
        Ok(items)
    } else {
        Err(TextFault::Line(number))
    }
}

fn read_text(alloc: Global, text: &[u8]) -> Result<Items, TextFault>
    ensures { Reads result text.now }
{
    if line_count(text) > MOST_ITEMS {
        return Err(TextFault::TooLong);
    }
    read_lines(alloc, text)
}

/// The trace that a text spells. Each item has one spelling: a text that is read is the text of what was read. An empty text
/// is the empty trace.
pub fn read_trace(alloc: Global, text: &[u8]) -> Result<Items, TextFault>
    ensures reads { Reads result text.now }
    ensures spelled { IfOk result (λ items. text_of items ≡ text.now) }
    ensures begins { IfOk result (λ items. begins_with_event items ≡ true) }
    ensures few { IfOk result (λ items. length items ≤ 2048) }
{
    read_text(alloc, text)
}
