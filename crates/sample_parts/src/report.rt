// The report of a trace.
ghost use Rattle.std.specs.Prelude.{◌≡◌, ◌++◌, IfOk, OnOk, string_bytes};
ghost use Rattle.sample_parts.specs.Counts.{code_line, code_lines, connections_text, line, sample_text};
ghost use Rattle.sample_parts.specs.Fronts.{count_of, of_fronts};

use crate::counts;
use crate::fronts::fronts_of;
use host_base::{Bytes, NoMemory};
use host_trace::Item;
use std::alloc::Global;

// The codes that have lines.
const LEAST: u32 = 100;

const CODES: u32 = 900;

// Adds a line of a word and a count.
fn push_line(alloc: Global, text: &mut String, word: &str, count: usize) -> Result<(), NoMemory>
    ensures { OnOk result (string_bytes text.new ≡ string_bytes text.old ++ line word.now count) }
{
    let line = format!(in alloc; "{word} {count}\n")?;
    text.push_str(line.as_str())?;
    Ok(())
}

// Adds the line of a code that occurs so often.
fn push_code_line(alloc: Global, text: &mut String, code: u32, count: usize) -> Result<(), NoMemory>
    ensures { OnOk result (string_bytes text.new ≡ string_bytes text.old ++ code_line code count) }
{
    if count == 0 {
        return Ok(());
    }
    let word = format!(in alloc; "status {code}")?;
    push_line(alloc, text, word.as_str(), count)
}

// Adds the lines of the codes that occur.
fn push_code_lines(alloc: Global, text: &mut String, codes: &[u32]) -> Result<(), NoMemory>
    ensures { OnOk result (string_bytes text.new ≡ string_bytes text.old ++ code_lines (count_of codes.now) 900) }
{
    for n in 0..CODES {
        let code = LEAST + n;
        push_code_line(alloc, text, code, counts::code_count(codes, code))?;
    }
    Ok(())
}

// Adds the lines on connections to which this was written first: how many there are, to how many of them nothing was
// written, and how often each code was.
fn push_fronts(alloc: Global, text: &mut String, fronts: &[Bytes]) -> Result<(), NoMemory>
    ensures { OnOk result (string_bytes text.new ≡ string_bytes text.old ++ of_fronts fronts.now) }
{
    let codes = counts::codes_of(alloc, fronts)?;
    push_line(alloc, text, "connections", fronts.len())?;
    push_line(alloc, text, "none", counts::none_count(fronts))?;
    push_code_lines(alloc, text, codes.as_slice())
}

// Adds the lines on connections.
fn push_connections(alloc: Global, text: &mut String, items: &[Item]) -> Result<(), NoMemory>
    ensures { OnOk result (string_bytes text.new ≡ string_bytes text.old ++ connections_text items.now) }
{
    let fronts = fronts_of(alloc, items, counts::accepted_count(items))?;
    push_fronts(alloc, text, fronts.as_slice())
}

/// The report of a trace: how many connections there were, to how many of them nothing was written, how often each
/// status code was, by rising code, how many children were to be started and how many were reaped. A line each.
pub fn sample_text(alloc: Global, items: &[Item]) -> Result<String, NoMemory>
    ensures { IfOk result (λ text. string_bytes text ≡ sample_text items.now) }
{
    let mut text = String::new(alloc);
    push_connections(alloc, &mut text, items)?;
    push_line(alloc, &mut text, "starts", counts::start_count(items))?;
    push_line(alloc, &mut text, "reaps", counts::reap_count(items))?;
    Ok(text)
}
