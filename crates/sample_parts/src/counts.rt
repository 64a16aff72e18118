// The counts of a trace.
ghost use Rattle.std.specs.Prelude.{◌≡◌, IfOk, length, map};
ghost use Rattle.host_trace.specs.Kinds.{is_accepted};
ghost use Rattle.host_trace.specs.Projections.{accepted_count};
ghost use Rattle.sample_parts.specs.Counts.{code_of, code_of_digits, count_below, is_any_exit, is_any_start, reap_count, start_count};
ghost use Rattle.sample_parts.specs.Fronts.{count_of, is_empty_at};

use host_base::{Bytes, NoMemory};
use host_trace::{Act, Event, Item};
use std::alloc::Global;

fn is_accepted(item: &Item) -> bool
    ensures { result ≡ is_accepted item.now }
{
    matches!(item, Item::In(Event::Accepted { .. }))
}

fn is_start(item: &Item) -> bool
    ensures { result ≡ is_any_start item.now }
{
    matches!(item, Item::Out(Act::Start { .. }))
}

fn is_exit(item: &Item) -> bool
    ensures { result ≡ is_any_exit item.now }
{
    matches!(item, Item::In(Event::Exited { .. }))
}

/// How many connections were accepted.
pub fn accepted_count(items: &[Item]) -> usize
    ensures { result ≡ accepted_count items.now }
{
    let mut count = 0;
    for item in items {
        if is_accepted(item) {
            count += 1;
        }
    }
    count
}

/// How many children were to be started.
pub fn start_count(items: &[Item]) -> usize
    ensures { result ≡ start_count items.now }
{
    let mut count = 0;
    for item in items {
        if is_start(item) {
            count += 1;
        }
    }
    count
}

/// How many children were reaped.
pub fn reap_count(items: &[Item]) -> usize
    ensures { result ≡ reap_count items.now }
{
    let mut count = 0;
    for item in items {
        if is_exit(item) {
            count += 1;
        }
    }
    count
}

fn code_of_digits(digits: &[u8]) -> u32
    ensures { result ≡ code_of_digits digits.now }
{
    match digits {
        [a, b, c] if a.is_ascii_digit() && b.is_ascii_digit() && c.is_ascii_digit() => {
            (*a as u32 - 48) * 100 + (*b as u32 - 48) * 10 + (*c as u32 - 48)
        }
        _ => 0,
    }
}

// The status code of a reply, or 0.
fn code_of(bytes: &[u8]) -> u32
    ensures { result ≡ code_of bytes.now }
{
    if bytes.len() < 12 {
        return 0;
    }
    code_of_digits(&bytes[9..12])
}

/// The status code of each of the replies that begin so, or 0.
pub fn codes_of(alloc: Global, fronts: &[Bytes]) -> Result<Vec<u32>, NoMemory>
    ensures { IfOk result (λ codes. codes.items ≡ map code_of fronts.now) }
{
    let mut codes = Vec::with_capacity(alloc, fronts.len())?;
    for front in fronts {
        codes.push_reserved(code_of(front.as_slice()));
    }
    Ok(codes)
}

/// How many of the fronts have nothing in them.
pub fn none_count(fronts: &[Bytes]) -> usize
    ensures { result ≡ count_below (is_empty_at fronts.now) (length fronts.now) }
{
    let mut count = 0;
    for front in fronts {
        if front.is_empty() {
            count += 1;
        }
    }
    count
}

/// How many of the codes are this one.
pub fn code_count(codes: &[u32], code: u32) -> usize
    ensures { result ≡ count_of codes.now code }
{
    let mut count = 0;
    for one in codes {
        if *one == code {
            count += 1;
        }
    }
    count
}
