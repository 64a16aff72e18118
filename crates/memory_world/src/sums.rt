// How many bytes the items of a trace carry.
ghost use Rattle.std.specs.Prelude.{◌≡◌, ◌≤◌, ◌-◌, ◌*◌, ◌^◌, ℕ, min, length, sum_by};
ghost use Rattle.host_trace.specs.Kinds.{count_wrote, count_took, bytes_written, input_fed, texts_said};
ghost use Rattle.trace_tallies.specs.Sums.{texts_len};
ghost use Rattle.host_trace.specs.Projections.{client_out, child_in, wrote_sum, took_sum, said_len};

use host_base::Text;
use host_trace::{Act, Event, Item};
use trace_tallies::text_len;

/// How many bytes left for the client.
pub fn wrote_by(item: &Item, c: u64) -> u64
    ensures { result ≡ count_wrote c item.now }
{
    match item {
        Item::In(Event::Wrote { c: d, n }) if c == *d => *n,
        _ => 0,
    }
}

/// How many bytes the child's input pipe took.
pub fn took_by(item: &Item, k: u64) -> u64
    ensures { result ≡ count_took k item.now }
{
    match item {
        Item::In(Event::Took { k: d, n }) if k == *d => *n,
        _ => 0,
    }
}

/// How many bytes were written for the client.
pub fn written_by(item: &Item, c: u64) -> usize
    ensures { result ≡ length (bytes_written c item.now) }
{
    match item {
        Item::Out(Act::Write { c: d, bytes }) if c == *d => bytes.len(),
        _ => 0,
    }
}

/// How many bytes were fed to the child.
pub fn fed_by(item: &Item, k: u64) -> usize
    ensures { result ≡ length (input_fed k item.now) }
{
    match item {
        Item::Out(Act::Feed { k: d, bytes }) if k == *d => bytes.len(),
        _ => 0,
    }
}

/// How many bytes left for the client.
pub fn wrote_sum(items: &[Item], c: u64) -> u128
    ensures sum { result ≡ wrote_sum items.now c }
    ensures bound { result ≤ (2 ^ 64 - 1) * (2 ^ 64 - 1) }
{
    let mut sum = 0u128;
    for item in items {
        sum += wrote_by(item, c) as u128;
    }
    sum
}

/// How many bytes the child's input pipe took.
pub fn took_sum(items: &[Item], k: u64) -> u128
    ensures sum { result ≡ took_sum items.now k }
    ensures bound { result ≤ (2 ^ 64 - 1) * (2 ^ 64 - 1) }
{
    let mut sum = 0u128;
    for item in items {
        sum += took_by(item, k) as u128;
    }
    sum
}

fn write_sum(items: &[Item], c: u64) -> u128
    ensures { result ≡ sum_by (λ x. length (bytes_written c x)) items.now }
{
    let mut sum = 0u128;
    for item in items {
        sum += written_by(item, c) as u128;
    }
    sum
}

fn feed_sum(items: &[Item], k: u64) -> u128
    ensures { result ≡ sum_by (λ x. length (input_fed k x)) items.now }
{
    let mut sum = 0u128;
    for item in items {
        sum += fed_by(item, k) as u128;
    }
    sum
}

/// The texts said to the client.
pub fn texts_by(item: &Item, c: u64) -> &[Text]
    ensures { result.now ≡ texts_said c item.now }
{
    match item {
        Item::Out(Act::Says { c: d, texts }) if c == *d => texts.as_slice(),
        _ => &[],
    }
}

fn say_sum(items: &[Item], c: u64) -> u128
    ensures { result ≡ min (sum_by (texts_len c) items.now) (2 ^ 128 - 1) }
{
    let mut sum = 0u128;
    for item in items {
        sum = sum.saturating_add(text_len(texts_by(item, c)));
    }
    sum
}

/// How many bytes were written for the client.
pub fn written_len(items: &[Item], c: u64) -> u128
    ensures { result ≡ length (client_out items.now c) }
{
    write_sum(items, c)
}

/// How many bytes were fed to the child.
pub fn fed_len(items: &[Item], k: u64) -> u128
    ensures { result ≡ length (child_in items.now k) }
{
    feed_sum(items, k)
}

/// How many bytes of texts were said to the client, or 2^128 - 1 where there are more.
pub fn said_len(items: &[Item], c: u64) -> u128
    ensures { result ≡ min (said_len items.now c) (2 ^ 128 - 1) }
{
    say_sum(items, c)
}
