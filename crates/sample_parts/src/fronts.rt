// What was written to each connection first.
ghost use Rattle.std.specs.Prelude.{◌≡◌, ◌≤◌, ◌<◌, ◌++◌, ◌==◌, ℕ, [], IfOk, MatchOption, OnOk, if◌then◌else◌, length, slice_index_or, take, vec_len};
ghost use Rattle.host_trace.specs.Kinds.{bytes_written};
ghost use Rattle.host_trace.specs.Projections.{client_out};

use host_base::{Bytes, NoMemory};
use host_trace::{Act, Item};
use std::alloc::Global;

// How many bytes have the status code in them.
const FRONT: usize = 12;

// Adds bytes to a front while it is short.
fn lengthen(front: &mut Bytes, bytes: &[u8]) -> Result<(), NoMemory>
    requires { length front.old ≤ 12 }
    ensures { OnOk result (front.new ≡ take 12 (front.old ++ bytes.now)) }
{
    let room = FRONT - front.len();
    if bytes.len() <= room {
        front.extend_from_slice(bytes)
    } else {
        front.extend_from_slice(&bytes[..room])
    }
}

// So many fronts with nothing in them.
fn no_fronts(alloc: Global, count: usize) -> Result<Vec<Bytes>, NoMemory>
    ensures count { IfOk result (λ fronts. vec_len fronts ≡ count) }
    ensures each { IfOk result (λ fronts. (c : ℕ) → slice_index_or fronts.items c [] ≡ []) }
{
    let mut fronts = Vec::with_capacity(alloc, count)?;
    for c in 0..count {
        fronts.push_reserved(Bytes::new(alloc));
    }
    Ok(fronts)
}

// The connection to which an item writes, and what it writes.
fn write_of(item: &Item) -> Option<(u64, &[u8])>
    ensures { MatchOption result ((c : ℕ) → bytes_written c item.entry.now ≡ []) (λ w. (c : ℕ) → bytes_written c item.entry.now ≡ (if c == w.0 then w.1.now else [])) }
{
    match item {
        Item::Out(Act::Write { c, bytes }) => Some((*c, bytes.as_slice())),
        _ => None,
    }
}

// Adds what an item writes to a connection.
fn note(item: &Item, fronts: &mut Vec<Bytes>) -> Result<(), NoMemory>
    requires { (c : ℕ) → c < vec_len fronts.old → length (slice_index_or fronts.old.items c []) ≤ 12 }
    ensures count { vec_len fronts.new ≡ vec_len fronts.old }
    ensures each { OnOk result ((c : ℕ) → c < vec_len fronts.old → slice_index_or fronts.new.items c [] ≡ take 12 (slice_index_or fronts.old.items c [] ++ bytes_written c item.now)) }
{
    let Some((c, bytes)) = write_of(item) else {
        return Ok(());
    };
    if c < fronts.len() as u64 {
        return lengthen(&mut fronts[c as usize], bytes);
    }
    Ok(())
}

/// What was written to each of the connections first, up to and with its status code.
pub fn fronts_of(alloc: Global, items: &[Item], count: usize) -> Result<Vec<Bytes>, NoMemory>
    ensures count { IfOk result (λ fronts. vec_len fronts ≡ count) }
    ensures each { IfOk result (λ fronts. (c : ℕ) → c < count → slice_index_or fronts.items c [] ≡ take 12 (client_out items.now c)) }
{
    let mut fronts = no_fronts(alloc, count)?;
    for item in items {
        note(item, &mut fronts)?;
    }
    Ok(fronts)
}
