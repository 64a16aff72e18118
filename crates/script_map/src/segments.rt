// Paths without dot segments (RFC 3986 5.2.4).
ghost use Rattle.std.specs.Prelude.{◌≡◌, ◌<◌, ◌-◌, not, List, ℕ, [], ◌∷◌, ◌++◌, length, take, drop, IfOk, OnOk, IfNone, IfSome, All};
ghost use Rattle.std.specs.List.{flat_map, position, slice_split, before_last, suffix_len};
ghost use Rattle.script_map.specs.Bytes.{begins_with};
ghost use Rattle.script_map.specs.DotSegments.{is_slash, is_dot, is_dot_dot, is_dot_segment, with_slash, with_end, with_segment, without_dot_segments, IsRooted, HasNoSlash};

use host_base::{Bytes, NoMemory};
use std::alloc::Global;

fn is_dot(segment: &[u8]) -> bool
    ensures { result ≡ is_dot segment.now }
{
    segment == b".".as_slice()
}

fn is_dot_dot(segment: &[u8]) -> bool
    ensures { result ≡ is_dot_dot segment.now }
{
    segment == b"..".as_slice()
}

/// Whether a segment is `.` or `..`.
pub fn is_dot_segment(segment: &[u8]) -> bool
    ensures { result ≡ is_dot_segment segment.now }
{
    is_dot(segment) || is_dot_dot(segment)
}

fn slash_at(path: &[u8]) -> Option<usize>
    ensures { result ≡ position is_slash path.now }
{
    path.iter().position(|byte| *byte == b'/')
}

// The segment before the first slash, and what follows it.
pub fn cut_at_slash(path: &[u8]) -> Option<(&[u8], &[u8])>
    ensures alone { IfNone result (slice_split is_slash path.now ≡ path.now ∷ []) }
    ensures parts { IfSome result (λ cut. slice_split is_slash path.now ≡ cut.0.now ∷ slice_split is_slash cut.1.now) }
    ensures shorter { IfSome result (λ cut. length cut.1.now < length path.now) }
{
    match slash_at(path) {
        Some(at) => Some((&path[..at], &path[at + 1..])),
        None => None,
    }
}

// How long the path is before its last slash.
fn front_len(path: &[u8]) -> usize
    ensures { result ≡ length path.now - suffix_len (λ byte. not (is_slash byte)) path.now - 1 }
{
    let mut len = path.len();
    while len > 0 && path[len - 1] != b'/' {
        len -= 1;
    }
    len.saturating_sub(1)
}

fn drop_segment(kept: &mut Vec<u8>)
    ensures { kept.new.items ≡ before_last is_slash kept.old.items }
{
    let len = front_len(kept.as_slice());
    kept.truncate(len);
}

// Adds a segment to the bytes of those that are kept.
fn add_segment(kept: &mut Vec<u8>, segment: &[u8]) -> Result<(), NoMemory>
    ensures { (segments : List (List ℕ)) → All HasNoSlash segments → kept.old.items ≡ flat_map with_slash segments
        → OnOk result (kept.new.items ≡ flat_map with_slash (with_segment segments segment.now)) }
{
    if is_dot(segment) {
        return Ok(());
    }
    if is_dot_dot(segment) {
        drop_segment(kept);
        return Ok(());
    }
    kept.push(b'/')?;
    kept.extend_from_slice(segment)?;
    Ok(())
}

/// A path without its `.` and `..` segments (RFC 3986 5.2.4). A `..` with nothing before it is dropped,
/// and one at the end leaves the slash before it.
pub fn remove_dot_segments(alloc: Global, path: &[u8]) -> Result<Bytes, NoMemory>
    requires { IsRooted path.now }
    ensures { IfOk result (λ bytes. bytes ≡ without_dot_segments path.now) }
{
    let mut kept = Vec::with_capacity(alloc, path.len())?;
    let mut rest = &path[1..];
    while let Some((segment, more)) = cut_at_slash(rest) {
        add_segment(&mut kept, segment)?;
        rest = more;
    }
    add_segment(&mut kept, rest)?;
    if is_dot_segment(rest) {
        kept.push(b'/')?;
    }
    Ok(Bytes::from_vec(kept))
}
