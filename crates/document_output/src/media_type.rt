// The media type of a document by its name (RFC 9110 8.3).
ghost use Rattle.std.specs.Prelude.{◌≡◌, ◌==◌, IfOk};
ghost use Rattle.std.specs.List.{list_any};
ghost use Rattle.std.specs.Option.{option_copied};
ghost use Rattle.document_output.specs.Paths.{is_dot, extension_of, media_type};

use crate::slices::after_last;
use crate::values::named_value;
use host_base::{NoMemory, Pair};
use std::alloc::Global;

// The type of any bytes (RFC 2046 4.5.1).
const ANY_BYTES: &str = "application/octet-stream";

fn has_dot(segment: &[u8]) -> bool
    ensures { result ≡ list_any is_dot segment.now }
{
    segment.iter().any(|byte| *byte == b'.')
}

// What follows the last dot of the last segment.
fn extension_of(path: &[u8]) -> Option<&[u8]>
    ensures { option_copied result ≡ extension_of path.now }
{
    let segment = after_last(path, b'/');
    if has_dot(segment) {
        Some(after_last(segment, b'.'))
    } else {
        None
    }
}

// The media type of a path, by a table of extensions in lower case.
pub fn media_type<'a>(alloc: Global, types: &'a [Pair], path: &[u8]) -> Result<&'a str, NoMemory>
    ensures { IfOk result (λ media. media.now ≡ media_type types.now path.now) }
{
    let Some(extension) = extension_of(path) else {
        return Ok(ANY_BYTES);
    };
    let extension = extension.to_ascii_lowercase(alloc)?;
    match named_value(types, extension.as_slice()) {
        Some(media) => Ok(media),
        None => Ok(ANY_BYTES),
    }
}
