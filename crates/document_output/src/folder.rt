// The folder of documents that a program names. None of this takes memory.
ghost use Rattle.std.specs.Prelude.{◌≡◌};
ghost use Rattle.std.specs.Option.{option_copied};
ghost use Rattle.document_output.specs.Folders.{has_no_lead, spelled_number, folder_number, folder_of, types_of};

use crate::numbers::number_in;
use crate::slices::after_prefix;
use host_base::{DocRoot, Pair};

fn has_no_lead(digits: &[u8]) -> bool
    ensures { result ≡ has_no_lead digits.now }
{
    match digits {
        [first, _, ..] => *first != b'0',
        _ => true,
    }
}

fn spelled_number(digits: &[u8]) -> Option<u64>
    ensures { result ≡ spelled_number digits.now }
{
    if has_no_lead(digits) {
        number_in(digits)
    } else {
        None
    }
}

fn folder_number(program: &[u8]) -> Option<u64>
    ensures { result ≡ folder_number program.now }
{
    match after_prefix(program, b"documents:") {
        Some(digits) => spelled_number(digits),
        None => None,
    }
}

/// The folder of documents that a program `documents:N` names, of a site's folders in their order: the one of
/// the number N, counted from 0 and spelled in decimal without zeros before it. Any other program names none.
pub fn folder_of<'a>(docs: &'a [DocRoot], program: &str) -> Option<&'a DocRoot>
    ensures { option_copied result ≡ folder_of docs.now program.now }
{
    match folder_number(program.as_bytes()) {
        Some(number) => docs.get(number as usize),
        None => None,
    }
}

// The media types of the folder that a program names.
pub fn types_of<'a>(docs: &'a [DocRoot], program: &str) -> &'a [Pair]
    ensures { result.now ≡ types_of docs.now program.now }
{
    match folder_of(docs, program) {
        Some(folder) => folder.types.as_slice(),
        None => &[],
    }
}
