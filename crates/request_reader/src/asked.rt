// What a head asks for.
ghost use Rattle.std.specs.Prelude.{◌≡◌, ◌==◌, [], Ok, Err, false, codes, if◌then◌else◌};
ghost use Rattle.host_base.specs.FieldLists.{field_words};
ghost use Rattle.script_map.specs.Answers.{IsAnswer};
ghost use Rattle.request_reader.specs.Request.{asked_by, expects_by_words, expects_continue, has_content, request_with};

use body_framing::{count_field_words, framing_of, has_other_word};
use host_base::{Bytes, Cause, Fields, Framing, Head, Limits, Refusal, Request, Target, Version};
use script_map::split_target;
use std::alloc::Global;

/// What a head asks for: the request without its body, and whether 100 Continue is due for it.
#[derive(Drop, Debug)]
pub struct Asked {
    pub request: Request,
    pub due: bool,
}

// Whether bytes of a body are to come.
fn has_content(framing: Framing) -> bool
    ensures { result ≡ has_content framing }
{
    match framing {
        Framing::Empty => false,
        Framing::Length(count) => count > 0,
        Framing::Chunked => true,
    }
}

// By how many words there are, and whether one is no 100-continue.
fn expects_by(count: usize, is_other: bool, framing: Framing) -> Result<bool, Cause>
    ensures { result ≡ (if count == 0 then Ok false else (if is_other then Err Cause.BadExpect else Ok (has_content framing))) }
{
    if count == 0 {
        Ok(false)
    } else if is_other {
        Err(Cause::BadExpect)
    } else {
        Ok(has_content(framing))
    }
}

fn expects_by_words(fields: &Fields, framing: Framing) -> Result<bool, Cause>
    ensures { result ≡ expects_by_words (field_words (codes "Expect") fields.now) framing }
{
    let fields = fields.as_slice();
    let count = count_field_words(fields, b"Expect");
    let is_other = has_other_word(fields, b"Expect", b"100-continue");
    expects_by(count, is_other, framing)
}

/// Whether 100 Continue is due for a request with these field lines (RFC 9110 10.1.1): in HTTP/1.1,
/// where the list of Expect has a word and bytes of a body are to come. `BadExpect` where the list has a
/// word other than `100-continue`, in any case.
pub fn expects_continue(version: Version, fields: &Fields, framing: Framing) -> Result<bool, Cause>
    ensures { result ≡ expects_continue version fields.now framing }
{
    match version {
        Version::V10 => Ok(false),
        Version::V11 => expects_by_words(fields, framing),
    }
}

// The request of a head, its target and its framing, with no body.
fn request_with(alloc: Global, head: Head, target: Target, framing: Framing) -> Request
    ensures { result ≡ request_with head target framing [] }
{
    Request {
        method: head.method,
        target,
        version: head.version,
        fields: head.fields,
        framing,
        body: Bytes::new(alloc),
    }
}

// What a head asks for, or the first cause to refuse it.
pub fn ask(alloc: Global, head: Head, limits: &Limits) -> Result<Asked, Refusal>
    ensures { IsAnswer (asked_by limits.now head) result }
{
    let target = split_target(alloc, &head)?;
    let framing = match framing_of(&head, limits) {
        Ok(framing) => framing,
        Err(cause) => return Err(Refusal::Cause(cause)),
    };
    match expects_continue(head.version, &head.fields, framing) {
        Ok(due) => Ok(Asked {
            request: request_with(alloc, head, target, framing),
            due,
        }),
        Err(cause) => Err(Refusal::Cause(cause)),
    }
}
