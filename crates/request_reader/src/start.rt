// The first look at a request: its head, and what has come of its body.
ghost use Rattle.std.specs.Prelude.{◌≡◌, ◌++◌, ℕ, List, drop, IfOk, OnErr, IsTrue};
ghost use Rattle.head_reader.specs.RequestHead.{IsSearchedHead};
ghost use Rattle.request_reader.specs.Request.{is_whole_head};
ghost use Rattle.request_reader.specs.Starts.{IsStart, StartsAs};

use crate::asked::ask;
use crate::fault::Fault;
use crate::opened::Opened;
use crate::parts::is_head_method;
use body_framing::ChunkStep;
use head_lines::Search;
use head_reader::{HeadStep, read_head_from};
use host_base::{Head, Limits, NoMemory, Refusal};
use std::alloc::Global;

/// What the bytes of a request are at the first look.
#[derive(Drop, Debug)]
pub enum Start {
    /// The head has not ended yet.
    More,
    /// The request is refused.
    Fault(Fault),
    /// The head is whole, and so far is its body.
    Opened { opened: Opened, step: ChunkStep },
}

// Opens the request of a head that took so many of the bytes.
fn open_head(
    alloc: Global,
    head: Head,
    used: usize,
    limits: &Limits,
    bytes: &[u8],
) -> Result<Start, NoMemory>
    ensures { IfOk result (λ start. StartsAs limits.now head used bytes.now start) }
{
    let bare = is_head_method(&head);
    let asked = match ask(alloc, head, limits) {
        Ok(asked) => asked,
        Err(Refusal::Cause(cause)) => return Ok(Start::Fault(Fault { cause, bare })),
        Err(Refusal::NoMemory) => return Err(NoMemory),
    };
    let mut opened = Opened::unread(alloc, asked, used, limits);
    let step = opened.advance(bytes)?;
    Ok(Start::Opened { opened, step })
}

// The bytes behind the first so many.
pub fn behind(bytes: &[u8], count: usize) -> &[u8]
    ensures { result.now ≡ drop count bytes.now }
{
    if count <= bytes.len() {
        &bytes[count..]
    } else {
        b""
    }
}

// Looks at the bytes of a request for the first time, of which the search has seen some.
pub fn first_look(
    alloc: Global,
    bytes: &[u8],
    limits: &Limits,
    search: &mut Search,
) -> Result<Start, NoMemory>
    requires { IsSearchedHead limits.now bytes.now search.old }
    ensures exact { IfOk result (λ start. IsStart limits.now bytes.now start) }
    ensures memory { OnErr result (IsTrue (is_whole_head limits.now bytes.now)) }
    ensures kept { (more : List ℕ) → IsSearchedHead limits.now (bytes.now ++ more) search.new }
{
    match read_head_from(alloc, bytes, limits, search)? {
        HeadStep::Whole { head, used } => {
            open_head(alloc, head, used, limits, behind(bytes, used))
        }
        HeadStep::More => Ok(Start::More),
        HeadStep::Bad(cause) => Ok(Start::Fault(Fault { cause, bare: false })),
    }
}
