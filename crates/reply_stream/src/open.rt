// How a reply begins.
ghost use Rattle.std.specs.Prelude.{◌≡◌, true, [], IfOk, Option, option_map};
ghost use Rattle.reply_kinds.specs.Kind.{has_body, kind_of, reply_of};
ghost use Rattle.reply_writer.specs.Dates.{date_text_of};
ghost use Rattle.reply_writer.specs.Spelling.{date_value, dated, head_text_of};
ghost use Rattle.reply_writer.specs.WholeRules.{IsStamp};
ghost use Rattle.reply_stream.specs.Stages.{begun_shape, flow_of, opening_of};
ghost use Rattle.reply_stream.specs.Openings.{Opens, OpensAfter, Tells, header_by};

use crate::Asked;
use crate::pieces::push_piece;
use crate::stage::{Flow, Header, Opening};
use cgi_header::{CgiHead, HdrStep, read_header};
use host_base::{Bytes, NoMemory, Reply, ScriptKind, Version};
use reply_kinds::{ReplyKind, kind_of, reply_of};
use reply_writer::{DateText, Shape, date_text, head_text};
use std::alloc::Global;

const NO_CONTENT: u16 = 204;

const RESET_CONTENT: u16 = 205;

const NOT_MODIFIED: u16 = 304;

pub fn date_of(stamp: Option<u64>) -> Option<DateText>
    requires { IsStamp stamp }
    ensures { date_value result ≡ option_map date_text_of stamp }
{
    match stamp {
        Some(secs) => Some(date_text(secs)),
        None => None,
    }
}

// How the head frames a body whose length isn't known (RFC 9112 6.3).
fn begun_shape(asked: Asked, reply: &Reply) -> Shape
    ensures { result ≡ begun_shape asked reply.now }
{
    if asked.head_only || reply.status == NO_CONTENT || reply.status == NOT_MODIFIED {
        return Shape::Bare;
    }
    match asked.version {
        Version::V11 => Shape::Chunked,
        Version::V10 => Shape::ToClose,
    }
}

fn flow_of(shape: Shape, resets: bool) -> Flow
    ensures { result ≡ flow_of shape resets }
{
    match shape {
        Shape::Bare | Shape::Length(_) => Flow::Nothing,
        Shape::Chunked if resets => Flow::Mark,
        Shape::Chunked => Flow::Chunks,
        Shape::ToClose if resets => Flow::Nothing,
        Shape::ToClose => Flow::Plain,
    }
}

fn head_of(
    alloc: Global,
    reply: &Reply,
    shape: Shape,
    close: bool,
    stamp: Option<u64>,
) -> Result<Bytes, NoMemory>
    requires { IsStamp stamp }
    ensures { IfOk result (λ text. text ≡ head_text_of (dated (option_map date_text_of stamp) reply.now) shape close) }
{
    let date = date_of(stamp);
    head_text(alloc, reply, shape, close, date.as_ref())
}

// The beginning of a reply whose body so far is this.
fn begin(
    alloc: Global,
    reply: &Reply,
    body: &[u8],
    asked: Asked,
    close: bool,
    stamp: Option<u64>,
) -> Result<Opening, NoMemory>
    requires { IsStamp stamp }
    ensures { IfOk result (λ opening. opening ≡ opening_of asked close stamp reply.now body.now) }
{
    let shape = begun_shape(asked, reply);
    let flow = flow_of(shape, reply.status == RESET_CONTENT);
    let mut text = head_of(alloc, reply, shape, close, stamp)?;
    push_piece(alloc, &mut text, flow, body)?;
    Ok(Opening::Begin(flow, text))
}

// The beginning of a document, or of a redirect with one.
fn begin_document(
    alloc: Global,
    head: &CgiHead,
    kind: ReplyKind,
    body: &[u8],
    asked: Asked,
    close: bool,
    stamp: Option<u64>,
) -> Result<Opening, NoMemory>
    requires document { has_body kind ≡ true }
    requires stamp { IsStamp stamp }
    ensures { IfOk result (λ opening. opening ≡ opening_of asked close stamp (reply_of head.now kind []) body.now) }
{
    let reply = reply_of(alloc, head, kind, &[])?;
    begin(alloc, &reply, body, asked, close, stamp)
}

// What a header that is whole and what follows it tell.
fn open_header(
    alloc: Global,
    head: &CgiHead,
    body: &[u8],
    asked: Asked,
    close: bool,
    stamp: Option<u64>,
) -> Result<Opening, NoMemory>
    requires { IsStamp stamp }
    ensures { IfOk result (OpensAfter asked close stamp head.now body.now) }
{
    match kind_of(head) {
        Ok(ReplyKind::Document) => {
            begin_document(alloc, head, ReplyKind::Document, body, asked, close, stamp)
        }
        Ok(ReplyKind::RedirectDocument) => {
            begin_document(
                alloc,
                head,
                ReplyKind::RedirectDocument,
                body,
                asked,
                close,
                stamp,
            )
        }
        Ok(ReplyKind::LocalRedirect | ReplyKind::Redirect) | Err(_) => Ok(Opening::Settle),
    }
}

fn open_cgi(
    alloc: Global,
    output: &[u8],
    asked: Asked,
    close: bool,
    stamp: Option<u64>,
) -> Result<Opening, NoMemory>
    requires kind { asked.kind ≡ ScriptKind.Cgi }
    requires stamp { IsStamp stamp }
    ensures { IfOk result (Opens asked close stamp output.now) }
{
    match read_header(alloc, output)? {
        HdrStep::More => Ok(Opening::Wait),
        HdrStep::Bad(_) => Ok(Opening::Settle),
        HdrStep::Whole { head, used } => {
            open_header(alloc, &head, &output[used..], asked, close, stamp)
        }
    }
}

// What an output so far tells of its reply. The output of an nph script is the reply as it is (RFC 3875 5).
pub fn open(
    alloc: Global,
    output: &[u8],
    asked: Asked,
    close: bool,
    stamp: Option<u64>,
) -> Result<Opening, NoMemory>
    requires { IsStamp stamp }
    ensures { IfOk result (Opens asked close stamp output.now) }
{
    match asked.kind {
        ScriptKind::Cgi => open_cgi(alloc, output, asked, close, stamp),
        ScriptKind::Nph if output.is_empty() => Ok(Opening::Wait),
        ScriptKind::Nph => Ok(Opening::Begin(Flow::Plain, Bytes::from_slice(alloc, output)?)),
        ScriptKind::WebSocket => Ok(Opening::Settle),
    }
}

fn cgi_header_of(alloc: Global, output: &[u8]) -> Result<Header, NoMemory>
    ensures { IfOk result (Tells ScriptKind.Cgi output.now) }
{
    match read_header(alloc, output)? {
        HdrStep::More => Ok(Header::Open),
        HdrStep::Bad(_) => Ok(Header::Settled),
        HdrStep::Whole { head, .. } => Ok(document_of(&head)),
    }
}

// By the kind that a whole header asks for.
fn document_of(head: &CgiHead) -> Header
    ensures { result ≡ header_by (kind_of head.now) }
{
    match kind_of(head) {
        Ok(ReplyKind::Document | ReplyKind::RedirectDocument) => Header::Ready,
        Ok(ReplyKind::LocalRedirect | ReplyKind::Redirect) | Err(_) => Header::Settled,
    }
}

// What the header of an output so far tells.
pub fn header_of(alloc: Global, output: &[u8], kind: ScriptKind) -> Result<Header, NoMemory>
    ensures { IfOk result (Tells kind output.now) }
{
    match kind {
        ScriptKind::Cgi => cgi_header_of(alloc, output),
        ScriptKind::Nph if output.is_empty() => Ok(Header::Open),
        ScriptKind::Nph => Ok(Header::Ready),
        ScriptKind::WebSocket => Ok(Header::Settled),
    }
}
