// The output of a document, in the place of a script's (RFC 3875 6).
ghost use Rattle.std.specs.Prelude.{◌≡◌, ◌++◌, [], length, IfOk, unwrap_or, string_bytes};
ghost use Rattle.document_output.specs.Output.{bytes_of, bytes_in, part_text, whole_text, unsatisfied_text, text_of, file_part, answered, output_of};
ghost use Rattle.document_output.specs.Folders.{types_of};
ghost use Rattle.document_output.specs.Paths.{document_path, media_type};

use crate::answer::{Answer, answer_to};
use crate::folder::types_of;
use crate::media_type::media_type;
use crate::path::document_path;
use crate::range::Span;
use crate::read::DocRead;
use host_base::{Bytes, DocRoot, Launch, NoMemory};
use std::alloc::Global;

const NOT_ALLOWED: &str =
    "Status: 405\nAllow: GET, HEAD\nContent-Type: text/plain\n\nmethod not allowed\n";

const NOT_FOUND: &str = "Status: 404\nContent-Type: text/plain\n\nno document\n";

// The text before some bytes of a file.
fn part_text(alloc: Global, media: &str, length: u64, span: Span) -> Result<String, NoMemory>
    ensures { IfOk result (λ text. string_bytes text ≡ part_text media.now length span) }
{
    let Span { first, last } = span;
    Ok(format!(in alloc;
        "Status: 206\nContent-Type: {media}\nContent-Range: bytes {first}-{last}/{length}\nAccept-Ranges: bytes\n\n"
    )?)
}

// The text before a whole file.
fn whole_text(alloc: Global, media: &str) -> Result<String, NoMemory>
    ensures { IfOk result (λ text. string_bytes text ≡ whole_text media.now) }
{
    Ok(format!(in alloc; "Status: 200\nContent-Type: {media}\nAccept-Ranges: bytes\n\n")?)
}

// The text where the file has none of the bytes.
fn unsatisfied_text(alloc: Global, length: u64) -> Result<String, NoMemory>
    ensures { IfOk result (λ text. string_bytes text ≡ unsatisfied_text length) }
{
    Ok(format!(in alloc; "Status: 416\nContent-Range: bytes */{length}\n\n")?)
}

// A text of its own.
fn text(alloc: Global, text: &str) -> Result<String, NoMemory>
    ensures { IfOk result (λ made. string_bytes made ≡ text.now) }
{
    Ok(text.to_string(alloc)?)
}

// What stands before the bytes of a file, by its media type and its length.
fn text_of(alloc: Global, media: &str, length: u64, answer: Answer) -> Result<String, NoMemory>
    ensures { IfOk result (λ text. string_bytes text ≡ text_of media.now length answer) }
{
    match answer {
        Answer::MethodNotAllowed => text(alloc, NOT_ALLOWED),
        Answer::NotFound => text(alloc, NOT_FOUND),
        Answer::NotSatisfiable => unsatisfied_text(alloc, length),
        Answer::Part(span) => part_text(alloc, media, length, span),
        Answer::Whole => whole_text(alloc, media),
    }
}

fn bytes_in(span: Span, file: &[u8]) -> &[u8]
    ensures { result.now ≡ bytes_in span file.now }
{
    let (_, rest) = file.split_at((span.first as usize).min(file.len()));
    let count = (span.last.saturating_sub(span.first) as usize).saturating_add(1);
    let (part, _) = rest.split_at(count.min(rest.len()));
    part
}

// The bytes of a file that are answered.
fn file_part(answer: Answer, file: &[u8]) -> &[u8]
    ensures { result.now ≡ file_part answer file.now }
{
    match answer {
        Answer::Part(span) => bytes_in(span, file),
        Answer::Whole => file,
        Answer::MethodNotAllowed | Answer::NotFound | Answer::NotSatisfiable => b"",
    }
}

fn file_of(found: &DocRead) -> &[u8]
    ensures { result.now ≡ unwrap_or (bytes_of found.now) [] }
{
    match found {
        DocRead::Found(bytes) => bytes.as_slice(),
        DocRead::Missing => b"",
    }
}

// The media type of the document that a child is started for.
fn media_of<'a>(alloc: Global, docs: &'a [DocRoot], launch: &Launch) -> Result<&'a str, NoMemory>
    ensures { IfOk result (λ media. media.now ≡ media_type (types_of docs.now launch.now.program) (document_path launch.now.env)) }
{
    let path = document_path(alloc, launch.env.as_slice())?;
    let types = types_of(docs, launch.program.as_str());
    media_type(alloc, types, path.as_bytes())
}

fn text_bytes(text: String) -> Bytes
    ensures { result ≡ string_bytes text }
{
    Bytes::from_vec(text.into_bytes())
}

/// An output in two parts, of which the second is part of the file.
#[derive(Drop)]
pub struct Parts<'a> {
    pub text: Bytes,
    pub file: &'a [u8],
}

// What a document is answered with: what stands before the bytes of the file, and these.
pub fn output_parts<'a>(
    alloc: Global,
    docs: &[DocRoot],
    launch: &Launch,
    found: &'a DocRead,
) -> Result<Parts<'a>, NoMemory>
    ensures { IfOk result (λ parts. parts.text ++ parts.file.now ≡ output_of docs.now launch.now (bytes_of found.now)) }
{
    let media = media_of(alloc, docs, launch)?;
    let file = file_of(found);
    let answer = answer_to(launch.env.as_slice(), found);
    let text = text_of(alloc, media, file.len() as u64, answer)?;
    Ok(Parts {
        text: text_bytes(text),
        file: file_part(answer, file),
    })
}

/// What a document is answered with in the place of a script's output (RFC 3875 6), for the folders of a site,
/// of what its child is started with and of what stands at its path, which is the `document_path` of its
/// environment. Its first lines are a script header.
pub fn document_output(
    alloc: Global,
    docs: &[DocRoot],
    launch: &Launch,
    found: &DocRead,
) -> Result<Bytes, NoMemory>
    ensures { IfOk result (λ output. output ≡ output_of docs.now launch.now (bytes_of found.now)) }
{
    let Parts { text, file } = output_parts(alloc, docs, launch, found)?;
    let mut output = text;
    output.extend_from_slice(file)?;
    Ok(output)
}
