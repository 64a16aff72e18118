// What is read of an output and written of it, part by part.
mod derived;
mod exchanges;
mod headers;
mod messages;
mod replies;
mod streams;

use super::tables::Cells;
use host_base::NoMemory;
use std::alloc::Global;

/// The tables of what is read of an output and written of it.
#[derive(Clone, Copy)]
pub enum ReplyRows {
    Told,
    Reply,
    Hop,
    Refused,
    Header,
    Fault,
    Output,
    Edge,
    Cut,
    Long,
    Unwritten,
    Phrase,
    Spoken,
    Date,
    Dated,
    Size,
}

/// Whether a row of such a table is right.
pub fn is_right(rows: ReplyRows, alloc: Global, row: &Cells) -> Result<bool, NoMemory> {
    match rows {
        ReplyRows::Told => streams::is_answered(alloc, row),
        ReplyRows::Reply => derived::is_right(alloc, row),
        ReplyRows::Hop => derived::hops(alloc, row),
        ReplyRows::Refused => derived::is_refused(alloc, row),
        ReplyRows::Header => headers::is_read_with_any(alloc, row),
        ReplyRows::Fault => headers::is_fault(alloc, row),
        ReplyRows::Output => messages::is_read_at_every_cut(alloc, row),
        ReplyRows::Edge => streams::edges::is_edge(alloc, row),
        ReplyRows::Cut => streams::cuts::is_right(alloc, row),
        ReplyRows::Long => streams::long::is_long(alloc, row),
        ReplyRows::Unwritten => streams::long::is_unwritten(alloc, row),
        ReplyRows::Phrase => replies::is_phrase(alloc, row),
        ReplyRows::Spoken => replies::is_spoken(alloc, row),
        ReplyRows::Date => replies::is_date(alloc, row),
        ReplyRows::Dated => replies::is_dated(alloc, row),
        ReplyRows::Size => replies::is_size(alloc, row),
    }
}
