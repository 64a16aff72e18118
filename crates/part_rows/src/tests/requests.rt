// What is read of a request, part by part.
mod framings;
mod heads;
mod launches;
mod readers;
mod scripts;
mod words;

use super::tables::Cells;
use host_base::NoMemory;
use std::alloc::Global;

/// The tables of what is read of a request.
#[derive(Clone, Copy)]
pub enum RequestRows {
    Head,
    LongHead,
    ShortBody,
    LetteredBody,
    LongBody,
    Framed,
    Requests,
    Smuggled,
    BadBody,
    Unended,
    Lasting,
    Redirect,
    Fault,
    LongLine,
    Target,
    RefusedTarget,
    Path,
    Script,
    RefusedPath,
    HostOfAny,
    Host,
    DecodedPath,
    Location,
    Authority,
}

/// Whether a row of such a table is right.
pub fn is_right(rows: RequestRows, alloc: Global, row: &Cells) -> Result<bool, NoMemory> {
    match rows {
        RequestRows::Head => heads::is_head(alloc, row),
        RequestRows::LongHead => heads::is_long_head(alloc, row),
        RequestRows::ShortBody => framings::is_short_body(alloc, row),
        RequestRows::LetteredBody => framings::is_lettered_body(alloc, row),
        RequestRows::LongBody => framings::is_long_body(alloc, row),
        RequestRows::Framed => framings::is_framed_in_both(alloc, row),
        RequestRows::Requests => readers::requests::is_right(alloc, row),
        RequestRows::Smuggled => readers::framings::is_smuggled(alloc, row),
        RequestRows::BadBody => readers::framings::is_bad_body(alloc, row),
        RequestRows::Unended => readers::waiting::is_right(alloc, row),
        RequestRows::Lasting => readers::parts::is_lasting(alloc, row),
        RequestRows::Redirect => readers::parts::is_redirect(alloc, row),
        RequestRows::Fault => readers::faults::is_fault(alloc, row),
        RequestRows::LongLine => readers::long::is_right(alloc, row),
        RequestRows::Target => scripts::is_split(alloc, row),
        RequestRows::RefusedTarget => scripts::is_refused_target(alloc, row),
        RequestRows::Path => scripts::is_path(alloc, row),
        RequestRows::Script => scripts::is_script(alloc, row),
        RequestRows::RefusedPath => scripts::is_refused_path(alloc, row),
        RequestRows::HostOfAny => scripts::is_host_of_any(alloc, row),
        RequestRows::Host => scripts::is_host(alloc, row),
        RequestRows::DecodedPath => scripts::is_decoded_path(alloc, row),
        RequestRows::Location => scripts::is_right_location(alloc, row),
        RequestRows::Authority => scripts::is_authority(alloc, row),
    }
}
