// Whether an event may come next.
ghost use Rattle.std.specs.Prelude.{◌≡◌, true, List};
ghost use Rattle.host_trace.specs.declared.items.Item.{Item};
ghost use Rattle.host_trace.specs.Fits.{fits, is_piece};
ghost use Rattle.trace_tallies.specs.RowFits.{fits_by, RowsOf, AllRowsOf, passes, opens};
ghost use Rattle.trace_tallies.specs.ClientTallies.{asks, asks_upgraded, leaves, stays_open};
ghost use Rattle.trace_tallies.specs.ChildTallies.{waits, answers_next, takes, feeds, runs};

use super::child_tally::ChildTally;
use super::client_tally::ClientTally;
use host_base::Bytes;
use host_trace::Event;

/// What is counted of a trace, as far as one event needs it: the row of the connection and of the child that the event
/// names, where there is one, how many connections were accepted, and whether Stop was heard.
#[derive(Clone, Copy, Drop)]
pub struct Rows {
    pub client: Option<ClientTally>,
    pub child: Option<ChildTally>,
    pub accepted: u64,
    pub is_stopped: bool,
}

/// Whether it is a piece that an event may carry: 1 to 65,536 bytes.
pub fn is_piece(bytes: &Bytes) -> bool
    ensures { result ≡ is_piece bytes.now }
{
    !bytes.is_empty() && bytes.len() <= 65_536
}

// By the rows alone.
fn passes_rows(rows: &Rows, event: &Event, limit: u32) -> bool
    ensures { result ≡ fits_by rows.now limit event.now }
{
    match event {
        Event::Accepted { .. } | Event::Stop => !rows.is_stopped,
        Event::ClientBytes { bytes, .. } => rows.is_asked() && is_piece(bytes),
        Event::ClientEof { .. } => rows.is_asked(),
        Event::ClientGone { c } | Event::NoRoom { c } => rows.opens(*c),
        Event::Wrote { n, .. } => rows.may_leave(*n),
        Event::Started { .. } | Event::StartFailed { .. } => rows.waits(),
        Event::StartFull { seen, .. } => rows.waits() && *seen == limit,
        Event::ChildBytes { bytes, .. } => rows.answers_next() && is_piece(bytes),
        Event::ChildEof { .. } | Event::ChildBroken { .. } => rows.answers_next(),
        Event::Took { n, .. } => rows.takes(*n),
        Event::InputGone { .. } => rows.feeds(),
        Event::Exited { .. } => rows.runs(),
        Event::WsText { .. }
        | Event::WsBinary { .. }
        | Event::WsClosed { .. }
        | Event::WsBad { .. } => rows.is_asked_upgraded(),
        Event::Tick { secs } => *secs < 253_402_300_800,
    }
}

/// Whether the event may come next, where as many children as `limit` may run. An event that passes fits; and where no
/// row is wanting, each that fits passes.
pub fn fits_rows(rows: &Rows, event: &Event, limit: u32) -> bool
    ensures by_rows { result ≡ fits_by rows.now limit event.now }
    ensures sound { (T : List Item) → RowsOf T event.now rows.now → result ≡ true → fits limit T event.now ≡ true }
    ensures exact { (T : List Item) → AllRowsOf T event.now rows.now → result ≡ fits limit T event.now }
{
    passes_rows(rows, event, limit)
}

impl Rows {
    fn is_asked(&self) -> bool
        ensures { result ≡ passes asks self.now.client }
    {
        match &self.client {
            Some(row) => row.is_asked(),
            None => false,
        }
    }

    fn is_asked_upgraded(&self) -> bool
        ensures { result ≡ passes asks_upgraded self.now.client }
    {
        match &self.client {
            Some(row) => row.is_asked_upgraded(),
            None => false,
        }
    }

    fn may_leave(&self, n: u64) -> bool
        ensures { result ≡ passes (leaves n) self.now.client }
    {
        match &self.client {
            Some(row) => row.may_leave(n),
            None => false,
        }
    }

    fn is_open(&self) -> bool
        ensures { result ≡ passes stays_open self.now.client }
    {
        match &self.client {
            Some(row) => row.is_open(),
            None => false,
        }
    }

    fn opens(&self, c: u64) -> bool
        ensures { result ≡ opens self.now c }
    {
        c < self.accepted && self.is_open()
    }

    fn waits(&self) -> bool
        ensures { result ≡ passes waits self.now.child }
    {
        match &self.child {
            Some(row) => row.waits(),
            None => false,
        }
    }

    fn answers_next(&self) -> bool
        ensures { result ≡ passes answers_next self.now.child }
    {
        match &self.child {
            Some(row) => row.answers_next(),
            None => false,
        }
    }

    fn takes(&self, n: u64) -> bool
        ensures { result ≡ passes (takes n) self.now.child }
    {
        match &self.child {
            Some(row) => row.takes(n),
            None => false,
        }
    }

    fn feeds(&self) -> bool
        ensures { result ≡ passes feeds self.now.child }
    {
        match &self.child {
            Some(row) => row.feeds(),
            None => false,
        }
    }

    fn runs(&self) -> bool
        ensures { result ≡ passes runs self.now.child }
    {
        match &self.child {
            Some(row) => row.runs(),
            None => false,
        }
    }
}
