// Events are told to a connection of a site.
ghost use Rattle.host_base.specs.SiteRules.{IsServed};
ghost use Rattle.scgi_conn.specs.View.{site_of};

use super::recorder::Recorder;
use host_base::{Bytes, NoMemory, Peer, Site, Text};
use host_trace::Event;
use scgi_conn::ScgiConn;
use std::alloc::Global;

// What comes, in short.
#[derive(Clone, Copy)]
pub enum Comes {
    Client(&'static [u8]),
    ClientEnds,
    ClientIsGone,
    NoRoom,
    Started,
    StartFails,
    Output(&'static [u8]),
    OutputEnds,
    OutputBreaks,
    Took(u64),
    Exits,
    Tick,
    Stop,
}

fn event_of(alloc: Global, comes: Comes) -> Result<Event, NoMemory> {
    Ok(match comes {
        Comes::Client(bytes) => Event::ClientBytes {
            c: 0,
            bytes: Bytes::from_slice(alloc, bytes)?,
        },
        Comes::ClientEnds => Event::ClientEof { c: 0 },
        Comes::ClientIsGone => Event::ClientGone { c: 0 },
        Comes::NoRoom => Event::NoRoom { c: 0 },
        Comes::Started => Event::Started { k: 7 },
        Comes::StartFails => Event::StartFailed { k: 7 },
        Comes::Output(bytes) => Event::ChildBytes {
            k: 7,
            bytes: Bytes::from_slice(alloc, bytes)?,
        },
        Comes::OutputEnds => Event::ChildEof { k: 7 },
        Comes::OutputBreaks => Event::ChildBroken { k: 7 },
        Comes::Took(n) => Event::Took { k: 7, n },
        Comes::Exits => Event::Exited { k: 7 },
        Comes::Tick => Event::Tick { secs: 0 },
        Comes::Stop => Event::Stop,
    })
}

fn accepted(alloc: Global) -> Result<Event, NoMemory> {
    let text = Text::copy_of(alloc, "192.0.2.1")?;
    Ok(Event::Accepted { peer: Peer(text) })
}

// A step of a connection, of which nothing is said but that the next one may come.
fn tell(conn: &mut ScgiConn<'_>, event: &Event, children: &mut u64, out: &mut Recorder)
    requires { IsServed (site_of conn.old) }
    ensures { IsServed (site_of conn.new) }
{
    conn.step(event, children, out);
}

// What the client sends comes in single bytes.
fn tell_bytes(
    alloc: Global,
    conn: &mut ScgiConn<'_>,
    sent: &[u8],
    children: &mut u64,
    out: &mut Recorder,
) -> Result<(), NoMemory>
    requires { IsServed (site_of conn.old) }
    ensures { IsServed (site_of conn.new) }
{
    for piece in sent.chunks(1) {
        let bytes = Bytes::from_slice(alloc, piece)?;
        tell(conn, &Event::ClientBytes { c: 0, bytes }, children, out);
    }
    Ok(())
}

// What comes, in single bytes where it is sent by the client and `single` is true.
fn tell_next(
    alloc: Global,
    conn: &mut ScgiConn<'_>,
    comes: Comes,
    single: bool,
    children: &mut u64,
    out: &mut Recorder,
) -> Result<(), NoMemory>
    requires { IsServed (site_of conn.old) }
    ensures { IsServed (site_of conn.new) }
{
    match comes {
        Comes::Client(sent) if single => tell_bytes(alloc, conn, sent, children, out),
        comes => {
            tell(conn, &event_of(alloc, comes)?, children, out);
            Ok(())
        }
    }
}

// What a connection does, from its Accepted on; the act with the number `refused` of those that carry something finds no
// room. At the end it holds its slot or not. What the client sends comes in single bytes where `single` is true.
pub fn play(
    alloc: Global,
    site: &Site,
    comes: &[Comes],
    single: bool,
    refused: Option<u32>,
) -> Result<(Recorder, bool), NoMemory>
    requires { IsServed site.now }
{
    let mut out = Recorder::new(alloc, refused);
    let mut conn = ScgiConn::new(alloc, site, 0);
    let mut children = 7;
    tell(&mut conn, &accepted(alloc)?, &mut children, &mut out);
    for each in comes {
        tell_next(alloc, &mut conn, *each, single, &mut children, &mut out)?;
    }
    Ok((out, conn.is_held()))
}
