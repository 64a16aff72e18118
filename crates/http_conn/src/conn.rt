// A step of a connection.
ghost use Rattle.std.specs.Prelude.{ℕ, ◌≡◌};
ghost use Rattle.reply_writer.specs.WholeRules.{IsStamp};
ghost use Rattle.host_base.specs.SiteRules.{IsServed};
ghost use Rattle.http_state.specs.Kept.{flags_of, site_of};
ghost use Rattle.http_state.specs.Reasons.{Stops};
ghost use Rattle.http_conn.specs.Opens.{StepsTo};

use crate::close::{close, want};
use crate::greet::open;
use crate::serve::serve;
use host_trace::{Event, Outside};
use http_state::HttpConn;
use talk_conn::TalkConn;

/// What a connection is from a step on.
#[derive(Drop)]
pub enum Onward<'s> {
    /// It speaks HTTP, or is over.
    Http,
    /// It speaks WebSocket.
    Talk(TalkConn<'s>),
    /// It was shut before its talk began, for want of memory, and has no child.
    Shut,
}

/// One step: an event of the connection or of its child, a Tick or Stop, and the acts that it makes due. `now` is
/// what the clock showed at the last Tick, this event included. `children` is the number of the next child, and
/// rises by one where it is started. Where the connection speaks WebSocket from this step on, or was shut
/// before it could, it is not to be stepped any more.
pub fn step<'s, O: Outside>(
    conn: &mut HttpConn<'s>,
    ev: Event,
    now: Option<u64>,
    children: &mut u64,
    out: &mut O,
) -> Onward<'s>
    requires stamp { IsStamp now }
    requires served { IsServed (site_of conn.old) }
    ensures gave { StepsTo result conn.old ev now children.old (O.trace out.old) conn.new children.new (O.trace out.new) }
    ensures stops { result ≡ Onward.Http → Stops (flags_of conn.new) }
    ensures limit { O.limit out.new ≡ O.limit out.old }
{
    conn.hear(ev);
    match serve(conn, now, children, out) {
        Some(launch) => match open(conn, launch, children, out) {
            Some(talk) => Onward::Talk(talk),
            None => Onward::Shut,
        },
        None => {
            close(conn, out);
            want(conn, out);
            Onward::Http
        }
    }
}
