// A handshake that was accepted (RFC 6455 4.2.2), up to the Start of the WebSocket's program.
ghost use Rattle.std.specs.Prelude.{◌≡◌, ◌∷◌, [], None, true, false, IfSome, is_some};
ghost use Rattle.host_base.specs.declared.site.ScriptKind.TheVariants.{WebSocket};
ghost use Rattle.host_trace.specs.declared.items.Act.TheVariants.{Shut};
ghost use Rattle.host_trace.specs.declared.items.Why.TheVariants.{NoMemory};
ghost use Rattle.host_trace.specs.Told.{Adds};
ghost use Rattle.trace_child.specs.Words.{is_filled};
ghost use Rattle.child_core.specs.View.{begun as run_begun};
ghost use Rattle.conn_flags.specs.View.{is_live};
ghost use Rattle.talk_core.specs.View.{begun as talk_begun};
ghost use Rattle.talk_conn.specs.View.{flags_of as talk_flags, run_of as talk_run, site_of as talk_site, talk_of, was_lost};
ghost use Rattle.http_state.specs.Kept.{site_of};
ghost use Rattle.http_conn.specs.Opens.{OpensOr, acts_upgraded, missed, upgraded_by};
ghost use Rattle.http_conn.specs.Writes.{acts_written, have_place, wrote};

use crate::close::shut_for;
use crate::give::{start, write};
use child_core::Run;
use conn_flags::Flags;
use host_base::{Bytes, Launch, ScriptKind};
use host_trace::{Act, Acted, Outside, Why};
use http_state::{HttpConn, Welcome};
use std::mem;
use talk_conn::TalkConn;
use talk_core::Talk;

// Writes the accept text; nothing is to be started where there was no room for it.
pub fn greet<O: Outside>(conn: &mut HttpConn<'_>, welcome: Welcome, out: &mut O) -> Option<Launch>
    ensures value { conn.new ≡ wrote welcome.text (is_some result) conn.old }
    ensures told { Adds (O.trace out.old) (acts_written conn.old.flags.c welcome.text (is_some result)) (O.trace out.new) }
    ensures launch { IfSome result (λ launch. launch ≡ welcome.launch) }
    ensures filled { result ≡ None → is_filled welcome.text ≡ true }
    ensures place { is_some result ≡ true → have_place conn.old.flags welcome.text ≡ true }
    ensures limit { O.limit out.new ≡ O.limit out.old }
{
    let Welcome { text, launch } = welcome;
    if write(conn, text, out) {
        Some(launch)
    } else {
        None
    }
}

// The connection speaks WebSocket from now on, and its program is started; it is shut where memory ran out for that.
pub fn open<'s, O: Outside>(
    conn: &mut HttpConn<'s>,
    launch: Launch,
    children: &mut u64,
    out: &mut O,
) -> Option<TalkConn<'s>>
    requires { is_live conn.old.flags ≡ true }
    ensures opens { OpensOr result launch conn.old children.old (O.trace out.old) conn.new children.new (O.trace out.new) }
    ensures shut { result ≡ None → is_live conn.new.flags ≡ false }
    ensures limit { O.limit out.new ≡ O.limit out.old }
{
    let k = *children;
    let Ok(rest) = conn.request.rest() else {
        miss(conn, out);
        return None;
    };
    if !upgrade(conn, rest, out) {
        miss(conn, out);
        return None;
    }
    if !start(conn, 0, launch, children, out) {
        miss(conn, out);
        return None;
    }
    Some(talk_with(conn, k))
}

// False where there was no room.
fn upgrade<O: Outside>(conn: &mut HttpConn<'_>, rest: Bytes, out: &mut O) -> bool
    ensures value { conn.new ≡ upgraded_by rest result conn.old }
    ensures told { Adds (O.trace out.old) (acts_upgraded conn.old.flags.c rest result) (O.trace out.new) }
    ensures limit { O.limit out.new ≡ O.limit out.old }
{
    let number = conn.flags.c();
    match out.act(&Act::Upgrade { c: number, rest }) {
        Acted::Done => {
            conn.flags.upgrade();
            true
        }
        Acted::NoRoom => false,
    }
}

// The talk with the child of this number.
fn talk_with<'s>(conn: &mut HttpConn<'s>, k: u64) -> TalkConn<'s>
    ensures site { talk_site result ≡ site_of conn.old }
    ensures flags { talk_flags result ≡ conn.old.flags }
    ensures talk { talk_of result ≡ talk_begun conn.old.flags.c k (site_of conn.old).limits.ws_text }
    ensures run { talk_run result ≡ run_begun k WebSocket (site_of conn.old).limits }
    ensures found { was_lost result ≡ false }
{
    let number = conn.flags.c();
    let flags = mem::replace(&mut conn.flags, Flags::new(number));
    let limits = &conn.site.limits;
    let talk = Talk::new(conn.alloc, number, k, limits);
    let run = Run::new(conn.alloc, k, ScriptKind::WebSocket, limits);
    TalkConn::new(conn.site, flags, talk, run)
}

// Memory ran out.
fn miss<O: Outside>(conn: &mut HttpConn<'_>, out: &mut O)
    requires live { is_live conn.old.flags ≡ true }
    ensures value { conn.new ≡ missed [] conn.old }
    ensures told { Adds (O.trace out.old) (Shut conn.old.flags.c NoMemory ∷ []) (O.trace out.new) }
    ensures shut { is_live conn.new.flags ≡ false }
    ensures limit { O.limit out.new ≡ O.limit out.old }
{
    conn.lose();
    shut_for(conn, Why::NoMemory, out);
}
