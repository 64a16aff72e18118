// The end of a step: the connection is shut, or its client asked.
ghost use Rattle.std.specs.Prelude.{ℕ, ◌≡◌, true, false};
ghost use Rattle.conn_flags.specs.View.{is_live};
ghost use Rattle.conn_flags.specs.Form.{is_allowed};
ghost use Rattle.host_trace.specs.declared.items.Act.TheVariants.{WantClient};
ghost use Rattle.host_trace.specs.Kinds.{is_no_memory};
ghost use Rattle.http_state.specs.Kept.{Gave, Kept};
ghost use Rattle.http_state.specs.Moves.{given_up_by};
ghost use Rattle.http_state.specs.Deeds.{Part};
ghost use Rattle.http_conn.specs.Parts.{Asks, Closes, Shuts, Wants};
ghost use Rattle.http_state.specs.Reasons.{Stops};

use crate::give::give_plain;
use child_core::Ending;
use host_trace::{Act, Outside, Why};
use http_state::HttpConn;

// Shuts the connection where that is due.
pub fn close<O: Outside>(conn: &mut HttpConn<'_>, out: &mut O)
    ensures stops { Stops conn.new.flags }
    ensures gave { (n : ℕ) → Gave (Part Closes) conn.old n (O.trace out.old) conn.new n (O.trace out.new) }
    ensures limit { O.limit out.new ≡ O.limit out.old }
{
    if let Some(why) = conn.why() {
        shut_for(conn, why, out);
    }
}

pub fn shut_for<O: Outside>(conn: &mut HttpConn<'_>, why: Why, out: &mut O)
    requires { is_live conn.old.flags ≡ true }
    ensures shut { is_live conn.new.flags ≡ false }
    ensures gave { (n : ℕ) → Gave (Shuts why) conn.old n (O.trace out.old) conn.new n (O.trace out.new) }
    ensures limit { O.limit out.new ≡ O.limit out.old }
{
    let number = conn.flags.c();
    give_plain(&Act::Shut { c: number, why }, out);
    conn.flags.shut();
    note_shut(conn, why);
}

// A child of a connection that is shut for want of memory is given up.
fn note_shut(conn: &mut HttpConn<'_>, why: Why)
    ensures value { conn.new ≡ record conn.old { run = given_up_by (is_no_memory why) conn.old.run } }
    ensures kept { Kept conn.old conn.new }
{
    if matches!(why, Why::NoMemory) {
        conn.end_run(Ending::Dropped);
    }
}

// Asks the client where it must be heard.
pub fn want<O: Outside>(conn: &mut HttpConn<'_>, out: &mut O)
    ensures stops { Stops conn.old.flags → Stops conn.new.flags }
    ensures gave { (n : ℕ) → Gave (Part Wants) conn.old n (O.trace out.old) conn.new n (O.trace out.new) }
    ensures limit { O.limit out.new ≡ O.limit out.old }
{
    if conn.is_ask_due() {
        ask(conn, out);
    }
}

fn ask<O: Outside>(conn: &mut HttpConn<'_>, out: &mut O)
    requires { is_allowed conn.old.flags (WantClient conn.old.flags.c) ≡ true }
    ensures stops { Stops conn.old.flags → Stops conn.new.flags }
    ensures gave { (n : ℕ) → Gave Asks conn.old n (O.trace out.old) conn.new n (O.trace out.new) }
    ensures limit { O.limit out.new ≡ O.limit out.old }
{
    let number = conn.flags.c();
    give_plain(&Act::WantClient { c: number }, out);
    conn.flags.ask();
}
