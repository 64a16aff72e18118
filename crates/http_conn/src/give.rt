// Acts as they are given.
ghost use Rattle.std.specs.Prelude.{◌≡◌, ◌∷◌, [], true, ℕ, false, ◌<◌, ◌^◌, ◌-◌};
ghost use Rattle.host_trace.specs.Told.{Adds, carries_nothing};
ghost use Rattle.conn_flags.specs.View.{may_write};
ghost use Rattle.conn_flags.specs.Form.{may_start};
ghost use Rattle.http_state.specs.Kept.{Gave};
ghost use Rattle.http_state.specs.Deeds.{Loses, Or, Part};
ghost use Rattle.http_conn.specs.Parts.{FinishesBy, Gives, GivesHop, LetsOn, LosesText, StartsRun, WritesPart};
ghost use Rattle.http_state.specs.Settles.{is_answered};
ghost use Rattle.http_conn.specs.Writes.{acts_continued, acts_started, acts_written, continued, have_place, next_if, wrote};
ghost use Rattle.trace_child.specs.Words.{is_filled};
ghost use Rattle.trace_model.specs.Exchange.{continue_text};

use child_core::Run;
use exchange_stage::{Leg, Stage};
use host_base::{Bytes, Launch, NoMemory};
use host_trace::{Act, Acted, Outside};
use http_state::HttpConn;
use std::mem;

const CONTINUE: &[u8] = b"HTTP/1.1 100 Continue\r\n\r\n";

// Gives an act that carries nothing, which always finds room.
pub fn give_plain<O: Outside>(act: &Act, out: &mut O)
    requires { carries_nothing act.now ≡ true }
    ensures told { Adds (O.trace out.old) (act.now ∷ []) (O.trace out.new) }
    ensures limit { O.limit out.new ≡ O.limit out.old }
{
    out.act(act);
}

// Writes bytes, of which there may be none; false where there was no room, or more would wait to be sent than may.
pub fn write<O: Outside>(conn: &mut HttpConn<'_>, bytes: Bytes, out: &mut O) -> bool
    ensures value { conn.new ≡ wrote bytes result conn.old }
    ensures told { Adds (O.trace out.old) (acts_written conn.old.flags.c bytes result) (O.trace out.new) }
    ensures filled { result ≡ false → is_filled bytes ≡ true }
    ensures place { result ≡ true → have_place conn.old.flags bytes ≡ true }
    ensures limit { O.limit out.new ≡ O.limit out.old }
{
    if bytes.is_empty() {
        return true;
    }
    let len = bytes.len() as u64;
    if !conn.flags.has_place(len) {
        conn.lose();
        return false;
    }
    let number = conn.flags.c();
    let act = Act::Write { c: number, bytes };
    match out.act(&act) {
        Acted::Done => {
            conn.flags.write(len);
            true
        }
        Acted::NoRoom => {
            conn.lose();
            false
        }
    }
}

// 100 Continue, where it is due (RFC 9110 10.1.1).
pub fn let_continue<O: Outside>(conn: &mut HttpConn<'_>, out: &mut O)
    ensures gave { (n : ℕ) → Gave (Part LetsOn) conn.old n (O.trace out.old) conn.new n (O.trace out.new) }
    ensures limit { O.limit out.new ≡ O.limit out.old }
{
    if conn.is_continue_due() {
        let _found = write_continue(conn, out);
    }
}

// Writes it; false where memory ran out.
fn write_continue<O: Outside>(conn: &mut HttpConn<'_>, out: &mut O) -> bool
    ensures value { conn.new ≡ continued result conn.old }
    ensures told { Adds (O.trace out.old) (acts_continued conn.old.flags.c result) (O.trace out.new) }
    ensures place { result ≡ true → have_place conn.old.flags continue_text ≡ true }
    ensures limit { O.limit out.new ≡ O.limit out.old }
{
    let Ok(bytes) = Bytes::from_slice(conn.alloc, CONTINUE) else {
        conn.lose();
        return false;
    };
    let found = write(conn, bytes, out);
    if found {
        conn.continued = true;
    }
    found
}

// Gives what is ready of an answer: a part, or all that is left.
pub fn give_answer<O: Outside>(conn: &mut HttpConn<'_>, out: &mut O)
    requires may { may_write conn.old.flags ≡ true }
    requires open { conn.old.closing ≡ false }
    ensures gave { (n : ℕ) → Gave Gives conn.old n (O.trace out.old) conn.new n (O.trace out.new) }
    ensures limit { O.limit out.new ≡ O.limit out.old }
{
    match conn.take_stage() {
        Stage::Running(leg) => give_part(conn, leg, out),
        Stage::Finishing { text, closes } => give_rest(conn, text, closes, out),
        stage => conn.put(stage),
    }
}

// Gives what is ready of a hop: a Start, or the reply for a cause that was found there.
pub fn give_hop<O: Outside>(conn: &mut HttpConn<'_>, children: &mut u64, out: &mut O)
    requires may { may_start conn.old.flags ≡ true }
    requires open { conn.old.closing ≡ false }
    ensures gave { Gave GivesHop conn.old children.old (O.trace out.old) conn.new children.new (O.trace out.new) }
    ensures limit { O.limit out.new ≡ O.limit out.old }
{
    match conn.take_stage() {
        Stage::Finishing { text, closes } => give_rest(conn, text, closes, out),
        Stage::Starting {
            leg,
            launch,
            body,
            whole,
        } => {
            match conn.run_of(*children, leg.kind, &body, whole) {
                Ok(run) => give_start(conn, leg, run, launch, children, out),
                Err(NoMemory) => conn.lose(),
            }
        }
        stage => conn.put(stage),
    }
}

fn give_part<O: Outside>(conn: &mut HttpConn<'_>, leg: Leg, out: &mut O)
    requires may { may_write conn.old.flags ≡ true }
    requires open { conn.old.closing ≡ false }
    requires writing { is_answered conn.old.stage ≡ false }
    ensures gave { (n : ℕ) → Gave (Or (Part (WritesPart leg)) (Part (LosesText leg.text))) conn.old n (O.trace out.old) conn.new n (O.trace out.new) }
    ensures limit { O.limit out.new ≡ O.limit out.old }
{
    let mut leg = leg;
    let text = mem::replace(&mut leg.text, Bytes::new(conn.alloc));
    let _found = write(conn, text, out);
    conn.put(Stage::Running(leg));
}

fn give_rest<O: Outside>(conn: &mut HttpConn<'_>, text: Bytes, closes: bool, out: &mut O)
    requires may { may_write conn.old.flags ≡ true }
    requires open { conn.old.closing ≡ false }
    ensures gave { (n : ℕ) → Gave (FinishesBy text closes) conn.old n (O.trace out.old) conn.new n (O.trace out.new) }
    ensures limit { O.limit out.new ≡ O.limit out.old }
{
    if !write(conn, text, out) {
        return;
    }
    conn.stand(closes);
}

fn give_start<O: Outside>(
    conn: &mut HttpConn<'_>,
    leg: Leg,
    run: Run,
    launch: Launch,
    children: &mut u64,
    out: &mut O,
)
    requires number { run.number ≡ children.old }
    requires may { may_start conn.old.flags ≡ true }
    requires open { conn.old.closing ≡ false }
    ensures gave { Gave (Or (Part (StartsRun leg launch run)) (Part Loses)) conn.old children.old (O.trace out.old) conn.new children.new (O.trace out.new) }
    ensures limit { O.limit out.new ≡ O.limit out.old }
{
    if !start(conn, leg.hop, launch, children, out) {
        conn.lose();
        return;
    }
    conn.put_run(Some(run));
    conn.put(Stage::Running(leg));
}

// Starts a hop's child for the exchange; false where there was no room, or no number is left.
pub fn start<O: Outside>(
    conn: &HttpConn<'_>,
    hop: u32,
    launch: Launch,
    children: &mut u64,
    out: &mut O,
) -> bool
    ensures told { Adds (O.trace out.old) (acts_started children.old conn.now hop launch result) (O.trace out.new) }
    ensures next { children.new ≡ next_if result children.old }
    ensures counted { result ≡ true → conn.now.number < 2 ^ 128 - 1 }
    ensures limit { O.limit out.new ≡ O.limit out.old }
{
    let k = *children;
    let Some(next) = k.checked_add(1) else {
        return false;
    };
    if !conn.is_counted() {
        return false;
    }
    let act = Act::Start {
        k,
        c: conn.flags.c(),
        j: conn.number,
        hop,
        launch,
    };
    match out.act(&act) {
        Acted::Done => {
            *children = next;
            true
        }
        Acted::NoRoom => false,
    }
}
