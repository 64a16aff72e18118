// The acts of a step, exchange after exchange.
ghost use Rattle.std.specs.Prelude.{ℕ, ◌≡◌, true, false, [], ◌⊎◌};
ghost use Rattle.host_trace.specs.Told.{Adds};
ghost use Rattle.http_state.specs.Kept.{Gave, Kept, Turned, site_of};
ghost use Rattle.http_state.specs.Deeds.{GivesUp, Then};
ghost use Rattle.http_conn.specs.Parts.{Answers, Feeds, Handles, ReadsOn, ServesChild, ServesOrLoses};
ghost use Rattle.http_conn.specs.Welcomes.{BeginsOr, RoundsOr, ServesOr};
ghost use Rattle.http_conn.specs.declared.serve.Turns.TheVariants.{Over};
ghost use Rattle.http_state.specs.Tells.{TellsMore};
ghost use Rattle.reply_writer.specs.WholeRules.{IsStamp};
ghost use Rattle.host_base.specs.SiteRules.{IsServed};

use crate::give::{give_answer, give_hop, let_continue};
use crate::greet::greet;
use exchange_request::Found;
use exchange_stage::Stage;
use host_base::{Launch, NoMemory};
use host_trace::Outside;
use http_state::HttpConn;

/// How the rounds of a step ended.
pub enum Turns {
    /// Nothing more may go on.
    Over,
    /// As many were made as may be.
    Spent,
    /// A handshake was accepted and answered; this is to be started for it.
    Greeted(Launch),
}

// Answers, handles the child, and begins whatever may begin, until a handshake is accepted; then this is to be started.
pub fn serve<O: Outside>(
    conn: &mut HttpConn<'_>,
    now: Option<u64>,
    children: &mut u64,
    out: &mut O,
) -> Option<Launch>
    requires stamp { IsStamp now }
    requires served { IsServed (site_of conn.old) }
    ensures gave { Gave (ServesOr result now) conn.old children.old (O.trace out.old) conn.new children.new (O.trace out.new) }
    ensures limit { O.limit out.new ≡ O.limit out.old }
{
    answer(conn, now, out);
    handle(conn, out);
    // each request that is answered takes bytes of the client, but one that waited for its turn and the last look
    let most = conn.request.kept_len() as u128 + 2;
    match go_on_for(conn, most, now, children, out) {
        Turns::Over => None,
        Turns::Spent => {
            rest(conn);
            None
        }
        Turns::Greeted(launch) => Some(launch),
    }
}

// Round after round, so many at most.
fn go_on_for<O: Outside>(
    conn: &mut HttpConn<'_>,
    most: u128,
    now: Option<u64>,
    children: &mut u64,
    out: &mut O,
) -> Turns
    requires stamp { IsStamp now }
    requires served { IsServed (site_of conn.old) }
    ensures gave { Gave (RoundsOr result most now) conn.old children.old (O.trace out.old) conn.new children.new (O.trace out.new) }
    ensures rests { result ≡ Over → TellsMore conn.new false }
    ensures limit { O.limit out.new ≡ O.limit out.old }
{
    for _turn in 0..most {
        if !conn.may_go_on() {
            return Turns::Over;
        }
        if let Some(launch) = go_on(conn, now, children, out) {
            return Turns::Greeted(launch);
        }
    }
    Turns::Spent
}

// Nothing goes on any more.
fn rest(conn: &mut HttpConn<'_>)
    ensures rests { TellsMore conn.new false }
    ensures rested { (conn.new ≡ conn.old) ⊎ (TellsMore conn.old true × GivesUp conn.old conn.new) }
    ensures kept { Kept conn.old conn.new }
{
    if conn.may_go_on() {
        conn.lose();
    }
}

// Reads what came, and gives what is due of the answer.
fn answer<O: Outside>(conn: &mut HttpConn<'_>, now: Option<u64>, out: &mut O)
    requires stamp { IsStamp now }
    ensures gave { (n : ℕ) → Gave (Answers now) conn.old n (O.trace out.old) conn.new n (O.trace out.new) }
    ensures limit { O.limit out.new ≡ O.limit out.old }
{
    look(conn);
    let_continue(conn, out);
    if conn.is_ending() {
        return;
    }
    conn.ready_answer(now);
    if !conn.lost {
        give_answer(conn, out);
    }
}

// Looks for a request that can be served.
fn look(conn: &mut HttpConn<'_>)
    ensures turned { Turned ReadsOn conn.old conn.new }
{
    if conn.is_ending() || !conn.is_unread() {
        return;
    }
    match conn.request.look() {
        Ok(Found::More) => {}
        Ok(Found::Ready(request)) => conn.put(Stage::Unstarted { hop: 0, request }),
        Ok(Found::Refused { cause, bare }) => conn.put(Stage::Rejected { cause, bare }),
        Err(NoMemory) => conn.lose(),
    }
}

// Gives the acts of the child.
fn handle<O: Outside>(conn: &mut HttpConn<'_>, out: &mut O)
    ensures gave { (n : ℕ) → Gave Handles conn.old n (O.trace out.old) conn.new n (O.trace out.new) }
    ensures limit { O.limit out.new ≡ O.limit out.old }
{
    act_run_or_lose(conn, out);
    conn.settle();
}

fn act_run_or_lose<O: Outside>(conn: &mut HttpConn<'_>, out: &mut O)
    ensures gave { (n : ℕ) → Gave ServesOrLoses conn.old n (O.trace out.old) conn.new n (O.trace out.new) }
    ensures limit { O.limit out.new ≡ O.limit out.old }
{
    if act_run(conn, out) {
        return;
    }
    conn.lose();
    let _acted = act_run(conn, out);
}

// What is due for the child; false where a Feed is and no room was found for it.
fn act_run<O: Outside>(conn: &mut HttpConn<'_>, out: &mut O) -> bool
    ensures gave { result ≡ true → (n : ℕ) → Gave ServesChild conn.old n (O.trace out.old) conn.new n (O.trace out.new) }
    ensures same { result ≡ false → conn.new ≡ conn.old }
    ensures none { result ≡ false → Adds (O.trace out.old) [] (O.trace out.new) }
    ensures feeds { result ≡ false → Feeds conn.old.run }
    ensures limit { O.limit out.new ≡ O.limit out.old }
{
    let may_want = conn.has_room();
    match &mut conn.run {
        None => true,
        Some(run) => run.act(may_want, out).is_ok(),
    }
}

fn go_on<O: Outside>(
    conn: &mut HttpConn<'_>,
    now: Option<u64>,
    children: &mut u64,
    out: &mut O,
) -> Option<Launch>
    requires stamp { IsStamp now }
    requires served { IsServed (site_of conn.old) }
    ensures gave { Gave (Then (Answers now) (BeginsOr result now)) conn.old children.old (O.trace out.old) conn.new children.new (O.trace out.new) }
    ensures limit { O.limit out.new ≡ O.limit out.old }
{
    answer(conn, now, out);
    begin(conn, now, children, out)
}

// Where what waits has its turn, gives what is due of it.
fn begin<O: Outside>(
    conn: &mut HttpConn<'_>,
    now: Option<u64>,
    children: &mut u64,
    out: &mut O,
) -> Option<Launch>
    requires stamp { IsStamp now }
    requires served { IsServed (site_of conn.old) }
    ensures gave { Gave (BeginsOr result now) conn.old children.old (O.trace out.old) conn.new children.new (O.trace out.new) }
    ensures limit { O.limit out.new ≡ O.limit out.old }
{
    if !conn.has_turn() {
        return None;
    }
    match conn.ready_hop(now) {
        Some(welcome) => greet(conn, welcome, out),
        None => {
            if conn.lost {
                return None;
            }
            give_hop(conn, children, out);
            None
        }
    }
}
