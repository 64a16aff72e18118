// What is to be written of an answer.
ghost use Rattle.std.specs.Prelude.{◌≡◌, IfOk, IfSome, OnErr, Some, true, false, [], option_map, is_some};
ghost use Rattle.script_map.specs.Redirects.{is_local};
ghost use Rattle.trace_child.specs.Words.{is_filled};
ghost use Rattle.trace_model.specs.Answer.{request_of_hop};
ghost use Rattle.trace_model.specs.Readings.{is_head_request};
ghost use Rattle.http_state.specs.Ready.{HasBegun, HearsPiece, HearsTick, LacksTick};
ghost use Rattle.reply_writer.specs.WholeRules.{IsStamp};

use crate::conn::HttpConn;
use child_core::Outcome;
use exchange_reply::{LegReply, fault_text};
use exchange_stage::{Leg, Stage};
use host_base::{Bytes, Cause, NoMemory, Request, ScriptKind};
use reply_stream::Last;
use request_reader::redirected;
use script_map::{is_local, redirect_target};
use std::alloc::Global;
use std::mem;

// What is to be written of a piece of the output, of which there may be none.
fn heard_text(
    reply: &mut LegReply,
    piece: Bytes,
    closes: bool,
    now: Option<u64>,
) -> Result<Bytes, NoMemory>
    requires { IsStamp now }
    ensures piece { IfOk result (λ text. HearsPiece reply.old piece closes now text reply.new) }
    ensures none { piece ≡ [] → (reply.new ≡ reply.old) × IfOk result (λ text. text ≡ []) }
    ensures some { OnErr result (is_filled piece ≡ true) }
{
    if piece.is_empty() {
        return Ok(piece);
    }
    reply.hear(piece, closes, now)
}

// What is to be written because of a Tick, if one came: of a reply that has begun nothing is.
fn ticked_text(
    alloc: Global,
    reply: &mut LegReply,
    came: bool,
    closes: bool,
    now: Option<u64>,
) -> Result<Bytes, NoMemory>
    requires { IsStamp now }
    ensures none { came ≡ false → (reply.new ≡ reply.old) × IfOk result (λ text. text ≡ []) }
    ensures tick { came ≡ true → IfOk result (λ text. HearsTick reply.old closes now text reply.new) }
    ensures filled { IfOk result (λ text. is_filled text ≡ true → HasBegun reply.old false) }
    ensures lacks { OnErr result ((came ≡ true) × LacksTick reply.old) }
{
    if came && !reply.has_begun() {
        reply.tick(closes, now)
    } else {
        Ok(Bytes::new(alloc))
    }
}

// The request of a local redirect (RFC 3875 6.2.2); nothing for a location that is none of a local redirect.
fn request_of_hop(
    alloc: Global,
    request: &Request,
    location: &Bytes,
) -> Result<Option<Request>, NoMemory>
    ensures made { IfOk result (λ found. IfSome found (λ made. made ≡ request_of_hop request.now location.now)) }
    ensures local { IfOk result (λ found. is_some found ≡ is_local location.now) }
{
    if !is_local(location.as_slice()) {
        return Ok(None);
    }
    let target = redirect_target(alloc, location.as_slice(), &request.target)?;
    Ok(Some(redirected(alloc, request, target)?))
}

// A reply to it has no body (RFC 9110 9.3.2).
pub(crate) fn is_head(request: &Request) -> bool
    ensures { result ≡ is_head_request (Some request.now) }
{
    request.method.as_slice() == b"HEAD".as_slice()
}

impl<'s> HttpConn<'s> {
    ghost use Rattle.std.specs.Prelude.{ℕ, ◌≡◌, IfOk, OnErr};
    ghost use Rattle.std.specs.Prelude.{List, None, Some, true, false, []};
    ghost use Rattle.child_core.specs.declared.ending.Outcome.TheVariants.{Output};
    ghost use Rattle.exchange_stage.specs.declared.stage.Leg.{Leg};
    ghost use Rattle.exchange_stage.specs.declared.stage.Stage.TheVariants.{Running};
    ghost use Rattle.exchange_request.specs.Knows.{bare_of};
    ghost use Rattle.http_state.specs.Kept.{Gave, Kept, site_of};
    ghost use Rattle.http_state.specs.Begins.{ByOutcome, ReadiesAnswer};
    ghost use Rattle.http_state.specs.Deeds.{GivesUp};
    ghost use Rattle.http_state.specs.Ready.{Breaks, Concludes, Faults, HearsBoth, HearsPiece, HearsTick, HasBegun, Lacks, LacksTick, MayLack, MayLackReply, ReadsAll, Tells, closes_with, drained_run, outcome_of_run, stage_of_hop, undrained};
    ghost use Rattle.reply_writer.specs.WholeRules.{IsStamp};

    /// Makes ready what is due of the exchange's answer.
    pub fn ready_answer(&mut self, now: Option<u64>)
        requires { IsStamp now }
        ensures kept { Kept self.old self.new }
        ensures gives_up { self.old.lost ≡ false → self.new.lost ≡ true → GivesUp self.old self.new }
        ensures lacks { (leg : Leg) → self.old.stage ≡ Running leg → outcome_of_run self.old.run ≡ Some Output
            → self.old.lost ≡ false → self.new.lost ≡ true → Lacks leg.reply }
        ensures may { self.old.lost ≡ false → self.new.lost ≡ true → MayLack self.old self.old.stage }
        ensures answer { self.new.lost ≡ false → ReadiesAnswer self.old.stage now self.old self.new }
    {
        match self.take_stage() {
            Stage::Rejected { cause, bare } => self.ready_fault(cause, bare, true, now),
            Stage::Interrupted(cause) => self.ready_broken(cause, now),
            Stage::Running(leg) => self.ready_by_run(leg, now),
            stage => self.put(stage),
        }
    }

    // The host's own reply for a cause.
    pub(crate) fn ready_fault(&mut self, cause: Cause, bare: bool, closes: bool, now: Option<u64>)
        requires { IsStamp now }
        ensures kept { Kept self.old self.new }
        ensures gives_up { self.old.lost ≡ false → self.new.lost ≡ true → GivesUp self.old self.new }
        ensures fault { self.new.lost ≡ false → Faults cause bare closes now self.old self.new }
    {
        match fault_text(self.alloc, cause, bare, closes, now) {
            Ok(text) => self.put(Stage::Finishing { text, closes }),
            Err(NoMemory) => self.lose(),
        }
    }

    fn ready_broken(&mut self, cause: Cause, now: Option<u64>)
        requires { IsStamp now }
        ensures kept { Kept self.old self.new }
        ensures gives_up { self.old.lost ≡ false → self.new.lost ≡ true → GivesUp self.old self.new }
        ensures fault { self.new.lost ≡ false → Faults cause (bare_of self.old.request) true now self.old self.new }
    {
        match self.request.is_bare() {
            Ok(bare) => self.ready_fault(cause, bare, true, now),
            Err(NoMemory) => self.lose(),
        }
    }

    // By what decided the run, or by what was heard of it.
    fn ready_by_run(&mut self, leg: Leg, now: Option<u64>)
        requires { IsStamp now }
        ensures kept { Kept self.old self.new }
        ensures gives_up { self.old.lost ≡ false → self.new.lost ≡ true → GivesUp self.old self.new }
        ensures lacks { outcome_of_run self.old.run ≡ Some Output → self.old.lost ≡ false → self.new.lost ≡ true → Lacks leg.reply }
        ensures may { self.old.lost ≡ false → self.new.lost ≡ true → MayLackReply (outcome_of_run self.old.run) leg self.old.run }
        ensures by { self.new.lost ≡ false → ByOutcome (outcome_of_run self.old.run) leg now self.old self.new }
    {
        match self.outcome() {
            None => self.ready_part(leg, now),
            Some(Outcome::Output) => self.ready_last(leg, now),
            Some(Outcome::Failed(cause)) => self.ready_failure(leg, cause, now),
            Some(Outcome::Gone | Outcome::Stopped | Outcome::Dropped) => {}
        }
    }

    fn outcome(&self) -> Option<Outcome>
        ensures { result ≡ outcome_of_run self.now.run }
    {
        match &self.run {
            None => None,
            Some(run) => run.outcome(),
        }
    }

    // Whether an answer of this leg's script that begins now closes the connection (RFC 9112 9.3 and 9.6).
    fn closes_by(&self, kind: ScriptKind) -> bool
        ensures { (bytes : List ℕ) → ReadsAll self.now bytes → result ≡ closes_with self.now kind bytes }
    {
        kind == ScriptKind::Nph || !self.request.lets_persist()
    }

    // What came of a reply whose output goes on.
    fn ready_part(&mut self, leg: Leg, now: Option<u64>)
        requires { IsStamp now }
        ensures kept { Kept self.old self.new }
        ensures gives_up { outcome_of_run self.old.run ≡ None → self.old.lost ≡ false → self.new.lost ≡ true → GivesUp self.old self.new }
        ensures lacks { self.old.lost ≡ false → self.new.lost ≡ true → MayLackReply None leg self.old.run }
        ensures part { self.new.lost ≡ false → Tells leg now self.old self.new }
    {
        let mut leg = leg;
        let closes = self.closes_by(leg.kind);
        match self.next_text(&mut leg, closes, now) {
            Ok(text) => {
                leg.text = text;
                self.put(Stage::Running(leg));
            }
            Err(NoMemory) => self.lose(),
        }
    }

    // The output that was heard since.
    fn next_piece(&mut self) -> Bytes
        ensures kept { Kept self.old self.new }
        ensures piece { result ≡ undrained self.old.run }
        ensures run { self.new ≡ record self.old { run = drained_run self.old.run } }
    {
        match &mut self.run {
            Some(run) => run.drain(),
            None => Bytes::new(self.alloc),
        }
    }

    // What is to be written of the output that was heard since, and because of a Tick.
    fn next_text(
        &mut self,
        leg: &mut Leg,
        closes: bool,
        now: Option<u64>,
    ) -> Result<Bytes, NoMemory>
        requires { IsStamp now }
        ensures kept { Kept self.old self.new }
        ensures run { self.new ≡ record self.old { run = drained_run self.old.run } }
        ensures leg { IfOk result (λ text. leg.new ≡ record leg.old { reply = leg.new.reply; ticked = false }) }
        ensures piece { leg.old.ticked ≡ false
            → IfOk result (λ text. HearsPiece leg.old.reply (undrained self.old.run) closes now text leg.new.reply) }
        ensures tick { leg.old.ticked ≡ true → undrained self.old.run ≡ []
            → IfOk result (λ text. HearsTick leg.old.reply closes now text leg.new.reply) }
        ensures none { leg.old.ticked ≡ false → undrained self.old.run ≡ [] → IfOk result (λ text. text ≡ []) }
        ensures filled { leg.old.ticked ≡ true → undrained self.old.run ≡ []
            → IfOk result (λ text. is_filled text ≡ true → HasBegun leg.old.reply false) }
        ensures both { leg.old.ticked ≡ true
            → IfOk result (λ text. HearsBoth leg.old.reply (undrained self.old.run) closes now text leg.new.reply) }
        ensures lacks { OnErr result (undrained self.old.run ≡ [] → (leg.old.ticked ≡ true) × LacksTick leg.old.reply) }
    {
        let piece = self.next_piece();
        let mut text = heard_text(&mut leg.reply, piece, closes, now)?;
        let came = mem::replace(&mut leg.ticked, false);
        let more = ticked_text(self.alloc, &mut leg.reply, came, closes, now)?;
        if text.is_empty() {
            return Ok(more);
        }
        text.extend_from_slice(more.as_slice())?;
        Ok(text)
    }

    // The output has ended.
    fn ready_last(&mut self, leg: Leg, now: Option<u64>)
        requires { IsStamp now }
        ensures kept { Kept self.old self.new }
        ensures gives_up { self.old.lost ≡ false → self.new.lost ≡ true → GivesUp self.old self.new }
        ensures lacks { self.old.lost ≡ false → self.new.lost ≡ true → Lacks leg.reply }
        ensures last { self.new.lost ≡ false → Concludes leg now self.old self.new }
    {
        let closes_now = self.closes_by(leg.kind);
        let closes = leg.reply.closes(closes_now);
        let Leg {
            hop,
            request,
            reply,
            ..
        } = leg;
        match reply.end(closes_now, now) {
            Ok(Last::Written(text)) => self.put(Stage::Finishing { text, closes }),
            Ok(Last::Hop(location)) => self.hop(hop, &request, &location),
            Ok(Last::Bad(cause)) => self.ready_fault(cause, is_head(&request), closes_now, now),
            Err(NoMemory) => self.lose(),
        }
    }

    // A local redirect.
    fn hop(&mut self, hop: u32, request: &Request, location: &Bytes)
        ensures kept { Kept self.old self.new }
        ensures gives_up { self.old.lost ≡ false → self.new.lost ≡ true → GivesUp self.old self.new }
        ensures hop { self.new.lost ≡ false → self.new ≡ record self.old { stage = stage_of_hop (site_of self.old) hop request.now location.now } }
    {
        if hop >= self.site.limits.redirects {
            self.put(Stage::Refused(Cause::RedirectLoop));
            return;
        }
        match request_of_hop(self.alloc, request, location) {
            Ok(Some(request)) => self.put(Stage::Unstarted {
                hop: hop + 1,
                request,
            }),
            Ok(None) | Err(NoMemory) => self.lose(),
        }
    }

    // The run failed for a cause: a reply that has begun can't be finished.
    fn ready_failure(&mut self, leg: Leg, cause: Cause, now: Option<u64>)
        requires { IsStamp now }
        ensures kept { Kept self.old self.new }
        ensures gives_up { self.old.lost ≡ false → self.new.lost ≡ true → GivesUp self.old self.new }
        ensures lacks { self.old.lost ≡ false → self.new.lost ≡ true → HasBegun leg.reply false }
        ensures failed { self.new.lost ≡ false → Breaks leg cause now self.old self.new }
    {
        let closes = self.closes_by(leg.kind);
        match leg.reply.fail(cause, closes, now) {
            Ok(Some(text)) => self.put(Stage::Finishing { text, closes }),
            Ok(None) => self.cut = Some(cause),
            Err(NoMemory) => self.lose(),
        }
    }
}
