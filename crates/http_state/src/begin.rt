// How a hop begins.
ghost use Rattle.std.specs.Prelude.{◌≡◌, IsTrue, IfSome, None};
ghost use Rattle.host_base.specs.SiteRules.{IsServed};
ghost use Rattle.meta_variables.specs.Launch.{HasTexts, NamesScript, is_text_or_none};
ghost use Rattle.std.specs.Str.{is_utf8};
ghost use Rattle.std.specs.Prelude.{Some};
ghost use Rattle.trace_model.specs.Places.{script_of};
ghost use Rattle.http_state.specs.Begins.{has_texts};

use crate::answer::is_head;
use crate::conn::HttpConn;
use child_core::Run;
use exchange_reply::LegReply;
use exchange_stage::{Leg, Stage};
use host_base::{
    Bytes, Cause, Launch, Mapped, NoMemory, Refusal, Request, Script, ScriptKind, Site,
};
use meta_variables::launch;
use reply_stream::Asked;
use script_map::map;
use std::{mem, str};
use ws_handshake::{Accept, accept_text, check};

/// What is written for a handshake that was accepted (RFC 6455 4.2.2), and what is started then.
#[derive(Drop)]
pub struct Welcome {
    pub text: Bytes,
    pub launch: Launch,
}

fn is_text(bytes: &[u8]) -> bool
    ensures { result ≡ is_utf8 bytes.now }
{
    str::from_utf8(bytes).is_ok()
}

fn is_text_or_none(bytes: &Option<Bytes>) -> bool
    ensures { result ≡ is_text_or_none bytes.now }
{
    match bytes {
        Some(bytes) => is_text(bytes.as_slice()),
        None => true,
    }
}

// The method, the query and the host are texts.
fn has_texts(request: &Request) -> bool
    ensures is { result ≡ has_texts request.now }
    ensures texts { IsTrue result → HasTexts request.now }
{
    let method = is_text(request.method.as_slice());
    let query = is_text_or_none(&request.target.query);
    let host = is_text_or_none(&request.target.host);
    method && query && host
}

// The mapped script.
fn script_at<'a>(site: &'a Site, mapped: &Mapped) -> Option<&'a Script>
    ensures names { IfSome result (λ script. NamesScript site.now mapped.now) }
    ensures is { IfSome result (λ script. script_of site.now mapped.now ≡ Some script.now) }
    ensures none { result ≡ None → script_of site.now mapped.now ≡ None }
{
    match site.hosts.as_slice().get(mapped.host as usize) {
        Some(host) => host.scripts.as_slice().get(mapped.index as usize),
        None => None,
    }
}

impl<'s> HttpConn<'s> {
    ghost use Rattle.std.specs.Prelude.{ℕ, ◌≡◌, IfOk};
    ghost use Rattle.std.specs.Prelude.{None, true, false, IfSome};
    ghost use Rattle.exchange_stage.specs.declared.stage.Stage.TheVariants.{Unstarted};
    ghost use Rattle.ws_handshake.specs.Handshake.{accept_text};
    ghost use Rattle.http_state.specs.Begins.{IsWelcome, PlacesWelcome, ReadiesWelcome};
    ghost use Rattle.http_state.specs.Begins.{Finds, IsLegOf, Launches, Places, ReadiesHop, Refuses, Starts};
    ghost use Rattle.child_core.specs.Calls.{offered};
    ghost use Rattle.child_core.specs.View.{begun};
    ghost use Rattle.http_state.specs.Kept.{Kept, site_of};
    ghost use Rattle.http_state.specs.Deeds.{GivesUp};
    ghost use Rattle.http_state.specs.Ready.{waits_at};
    ghost use Rattle.reply_writer.specs.WholeRules.{IsStamp};
    ghost use Rattle.host_base.specs.SiteRules.{IsServed};

    /// Makes ready what waits for its turn: a refusal, or the Start of a script. A handshake that was accepted is
    /// answered, and waits on.
    pub fn ready_hop(&mut self, now: Option<u64>) -> Option<Welcome>
        requires stamp { IsStamp now }
        requires served { IsServed (site_of self.old) }
        ensures kept { Kept self.old self.new }
        ensures gives_up { self.old.lost ≡ false → self.new.lost ≡ true → GivesUp self.old self.new }
        ensures waits { self.old.lost ≡ false → self.new.lost ≡ true → waits_at self.old.stage ≡ true }
        ensures hop { result ≡ None → self.new.lost ≡ false → ReadiesHop self.old.stage now self.old self.new }
        ensures welcome { IfSome result (λ welcome. ReadiesWelcome welcome self.old self.new) }
    {
        match self.take_stage() {
            Stage::Refused(cause) => {
                self.ready_refusal(cause, now);
                None
            }
            Stage::Unstarted { hop, request } => self.ready_at_place(hop, request, now),
            stage => {
                self.put(stage);
                None
            }
        }
    }

    // The reply for a cause that was found on the way to a script.
    fn ready_refusal(&mut self, cause: Cause, now: Option<u64>)
        requires { IsStamp now }
        ensures kept { Kept self.old self.new }
        ensures gives_up { self.old.lost ≡ false → self.new.lost ≡ true → GivesUp self.old self.new }
        ensures refusal { self.new.lost ≡ false → Refuses cause now self.old self.new }
    {
        let bare = match self.request.manner() {
            None => false,
            Some(manner) => manner.head_only,
        };
        let closes = !self.request.lets_persist();
        self.ready_fault(cause, bare, closes, now);
    }

    // Finds the script of the request.
    fn ready_at_place(&mut self, hop: u32, request: Request, now: Option<u64>) -> Option<Welcome>
        requires stamp { IsStamp now }
        requires served { IsServed (site_of self.old) }
        ensures kept { Kept self.old self.new }
        ensures gives_up { self.old.lost ≡ false → self.new.lost ≡ true → GivesUp self.old self.new }
        ensures place { result ≡ None → self.new.lost ≡ false → Places hop request now self.old self.new }
        ensures welcome { IfSome result (λ welcome. PlacesWelcome hop request welcome self.old self.new) }
    {
        match map(self.alloc, self.site, &request.target) {
            Ok(mapped) => self.ready_script(hop, request, mapped, now),
            Err(Refusal::Cause(cause)) => {
                self.ready_refusal(cause, now);
                None
            }
            Err(Refusal::NoMemory) => {
                self.lose();
                None
            }
        }
    }

    fn ready_script(
        &mut self,
        hop: u32,
        request: Request,
        mapped: Mapped,
        now: Option<u64>,
    ) -> Option<Welcome>
        requires { IsStamp now }
        ensures kept { Kept self.old self.new }
        ensures gives_up { self.old.lost ≡ false → self.new.lost ≡ true → GivesUp self.old self.new }
        ensures script { result ≡ None → self.new.lost ≡ false → Finds hop request mapped now self.old self.new }
        ensures welcome { IfSome result (λ welcome. IsWelcome hop request mapped welcome self.old self.new) }
    {
        let Some(script) = script_at(self.site, &mapped) else {
            self.lose();
            return None;
        };
        if script.kind != ScriptKind::WebSocket {
            self.ready_start(hop, script.kind, request, &mapped);
            return None;
        }
        match check(&request, script.origins.as_ref()) {
            Err(cause) => {
                self.ready_refusal(cause, now);
                None
            }
            Ok(accept) => self.ready_welcome(hop, request, &mapped, &accept),
        }
    }

    // The handshake was accepted: its request waits on until that is written.
    fn ready_welcome(
        &mut self,
        hop: u32,
        request: Request,
        mapped: &Mapped,
        accept: &Accept,
    ) -> Option<Welcome>
        ensures kept { Kept self.old self.new }
        ensures gives_up { self.old.lost ≡ false → self.new.lost ≡ true → GivesUp self.old self.new }
        ensures lost { result ≡ None → self.new.lost ≡ true }
        ensures waits { IfSome result (λ welcome. self.new ≡ record self.old { stage = Unstarted hop request }) }
        ensures text { IfSome result (λ welcome. welcome.text ≡ accept_text accept.now.value) }
        ensures launch { IfSome result (λ welcome. Launches self.old request mapped.now welcome.launch) }
    {
        match self.welcome_of(&request, mapped, accept) {
            Ok(welcome) => {
                self.put(Stage::Unstarted { hop, request });
                Some(welcome)
            }
            Err(NoMemory) => {
                self.lose();
                None
            }
        }
    }

    fn welcome_of(
        &self,
        request: &Request,
        mapped: &Mapped,
        accept: &Accept,
    ) -> Result<Welcome, NoMemory>
        ensures text { IfOk result (λ welcome. welcome.text ≡ accept_text accept.now.value) }
        ensures launch { IfOk result (λ welcome. Launches self.now request.now mapped.now welcome.launch) }
    {
        let text = accept_text(self.alloc, accept)?;
        let launch = self.launch_of(request, mapped)?;
        Ok(Welcome { text, launch })
    }

    // The Start of a hop's script.
    fn ready_start(&mut self, hop: u32, kind: ScriptKind, request: Request, mapped: &Mapped)
        ensures kept { Kept self.old self.new }
        ensures gives_up { self.old.lost ≡ false → self.new.lost ≡ true → GivesUp self.old self.new }
        ensures start { self.new.lost ≡ false → Starts hop kind request mapped.now self.old self.new }
    {
        let launch = match self.launch_of(&request, mapped) {
            Ok(launch) => launch,
            Err(NoMemory) => {
                self.lose();
                return;
            }
        };
        let mut request = request;
        let body = mem::replace(&mut request.body, Bytes::new(self.alloc));
        let whole = hop > 0 || self.request.is_whole();
        let leg = self.leg_of(hop, kind, request);
        self.put(Stage::Starting {
            leg,
            launch,
            body,
            whole,
        });
    }

    fn leg_of(&self, hop: u32, kind: ScriptKind, request: Request) -> Leg
        ensures { IsLegOf hop kind request result }
    {
        let asked = Asked {
            kind,
            version: request.version,
            head_only: is_head(&request),
        };
        Leg {
            hop,
            kind,
            request,
            reply: LegReply::new(self.alloc, asked),
            ticked: false,
            text: Bytes::new(self.alloc),
        }
    }

    fn launch_of(&self, request: &Request, mapped: &Mapped) -> Result<Launch, NoMemory>
        ensures { IfOk result (λ launch. Launches self.now request.now mapped.now launch) }
    {
        let Some(peer) = &self.peer else {
            return Err(NoMemory);
        };
        if script_at(self.site, mapped).is_none() || !has_texts(request) {
            return Err(NoMemory);
        }
        launch(self.alloc, self.site, peer, request, mapped)
    }

    /// The run of the next child, to which its input is offered.
    pub fn run_of(
        &self,
        k: u64,
        kind: ScriptKind,
        body: &Bytes,
        whole: bool,
    ) -> Result<Run, NoMemory>
        ensures { IfOk result (λ run. run ≡ offered (begun k kind (site_of self.now).limits) body.now whole) }
    {
        let mut run = Run::new(self.alloc, k, kind, &self.site.limits);
        run.offer(body.as_slice(), whole)?;
        Ok(run)
    }
}
