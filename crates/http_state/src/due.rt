// What may be done for a connection, and what is due.
use crate::conn::HttpConn;
use exchange_stage::Stage;
use host_trace::Why;

impl<'s> HttpConn<'s> {
    ghost use Rattle.std.specs.Prelude.{◌≡◌, true, false, not, is_some, ◌&&◌};
    ghost use Rattle.host_trace.specs.declared.items.Act.TheVariants.{WantClient};
    ghost use Rattle.conn_flags.specs.View.{is_live, may_write};
    ghost use Rattle.conn_flags.specs.Form.{is_allowed, may_start};
    ghost use Rattle.exchange_request.specs.Knows.{is_looked_at};
    ghost use Rattle.http_state.specs.Kept.{is_reading};
    ghost use Rattle.http_state.specs.Reasons.{hears_at, takes_more_of};
    ghost use Rattle.http_state.specs.Tells.{TellsAsk, TellsContinue, TellsDone, TellsEnding, TellsMore, TellsTurn, TellsWhy};
    /// Nothing more is answered, begun or asked.
    pub fn is_ending(&self) -> bool
        ensures live { result ≡ false → may_write self.now.flags ≡ true }
        ensures stopped { result ≡ false → self.now.flags.stopped ≡ false }
        ensures closing { result ≡ false → self.now.closing ≡ false }
        ensures tells { TellsEnding self.now result }
    {
        let done = self.is_client_done();
        !self.flags.may_write()
            || self.flags.is_stopped()
            || self.flags.is_gone()
            || self.lost
            || self.idled
            || self.closing
            || self.closes
            || self.cut.is_some()
            || done
    }

    // The client ended its input, and no request has begun.
    fn is_client_done(&self) -> bool
        ensures { TellsDone self.now result }
    {
        self.flags.has_ended() && matches!(self.stage, Stage::Reading) && !self.request.has_begun()
    }

    /// The request is being read, and bytes came that nobody has looked at.
    pub fn is_unread(&self) -> bool
        ensures { result ≡ (is_reading self.now.stage && not (is_looked_at self.now.request)) }
    {
        matches!(self.stage, Stage::Reading) && self.request.is_fresh()
    }

    /// 100 Continue is due (RFC 9110 10.1.1).
    pub fn is_continue_due(&self) -> bool
        ensures may { result ≡ true → may_write self.now.flags ≡ true }
        ensures closing { result ≡ true → self.now.closing ≡ false }
        ensures tells { TellsContinue self.now result }
    {
        let awaited = self.request.is_due();
        if self.is_ending() {
            return false;
        }
        awaited && !self.continued
    }

    /// A hop may begin, or what was found on the way to it be answered.
    pub fn has_turn(&self) -> bool
        ensures may { result ≡ true → may_start self.now.flags ≡ true }
        ensures open { result ≡ true → self.now.closing ≡ false }
        ensures tells { TellsTurn self.now result }
    {
        !self.is_ending() && self.is_settled() && self.has_room()
    }

    /// More can be done for the exchange in this step.
    pub fn may_go_on(&self) -> bool
        ensures { TellsMore self.now result }
    {
        let ending = self.is_ending();
        match &self.stage {
            Stage::Reading => !ending && self.request.is_fresh(),
            Stage::Refused(_) | Stage::Unstarted { .. } => {
                !ending && self.is_settled() && self.has_room()
            }
            _ => false,
        }
    }

    /// Why the connection is to be shut.
    pub fn why(&self) -> Option<Why>
        ensures live { is_some result ≡ true → is_live self.now.flags ≡ true }
        ensures stops { is_some result ≡ false → self.now.flags.stopped ≡ true → is_live self.now.flags ≡ false }
        ensures tells { TellsWhy self.now result }
    {
        let done = self.is_client_done();
        if !self.flags.is_live() {
            None
        } else if self.lost {
            Some(Why::NoMemory)
        } else if self.flags.is_stopped() {
            Some(Why::Stopped)
        } else if self.flags.is_gone() {
            Some(Why::Gone)
        } else if let Some(cause) = self.cut {
            Some(Why::Cut(cause))
        } else if self.idled {
            Some(Why::Idle)
        } else if self.closing || self.closes || done {
            Some(Why::Done)
        } else {
            None
        }
    }

    /// The client must be heard, and was not asked.
    pub fn is_ask_due(&self) -> bool
        ensures allowed { result ≡ true → is_allowed self.now.flags (WantClient self.now.flags.c) ≡ true }
        ensures tells { TellsAsk self.now result }
    {
        !self.is_ending() && self.has_room() && self.may_hear() && !self.flags.is_asked()
    }

    // Whether the client may be heard: within a request that nothing was done for, or within a body that is fed.
    fn may_hear(&self) -> bool
        ensures { result ≡ hears_at self.now self.now.stage }
    {
        match &self.stage {
            Stage::Reading => !self.flags.has_ended(),
            Stage::Running(leg) => leg.hop == 0 && !self.request.is_whole() && self.takes_more(),
            _ => false,
        }
    }

    fn takes_more(&self) -> bool
        ensures { result ≡ takes_more_of self.now.run }
    {
        match &self.run {
            None => false,
            Some(run) => run.outcome().is_none() && run.wants_more(),
        }
    }
}
