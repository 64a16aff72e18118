// What is counted of a connection.
ghost use Rattle.std.specs.Prelude.{◌≡◌, ◌≤◌, ◌+◌, ◌++◌, ◌∷◌, [], ◌^◌, List, IfSome, IsNone, false, nat_le};
ghost use Rattle.host_trace.specs.declared.items.Item.{Item};
ghost use Rattle.trace_tallies.specs.ClientTallies.{client_tally, no_client, client_heard, client_asked, client_with, holds_client, sent_with, left_asked, asks, asks_upgraded, leaves, stays_open};

use super::kinds::{
    is_client_answer, is_shut, is_upgrade, is_want_client, one_if, text_len, texts_by, written_by,
    wrote_by,
};
use host_trace::{Act, Event, Item};

/// How often its client was asked and answered, how many bytes were sent in this phase and left, and whether
/// it is shut and upgraded.
#[derive(Clone, Copy, Drop)]
pub struct ClientTally {
    pub wants: u64,
    pub answers: u64,
    pub sent: u128,
    pub left: u128,
    pub is_shut: bool,
    pub is_upgraded: bool,
}

impl ClientTally {
    /// Of a connection that no item names.
    pub fn new() -> Self
        ensures { result ≡ no_client }
    {
        ClientTally {
            wants: 0,
            answers: 0,
            sent: 0,
            left: 0,
            is_shut: false,
            is_upgraded: false,
        }
    }

    fn with_event(&self, event: &Event, c: u64) -> Option<Self>
        ensures some { IfSome result (λ tally. tally ≡ client_heard c event.now self.now) }
        ensures none { IsNone result → holds_client (client_heard c event.now self.now) ≡ false }
    {
        let Some(answers) = self.answers.checked_add(one_if(is_client_answer(event, c))) else {
            return None;
        };
        let Some(left) = self.left.checked_add(wrote_by(event, c) as u128) else {
            return None;
        };
        Some(ClientTally {
            wants: self.wants,
            answers,
            sent: self.sent,
            left,
            is_shut: self.is_shut,
            is_upgraded: self.is_upgraded,
        })
    }

    /// The tally of connection `c` with one event more, where its numbers hold that.
    pub fn heard(&self, event: &Event, c: u64) -> Option<Self>
        ensures some { IfSome result (λ tally. tally ≡ client_heard c event.now self.now) }
        ensures none { IsNone result → holds_client (client_heard c event.now self.now) ≡ false }
        ensures counted { (T : List Item) → self.now ≡ client_tally T c → IfSome result (λ tally. tally ≡ client_tally (T ++ Item.In event.now ∷ []) c) }
    {
        self.with_event(event, c)
    }

    fn sent_asked(&self, act: &Act, c: u64) -> Option<u128>
        ensures some { IfSome result (λ n. n ≡ sent_with c (Item.Out act.now) self.now) }
        ensures none { IsNone result → 2 ^ 128 ≤ sent_with c (Item.Out act.now) self.now }
    {
        if self.is_upgraded {
            self.sent.checked_add(text_len(texts_by(act, c)))
        } else if is_upgrade(act, c) {
            Some(0)
        } else {
            self.sent.checked_add(written_by(act, c) as u128)
        }
    }

    fn left_asked(&self, act: &Act, c: u64) -> u128
        ensures { result ≡ left_asked c act.now self.now }
    {
        if !self.is_upgraded && is_upgrade(act, c) {
            0
        } else {
            self.left
        }
    }

    fn with_act(&self, act: &Act, c: u64) -> Option<Self>
        ensures some { IfSome result (λ tally. tally ≡ client_asked c act.now self.now) }
        ensures none { IsNone result → holds_client (client_asked c act.now self.now) ≡ false }
    {
        let Some(wants) = self.wants.checked_add(one_if(is_want_client(act, c))) else {
            return None;
        };
        let Some(sent) = self.sent_asked(act, c) else {
            return None;
        };
        Some(ClientTally {
            wants,
            answers: self.answers,
            sent,
            left: self.left_asked(act, c),
            is_shut: self.is_shut | is_shut(act, c),
            is_upgraded: self.is_upgraded | is_upgrade(act, c),
        })
    }

    /// .. and with one act more.
    pub fn asked(&self, act: &Act, c: u64) -> Option<Self>
        ensures some { IfSome result (λ tally. tally ≡ client_asked c act.now self.now) }
        ensures none { IsNone result → holds_client (client_asked c act.now self.now) ≡ false }
        ensures counted { (T : List Item) → self.now ≡ client_tally T c → IfSome result (λ tally. tally ≡ client_tally (T ++ Item.Out act.now ∷ []) c) }
    {
        self.with_act(act, c)
    }

    /// .. and with one item more.
    pub fn with(&self, item: &Item, c: u64) -> Option<Self>
        ensures some { IfSome result (λ tally. tally ≡ client_with c item.now self.now) }
        ensures none { IsNone result → holds_client (client_with c item.now self.now) ≡ false }
        ensures counted { (T : List Item) → self.now ≡ client_tally T c → IfSome result (λ tally. tally ≡ client_tally (T ++ item.now ∷ []) c) }
    {
        match item {
            Item::In(event) => self.heard(event, c),
            Item::Out(act) => self.asked(act, c),
        }
    }

    /// Whether the client was asked and has not answered, before Upgrade.
    pub fn is_asked(&self) -> bool
        ensures { result ≡ asks self.now }
    {
        !self.is_shut && !self.is_upgraded && self.answers < self.wants
    }

    /// .. and after it.
    pub fn is_asked_upgraded(&self) -> bool
        ensures { result ≡ asks_upgraded self.now }
    {
        !self.is_shut && self.is_upgraded && self.answers < self.wants
    }

    /// Whether `n` bytes more can have left.
    pub fn may_leave(&self, n: u64) -> bool
        ensures { result ≡ leaves n self.now }
    {
        !self.is_shut && n >= 1 && has_room(self.left, n, self.sent)
    }

    /// Whether it is not shut.
    pub fn is_open(&self) -> bool
        ensures { result ≡ stays_open self.now }
    {
        !self.is_shut
    }
}

/// Whether `n` bytes more are at most so many.
pub fn has_room(so_far: u128, n: u64, most: u128) -> bool
    ensures { result ≡ nat_le (so_far + n) most }
{
    match so_far.checked_add(n as u128) {
        Some(more) => more <= most,
        None => false,
    }
}
