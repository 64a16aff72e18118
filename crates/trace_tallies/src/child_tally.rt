// What is counted of a child.
ghost use Rattle.std.specs.Prelude.{◌≡◌, ◌++◌, ◌∷◌, [], List, IfSome, IsNone, false};
ghost use Rattle.host_trace.specs.declared.items.Item.{Item};
ghost use Rattle.trace_tallies.specs.ChildTallies.{child_tally, no_child, child_heard, child_asked, child_with, holds_child, waits, answers_next, takes, feeds, runs, settles};

use super::client_tally::has_room;
use super::kinds::{
    fed_by, is_child_answer, is_end_input, is_exited, is_input_gone, is_output_over, is_release,
    is_start, is_start_answer, is_started, is_want_child, one_if, took_by,
};
use host_trace::{Act, Event, Item};

/// How often its output was asked for and came, how many bytes were fed and taken, and what has happened.
#[derive(Clone, Copy, Drop)]
pub struct ChildTally {
    pub wants: u64,
    pub answers: u64,
    pub fed: u128,
    pub took: u128,
    pub is_asked_for: bool,
    pub is_answered: bool,
    pub is_started: bool,
    pub is_exited: bool,
    pub is_input_over: bool,
    pub is_output_over: bool,
}

impl ChildTally {
    /// Of a child that no item names.
    pub fn new() -> Self
        ensures { result ≡ no_child }
    {
        ChildTally {
            wants: 0,
            answers: 0,
            fed: 0,
            took: 0,
            is_asked_for: false,
            is_answered: false,
            is_started: false,
            is_exited: false,
            is_input_over: false,
            is_output_over: false,
        }
    }

    fn with_event(&self, event: &Event, k: u64) -> Option<Self>
        ensures some { IfSome result (λ tally. tally ≡ child_heard k event.now self.now) }
        ensures none { IsNone result → holds_child (child_heard k event.now self.now) ≡ false }
    {
        let Some(answers) = self.answers.checked_add(one_if(is_child_answer(event, k))) else {
            return None;
        };
        let Some(took) = self.took.checked_add(took_by(event, k) as u128) else {
            return None;
        };
        Some(ChildTally {
            wants: self.wants,
            answers,
            fed: self.fed,
            took,
            is_asked_for: self.is_asked_for,
            is_answered: self.is_answered | is_start_answer(event, k),
            is_started: self.is_started | is_started(event, k),
            is_exited: self.is_exited | is_exited(event, k),
            is_input_over: self.is_input_over | is_input_gone(event, k),
            is_output_over: self.is_output_over | is_output_over(event, k),
        })
    }

    /// The tally of child `k` with one event more, where its numbers hold that.
    pub fn heard(&self, event: &Event, k: u64) -> Option<Self>
        ensures some { IfSome result (λ tally. tally ≡ child_heard k event.now self.now) }
        ensures none { IsNone result → holds_child (child_heard k event.now self.now) ≡ false }
        ensures counted { (T : List Item) → self.now ≡ child_tally T k → IfSome result (λ tally. tally ≡ child_tally (T ++ Item.In event.now ∷ []) k) }
    {
        self.with_event(event, k)
    }

    fn with_act(&self, act: &Act, k: u64) -> Option<Self>
        ensures some { IfSome result (λ tally. tally ≡ child_asked k act.now self.now) }
        ensures none { IsNone result → holds_child (child_asked k act.now self.now) ≡ false }
    {
        let Some(wants) = self.wants.checked_add(one_if(is_want_child(act, k))) else {
            return None;
        };
        let Some(fed) = self.fed.checked_add(fed_by(act, k) as u128) else {
            return None;
        };
        Some(ChildTally {
            wants,
            answers: self.answers,
            fed,
            took: self.took,
            is_asked_for: self.is_asked_for | is_start(act, k),
            is_answered: self.is_answered,
            is_started: self.is_started,
            is_exited: self.is_exited,
            is_input_over: self.is_input_over | is_end_input(act, k),
            is_output_over: self.is_output_over | is_release(act, k),
        })
    }

    /// .. and with one act more.
    pub fn asked(&self, act: &Act, k: u64) -> Option<Self>
        ensures some { IfSome result (λ tally. tally ≡ child_asked k act.now self.now) }
        ensures none { IsNone result → holds_child (child_asked k act.now self.now) ≡ false }
        ensures counted { (T : List Item) → self.now ≡ child_tally T k → IfSome result (λ tally. tally ≡ child_tally (T ++ Item.Out act.now ∷ []) k) }
    {
        self.with_act(act, k)
    }

    /// .. and with one item more.
    pub fn with(&self, item: &Item, k: u64) -> Option<Self>
        ensures some { IfSome result (λ tally. tally ≡ child_with k item.now self.now) }
        ensures none { IsNone result → holds_child (child_with k item.now self.now) ≡ false }
        ensures counted { (T : List Item) → self.now ≡ child_tally T k → IfSome result (λ tally. tally ≡ child_tally (T ++ item.now ∷ []) k) }
    {
        match item {
            Item::In(event) => self.heard(event, k),
            Item::Out(act) => self.asked(act, k),
        }
    }

    /// Whether its Start waits for an answer.
    pub fn waits(&self) -> bool
        ensures { result ≡ waits self.now }
    {
        self.is_asked_for && !self.is_answered
    }

    /// Whether its output was asked for and has not ended.
    pub fn answers_next(&self) -> bool
        ensures { result ≡ answers_next self.now }
    {
        self.is_started && !self.is_output_over && self.answers < self.wants
    }

    /// Whether `n` bytes more can have been taken.
    pub fn takes(&self, n: u64) -> bool
        ensures { result ≡ takes n self.now }
    {
        self.is_started && n >= 1 && has_room(self.took, n, self.fed)
    }

    /// Whether its input has not ended.
    pub fn feeds(&self) -> bool
        ensures { result ≡ feeds self.now }
    {
        self.is_started && !self.is_input_over
    }

    /// Whether it runs.
    pub fn runs(&self) -> bool
        ensures { result ≡ runs self.now }
    {
        self.is_started && !self.is_exited
    }

    /// Whether nothing of it is left in the machine: its start was refused, or it was reaped and both its pipes have
    /// ended.
    pub fn is_settled(&self) -> bool
        ensures { result ≡ settles self.now }
    {
        self.is_answered && !self.is_started
            || self.is_exited && self.is_input_over && self.is_output_over
    }
}
