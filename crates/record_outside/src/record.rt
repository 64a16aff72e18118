// What is kept of a trace.
ghost use Rattle.std.specs.Prelude.{◌≡◌, ◌≤◌, string_capacity};

use host_base::{NoMemory, Text};
use host_trace::{Act, Event};
use std::alloc::Global;
use trace_text::{MOST_ITEMS, push_done, push_heard};

/// The most bytes of a record.
pub const MOST_BYTES: usize = 1_048_576;

/// The text of the longest front of whole steps of a trace, of at most `MOST_ITEMS` items and `MOST_BYTES` bytes.
#[derive(Drop)]
pub struct Record {
    // The whole steps.
    text: String,
    // The step that goes on.
    step: String,
    count: u32,
    // The step that went on was too much: nothing is added any more.
    is_over: bool,
    ghost room: { (1048576 ≤ string_capacity text) × (1048576 ≤ string_capacity step) },
}

impl Record {
    ghost use Rattle.std.specs.Prelude.{◌≡◌, ◌≤◌, ◌<◌, ◌+◌, ◌&&◌, ◌++◌, ◌∷◌, [], true, false, min, not, List, IfOk, OnOk, OnErr, if◌then◌else◌, length, nat_le, string_bytes, string_len, string_capacity};
    ghost use Rattle.host_trace.specs.declared.items.Item.{Item};
    ghost use Rattle.host_trace.specs.declared.items.Item.TheVariants.{In, Out};
    ghost use Rattle.trace_text.specs.Spelling.{begins_with_event, ended_line};
    ghost use Rattle.record_outside.specs.Record.{IsRecord, Keeps, are_few};

    /// Of a trace without items, with room for the longest record.
    pub fn new(alloc: Global) -> Result<Self, NoMemory>
        ensures { IfOk result (λ made. Keeps [] made) }
    {
        Ok(Record {
            text: String::with_capacity(alloc, MOST_BYTES)?,
            step: String::with_capacity(alloc, MOST_BYTES)?,
            count: 0,
            is_over: false,
        })
    }

    // The step is whole.
    fn end_step(&mut self)
        ensures text { length (string_bytes self.old.text) + length (string_bytes self.old.step) ≤ 1048576 → string_bytes self.new.text ≡ string_bytes self.old.text ++ string_bytes self.old.step }
        ensures step { string_bytes self.new.step ≡ [] }
        ensures same { (self.new.count ≡ self.old.count) × (self.new.is_over ≡ self.old.is_over) }
    {
        let _ = self.text.push_str(self.step.as_str());
        self.step.clear();
    }

    // It has few items and bytes, with those of the step.
    fn is_small(&self) -> bool
        ensures { result ≡ are_few self.now.count (length (string_bytes self.now.text) + length (string_bytes self.now.step)) }
    {
        self.count <= MOST_ITEMS as u32
            && self.text.len().saturating_add(self.step.len()) <= MOST_BYTES
    }

    // One item more is in the step, if it could be spelled.
    fn count_item(&mut self, is_spelled: bool)
        ensures count { self.new.count ≡ min (self.old.count + 1) 4294967295 }
        ensures same { (self.new.text ≡ self.old.text) × (self.new.step ≡ self.old.step) }
        ensures over { self.new.is_over ≡ not (is_spelled && are_few self.new.count (length (string_bytes self.old.text) + length (string_bytes self.old.step))) }
    {
        self.count = self.count.saturating_add(1);
        self.is_over = !(is_spelled && self.is_small());
    }

    /// One event more.
    pub fn hear(&mut self, event: &Event)
        ensures { (T : List Item) → Keeps T self.old → Keeps (T ++ In event.now ∷ []) self.new }
    {
        if !self.is_over {
            self.end_step();
            let is_spelled = push_heard(&mut self.step, event).is_ok();
            self.count_item(is_spelled);
        }
    }

    /// One act more.
    pub fn note(&mut self, act: &Act)
        ensures { (T : List Item) → Keeps T self.old → Keeps (T ++ Out act.now ∷ []) self.new }
    {
        if !self.is_over {
            let is_spelled = push_done(&mut self.step, act).is_ok();
            self.count_item(is_spelled);
        }
    }

    // The step that goes on is the last.
    fn end(&mut self)
        ensures { (T : List Item) → Keeps T self.old → begins_with_event T ≡ true → ∥ IsRecord T (string_bytes self.new.text) ∥₁ }
    {
        if !self.is_over {
            self.end_step();
        }
    }

    /// The record of the trace so far.
    pub fn into_text(self) -> Text
        ensures { (T : List Item) → Keeps T self → begins_with_event T ≡ true → ∥ IsRecord T result ∥₁ }
    {
        let mut ended = self;
        ended.end();
        let Record {
            text,
            step: _,
            count: _,
            is_over: _,
        } = ended;
        Text::from_string(text)
    }
}
