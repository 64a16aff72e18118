// One child: its kid, and our ends of its rings.
ghost use Rattle.std.specs.Prelude.{◌≡◌, ◌++◌, ◌<◌, ◌≤◌, ◌+◌, drop, [], true, false, Some, None, length, IfOk, IfSome, IsNone, OnErr, OnOk, is_ok, if◌then◌else◌};
ghost use Rattle.child_edge.specs.Rows.{IsSound, IsQuiet, IsQuietOn, Says, SaysOn, SaysStart, Ends, Stays, IsAsked, SameMarks, Changes, Kills, Releases, want_marks, end_marks, IsPushed, IsFedOn, fed_all, has_gone, has_exit, HasNothing, HasNoOutput, Feeds, is_settled, IsNewRow, Looked, marks};
ghost use Rattle.child_edge.specs.Kids.{IsOpenKid};
ghost use Rattle.pipe_pump.specs.Rings.{handed_up, standing, IsRingOf, IsFeedOf, SameTap, SameFeeder, is_finished, is_open, fed, places, known_places, IsOtherEnd};
ghost use Rattle.pipe_pump.specs.declared.ends.PumpEnd.TheVariants.{AtEnd};
ghost use Rattle.host_base.specs.Outsides.{Rose};

use super::{Birth, Kid, Reap};
use host_base::{Bytes, NoMemory};
use host_trace::Event;
use pipe_pump::{Feeder, PumpEnd, RingEnd, Tap};
use std::alloc::Global;

/// What a set keeps of one child.
#[derive(Drop)]
pub struct Row<K> {
    pub k: u64,
    pub c: u64,
    pub kid: K,
    /// Until its output is given up.
    pub tap: Option<Tap>,
    pub feeder: Feeder,
    /// What is held for the feeder: all but the first `moved` bytes.
    pub backlog: Vec<u8>,
    pub moved: usize,
    /// How many bytes the feeder was given, and how many were told to be taken.
    pub put: u64,
    pub told: u64,
    /// One event of its output is asked for.
    pub wanted: bool,
    /// Its input is to be closed once the backlog is fed.
    pub closing: bool,
    pub out_end: Option<PumpEnd>,
    pub in_end: Option<PumpEnd>,
    pub reaped: bool,
    /// Started or StartFailed was given.
    pub started: bool,
    /// EndInput came or InputGone was given.
    pub input_ended: bool,
    /// ChildEof or ChildBroken was given, or Release came.
    pub output_ended: bool,
    /// Exited was given.
    pub exited: bool,
}

impl<K: Kid> Row<K> {
    // Asks the kid for all that is open.
    #[tactic(auto, using(crate::proofs::Steps::stays_two, crate::proofs::Steps::marks_two))]
    fn ask_kid(&mut self)
        requires { IsSound K.tells self.old }
        ensures stays { Stays K.tells [] self.old self.new }
        ensures asked { IsAsked (K.tells self.old.kid) (K.tells self.new.kid) }
        ensures state { SameMarks self.old self.new }
    {
        self.look_output();
        self.look_input();
        self.look_exit();
    }

    // Asks the kid, and feeds what there is room for.
    #[tactic(auto, using(crate::proofs::Steps::stays_two, crate::proofs::Steps::marks_two, crate::proofs::Steps::feeds_stay))]
    fn look(&mut self)
        requires { IsSound K.tells self.old }
        ensures stays { Stays K.tells [] self.old self.new }
        ensures asked { IsAsked (K.tells self.old.kid) (K.tells self.new.kid) }
        ensures state { SameMarks self.old self.new }
        ensures pushed { IsPushed self.new }
    {
        self.ask_kid();
        self.flush();
    }

    fn look_output(&mut self)
        requires { IsSound K.tells self.old }
        ensures stays { Stays K.tells [] self.old self.new }
        ensures asked { (K.tells self.new.kid).out_end ≡ None → Rose (K.tells self.old.kid).out_looks (K.tells self.new.kid).out_looks }
        ensures state { SameMarks self.old self.new }
    {
        if self.out_end.is_none() {
            if let Some(done) = self.kid.out_done() {
                self.out_end = Some(done.end);
                if let Some(tap) = &mut self.tap {
                    tap.finish(done.ring);
                }
            }
        }
    }

    fn look_input(&mut self)
        requires { IsSound K.tells self.old }
        ensures stays { Stays K.tells [] self.old self.new }
        ensures asked { (K.tells self.new.kid).in_end ≡ None → Rose (K.tells self.old.kid).in_looks (K.tells self.new.kid).in_looks }
        ensures output { (K.tells self.new.kid).out_end ≡ (K.tells self.old.kid).out_end }
        ensures state { SameMarks self.old self.new }
    {
        if self.in_end.is_none() {
            if let Some(done) = self.kid.in_done() {
                self.in_end = Some(done.end);
            }
        }
    }

    fn look_exit(&mut self)
        requires { IsSound K.tells self.old }
        ensures stays { Stays K.tells [] self.old self.new }
        ensures asked { (K.tells self.new.kid).reaped ≡ false → Rose (K.tells self.old.kid).reap_looks (K.tells self.new.kid).reap_looks }
        ensures output { (K.tells self.new.kid).out_end ≡ (K.tells self.old.kid).out_end }
        ensures input { (K.tells self.new.kid).in_end ≡ (K.tells self.old.kid).in_end }
        ensures state { SameMarks self.old self.new }
    {
        if !self.reaped {
            match self.kid.reap() {
                Reap::Exited => self.reaped = true,
                Reap::Running | Reap::Failed => {}
            }
        }
    }

    /// The kid alone. The ends of its rings are dropped.
    pub(crate) fn into_kid(self) -> K
        ensures { result ≡ self.kid }
    {
        let Row {
            k: _,
            c: _,
            kid,
            tap: _,
            feeder: _,
            backlog: _,
            moved: _,
            put: _,
            told: _,
            wanted: _,
            closing: _,
            out_end: _,
            in_end: _,
            reaped: _,
            started: _,
            input_ended: _,
            output_ended: _,
            exited: _,
        } = self;
        kid
    }

    /// Its exit was told, and its input and its output ended.
    pub fn is_settled(&self) -> bool
        ensures { result ≡ is_settled self.now }
    {
        self.exited && self.input_ended && self.output_ended
    }

    /// Adds bytes to its input, in memory until the ring has room.
    #[tactic(auto, using(crate::proofs::Steps::feeds_none))]
    pub(crate) fn feed(&mut self, bytes: &[u8]) -> Result<(), NoMemory>
        requires { IsSound K.tells self.old }
        ensures { Feeds K.tells (if is_ok result then bytes.now else []) self.old self.new }
    {
        self.hold(bytes)?;
        self.flush();
        Ok(())
    }

    #[tactic(auto, using(crate::proofs::Steps::fed_more))]
    fn hold(&mut self, bytes: &[u8]) -> Result<(), NoMemory>
        requires { IsSound K.tells self.old }
        ensures { Feeds K.tells (if is_ok result then bytes.now else []) self.old self.new }
    {
        self.backlog.extend_from_slice(bytes)?;
        Ok(())
    }

    // Moves what is held to the feeder, as far as there is room, and ends the feed where that is due.
    fn flush(&mut self)
        requires { IsSound K.tells self.old }
        ensures feeds { Feeds K.tells [] self.old self.new }
        ensures pushed { IsPushed self.new }
    {
        if !self.feeder.is_open() {
            return;
        }
        let held = self.backlog.len() - self.moved;
        if held as u64 > u64::MAX - self.put {
            return;
        }
        let put = feed_from(&mut self.feeder, self.backlog.as_slice(), self.moved);
        self.moved += put;
        self.put += put as u64;
        if self.moved < self.backlog.len() {
            return;
        }
        self.backlog.clear();
        self.moved = 0;
        if self.closing {
            self.feeder.finish();
        }
    }

    /// A new child.
    pub(crate) fn new(alloc: Global, k: u64, c: u64, kid: K, tap: Tap, feeder: Feeder) -> Row<K>
        requires ring { IsRingOf (K.tells kid).ring tap }
        requires kid { IsOpenKid (K.tells kid) }
        requires empty { handed_up tap ≡ [] }
        requires open { is_finished tap ≡ false }
        requires feeder { fed feeder ≡ [] }
        requires feed { IsFeedOf (K.tells kid).feed feeder }
        requires free { known_places feeder ≡ places feeder }
        requires open_feed { is_open feeder ≡ true }
        ensures { IsNewRow K.tells k c (K.tells kid).launch result }
    {
        Row {
            k,
            c,
            kid,
            tap: Some(tap),
            feeder,
            backlog: Vec::new(alloc),
            moved: 0,
            put: 0,
            told: 0,
            wanted: false,
            closing: false,
            out_end: None,
            in_end: None,
            reaped: false,
            started: false,
            input_ended: false,
            output_ended: false,
            exited: false,
        }
    }

    /// Its input is closed once what is held was fed.
    pub(crate) fn end_input(&mut self)
        requires { IsSound K.tells self.old }
        ensures { Changes K.tells end_marks self.old self.new }
    {
        if self.feeder.is_open() && self.moved == self.backlog.len() {
            self.feeder.finish();
        }
        self.closing = true;
        self.input_ended = true;
    }

    pub(crate) fn kill(&mut self)
        requires { IsSound K.tells self.old }
        ensures { Kills K.tells self.old self.new }
    {
        self.kid.kill();
    }

    /// Its output is given up: without a tap its pump ends.
    pub(crate) fn release(&mut self)
        requires { IsSound K.tells self.old }
        ensures { Releases K.tells self.old self.new }
    {
        self.tap = None;
        self.wanted = false;
        self.output_ended = true;
    }

    pub(crate) fn want(&mut self)
        requires { IsSound K.tells self.old }
        ensures { Changes K.tells want_marks self.old self.new }
    {
        self.wanted = !self.output_ended;
    }

    /// Asks what became of its start, until that is told, and then for all that is open. Gives what is to be told first.
    pub(crate) fn ask(&mut self, alloc: Global) -> Option<Event>
        requires { IsSound K.tells self.old }
        ensures some { IfSome result (Says K.tells self.old self.new) }
        ensures none { IsNone result → IsQuiet K.tells self.old self.new }
    {
        if self.started {
            self.ask_on(alloc)
        } else {
            self.say_start()
        }
    }

    // What became of its start.
    fn say_start(&mut self) -> Option<Event>
        requires sound { IsSound K.tells self.old }
        requires first { self.old.started ≡ false }
        ensures some { IfSome result (SaysStart K.tells self.old self.new) }
        ensures none { IsNone result → IsQuiet K.tells self.old self.new }
    {
        match self.kid.started()? {
            Birth::Born => {
                self.started = true;
                Some(Event::Started { k: self.k })
            }
            Birth::Unborn => {
                self.started = true;
                self.wanted = false;
                self.input_ended = true;
                self.output_ended = true;
                self.exited = true;
                Some(Event::StartFailed { k: self.k })
            }
        }
    }

    /// Waits for its start, kills and reaps it.
    pub(crate) fn end(&mut self)
        ensures { Ends K.tells self.old self.new }
    {
        self.kid.end();
    }

    // Asks the kid for all that is open, and gives what is to be told first.
    #[tactic(auto, using(crate::proofs::Steps::marks_two, crate::proofs::Steps::stays_two, crate::proofs::Steps::says_two))]
    fn ask_on(&mut self, alloc: Global) -> Option<Event>
        requires sound { IsSound K.tells self.old }
        requires started { self.old.started ≡ true }
        ensures some { IfSome result (SaysOn K.tells self.old self.new) }
        ensures none { IsNone result → IsQuietOn K.tells self.old self.new }
    {
        self.look();
        self.say(alloc)
    }

    // What is to be told, first of all what the input took.
    #[tactic(auto, using(crate::proofs::Steps::looked_says, crate::proofs::Steps::nothing_two))]
    fn say(&mut self, alloc: Global) -> Option<Event>
        requires sound { IsSound K.tells self.old }
        requires started { self.old.started ≡ true }
        requires pushed { IsPushed self.old }
        ensures some { IfSome result (SaysOn K.tells self.old self.new) }
        ensures none { IsNone result → HasNothing K.tells self.old self.new }
    {
        if let Some(event) = self.say_took() {
            return Some(event);
        }
        self.say_rest(alloc)
    }

    // Bytes that left the ring, and were not told.
    fn say_took(&mut self) -> Option<Event>
        requires sound { IsSound K.tells self.old }
        requires pushed { IsPushed self.old }
        ensures some { IfSome result (SaysOn K.tells self.old self.new) }
        ensures none { IsNone result → Looked K.tells self.old self.new }
        ensures fed_on { IsNone result → IsFedOn K.tells self.new }
    {
        let left = self.left();
        let n = self.put.saturating_sub(left).saturating_sub(self.told);
        if n == 0 {
            return None;
        }
        self.told = self.told.saturating_add(n);
        Some(Event::Took { k: self.k, n })
    }

    // How many of the bytes that were put still stand in the ring, as far as this end knows.
    fn left(&mut self) -> u64
        requires { IsSound K.tells self.old }
        ensures same { Looked K.tells self.old self.new }
        ensures open { is_open self.new.feeder ≡ true → result + known_places self.new.feeder ≡ places self.new.feeder }
        ensures ended { is_open self.new.feeder ≡ false → result + self.new.told < self.new.put → (K.tells self.new.kid).in_end ≡ Some AtEnd }
        ensures none { is_open self.new.feeder ≡ false → (K.tells self.new.kid).in_end ≡ Some AtEnd → result ≡ 0 }
        ensures counts { (self.new.told ≡ self.old.told) × (self.new.put ≡ self.old.put) }
        ensures pushed { IsPushed self.old → IsPushed self.new }
    {
        if self.feeder.is_open() {
            return self.feeder.left() as u64;
        }
        match self.in_end {
            Some(PumpEnd::AtEnd) => 0,
            _ => self.put.saturating_sub(self.told),
        }
    }

    // What else is to be told.
    #[tactic(auto, using(crate::proofs::Steps::stays_two, crate::proofs::Steps::says_two))]
    fn say_rest(&mut self, alloc: Global) -> Option<Event>
        requires sound { IsSound K.tells self.old }
        requires started { self.old.started ≡ true }
        requires fed_on { IsFedOn K.tells self.old }
        ensures some { IfSome result (SaysOn K.tells self.old self.new) }
        ensures none { IsNone result → HasNothing K.tells self.old self.new }
    {
        if let Some(event) = self.say_output(alloc) {
            return Some(event);
        }
        if let Some(event) = self.say_gone() {
            return Some(event);
        }
        self.say_exit()
    }

    // An event of the output, where one is asked for.
    fn say_output(&mut self, alloc: Global) -> Option<Event>
        requires sound { IsSound K.tells self.old }
        requires fed_on { IsFedOn K.tells self.old }
        ensures some { IfSome result (SaysOn K.tells self.old self.new) }
        ensures none { IsNone result → HasNoOutput K.tells self.old self.new }
    {
        if !self.wanted {
            return None;
        }
        let Some(tap) = &mut self.tap else {
            return None;
        };
        let size = tap.look();
        if size > 0 {
            return Some(self.say_bytes(alloc, size));
        }
        match self.out_end {
            None => None,
            Some(PumpEnd::AtEnd) => {
                self.wanted = false;
                self.output_ended = true;
                Some(Event::ChildEof { k: self.k })
            }
            Some(PumpEnd::Broken | PumpEnd::Spent | PumpEnd::Abandoned | PumpEnd::LetGo) => {
                self.wanted = false;
                self.output_ended = true;
                Some(Event::ChildBroken { k: self.k })
            }
        }
    }

    // Bytes of the output, at most 65,536.
    fn say_bytes(&mut self, alloc: Global, size: usize) -> Event
        requires sound { IsSound K.tells self.old }
        requires wanted { self.old.wanted ≡ true }
        requires size { 0 < size }
        requires stand { (tap : _) → self.old.tap ≡ Some tap → size ≡ length (standing tap) }
        ensures { SaysOn K.tells self.old self.new result }
    {
        let Some(tap) = &mut self.tap else {
            unreachable!();
        };
        match take_bytes(alloc, tap, size.min(65_536)) {
            Ok(bytes) => {
                self.wanted = false;
                Event::ChildBytes { k: self.k, bytes }
            }
            Err(NoMemory) => {
                self.wanted = false;
                Event::NoRoom { c: self.c }
            }
        }
    }

    fn say_gone(&mut self) -> Option<Event>
        requires { IsSound K.tells self.old }
        ensures some { IfSome result (SaysOn K.tells self.old self.new) }
        ensures same { IsNone result → self.new ≡ self.old }
        ensures none { IsNone result → has_gone self.new ≡ false }
    {
        if self.input_ended {
            return None;
        }
        match self.in_end {
            None | Some(PumpEnd::AtEnd) => None,
            Some(PumpEnd::Broken | PumpEnd::Spent | PumpEnd::Abandoned | PumpEnd::LetGo) => {
                self.input_ended = true;
                Some(Event::InputGone { k: self.k })
            }
        }
    }

    fn say_exit(&mut self) -> Option<Event>
        requires sound { IsSound K.tells self.old }
        requires started { self.old.started ≡ true }
        ensures some { IfSome result (SaysOn K.tells self.old self.new) }
        ensures same { IsNone result → self.new ≡ self.old }
        ensures none { IsNone result → has_exit self.new ≡ false }
    {
        if self.exited || !self.reaped {
            return None;
        }
        self.exited = true;
        Some(Event::Exited { k: self.k })
    }
}

// Feeds bytes from the index `moved` on, as far as there is room.
#[tactic(auto, using(crate::proofs::Steps::moved_more, crate::proofs::Steps::fed_longer))]
fn feed_from(feeder: &mut Feeder, held: &[u8], moved: usize) -> usize
    requires open { is_open feeder.old ≡ true }
    requires moved { moved ≤ length held.now }
    ensures within { moved + result ≤ length held.now }
    ensures fed { fed feeder.new ++ drop (moved + result) held.now ≡ fed feeder.old ++ drop moved held.now }
    ensures grew { length (fed feeder.new) ≡ length (fed feeder.old) + result }
    ensures open { is_open feeder.new ≡ true }
    ensures ring { SameFeeder feeder.old feeder.new }
    ensures places { places feeder.new ≡ places feeder.old }
    ensures room { known_places feeder.old ≤ known_places feeder.new + result }
    ensures short { moved + result < length held.now → known_places feeder.new ≡ 0 }
{
    feeder.feed(&held[moved..])
}

// Takes so many bytes that stand in the ring. The memory is found before any byte is taken.
fn take_bytes(alloc: Global, tap: &mut Tap, size: usize) -> Result<Bytes, NoMemory>
    requires size { 0 < size }
    requires stand { size ≤ length (standing tap.old) }
    ensures bytes { IfOk result (λ bytes. handed_up tap.new ≡ handed_up tap.old ++ bytes) }
    ensures some { IfOk result (λ bytes. (0 < length bytes) × (length bytes ≤ size)) }
    ensures none { OnErr result (tap.new ≡ tap.old) }
    ensures ring { SameTap tap.old tap.new }
    ensures finished { is_finished tap.new ≡ is_finished tap.old }
{
    let mut bytes = vec![in alloc; 0u8; size]?;
    let taken = tap.take(&mut bytes);
    bytes.truncate(taken);
    Ok(Bytes::from_vec(bytes))
}
