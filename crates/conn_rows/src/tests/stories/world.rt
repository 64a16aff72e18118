// What comes next: the client, its child, the clock, and what goes wrong. It gives what fits what was asked for.
mod events;

use super::super::judge::Cut;
use super::super::kid::Kid;
use super::super::numbers::Numbers;
use super::plain::Plain;
use super::roles::{Deed, Role};
use super::story::{Leaves, Story, Turn, When};

// Without bytes.
#[derive(Clone, Copy)]
pub enum Next {
    Accept,
    Client(usize),
    End,
    Gone,
    NoRoom,
    Stop,
    Tick,
    Left(usize),
    Started,
    Failed,
    Full(u32),
    Out(usize),
    OutEnd,
    Broken,
    Took(usize),
    InGone,
    Exited,
}

// What a deed comes to.
enum Step {
    // It was done, or can't be any more.
    Skip,
    // It can't be done yet.
    Wait,
    // This comes, and the deed is done with it or goes on.
    Does(Next),
    Goes(Next),
}

#[derive(Clone, Copy)]
pub struct World {
    cut: Cut,
    numbers: Numbers,
    // Ticks that came so far, those of a deed or a trouble, and those before what was written leaves.
    ticks: u32,
    spent: u32,
    // Deeds of the child with this number that were done.
    child: u64,
    deed: usize,
    slow: u32,
    // The place at which the client may go on.
    passed: Option<usize>,
    troubled: bool,
    // Nothing else went on so many times.
    quiet: u32,
    stopped: bool,
}

impl World {
    pub fn new(cut: Cut, seed: u64) -> Self {
        World {
            cut,
            numbers: Numbers::new(seed),
            ticks: 0,
            spent: 0,
            child: 0,
            deed: 0,
            slow: 0,
            passed: None,
            troubled: false,
            quiet: 0,
            stopped: false,
        }
    }

    // A piece of what is left, at a place of a request or an output. Of a long one single bytes come at its front.
    fn piece(&mut self, place: usize, left: usize) -> usize {
        let most = match self.cut {
            Cut::Whole => left,
            Cut::Single if place < 600 => 1,
            Cut::Single => left,
            Cut::Seeded => self
                .numbers
                .some(left.min(if left < 2000 { 60 } else { 40_000 })),
        };
        most.min(left).min(65_536)
    }

    fn tick(&mut self) -> Next {
        self.ticks = self.ticks.saturating_add(1);
        Next::Tick
    }

    // ---- the client

    // Where the client stops for a while, or for good.
    fn limit(&self, story: &Story, got: usize) -> usize {
        let mut limit = story.stream.len();
        for hold in story.holds.as_slice() {
            if *hold > got {
                limit = limit.min(*hold);
            }
        }
        match story.trouble {
            Some((When::Sent(at), _)) if !self.troubled && at >= got => limit.min(at),
            _ => limit,
        }
    }

    fn is_held(&self, story: &Story, got: usize) -> bool {
        story.holds.as_slice().contains(&got) && self.passed != Some(got)
    }

    fn may_send(plain: &Plain) -> bool {
        plain.asked && !plain.ended && !plain.shut
    }

    fn send(&mut self, story: &Story, plain: &Plain) -> Option<Next> {
        let limit = self.limit(story, plain.got);
        if !World::may_send(plain) || self.is_held(story, plain.got) || limit <= plain.got {
            return None;
        }
        let left = limit.saturating_sub(plain.got);
        Some(Next::Client(self.piece(plain.rest(), left)))
    }

    // What was written leaves.
    fn leave(&mut self, story: &Story, plain: &Plain, late: bool) -> Option<Next> {
        let waits = plain.waits();
        if waits == 0 || plain.shut {
            return None;
        }
        match story.leaves {
            Leaves::AtOnce => Some(Next::Left(waits)),
            Leaves::InParts => Some(Next::Left(waits.saturating_add(1) / 2)),
            Leaves::Late if late => Some(Next::Left(waits)),
            Leaves::Slow if late => Some(self.leave_slowly(waits)),
            _ => None,
        }
    }

    fn leave_slowly(&mut self, waits: usize) -> Next {
        if self.slow < 2 {
            self.slow = self.slow.saturating_add(1);
            return self.tick();
        }
        self.slow = 0;
        Next::Left(waits)
    }

    // ---- what goes wrong

    fn turn(&mut self, plain: &Plain, turn: Turn) -> Option<Next> {
        match turn {
            Turn::Stop if !self.stopped => {
                self.stopped = true;
                Some(Next::Stop)
            }
            Turn::Stop => None,
            Turn::Idle(count) => {
                if self.spent >= count {
                    self.spent = 0;
                    return None;
                }
                self.spent = self.spent.saturating_add(1);
                Some(self.tick())
            }
            _ if plain.shut => None,
            Turn::Gone => Some(Next::Gone),
            Turn::NoRoom => Some(Next::NoRoom),
            Turn::End => Some(Next::End),
        }
    }

    fn is_time(&self, plain: &Plain, when: When, turn: Turn) -> bool {
        let open = turn != Turn::End || World::may_send(plain);
        let there = match when {
            When::Sent(at) => plain.got == at,
            When::Done(child, deed) => match &plain.kid {
                Some(kid) => kid.number == child && self.child == child && self.deed == deed,
                None => false,
            },
        };
        open && there
    }

    fn trouble(&mut self, story: &Story, plain: &Plain) -> Option<Next> {
        let Some((when, turn)) = story.trouble else {
            return None;
        };
        if self.troubled || !self.is_time(plain, when, turn) {
            return None;
        }
        let next = self.turn(plain, turn);
        self.troubled = match turn {
            Turn::Idle(_) => next.is_none(),
            _ => true,
        };
        next
    }

    // ---- the child

    fn can_end(kid: &Kid) -> bool {
        kid.started && kid.asked && !kid.output_over
    }

    fn is_dead(kid: &Kid) -> bool {
        kid.by.is_some() || kid.killed || kid.output_over
    }

    fn output(&mut self, role: &Role, kid: &Kid, to: usize) -> Step {
        let to = to.min(role.output.len());
        if kid.heard >= to {
            Step::Skip
        } else if World::can_end(kid) {
            let left = to.saturating_sub(kid.heard);
            Step::Goes(Next::Out(self.piece(kid.heard, left)))
        } else if World::is_dead(kid) {
            Step::Skip
        } else {
            Step::Wait
        }
    }

    fn ends(kid: &Kid, next: Next) -> Step {
        if World::can_end(kid) {
            Step::Does(next)
        } else if World::is_dead(kid) {
            Step::Skip
        } else {
            Step::Wait
        }
    }

    fn starts(kid: &Kid, next: Next) -> Step {
        if kid.started || kid.refused {
            Step::Skip
        } else {
            Step::Does(next)
        }
    }

    fn wait(&mut self, count: u32) -> Step {
        if self.spent >= count {
            self.spent = 0;
            return Step::Skip;
        }
        self.spent = self.spent.saturating_add(1);
        Step::Goes(self.tick())
    }

    fn exits(kid: &Kid) -> Step {
        if kid.started && !kid.exited {
            Step::Does(Next::Exited)
        } else {
            Step::Skip
        }
    }

    fn dies(&mut self, kid: &Kid) -> Step {
        if kid.exited || !kid.started {
            Step::Skip
        } else if kid.killed {
            Step::Does(Next::Exited)
        } else {
            Step::Goes(self.tick())
        }
    }

    fn deed(&mut self, role: &Role, kid: &Kid, deed: Deed) -> Step {
        match deed {
            Deed::Start => World::starts(kid, Next::Started),
            Deed::Fail => World::starts(kid, Next::Failed),
            Deed::Full(seen) => World::starts(kid, Next::Full(seen)),
            Deed::Out(to) => self.output(role, kid, to),
            Deed::Wait(count) => self.wait(count),
            Deed::Read => {
                if kid.input_over || World::is_dead(kid) {
                    Step::Skip
                } else {
                    Step::Wait
                }
            }
            Deed::End => World::ends(kid, Next::OutEnd),
            Deed::Break => World::ends(kid, Next::Broken),
            Deed::InGone => {
                if kid.started && !kid.input_over {
                    Step::Does(Next::InGone)
                } else {
                    Step::Skip
                }
            }
            Deed::Exit => World::exits(kid),
            Deed::Die => self.dies(kid),
        }
    }

    // What comes of a child all of whose deeds were done.
    fn rest(kid: &Kid) -> Option<Next> {
        if kid.refused {
            None
        } else if !kid.started {
            Some(Next::Started)
        } else if !kid.exited {
            Some(Next::Exited)
        } else if World::can_end(kid) {
            Some(Next::OutEnd)
        } else {
            None
        }
    }

    fn done(&mut self) {
        self.deed = self.deed.saturating_add(1);
    }

    // Its next deed that can be done.
    fn deeds(&mut self, role: &Role, kid: &Kid) -> Option<Next> {
        for _ in 0..role.deeds.len() {
            let Some(deed) = role.deeds.get(self.deed) else {
                return World::rest(kid);
            };
            match self.deed(role, kid, *deed) {
                Step::Skip => self.done(),
                Step::Wait => return None,
                Step::Goes(next) => return Some(next),
                Step::Does(next) => {
                    self.done();
                    return Some(next);
                }
            }
        }
        World::rest(kid)
    }

    // Another child has done no deed so far.
    fn meet(&mut self, kid: &Kid) {
        if kid.number != self.child {
            self.child = kid.number;
            self.deed = 0;
            self.spent = 0;
        }
    }

    fn serve(&mut self, role: &Role, kid: &Kid) -> Option<Next> {
        if role.takes && kid.fed > kid.taken {
            return Some(Next::Took(kid.fed.saturating_sub(kid.taken)));
        }
        self.deeds(role, kid)
    }

    // What its child does.
    fn act(&mut self, story: &Story, plain: &Plain) -> Option<Next> {
        let Some(kid) = &plain.kid else {
            return None;
        };
        if kid.is_settled() {
            return None;
        }
        self.meet(kid);
        match plain.role(story) {
            Some(role) => self.serve(role, kid),
            None => None,
        }
    }

    // ---- all

    fn opens(&mut self, story: &Story, plain: &Plain) -> Option<Next> {
        if plain.accepted {
            None
        } else if self.ticks < story.early {
            Some(self.tick())
        } else {
            Some(Next::Accept)
        }
    }

    // Nothing else goes on: the client does, or time.
    fn calm(&mut self, story: &Story, plain: &Plain) -> Option<Next> {
        if plain.shut {
            return None;
        }
        self.passed = Some(plain.got);
        if let Some(next) = self.send(story, plain) {
            return Some(next);
        }
        self.quiet = self.quiet.saturating_add(1);
        let over = plain.got >= story.stream.len() && World::may_send(plain);
        if over || self.quiet > 40 {
            let last = if self.quiet > 40 {
                Turn::Stop
            } else {
                story.last
            };
            if let Some(next) = self.turn(plain, last) {
                return Some(next);
            }
        }
        Some(self.tick())
    }

    fn flows(&mut self, story: &Story, plain: &Plain) -> Option<Next> {
        let first = if story.client_first {
            self.send(story, plain)
        } else {
            None
        };
        if first.is_some() {
            return first;
        }
        let act = self.act(story, plain);
        if act.is_some() {
            return act;
        }
        self.send(story, plain)
    }

    // What comes next; nothing where all is over.
    pub fn next(&mut self, story: &Story, plain: &Plain) -> Option<Next> {
        let opens = self.opens(story, plain);
        if opens.is_some() {
            return opens;
        }
        let trouble = self.trouble(story, plain);
        if trouble.is_some() {
            return trouble;
        }
        let leaves = self.leave(story, plain, false);
        if leaves.is_some() {
            return leaves;
        }
        let flows = self.flows(story, plain);
        if flows.is_some() {
            return flows;
        }
        let late = self.leave(story, plain, true);
        if late.is_some() {
            return late;
        }
        if plain.shut && !plain.is_settled() {
            return Some(self.tick());
        }
        self.calm(story, plain)
    }

    fn secs(&self, story: &Story) -> u64 {
        if self.ticks % 2 == 0 {
            story.clocks.0
        } else {
            story.clocks.1
        }
    }
}
