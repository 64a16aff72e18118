// A story is told to a connection, and what it does compared with the plain program.
ghost use Rattle.host_base.specs.SiteRules.{IsServed};

use super::super::judge::{Cut, add_fault, judge};
use super::super::parts::Parts;
use super::super::told::Told;
use super::plain::Plain;
use super::story::{Story, story_of};
use super::world::{Next, World};
use host_base::Site;
use host_trace::Event;
use std::alloc::Global;

// What the plain program does at the events of a story in one cut.
#[derive(Drop)]
struct Course<'s> {
    alloc: Global,
    story: &'s Story,
    events: Vec<Option<Event>>,
    plain: Plain,
}

const MOST: u32 = 8000;

impl<'s> Course<'s> {
    fn push(&mut self, event: Option<Event>) {
        if self.events.push(event).is_err() {
            self.plain.told.lose();
        }
    }

    fn add(&mut self, event: Event) {
        self.plain.step(self.alloc, self.story, &event);
        self.push(Some(event));
        self.push(None);
    }

    fn add_next(&mut self, world: &World, next: Next) {
        match world.event(self.alloc, self.story, &self.plain, next) {
            Ok(event) => self.add(event),
            Err(_) => self.plain.told.lose(),
        }
    }

    // Adds what comes next; false where all is over.
    fn advance(&mut self, world: &mut World) -> bool {
        match world.next(self.story, &self.plain) {
            Some(next) => {
                self.add_next(world, next);
                true
            }
            None => false,
        }
    }

    fn run(&mut self, world: &mut World) {
        for _ in 0..MOST {
            if !self.advance(world) {
                return;
            }
        }
        self.plain.told.endless = true;
    }
}

fn course_of<'s>(alloc: Global, story: &'s Story, cut: Cut, seed: u64) -> Course<'s> {
    let mut world = World::new(cut, seed);
    let mut course = Course {
        alloc,
        story,
        events: Vec::new(alloc),
        plain: Plain::new(alloc),
    };
    course.run(&mut world);
    course
}

// The same bytes, and the same acts but for how pieces fall.
fn agree(first: &Told, other: &Told) -> bool {
    first.said.is(&other.said)
        && first.fed.is(&other.fed)
        && first.shape.is(&other.shape)
        && first.launched.is(&other.launched)
}

// Says where a story goes otherwise in another cut, or the plain program otherwise than in one piece.
fn judge_cut(
    alloc: Global,
    site: &Site,
    story: &Story,
    cut: Cut,
    seed: u64,
    whole: &Told,
    fault: &mut Parts,
)
    requires { IsServed site.now }
{
    if !fault.is_empty() {
        return;
    }
    let Course { events, plain, .. } = course_of(alloc, story, cut, seed);
    judge(alloc, site, events, &plain.told, fault);
    if fault.is_empty() && story.is_steady() && !agree(whole, &plain.told) {
        fault.push("it depends on its cut");
    }
}

// Says where a story goes otherwise than it must, in one piece, in single bytes, or in pieces.
fn judge_story(alloc: Global, site: &Site, story: &Story, seed: u64, fault: &mut Parts)
    requires { IsServed site.now }
{
    if story.is_lost() {
        fault.lose();
    }
    let Course { events, plain, .. } = course_of(alloc, story, Cut::Whole, seed);
    judge(alloc, site, events, &plain.told, fault);
    judge_cut(alloc, site, story, Cut::Single, seed, &plain.told, fault);
    judge_cut(alloc, site, story, Cut::Seeded, seed, &plain.told, fault);
}

// Says where the story of this number goes otherwise than it must.
pub fn judge_seed(alloc: Global, site: &Site, seed: u64, said: &mut Parts)
    requires { IsServed site.now }
{
    let mut fault = Parts::new(alloc);
    judge_story(alloc, site, &story_of(alloc, seed), seed, &mut fault);
    add_fault(said, seed, &fault);
}
