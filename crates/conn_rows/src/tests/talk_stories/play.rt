// A story is told to a connection, and what it does compared with the plain program, and with itself in other cuts.
ghost use Rattle.host_base.specs.SiteRules.{IsServed};

use super::super::judge::{Cut, add_fault, judge};
use super::super::parts::Parts;
use super::super::told::Told;
use super::beats::{Story, story_of};
use super::course::{Course, course_of};
use host_base::Site;
use std::alloc::Global;

// Whether the same was written, said, fed and done.
fn agree(first: &Told, other: &Told) -> bool {
    first.wrote.is(&other.wrote)
        && first.said.is(&other.said)
        && first.fed.is(&other.fed)
        && first.shape.is(&other.shape)
}

// Says where a story goes otherwise in another cut, or the plain program otherwise than in one piece.
fn judge_cut(
    alloc: Global,
    site: &Site,
    story: &Story,
    cut: Cut,
    seed: u64,
    whole: &Told,
    fault: &mut Parts,
)
    requires { IsServed site.now }
{
    if !fault.is_empty() {
        return;
    }
    let Course { events, plain, .. } = course_of(alloc, story, cut, seed);
    judge(alloc, site, events, &plain.told, fault);
    if fault.is_empty() && !agree(whole, &plain.told) {
        fault.push("it depends on its cut");
    }
}

// Says where a story goes otherwise than it must, in one piece, in single bytes, or in pieces.
fn judge_story(alloc: Global, site: &Site, story: &Story, seed: u64, fault: &mut Parts)
    requires { IsServed site.now }
{
    if story.is_lost() {
        fault.lose();
    }
    let Course { events, plain, .. } = course_of(alloc, story, Cut::Whole, seed);
    judge(alloc, site, events, &plain.told, fault);
    judge_cut(alloc, site, story, Cut::Single, seed, &plain.told, fault);
    judge_cut(alloc, site, story, Cut::Seeded, seed, &plain.told, fault);
}

// Says where the story of this number goes otherwise than it must.
pub fn judge_seed(alloc: Global, site: &Site, seed: u64, said: &mut Parts)
    requires { IsServed site.now }
{
    let mut fault = Parts::new(alloc);
    judge_story(alloc, site, &story_of(alloc, seed), seed, &mut fault);
    add_fault(said, seed, &fault);
}
