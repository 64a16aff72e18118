// What a script gives, what it means, and what happens to it.
mod outputs;

use super::super::numbers::Numbers;
use super::super::parts::Parts;
use super::site::{Place, Target, Whose, location_at};
use host_base::Cause;
use outputs::{OUTPUTS, Output, PLAIN, RAW, output_at};
use std::alloc::Global;

// What becomes of the body of a reply.
#[derive(Clone, Copy, PartialEq, Eq)]
pub enum Manner {
    Body,
    // Its status has none.
    Bare,
    // Its status has an empty one.
    Empty,
    // It is a redirect, whose body is dropped.
    Dropped,
}

// What a whole output means (RFC 3875 6).
#[derive(Clone, Copy)]
pub enum Says {
    Reply {
        line: &'static str,
        fields: &'static str,
        dated: bool,
        manner: Manner,
    },
    Raw,
    Hop(&'static Target),
    Fault(Cause),
}

// One thing that happens to a child.
#[derive(Clone, Copy)]
pub enum Deed {
    Start,
    Fail,
    Full(u32),
    // Its output up to so many bytes, or to its end.
    Out(usize),
    // So many Ticks.
    Wait(u32),
    // It reads its input to the end.
    Read,
    End,
    Break,
    InGone,
    Exit,
    // It exits once it is killed.
    Die,
}

// The child of one hop.
#[derive(Drop)]
pub struct Role {
    pub nph: bool,
    pub output: Parts,
    // How long the header of its output is.
    pub head: usize,
    pub says: Says,
    // Whether it takes its input.
    pub takes: bool,
    pub deeds: Vec<Deed>,
    // Memory ran out for a deed.
    lost: bool,
}

impl Role {
    pub fn is_lost(&self) -> bool {
        self.lost || self.output.is_lost()
    }
}

// What the output means as far as it was heard, where it ends there.
pub fn meaning(role: &Role, heard: usize) -> Says {
    if heard == 0 {
        Says::Fault(Cause::NoOutput)
    } else if role.nph || heard >= role.head {
        role.says
    } else if heard < 8192 {
        Says::Fault(Cause::HeaderIncomplete)
    } else {
        Says::Fault(Cause::HeaderTooLarge)
    }
}

// ---- outputs

// The output that redirects to a target.
fn hop_output(alloc: Global, to: &Target) -> Parts {
    let mut output = Parts::new(alloc);
    output.push("Location: ");
    output.push(to.text);
    output.push("\nX-A: 1\n\n");
    output
}

fn fill(output: &mut Parts, count: usize) {
    for place in 0..count {
        output.add(&[b'a'.saturating_add((place % 26) as u8)]);
    }
}

// How much more than its few words a script writes.
fn more_of(numbers: &mut Numbers) -> usize {
    match numbers.below(120) {
        0 => 262_200,
        1 => 300_001,
        2 => 8192,
        3 | 4 => 9000,
        5 | 6 | 7 => numbers.place(300),
        _ => 0,
    }
}

fn role_with(alloc: Global, output: Parts, head: usize, says: Says) -> Role {
    Role {
        nph: false,
        output,
        head,
        says,
        takes: true,
        deeds: Vec::new(alloc),
        lost: false,
    }
}

fn plain_output(alloc: Global, output: &Output, more: usize) -> Parts {
    let mut text = Parts::new(alloc);
    text.push(output.head);
    text.push(output.body);
    fill(&mut text, more);
    text
}

fn plain_role(alloc: Global, output: &Output, more: usize) -> Role {
    let text = plain_output(alloc, output, more);
    role_with(alloc, text, output.head.len(), output.says)
}

fn hop_role(alloc: Global, to: &'static Target) -> Role {
    let output = hop_output(alloc, to);
    let head = output.len();
    role_with(alloc, output, head, Says::Hop(to))
}

// A header that is longer than may be.
fn endless_role(alloc: Global) -> Role {
    let mut output = Parts::new(alloc);
    output.push("Content-Type: ");
    fill(&mut output, 8300);
    let says = Says::Fault(Cause::HeaderTooLarge);
    role_with(alloc, output, usize::MAX, says)
}

fn is_nph(target: &Target) -> bool {
    match target.place {
        Place::Runs { nph, .. } => nph,
        Place::Refused(_) => false,
    }
}

fn script_role(alloc: Global, numbers: &mut Numbers, whose: Whose) -> Role {
    match numbers.below(40) {
        0 => endless_role(alloc),
        1 | 2 | 3 | 4 | 5 | 6 | 7 | 8 => hop_role(alloc, location_at(whose, numbers.place(24))),
        _ => {
            let output = output_at(numbers.place(OUTPUTS.len()));
            let more = more_of(numbers);
            plain_role(alloc, output, more)
        }
    }
}

// The output of the script that stands at a target, and what it means.
pub fn role_of(alloc: Global, numbers: &mut Numbers, target: &Target, whose: Whose) -> Role {
    if !is_nph(target) {
        return script_role(alloc, numbers, whose);
    }
    let more = more_of(numbers);
    let mut role = plain_role(alloc, &RAW, more);
    role.nph = true;
    role
}

static FLOOD: [Deed; 5] = [
    Deed::Start,
    Deed::Read,
    Deed::Out(usize::MAX),
    Deed::End,
    Deed::Exit,
];

// A long output that goes well.
pub fn flood_role(alloc: Global, more: usize) -> Role {
    let mut role = plain_role(alloc, &PLAIN, more);
    add_all(&mut role, &FLOOD);
    role
}

// ---- deeds

fn add(role: &mut Role, deed: Deed) {
    role.lost |= role.deeds.push(deed).is_err();
}

fn add_all(role: &mut Role, deeds: &[Deed]) {
    for deed in deeds {
        add(role, *deed);
    }
}

// What happens before its output, the last of them mostly.
static FRONTS: [&[Deed]; 6] = [
    &[Deed::Wait(1), Deed::Start],
    &[Deed::Start, Deed::InGone],
    &[Deed::Start, Deed::Wait(2)],
    &[Deed::Start],
    &[Deed::Start, Deed::Exit],
    &[Deed::Start, Deed::Read],
];

fn front_at(place: usize) -> &'static [Deed] {
    FRONTS[place.min(5)]
}

fn add_front(numbers: &mut Numbers, role: &mut Role) {
    add_all(role, front_at(numbers.place(12)))
}

// What happens at a place of its output, and behind the rest of it.
#[derive(Clone, Copy)]
struct Rest {
    there: &'static [Deed],
    behind: &'static [Deed],
}

const PAUSED: Rest = Rest {
    there: &[Deed::Wait(1)],
    behind: &[Deed::End, Deed::Exit],
};

// Nothing, Ticks, or what ends it there; the last of them mostly.
static RESTS: [Rest; 14] = [
    Rest {
        there: &[Deed::Break, Deed::Exit],
        behind: &[],
    },
    Rest {
        there: &[Deed::End, Deed::Exit],
        behind: &[],
    },
    Rest {
        there: &[Deed::Die],
        behind: &[],
    },
    Rest {
        there: &[Deed::Wait(1), Deed::Break, Deed::Exit],
        behind: &[],
    },
    Rest {
        there: &[Deed::Wait(1), Deed::Die],
        behind: &[],
    },
    PAUSED,
    PAUSED,
    PAUSED,
    Rest {
        there: &[Deed::Exit],
        behind: &[Deed::End],
    },
    Rest {
        there: &[],
        behind: &[Deed::End, Deed::Wait(1), Deed::Exit],
    },
    Rest {
        there: &[],
        behind: &[Deed::End, Deed::Die],
    },
    Rest {
        there: &[],
        behind: &[Deed::Wait(1), Deed::End, Deed::Exit],
    },
    Rest {
        there: &[],
        behind: &[Deed::Exit, Deed::Wait(2), Deed::End],
    },
    Rest {
        there: &[],
        behind: &[Deed::End, Deed::Exit],
    },
];

fn rest_at(place: usize) -> &'static Rest {
    &RESTS[place.min(13)]
}

// A whole run: the output up to a place, what happens there, and the rest.
fn run_to(role: &mut Role, place: usize, rest: &Rest) {
    add(role, Deed::Out(place));
    add_all(role, rest.there);
    add(role, Deed::Out(usize::MAX));
    add_all(role, rest.behind)
}

fn add_rest(numbers: &mut Numbers, role: &mut Role) {
    let place = numbers.place(role.output.len().saturating_add(1));
    run_to(role, place, rest_at(numbers.place(20)))
}

// Runs that don't come to their output.
static EARLY: [&[Deed]; 4] = [
    &[Deed::Fail],
    &[Deed::Wait(1), Deed::Full(64)],
    &[Deed::Wait(6), Deed::Start, Deed::Die],
    &[Deed::Wait(5), Deed::Fail],
];

pub fn add_deeds(numbers: &mut Numbers, role: &mut Role) {
    role.takes = !numbers.once_in(12);
    if let Some(deeds) = EARLY.get(numbers.place(30)) {
        return add_all(role, *deeds);
    }
    add_front(numbers, role);
    add_rest(numbers, role)
}
