// Each order in which two children start, end their output and exit, or fail to start; and each cut off after each hour.
ghost use Rattle.std.specs.Prelude.{◌≡◌};

use super::acts::launch;
use super::events;
use super::events::number;
use super::kids::{FakeSpawner, Hours, PLAIN, Plan, Start};
use super::watch::Watch;
use booked_children::BookedChildren;
use child_book::{Blank, Book, Ledger};
use child_edge::{ChildSet, Spawner};
use host_base::NoMemory;
use host_trace::{Act, Event};
use std::alloc::{AllocError, Global};
use std::marker::Brand;
use std::sync::{Arc, Mutex, Wait};
use std::test::Fail;

/// Whose hour each of six is, that of the first child or of the second. Each has three.
const TURNS: [&[u8]; 20] = [
    b"000111", b"001011", b"001101", b"001110", b"010011", b"010101", b"010110", b"011001",
    b"011010", b"011100", b"100011", b"100101", b"100110", b"101001", b"101010", b"101100",
    b"110001", b"110010", b"110100", b"111000",
];

/// What becomes of a child.
#[derive(Clone, Copy, Debug)]
enum Life {
    /// Its output ends, and then it exits.
    EndsFirst,
    ExitsFirst,
    /// It isn't started.
    Fails,
}

const LIVES: [Life; 3] = [Life::EndsFirst, Life::ExitsFirst, Life::Fails];

impl Life {
    // What is told at the first, the second and the third of its hours.
    fn told(self, hour: usize) -> &'static [u8] {
        match (self, hour) {
            (Life::EndsFirst | Life::ExitsFirst, 0) => b"s",
            (Life::EndsFirst, 1) | (Life::ExitsFirst, 2) => b"be",
            (Life::EndsFirst, 2) | (Life::ExitsFirst, 1) => b"d",
            (Life::Fails, 0) => b"q",
            _ => b"",
        }
    }

    // What a program does that has these hours.
    fn plan(self, hours: [u64; 3]) -> Plan {
        let [start, second, third] = hours;
        let (output, exit) = match self {
            Life::EndsFirst | Life::Fails => (second, third),
            Life::ExitsFirst => (third, second),
        };
        let outcome = match self {
            Life::Fails => Start::Fails,
            Life::EndsFirst | Life::ExitsFirst => Start::Good,
        };
        Plan {
            start: outcome,
            pieces: 1,
            exits_after: 0,
            hours: Hours {
                start,
                output,
                exit,
            },
            ..PLAIN
        }
    }
}

/// One order, which is cut off after so many hours.
#[derive(Clone, Copy, Debug)]
struct Order {
    turns: &'static [u8],
    first: Life,
    second: Life,
    hours: usize,
}

impl Order {
    // The hours of the child that has this turn.
    fn hours_of(self, turn: u8) -> [u64; 3] {
        let mut hours = [0; 3];
        let mut count = 0;
        let mut hour = 0u64;
        for other in self.turns {
            hour = hour.saturating_add(1);
            if *other == turn && count < 3 {
                hours[count] = hour;
                count += 1;
            }
        }
        hours
    }

    fn plans(self) -> [Plan; 2] {
        [
            self.first.plan(self.hours_of(b'0')),
            self.second.plan(self.hours_of(b'1')),
        ]
    }

    // What is to be told, of the second child by capitals.
    fn wanted(self, alloc: Global) -> Result<Vec<u8>, AllocError> {
        let mut wanted = Vec::new(alloc);
        let mut counts = [0usize; 2];
        for turn in self.turns.iter().take(self.hours) {
            if *turn == b'0' {
                wanted.extend_from_slice(self.first.told(counts[0]))?;
                counts[0] = counts[0].saturating_add(1);
            } else {
                push_capitals(&mut wanted, self.second.told(counts[1]))?;
                counts[1] = counts[1].saturating_add(1);
            }
        }
        Ok(wanted)
    }
}

fn push_capitals(into: &mut Vec<u8>, letters: &[u8]) -> Result<(), AllocError> {
    for letter in letters {
        into.push(letter.to_ascii_uppercase())?;
    }
    Ok(())
}

// What an event is, by a letter; of the second child by a capital.
fn letter(event: &Event) -> u8 {
    let letter = events::letter_of_child(event);
    if number(event) == 1 {
        letter.to_ascii_uppercase()
    } else {
        letter
    }
}

// How many children still have a ticket after this was told.
fn left_after(told: &[u8]) -> usize {
    let mut left = 2usize;
    for letter in told {
        if matches!(*letter, b'd' | b'D' | b'q' | b'Q') {
            left = left.saturating_sub(1);
        }
    }
    left
}

// Hears all that there is to tell.
fn hear_all<S: Spawner + Drop, L: Ledger, R: Wait + Drop>(
    children: &mut BookedChildren<S, L, R>,
    told: &mut Vec<u8>,
) -> Result<(), AllocError> {
    for _ in 0..8 {
        children.act(&Act::WantChild { k: 0 });
        children.act(&Act::WantChild { k: 1 });
        match children.poll() {
            Some(event) => told.push(letter(&event))?,
            None => return Ok(()),
        }
    }
    Ok(())
}

// Starts two children, and hears all that there is to tell at each hour.
fn tell<S: Spawner + Drop, L: Ledger, R: Wait + Drop>(
    alloc: Global,
    children: &mut BookedChildren<S, L, R>,
    watch: &Watch,
    hours: usize,
) -> Result<Vec<u8>, NoMemory> {
    let launch = launch(alloc)?;
    let mut told = Vec::new(alloc);
    for k in 0..2u64 {
        if let Some(event) = children.begin(k, 0, &launch) {
            told.push(letter(&event))?;
        }
        children.act(&Act::EndInput { k });
    }
    for hour in 0..=hours {
        watch.set(hour as u64);
        hear_all(children, &mut told)?;
    }
    Ok(told)
}

/// What was told, how many tickets were held then, and how many children the book counted once all were ended.
#[derive(Drop)]
struct Ran {
    told: Result<Vec<u8>, NoMemory>,
    running: usize,
    left: u32,
}

// Two children of a spawner in a book for two.
fn run_two<S: Spawner + Drop, L: Ledger, R: Wait + Copy + Drop>(
    rt: R,
    alloc: Global,
    blank: Blank,
    spawner: S,
    watch: &Watch,
    hours: usize,
) -> Result<Ran, NoMemory>
    requires name { blank.name ≡ L.name }
    requires parts { blank.parts ≡ L.parts }
    requires some { blank.parts ≡ 16 }
{
    let set = ChildSet::new(alloc, spawner, 4)?;
    let (book, share) = Book::<L>::new(blank, 2);
    let mut share = share;
    let Ok(book) = Arc::new(alloc, Mutex::new(book)) else {
        return Err(NoMemory);
    };
    let mut children = BookedChildren::new(rt, alloc, book.clone()?, share.split_off(1, 0), set);
    let told = tell(alloc, &mut children, watch, hours);
    let running = children.running();
    share.merge(children.end());
    let left = book.lock(&rt).running();
    Ok(Ran {
        told,
        running,
        left,
    })
}

// Whether all is told in this order and no more, each child that was not told to be over has its ticket, and in the end no
// ticket and no child is lost.
fn is_kept<R: Wait + Copy + Drop>(rt: R, alloc: Global, order: Order) -> Result<bool, NoMemory> {
    let wanted = order.wanted(alloc)?;
    let watch = Arc::new(alloc, Watch::new())?;
    let spawner = FakeSpawner::watched(rt, alloc, order.plans(), Arc::try_clone(&watch)?);
    let ran = run_two::<_, Brand, _>(rt, alloc, Blank::new(16), spawner, &watch, order.hours)?;
    let told = ran.told?;
    Ok(
        told.as_slice() == wanted.as_slice()
            && ran.running == left_after(told.as_slice())
            && ran.left == 0
            && watch.saw(2),
    )
}

// The first hour after which these two are not kept when they are cut off.
fn wrong_hour<R: Wait + Copy + Drop>(
    rt: R,
    alloc: Global,
    order: Order,
) -> Result<Option<Order>, NoMemory> {
    for hours in 0..=6 {
        let cut = Order { hours, ..order };
        if !is_kept(rt, alloc, cut)? {
            return Ok(Some(cut));
        }
    }
    Ok(None)
}

// The first order that isn't kept of two children with these turns, of whom the first has this life.
fn wrong_order<R: Wait + Copy + Drop>(
    rt: R,
    alloc: Global,
    turns: &'static [u8],
    first: Life,
) -> Result<Option<Order>, NoMemory> {
    for second in LIVES {
        let order = Order {
            turns,
            first,
            second,
            hours: 0,
        };
        let wrong = wrong_hour(rt, alloc, order)?;
        if wrong.is_some() {
            return Ok(wrong);
        }
    }
    Ok(None)
}

// The first order that isn't kept of two children of whom the first has this life.
fn wrong_life<R: Wait + Copy + Drop>(
    rt: R,
    alloc: Global,
    first: Life,
) -> Result<Option<Order>, NoMemory> {
    for turns in TURNS {
        let wrong = wrong_order(rt, alloc, turns, first)?;
        if wrong.is_some() {
            return Ok(wrong);
        }
    }
    Ok(None)
}

#[test]
fn orders_in_which_the_first_ends_first(rt: HostRuntime) -> Result<(), Fail> {
    let wrong = wrong_life(rt, rt.alloc(), Life::EndsFirst)?;
    assert!(rt; wrong.is_none(), "{wrong:?}");
    Ok(())
}

#[test]
fn orders_in_which_the_first_exits_first(rt: HostRuntime) -> Result<(), Fail> {
    let wrong = wrong_life(rt, rt.alloc(), Life::ExitsFirst)?;
    assert!(rt; wrong.is_none(), "{wrong:?}");
    Ok(())
}

#[test]
fn orders_in_which_the_first_is_not_started(rt: HostRuntime) -> Result<(), Fail> {
    let wrong = wrong_life(rt, rt.alloc(), Life::Fails)?;
    assert!(rt; wrong.is_none(), "{wrong:?}");
    Ok(())
}
