ghost use Rattle.std.specs.Prelude.{◌≡◌};

use super::acts::{act_of, launch};
use super::events;
use super::kids::{FakeSpawner, PLAIN, Plan, Start};
use super::pipes::PipeEnd;
use booked_children::BookedChildren;
use child_book::{Blank, Book, Ledger};
use child_edge::{ChildSet, Spawner};
use host_base::NoMemory;
use host_trace::{Act, Event};
use std::alloc::Global;
use std::marker::Brand;
use std::sync::{Arc, Mutex, Wait};
use std::test::Fail;

// What an event is, by a letter. Of a start a capital.
fn letter(event: &Event) -> u8 {
    match events::letter(event) {
        b's' => b'S',
        b'q' => b'F',
        b'u' => b'U',
        _ => events::letter_of_child(event),
    }
}

// What the handing over of a start answered, by a letter: H where it is handed over.
fn begun(answer: &Option<Event>) -> u8 {
    match answer {
        None => b'H',
        Some(event) => letter(event),
    }
}

// Starts two children, feeds both, asks so often what they have to tell, and then starts a third.
fn tell<S: Spawner + Drop, L: Ledger, R: Wait + Drop>(
    alloc: Global,
    children: &mut BookedChildren<S, L, R>,
    turns: u32,
) -> Result<Vec<u8>, NoMemory> {
    let launch = launch(alloc)?;
    let mut told = Vec::new(alloc);
    for k in 0..2u64 {
        told.push(begun(&children.begin(k, 0, &launch)))?;
        children.act(&act_of(alloc, b'F', k, 0)?);
        children.act(&Act::EndInput { k });
    }
    for _ in 0..turns {
        children.act(&Act::WantChild { k: 0 });
        children.act(&Act::WantChild { k: 1 });
        if let Some(event) = children.poll() {
            told.push(letter(&event))?;
        }
    }
    told.push(begun(&children.begin(2, 0, &launch)))?;
    Ok(told)
}

/// What was told, how many ran then, and how many the book counted once they were ended.
#[derive(Drop)]
struct Ran {
    told: Result<Vec<u8>, NoMemory>,
    running: usize,
    left: u32,
}

impl Ran {
    // Whether this was told, so many ran then, and the book counted none in the end.
    fn is_so(&self, told: &[u8], running: usize) -> bool {
        match &self.told {
            Ok(letters) => {
                letters.as_slice() == told && self.running == running && self.left == 0
            }
            Err(_) => false,
        }
    }
}

fn run_children<S: Spawner + Drop, L: Ledger, R: Wait + Copy + Drop>(
    rt: R,
    alloc: Global,
    blank: Blank,
    spawner: S,
    turns: u32,
) -> Result<Ran, NoMemory>
    requires name { blank.name ≡ L.name }
    requires parts { blank.parts ≡ L.parts }
    requires some { blank.parts ≡ 16 }
{
    let set = ChildSet::new(alloc, spawner, 4)?;
    let (book, share) = Book::<L>::new(blank, 1);
    let mut share = share;
    let Ok(book) = Arc::new(alloc, Mutex::new(book)) else {
        return Err(NoMemory);
    };
    let mut children = BookedChildren::new(rt, alloc, book.clone()?, share.split_off(1, 0), set);
    let told = tell(alloc, &mut children, turns);
    let running = children.running();
    share.merge(children.end());
    let left = book.lock(&rt).running();
    Ok(Ran {
        told,
        running,
        left,
    })
}

// A book of one child. Who is being started has its ticket.
#[test]
fn no_ticket_is_lost(rt: HostRuntime) -> Result<(), Fail> {
    let alloc = rt.alloc();
    // (what the programs do, how often they are asked, what is told, how many run then)
    let rows: [(Plan, u32, &[u8], usize); 8] = [
        (PLAIN, 9, b"HUStbedH", 1),
        (PLAIN, 2, b"HUStU", 1),
        (
            Plan {
                start: Start::Refused,
                ..PLAIN
            },
            3,
            b"FFF",
            0,
        ),
        (
            Plan {
                start: Start::Fails,
                ..PLAIN
            },
            3,
            b"HUFH",
            1,
        ),
        (
            Plan {
                starts_after: 100,
                ..PLAIN
            },
            9,
            b"HUU",
            1,
        ),
        (
            Plan {
                output: PipeEnd::Failed,
                ..PLAIN
            },
            9,
            b"HUStbxdH",
            1,
        ),
        (
            Plan {
                input: PipeEnd::Failed,
                ..PLAIN
            },
            9,
            b"HUSbedH",
            1,
        ),
        (
            Plan {
                reaps_fail: 100,
                ..PLAIN
            },
            9,
            b"HUStbeU",
            1,
        ),
    ];
    for (plan, turns, wanted, running) in rows {
        let spawner = FakeSpawner::new(rt, alloc, plan);
        let ran = run_children::<_, Brand, _>(rt, alloc, Blank::new(16), spawner, turns)?;
        assert!(rt; ran.is_so(wanted, running), "{wanted:?}");
    }
    Ok(())
}
