// The tickets of one loop: what it does under the book's lock.
ghost use Rattle.std.specs.Prelude.{◌≡◌, ◌==◌, ◌+◌, ◌<◌, [], length, slice_index_or, vec_len, vec_capacity};
ghost use Rattle.child_book.specs.Admitted.{granted};
ghost use Rattle.booked_children.specs.Booked.{HasTicket, Spends, tickets_of};
ghost use Rattle.booked_children.specs.declared.tickets.Held.{Held};
ghost use Rattle.host_trace.specs.declared.items.Event.TheVariants.{Exited};

use child_book::{Admit, Book, Ledger, Share, Ticket};
use child_edge::{ChildSet, Spawner};
use host_trace::Event;
use std::sync::{Mutex, Wait};

/// A ticket, and the child that runs by it.
#[derive(Debug)]
pub struct Held {
    k: u64,
    ticket: Ticket,
}

impl Held {
    pub(crate) fn new(k: u64, ticket: Ticket) -> Self
        ensures { result.k ≡ k }
    {
        Held { k, ticket }
    }
}

/// Asks the book. It may wait for the lock.
pub(crate) fn admit<L: Ledger, R: Wait>(
    rt: &R,
    book: &Mutex<Book<L>>,
    share: &mut Share<L>,
) -> Admit
    requires { 0 < share.old.parts }
    ensures amount { share.new.amount ≡ share.old.amount + granted result }
    ensures parts { share.new.parts ≡ share.old.parts }
{
    book.lock(rt).admit(share)
}

/// Spends a ticket.
pub(crate) fn give_back<L: Ledger, R: Wait>(
    rt: &R,
    book: &Mutex<Book<L>>,
    share: &mut Share<L>,
    ticket: Ticket,
)
    requires { 0 < share.old.amount }
    ensures amount { share.new.amount + 1 ≡ share.old.amount }
    ensures parts { share.new.parts ≡ share.old.parts }
{
    book.lock(rt).reap(share, ticket)
}

// Where a ticket of child k stands.
fn place_of(tickets: &[Held], k: u64) -> usize
    requires { 0 < tickets_of (λ j. j == k) tickets.now }
    ensures within { result < length tickets.now }
    ensures child { (d : Held) → (slice_index_or tickets.now result d).k ≡ k }
{
    for i in 0..tickets.len() {
        if tickets[i].k == k {
            return i;
        }
    }
    unreachable!()
}

// Spends the ticket of child k.
fn reap<L: Ledger, R: Wait>(
    rt: &R,
    book: &Mutex<Book<L>>,
    share: &mut Share<L>,
    tickets: &mut Vec<Held>,
    k: u64,
)
    requires some { 0 < tickets_of (λ j. j == k) tickets.old.items }
    requires held { share.old.amount ≡ vec_len tickets.old }
    ensures held { share.new.amount ≡ vec_len tickets.new }
    ensures spent { Spends (Exited k) tickets.old.items tickets.new.items }
    ensures parts { share.new.parts ≡ share.old.parts }
{
    let at = place_of(tickets.as_slice(), k);
    let Held { k: _, ticket } = tickets.swap_remove(at);
    give_back(rt, book, share, ticket);
}

/// Spends the ticket of a child, where the event is that it exited or was not started.
pub(crate) fn settle<L: Ledger, R: Wait>(
    rt: &R,
    book: &Mutex<Book<L>>,
    share: &mut Share<L>,
    tickets: &mut Vec<Held>,
    event: &Event,
)
    requires some { HasTicket event.now tickets.old.items }
    requires held { share.old.amount ≡ vec_len tickets.old }
    ensures held { share.new.amount ≡ vec_len tickets.new }
    ensures spent { Spends event.now tickets.old.items tickets.new.items }
    ensures parts { share.new.parts ≡ share.old.parts }
{
    match event {
        Event::Exited { k } | Event::StartFailed { k } => { reap(rt, book, share, tickets, *k) }
        _ => {}
    }
}

/// Spends all tickets of children of whom none is left.
pub(crate) fn reap_all<L: Ledger, R: Wait, S: Spawner>(
    rt: &R,
    book: &Mutex<Book<L>>,
    share: &mut Share<L>,
    tickets: &mut Vec<Held>,
    set: &ChildSet<S>,
)
    requires ended { set.now.rows.items ≡ [] }
    requires held { share.old.amount ≡ vec_len tickets.old }
    ensures none { share.new.amount ≡ 0 }
    ensures spent { tickets.new.items ≡ [] }
    ensures parts { share.new.parts ≡ share.old.parts }
{
    let _ = set;
    while let Some(held) = tickets.pop() {
        let Held { k: _, ticket } = held;
        give_back(rt, book, share, ticket);
    }
}
