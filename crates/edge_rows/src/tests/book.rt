// Books of one and of two children, and the count of full books.
ghost use Rattle.std.specs.Prelude.{◌≡◌, ◌≤◌, ◌+◌};
ghost use Rattle.child_book.specs.Admitted.{granted};

use child_book::{Admit, Blank, Book, FullCount, Ledger, Share};
use std::marker::Brand;
use std::test::Fail;

// Spends what a book answered, and gives the number of the ticket, or how many ran.
fn spend<L: Ledger>(
    book: &mut Book<L>,
    share: &mut Share<L>,
    full: &mut FullCount,
    admit: Admit,
) -> (bool, u64)
    requires { granted admit ≤ share.old.amount }
    ensures amount { share.new.amount + granted admit ≡ share.old.amount }
    ensures parts { share.new.parts ≡ share.old.parts }
{
    match admit {
        Admit::Granted(ticket) => {
            let number = ticket.number();
            book.reap(share, ticket);
            (true, number)
        }
        Admit::Full(seen) => {
            let number = seen.seen();
            full.note(seen);
            (false, number as u64)
        }
    }
}

// A book of one: granted, full, reaped, granted.
fn one_at_a_time<L: Ledger>(blank: Blank) -> ([(bool, u64); 3], (u32, u64, u64, u64), u32)
    requires name { blank.name ≡ L.name }
    requires parts { blank.parts ≡ L.parts }
    requires some { blank.parts ≡ 16 }
{
    let (mut book, mut share) = Book::<L>::new(blank, 1);
    let mut full = FullCount::new();
    let first = book.admit(&mut share);
    let second = book.admit(&mut share);
    let refused = spend(&mut book, &mut share, &mut full, second);
    let reaped = spend(&mut book, &mut share, &mut full, first);
    let third = book.admit(&mut share);
    let counts = (book.running(), book.starts(), book.reaps(), full.count());
    let held = book.audit(&mut share);
    let last = spend(&mut book, &mut share, &mut full, third);
    ([refused, reaped, last], counts, held)
}

#[test]
fn a_book_of_one(rt: HostRuntime) -> Result<(), Fail> {
    let (spent, counts, held) = one_at_a_time::<Brand>(Blank::new(16));
    assert_eq!(rt; spent, [(false, 1), (true, 0), (true, 1)]);
    assert_eq!(rt; counts, (1, 2, 1, 1));
    assert_eq!(rt; held, 1);
    Ok(())
}

// A book that nothing may enter until its cap is set.
fn none_at_first<L: Ledger>(blank: Blank) -> ([(bool, u64); 2], (u32, u64, u64, u64))
    requires name { blank.name ≡ L.name }
    requires parts { blank.parts ≡ L.parts }
    requires some { blank.parts ≡ 16 }
{
    let (mut book, mut share) = Book::<L>::new(blank, 0);
    let mut full = FullCount::new();
    let none = book.admit(&mut share);
    let refused = spend(&mut book, &mut share, &mut full, none);
    book.set_cap(&mut share, 2);
    let admit = book.admit(&mut share);
    let granted = spend(&mut book, &mut share, &mut full, admit);
    (
        [refused, granted],
        (book.running(), book.starts(), book.reaps(), full.count()),
    )
}

#[test]
fn a_book_without_a_cap(rt: HostRuntime) -> Result<(), Fail> {
    let (spent, counts) = none_at_first::<Brand>(Blank::new(16));
    assert_eq!(rt; spent, [(false, 0), (true, 0)]);
    assert_eq!(rt; counts, (0, 1, 1, 1));
    Ok(())
}
