// The table of ranges.
use document_output::{Span, range_spec, span_of};
use std::process::Abort;
use std::test::Fail;

// What a value of Range asks of a file of some length.
#[derive(Clone, Copy, Debug, PartialEq, Eq)]
enum Asked {
    NoRange,
    NotSatisfiable,
    Bytes(u64, u64),
}

use Asked::{Bytes, NoRange, NotSatisfiable};

fn asked_by(value: &[u8], length: u64) -> Asked {
    match range_spec(value) {
        Some(range) => match span_of(range, length) {
            Some(Span { first, last }) => Bytes(first, last),
            None => NotSatisfiable,
        },
        None => NoRange,
    }
}

#[test]
fn ranges_of_values(rt: HostRuntime) -> Result<(), Fail> {
    let table: [(&str, u64, Asked); 30] = [
        ("bytes=0-0", 5, Bytes(0, 0)),
        ("bytes=1-2", 5, Bytes(1, 2)),
        ("bytes=0-4", 5, Bytes(0, 4)),
        ("bytes=0-5", 5, Bytes(0, 4)),
        ("bytes=4-4", 5, Bytes(4, 4)),
        ("bytes=007-8", 9, Bytes(7, 8)),
        ("bytes=0-", 5, Bytes(0, 4)),
        ("bytes=4-", 5, Bytes(4, 4)),
        ("bytes=5-", 5, NotSatisfiable),
        ("bytes=5-9", 5, NotSatisfiable),
        ("bytes=-1", 5, Bytes(4, 4)),
        ("bytes=-5", 5, Bytes(0, 4)),
        ("bytes=-6", 5, Bytes(0, 4)),
        ("bytes=-0", 5, NotSatisfiable),
        ("bytes=0-", 0, NotSatisfiable),
        ("bytes=0-0", 0, NotSatisfiable),
        ("bytes=-1", 0, NotSatisfiable),
        ("bytes=0-999999999999999999", 5, Bytes(0, 4)),
        ("bytes=0-1000000000000000000", 5, NoRange),
        ("bytes=0000000000000000000-1", 5, NoRange),
        ("bytes=2-1", 5, NoRange),
        ("bytes=0-1,3-4", 5, NoRange),
        ("bytes=-", 5, NoRange),
        ("bytes=", 5, NoRange),
        ("bytes=1", 5, NoRange),
        ("Bytes=0-1", 5, NoRange),
        ("bytes= 0-1", 5, NoRange),
        ("bytes=0-1 ", 5, NoRange),
        ("bytes=+0-1", 5, NoRange),
        ("items=0-1", 5, NoRange),
    ];
    for (value, length, wanted) in table {
        assert_eq!(rt;
            asked_by(value.as_bytes(), length),
            wanted,
            "{value} of {length}"
        );
    }
    Ok(())
}
