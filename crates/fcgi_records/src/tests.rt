// A request and an answer, byte by byte as FastCGI 1.0 writes them, in pieces of many sizes; and what is no record and no list of pairs.
use super::{PairFault, RecStep, Records, kinds, pairs_of, record_text};
use host_base::NoMemory;
use std::alloc::Global;
use std::test::Fail;

const BEGIN: [u8; 16] = [1, 1, 0, 1, 0, 8, 0, 0, 0, 1, 0, 0, 0, 0, 0, 0];

const PADDED: [u8; 16] = [1, 5, 1, 2, 0, 3, 5, 9, b'a', b'b', b'c', 1, 2, 3, 4, 5];

// The contents of the records that are read of these bytes, in pieces of so many, each behind its type and the low byte of its id;
// and a byte 255 where a record is bad.
fn read_in(alloc: Global, bytes: &[u8], most: usize) -> Result<Vec<u8>, NoMemory> {
    let mut records = Records::new(alloc);
    let mut read = Vec::new(alloc);
    for piece in bytes.chunks(most.max(1)) {
        records.feed(piece)?;
        read_all(&mut records, piece.len(), &mut read)?;
    }
    Ok(read)
}

fn read_all(records: &mut Records, most: usize, read: &mut Vec<u8>) -> Result<(), NoMemory> {
    for _ in 0..most {
        match records.next()? {
            RecStep::Got(record) => {
                read.push(record.kind)?;
                read.push((record.id % 256) as u8)?;
                read.extend_from_slice(record.content.as_slice())?;
            }
            RecStep::More => return Ok(()),
            RecStep::Bad => {
                read.push(255)?;
                return Ok(());
            }
        }
    }
    Ok(())
}

#[test]
fn records_come_in_any_pieces(rt: HostRuntime) -> Result<(), Fail> {
    let mut bytes = [BEGIN, PADDED].concat(rt.alloc())?;
    bytes.push(2)?;
    let wanted = b"\x01\x01\0\x01\0\0\0\0\0\0\x05\x02abc\xff";
    for most in 1..34 {
        let read = read_in(rt.alloc(), &bytes, most)?;
        assert_eq!(rt; read.as_slice(), wanted.as_slice());
    }
    Ok(())
}

#[test]
fn records_are_written(rt: HostRuntime) -> Result<(), Fail> {
    let end = record_text(rt.alloc(), kinds::END_REQUEST, 258, b"abc")?;
    assert_eq!(rt; end.as_slice(), b"\x01\x03\x01\x02\0\x03\0\0abc".as_slice());
    Ok(())
}

// The names and values of the pairs, each behind a bar.
fn pairs_in(alloc: Global, content: &[u8]) -> Result<Vec<u8>, PairFault> {
    let mut shown = Vec::new(alloc);
    for field in pairs_of(alloc, content)?.as_slice() {
        for text in [&field.name, &field.value] {
            shown.push(b'|').map_err(|_| PairFault::NoMemory)?;
            shown
                .extend_from_slice(text.as_slice())
                .map_err(|_| PairFault::NoMemory)?;
        }
    }
    Ok(shown)
}

#[test]
fn pairs_are_read(rt: HostRuntime) -> Result<(), Fail> {
    let rows: [(&[u8], &[u8]); 4] = [
        (
            b"\x0e\x03REQUEST_METHODGET\x0b\x0cSCRIPT_NAME/cgi-bin/env",
            b"|REQUEST_METHOD|GET|SCRIPT_NAME|/cgi-bin/env",
        ),
        // Of equal names the last value, at the first one's place; and a length in four bytes.
        (b"\x01\x01ax\x01\x01by\x01\x80\0\0\x02azz", b"|a|zz|b|y"),
        (b"\0\0", b"||"),
        (b"", b""),
    ];
    for (content, shown) in rows {
        let read = pairs_in(rt.alloc(), content)?;
        assert_eq!(rt; read.as_slice(), shown);
    }
    let wrong: [&[u8]; 6] = [
        b"\x01",
        b"\x80\0\0",
        b"\x01\x80\0\0",
        b"\x01\x01a",
        b"\x02\x01ab",
        b"\0\0\x01",
    ];
    for content in wrong {
        assert!(rt; pairs_in(rt.alloc(), content) == Err(PairFault::Malformed));
    }
    Ok(())
}
