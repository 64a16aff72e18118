// Where the front of a text ends, whole and byte by byte.
use super::cases::are_right;
use head_lines::{Search, first_line, line_count, strip_cr};

// Texts, and where their first empty line ends.
static TEXTS: [(&[u8], Option<usize>); 12] = [
    (b"", None),
    (b"\r", None),
    (b"\n", Some(1)),
    (b"\r\n", Some(2)),
    (b"\r\r\n", None),
    (b"a\n\nb\n\n", Some(3)),
    (b"a\r\n\r\nb", Some(5)),
    (b"a\n\r\n", Some(4)),
    (b"a\r\n\n", Some(4)),
    (b"a\n\r", None),
    (b"a: \r\n \n\r\r\n\r\n", Some(12)),
    (b"a\n \n\t\n\0\n", None),
];

// Whether the end is found at the byte at which it comes, by one search over a text that grows by single bytes.
fn is_found_by_bytes(text: &[u8], end: Option<usize>) -> bool {
    let mut search = Search::new();
    for count in 0..text.len() + 1 {
        let due = end.filter(|end| *end <= count);
        if search.front_end(&text[..count]) != due {
            return false;
        }
    }
    true
}

fn is_found((text, end): &(&[u8], Option<usize>)) -> bool {
    Search::new().front_end(text) == *end && is_found_by_bytes(text, *end)
}

#[test]
fn the_first_empty_line_is_found_however_the_text_grows(rt: HostRuntime) {
    are_right(&rt, &TEXTS, is_found);
}

// Texts, their first line, and how many lines end in them.
static TOLD: [(&[u8], &[u8], usize); 6] = [
    (b"", b"", 0),
    (b"a b", b"a b", 0),
    (b"a b\r", b"a b", 0),
    (b"a\r\nb\n", b"a", 2),
    (b"a\r\r\n\n", b"a\r", 2),
    (b"\nb\r\nc", b"", 2),
];

fn is_told((text, first, count): &(&[u8], &[u8], usize)) -> bool {
    first_line(text) == *first && line_count(text) == *count
}

#[test]
fn lines_are_told(rt: HostRuntime) {
    are_right(&rt, &TOLD, is_told);
    assert!(rt; strip_cr(b"\r\r") == b"\r".as_slice());
}
