// What is written and said doesn't depend on how the client's bytes and the output were cut.
use super::super::Mode;
use super::super::told::Told;
use super::{replies, requests, rows_go, talks};
use std::test::Fail;

// The same is written and said, and as many children are started, with the same.
pub fn agree(whole: &Told, single: &Told) -> bool {
    whole.wrote.is(&single.wrote)
        && whole.said.is(&single.said)
        && whole.launched.is(&single.launched)
        && !whole.is_lost()
        && !single.is_lost()
}

#[test]
fn single_bytes_are_answered_as_whole_pieces(rt: HostRuntime) -> Result<(), Fail> {
    rows_go(&rt, rt.alloc(), replies::rows(), Mode::Single, 30)?;
    rows_go(&rt, rt.alloc(), requests::rows(), Mode::Single, 18)
}

#[test]
fn single_bytes_are_talked_as_whole_pieces(rt: HostRuntime) -> Result<(), Fail> {
    rows_go(&rt, rt.alloc(), talks::rows(), Mode::Single, 17)
}
