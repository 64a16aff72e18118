// What one connection does, and what its talk and its children do.
mod children;
mod events;
mod judge;
mod kid;
mod numbers;
mod parts;
mod play;
mod recorder;
mod rows;
mod script;
mod stories;
mod talk;
mod talk_stories;
mod told;

use parts::Parts;
use std::process::Abort;
use std::test::Fail;

// How a row is played.
#[derive(Clone, Copy)]
enum Mode {
    // Whole: it does what is due.
    Whole,
    // In single bytes, and whole: the same is written and said.
    Single,
    // With each act that may find no room finding none, in turn.
    NoRoom,
}

// Nothing is said to be wrong.
fn are_right<R: Abort>(rt: &R, said: &Parts) -> Result<(), Fail> {
    assert_eq!(rt; said.text()?, "");
    Ok(())
}
