// Each Says and each Feed finds no room, in turn: the connection is shut for want of memory in that step, with what
// stood before it unchanged, and nothing but the end of its child follows.
use super::super::Mode;
use super::super::parts::Parts;
use super::super::script::is;
use super::{closes, ends, rows_go, texts};
use std::test::Fail;

fn may_follow(line: &str) -> bool {
    line.is_empty()
        || is(line, "--")
        || is(line, "EndInput")
        || is(line, "Kill")
        || is(line, "Release")
}

// Whether a log goes on as another up to some line, then ends its child and shuts the connection for want of memory
// within the same step, and has nothing but the end of the child behind that.
fn are_cut_short(log: &str, whole: &str) -> bool {
    let mut due = whole.split('\n');
    let mut alike = true;
    let mut shut = false;
    for line in log.split('\n') {
        alike = alike && due.next() == Some(line);
        if shut || !alike {
            let ends = !shut && is(line, "Shut NoMemory");
            if !ends && (!may_follow(line) || !shut && is(line, "--")) {
                return false;
            }
            shut = shut || ends;
        }
    }
    shut
}

pub fn is_cut_short(log: &Parts, whole: &Parts) -> bool {
    match (log.text(), whole.text()) {
        (Ok(log), Ok(whole)) => are_cut_short(log, whole),
        _ => false,
    }
}

#[test]
fn each_act_may_find_no_room(rt: HostRuntime) -> Result<(), Fail> {
    rows_go(&rt, rt.alloc(), texts::rows(), Mode::NoRoom, 7)?;
    rows_go(&rt, rt.alloc(), ends::rows(), Mode::NoRoom, 12)?;
    rows_go(&rt, rt.alloc(), closes::rows(), Mode::NoRoom, 13)
}
