// Each act that may find no room finds none, in turn: the connection is shut for want of memory in that step, and
// nothing but the end of its child follows.
use super::super::Mode;
use super::super::script::{is, starts};
use super::super::told::Told;
use super::{replies, requests, rows_go, talks};
use std::test::Fail;

// Where in a log a line stands.
#[derive(Clone, Copy)]
enum Stage {
    Before,
    // Behind the refused act, in its step.
    Refused,
    // The connection is shut.
    Shut,
    // It goes on.
    Wrong,
}

// What may stand behind the refused act up to the end of its step.
fn may_stand(line: &str) -> bool {
    starts(line, "EndInput") || starts(line, "Kill") || starts(line, "Release")
}

// The stage behind a line: up to the refused act the connection is not shut, and then its child is given up, the connection
// shut in the same step, and nothing else follows.
fn behind(stage: Stage, line: &str) -> Stage {
    let shuts = is(line, "Shut NoMemory");
    match stage {
        Stage::Before if is(line, "no room") => Stage::Refused,
        Stage::Before if !shuts => Stage::Before,
        Stage::Refused if shuts => Stage::Shut,
        Stage::Refused if may_stand(line) => Stage::Refused,
        Stage::Shut if may_stand(line) || line.is_empty() || is(line, "--") => Stage::Shut,
        _ => Stage::Wrong,
    }
}

fn last_stage(log: &str) -> Stage {
    let mut stage = Stage::Before;
    for line in log.split('\n') {
        stage = behind(stage, line);
    }
    stage
}

// The connection was shut for want of memory in the step of the refused act.
pub fn is_shut(told: &Told) -> bool {
    match told.log.text() {
        Ok(log) => match last_stage(log) {
            Stage::Shut => !told.is_lost(),
            _ => false,
        },
        Err(_) => false,
    }
}

#[test]
fn each_act_may_find_no_room(rt: HostRuntime) -> Result<(), Fail> {
    rows_go(&rt, rt.alloc(), replies::rows(), Mode::NoRoom, 30)?;
    rows_go(&rt, rt.alloc(), requests::rows(), Mode::NoRoom, 18)
}

#[test]
fn each_act_of_a_talk_may_find_no_room(rt: HostRuntime) -> Result<(), Fail> {
    rows_go(&rt, rt.alloc(), talks::rows(), Mode::NoRoom, 17)
}
