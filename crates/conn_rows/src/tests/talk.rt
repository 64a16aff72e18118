// What one talk does, step by step.
mod closes;
mod ends;
mod memory;
mod pieces;
mod play;
mod recorder;
mod texts;

use super::parts::Parts;
use super::script::{Script, behind, first_line, number_of};
use super::{Mode, are_right};
use memory::is_cut_short;
use play::Played;
use recorder::{CONN, Recorder};
use std::alloc::Global;
use std::process::Abort;
use std::test::Fail;

fn script_of(alloc: Global, beats: &str, single: bool) -> Script {
    let mut script = Script::new(alloc, CONN, single);
    script.beats("", beats);
    script
}

// A row may begin with how many bytes a text and a line may have, and goes on with its beats.
fn limit_of(beats: &str) -> (u64, &str) {
    match behind(beats, "Limit ") {
        Some(rest) => {
            let (limit, beats) = first_line(rest);
            (number_of(limit), beats)
        }
        None => (65_536, beats),
    }
}

// Plays a script, with an act that finds no room.
fn record(alloc: Global, limit: u64, script: &Script, refused: Option<u32>) -> Recorder {
    let mut played = Played::new(alloc, limit, refused);
    played.hear(script.events.as_slice());
    if script.due.is_lost() {
        played.out.log.lose();
    }
    let Played { out, .. } = played;
    out
}

// What a row does, where that is not what is due.
fn judge(alloc: Global, limit: u64, script: &Script, name: &str, said: &mut Parts) {
    let out = record(alloc, limit, script, None);
    if out.is_lost() || !out.log.is(&script.due) {
        said.push(name);
        said.push(", ");
        said.add_parts(&out.log);
    }
}

// Whether another script says the same.
fn says(alloc: Global, limit: u64, script: &Script, whole: &Recorder) -> bool {
    let out = record(alloc, limit, script, None);
    out.said.is(&whole.said) && !out.is_lost() && !whole.is_lost()
}

// Whether a row ends with each refused act.
fn ends_at_each(alloc: Global, limit: u64, script: &Script, whole: &Recorder) -> bool {
    for at in 0..whole.carried {
        let out = record(alloc, limit, script, Some(at));
        if !is_cut_short(&out.log, &whole.log) {
            return false;
        }
    }
    true
}

// Says the name of a row, and what it does, where it does not what it must.
fn check_row(alloc: Global, row: &str, mode: Mode, said: &mut Parts) {
    let (name, beats) = first_line(row);
    let (limit, beats) = limit_of(beats);
    let script = script_of(alloc, beats, false);
    let whole = record(alloc, limit, &script, None);
    let right = match mode {
        Mode::Whole => return judge(alloc, limit, &script, name, said),
        Mode::Single => says(alloc, limit, &script_of(alloc, beats, true), &whole),
        Mode::NoRoom => ends_at_each(alloc, limit, &script, &whole),
    };
    if !right {
        said.push(name);
    }
}

// Says which row of a table fails first, and how many there are.
fn check(alloc: Global, table: &str, mode: Mode, said: &mut Parts) -> usize {
    let mut count = 0usize;
    for row in table.split("\n== ") {
        if count > 0 && said.is_empty() {
            check_row(alloc, row, mode, said);
        }
        count = count.saturating_add(1);
    }
    count.saturating_sub(1)
}

// Each row of a table of so many goes as it must.
fn rows_go<R: Abort>(
    rt: &R,
    alloc: Global,
    table: &str,
    mode: Mode,
    count: usize,
) -> Result<(), Fail> {
    let mut said = Parts::new(alloc);
    let found = check(alloc, table, mode, &mut said);
    assert_eq!(rt; found, count);
    are_right(rt, &said)
}
