// Worked rows: what is heard, and the acts that are to follow each event.
use super::drive::{Heard, count_of, event_of, limit_of, outside_with, runs, world_in};
use super::lines::{event_line, numbered, push_act, push_event, shown, told};
use super::script::{
    beats_named, behind, bytes_of, cut, heard_in, is, is_event, lines_in, named_rows, parts,
    single_bytes,
};
use host_base::NoMemory;
use host_run::Status;
use host_trace::{Event, Events};
use memory_world::MemoryWorld;
use std::alloc::Global;
use std::process::Abort;
use std::test::Fail;
use std::thread::Threads;

// The act of this place finds no room.
const NO_ROOM: &str = "no room";

/// What is to be heard, the acts that find no room, and the lines of the trace.
#[derive(Drop)]
pub struct Play {
    alloc: Global,
    events: Events,
    refused: Vec<u64>,
    acts: u64,
    lines: String,
}

impl Play {
    pub fn new(alloc: Global) -> Self {
        Play {
            alloc,
            events: Events::new(alloc),
            refused: Vec::new(alloc),
            acts: 0,
            lines: String::new(alloc),
        }
    }

    fn push(&mut self, event: Event) -> Result<(), NoMemory> {
        let line = event_line(self.alloc, &event)?;
        push_event(&mut self.lines, line.as_str())?;
        self.events.push(event)
    }

    fn hear(&mut self, heard: Heard) -> Result<(), NoMemory> {
        for _ in 0..count_of(heard) {
            let event = event_of(self.alloc, heard)?;
            self.push(event)?;
        }
        Ok(())
    }

    /// This act follows.
    pub fn follow(&mut self, act: &str) -> Result<(), NoMemory> {
        if is(act, NO_ROOM) {
            self.refused.push(self.acts)?;
        } else {
            push_act(&mut self.lines, act)?;
        }
        self.acts = self.acts.saturating_add(1);
        Ok(())
    }

    /// The act of this number is refused where it may be.
    pub fn refuse(&mut self, number: u64) -> Result<(), NoMemory> {
        self.refused.push(number)?;
        Ok(())
    }

    /// The act of this name and number follows.
    pub fn follow_for(&mut self, name: &str, number: u64) -> Result<(), NoMemory> {
        let act = numbered(self.alloc, name, number)?;
        self.follow(act.as_str())
    }

    /// This is heard, and these acts follow.
    pub fn beat(&mut self, heard: Heard, acts: &[&str]) -> Result<(), NoMemory> {
        self.hear(heard)?;
        for act in acts {
            self.follow(*act)?;
        }
        Ok(())
    }

    /// The event of a line of this table is heard.
    pub fn hear_line(&mut self, table: &str, line: &str) -> Result<(), NoMemory> {
        let (_, _, text) = parts(line);
        let bytes = bytes_of(self.alloc, table, text)?;
        match heard_in(line, bytes.as_slice()) {
            Some(heard) => self.hear(heard),
            None => push_event(&mut self.lines, "no event of this name"),
        }
    }

    // The event or the act of a line of this table.
    fn line(&mut self, table: &str, line: &str) -> Result<(), NoMemory> {
        if let Some(act) = behind(line, "    ") {
            let bytes = bytes_of(self.alloc, table, act)?;
            self.follow(shown(bytes.as_slice()))
        } else if is_event(line) {
            self.hear_line(table, line)
        } else {
            Ok(())
        }
    }

    // The first ones of these beats of a table, so many, or the others.
    fn some(
        &mut self,
        table: &str,
        beats: &str,
        count: usize,
        others: bool,
    ) -> Result<(), NoMemory> {
        let mut heard: usize = 0;
        let lines = lines_in(self.alloc, beats)?;
        for line in lines.as_slice() {
            if is_event(*line) {
                heard = heard.saturating_add(1);
            }
            if (heard > count) == others {
                self.line(table, *line)?;
            }
        }
        Ok(())
    }

    /// The beats of this name.
    pub fn beats(&mut self, name: &str) -> Result<(), NoMemory> {
        self.some("", beats_named(name), usize::MAX, false)
    }

    /// The first ones of these beats of a table.
    pub fn front(&mut self, table: &str, beats: &str, count: usize) -> Result<(), NoMemory> {
        self.some(table, beats, count, false)
    }

    /// The others.
    pub fn back(&mut self, table: &str, beats: &str, count: usize) -> Result<(), NoMemory> {
        self.some(table, beats, count, true)
    }

    /// These lines of a table, in which beats may stand by their name.
    pub fn script(&mut self, table: &str, lines: &str) -> Result<(), NoMemory> {
        let lines = lines_in(self.alloc, lines)?;
        for line in lines.as_slice() {
            match behind(*line, "+ ") {
                Some(name) => self.beats(name)?,
                None => self.line(table, *line)?,
            }
        }
        Ok(())
    }

    /// A client's bytes come one by one, and more is asked for after each.
    pub fn client_singly(&mut self, c: u64, bytes: &[u8]) -> Result<(), NoMemory> {
        let pieces = single_bytes(self.alloc, bytes)?;
        for piece in pieces.as_slice() {
            self.beat(Heard::Client(c, *piece), &[])?;
            self.follow_for("WantClient", c)?;
        }
        Ok(())
    }

    /// An output's bytes come one by one, and more is asked for after each.
    pub fn output_singly(&mut self, k: u64, bytes: &[u8]) -> Result<(), NoMemory> {
        let pieces = single_bytes(self.alloc, bytes)?;
        for piece in pieces.as_slice() {
            self.beat(Heard::Output(k, *piece), &[])?;
            self.follow_for("WantChild", k)?;
        }
        Ok(())
    }

    pub fn alloc(&self) -> Global {
        self.alloc
    }

    /// Its events, the acts that are refused, and its lines.
    pub fn into_parts(self) -> (Global, Events, Vec<u64>, String) {
        let Play {
            alloc,
            events,
            refused,
            acts: _,
            lines,
        } = self;
        (alloc, events, refused, lines)
    }

    /// How many items its trace may have.
    fn room(&self) -> usize {
        let acts = self.acts as usize;
        self.events.len().saturating_add(acts).saturating_add(64)
    }
}

// A world in which all is heard, and the lines of the trace that is to come of it.
fn world_for(play: Play, limit: u32) -> Result<(MemoryWorld, String), NoMemory> {
    let room = play.room();
    let (alloc, events, refused, lines) = play.into_parts();
    let out = outside_with(alloc, events, refused, room, limit)?;
    Ok((world_in(alloc, out)?, lines))
}

// The lines of the one trace of such a run; a text that is no trace where it doesn't end with Done.
fn told_by<R: Threads + Sync>(
    rt: &R,
    alloc: Global,
    words: &[&str],
    world: MemoryWorld,
) -> Result<String, NoMemory> {
    let mut world = world;
    match runs(rt, alloc, words, &mut world)? {
        Status::Done => told(alloc, &world),
        _ => Ok("not done".to_string(alloc)?),
    }
}

/// The task of these words, over this site, hears it all and ends with Done, and its trace is this one.
pub fn plays<R: Threads + Abort + Sync>(
    rt: &R,
    task: &str,
    site: &str,
    name: &str,
    play: Play,
) -> Result<(), Fail> {
    let alloc = play.alloc();
    let (world, lines) = world_for(play, limit_of(site))?;
    let told = told_by(rt, alloc, &[task, site], world)?;
    assert_eq!(rt; told.as_str(), lines.as_str(), "{name}");
    Ok(())
}

// The row, which begins with its name, is played so.
fn has_row<R: Threads + Abort + Sync>(
    rt: &R,
    alloc: Global,
    task: &str,
    site: &str,
    table: &str,
    row: &str,
) -> Result<(), Fail> {
    let (name, lines) = cut(row, "\n");
    let mut play = Play::new(alloc);
    play.script(table, lines)?;
    plays(rt, task, site, name, play)
}

/// Each row of a table of so many is played so.
pub fn has_rows<R: Threads + Abort + Sync>(
    rt: &R,
    alloc: Global,
    task: &str,
    site: &str,
    table: &str,
    count: usize,
) -> Result<(), Fail> {
    let rows = named_rows(alloc, table)?;
    for row in rows.as_slice() {
        has_row(rt, alloc, task, site, table, *row)?;
    }
    assert_eq!(rt; rows.len(), count);
    Ok(())
}
