// What one connection does, step by step.
mod launches;
mod long;
mod memory;
mod pieces;
mod replies;
mod requests;
mod talks;

ghost use Rattle.host_base.specs.SiteRules.{IsServed};

use super::parts::Parts;
use super::play::play;
use super::recorder::Recorder;
use super::script::{Script, first_line};
use super::{Mode, are_right};
use host_base::Site;
use memory::is_shut;
use pieces::agree;
use site_file::read_site;
use std::alloc::Global;
use std::process::Abort;
use std::test::Fail;

const SITE: &str = "version = 1
[limits]
body = 1048576

[[script]]
path = \"/cgi-bin/hello\"
program = \"/srv/cgi/hello\"

[[script]]
path = \"/cgi-bin/form\"
program = \"/srv/cgi/form\"

[[script]]
path = \"/nph\"
program = \"/srv/cgi/nph\"
kind = \"nph\"

[[script]]
path = \"/ws\"
program = \"/srv/cgi/lines\"
kind = \"websocket\"

[[script]]
path = \"/shop\"
program = \"/srv/cgi/shop\"
kind = \"websocket\"
origins = [\"http://example.com\"]
";

fn script_of(alloc: Global, table: &str, beats: &str, single: bool) -> Script {
    let mut script = Script::new(alloc, 0, single);
    script.beats(table, beats);
    script
}

// Plays a script, with an act that finds no room.
fn played(alloc: Global, site: &Site, script: Script, refused: Option<u32>) -> Recorder
    requires { IsServed site.now }
{
    let Script { events, due, .. } = script;
    let mut out = play(alloc, site, events, refused);
    if due.is_lost() {
        out.told.lose();
    }
    out
}

// Says the name of a script and what it does, where that is not what is due.
fn judge(alloc: Global, site: &Site, script: Script, name: &str, said: &mut Parts)
    requires { IsServed site.now }
{
    let Script { events, due, .. } = script;
    let out = play(alloc, site, events, None);
    if due.is_lost() || out.told.is_lost() || !out.told.log.is(&due) {
        said.push(name);
        said.push(", ");
        said.add_parts(&out.told.log);
    }
}

fn record(
    alloc: Global,
    site: &Site,
    table: &str,
    beats: &str,
    single: bool,
    refused: Option<u32>,
) -> Recorder
    requires { IsServed site.now }
{
    played(alloc, site, script_of(alloc, table, beats, single), refused)
}

// Whether a row does the same in single bytes.
fn is_steady(alloc: Global, site: &Site, table: &str, beats: &str) -> bool
    requires { IsServed site.now }
{
    let whole = record(alloc, site, table, beats, false, None);
    let single = record(alloc, site, table, beats, true, None);
    agree(&whole.told, &single.told)
}

// Whether a row ends with the refused act.
fn ends_at(alloc: Global, site: &Site, table: &str, beats: &str, at: u32) -> bool
    requires { IsServed site.now }
{
    let out = record(alloc, site, table, beats, false, Some(at));
    is_shut(&out.told)
}

// How many acts of a row carry something.
fn carried(alloc: Global, site: &Site, table: &str, beats: &str) -> u32
    requires { IsServed site.now }
{
    let whole = record(alloc, site, table, beats, false, None);
    whole.carried
}

// Whether a row ends with each refused act.
fn ends(alloc: Global, site: &Site, table: &str, beats: &str) -> bool
    requires { IsServed site.now }
{
    for at in 0..carried(alloc, site, table, beats) {
        if !ends_at(alloc, site, table, beats, at) {
            return false;
        }
    }
    true
}

// Says the name of a row, and what it does, where it does not what it must.
fn check_row(
    alloc: Global,
    site: &Site,
    table: &str,
    name: &str,
    beats: &str,
    mode: Mode,
    said: &mut Parts,
)
    requires { IsServed site.now }
{
    let right = match mode {
        Mode::Whole => {
            let script = script_of(alloc, table, beats, false);
            return judge(alloc, site, script, name, said);
        }
        Mode::Single => is_steady(alloc, site, table, beats),
        Mode::NoRoom => ends(alloc, site, table, beats),
    };
    if !right {
        said.push(name);
    }
}

// Says which row of a table fails first, and how many there are.
fn check(alloc: Global, site: &Site, table: &str, mode: Mode, said: &mut Parts) -> usize
    requires { IsServed site.now }
{
    let mut count = 0usize;
    for row in table.split("\n== ") {
        if count > 0 && said.is_empty() {
            let (name, beats) = first_line(row);
            check_row(alloc, site, table, name, beats, mode, said);
        }
        count = count.saturating_add(1);
    }
    count.saturating_sub(1)
}

fn check_at_site(alloc: Global, table: &str, mode: Mode, said: &mut Parts) -> usize {
    match read_site(alloc, SITE.as_bytes()) {
        Ok(site) => check(alloc, &site, table, mode, said),
        Err(_) => 0,
    }
}

// Each row of a table of so many goes as it must.
fn rows_go<R: Abort>(
    rt: &R,
    alloc: Global,
    table: &str,
    mode: Mode,
    count: usize,
) -> Result<(), Fail> {
    let mut said = Parts::new(alloc);
    let found = check_at_site(alloc, table, mode, &mut said);
    assert_eq!(rt; found, count);
    are_right(rt, &said)
}
