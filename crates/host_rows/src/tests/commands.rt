// The commands that need no loop: their words, their statuses and what they report.
use super::drive::{file, is_done, no_world, report_with, runs_over};
use super::lines::shown;
use super::script::{begins, behind, has, is, same};
use host_base::{NoMemory, Text};
use host_run::Status;
use memory_world::{MemorySink, MemoryStore, StoredFile};
use site_file::{SiteFault, read_site};
use std::alloc::Global;
use std::test::Fail;
use std::thread::Threads;

// A site of version 1 with two scripts.
const TWO: &str =
    "version = 1\n\n[limits]\nrun_ticks = 600\n\n[[script]]\npath = \"/cgi-bin/hello\"\nprogram = \"/srv/cgi/hello\"\n\n[[script]]\npath = \"/ws\"\nprogram = \"/srv/cgi/lines\"\nkind = \"websocket\"\norigins = [\"http://example.com\"]\n";

// Two hosts, with a script and documents, and with a script.
const HOSTS: &str =
    "version = 2\n\n[[host]]\nname = \"a.example\"\naliases = [\"www.a.example\"]\n\n[[host.script]]\npath = \"/s\"\nprogram = \"/srv/s\"\n\n[[host.documents]]\npath = \"/d\"\n\n[[host]]\nname = \"b.example\"\n\n[[host.script]]\npath = \"/t\"\nprogram = \"/srv/t\"\n";

fn files(alloc: Global) -> Result<Vec<StoredFile>, NoMemory> {
    let two = TWO.as_bytes();
    let table: [(&str, &[u8]); 6] = [
        ("two", two),
        ("hosts", HOSTS.as_bytes()),
        ("x", b"x"),
        ("latin", b"version = 1 # \xe4"),
        ("version", b"version = 1"),
        ("lost", two),
    ];
    let mut files = Vec::new(alloc);
    for (name, bytes) in table {
        files.push(file(alloc, name, bytes)?)?;
    }
    Ok(files)
}

fn failing(alloc: Global) -> Result<Vec<Text>, NoMemory> {
    let mut failing = Vec::new(alloc);
    failing.push(Text::copy_of(alloc, "lost")?)?;
    Ok(failing)
}

// Files, of which `lost` can't be read.
fn store(alloc: Global) -> Result<MemoryStore, NoMemory> {
    let files = files(alloc)?;
    let failing = failing(alloc)?;
    Ok(MemoryStore::new(files, failing))
}

// What came of a command: its status, its report and the store's count of faults.
#[derive(Drop)]
struct Came {
    status: Status,
    report: MemorySink,
    store: MemoryStore,
}

fn put_by(came: &Came) -> &[u8] {
    came.report.written()
}

// Whether so many bytes were put, and the store's count of faults is this.
fn has_counts(came: &Came, put: usize, faults: u64) -> bool {
    put_by(came).len() == put && came.store.faults() == faults
}

// Runs words over a world that can't be entered; the puts of these numbers fail.
fn came_of<R: Threads + Sync>(
    rt: &R,
    alloc: Global,
    words: &[&str],
    failing: &[u64],
) -> Result<Came, NoMemory> {
    let mut store = store(alloc)?;
    let mut report = report_with(alloc, failing)?;
    let mut world = no_world(alloc);
    let status = runs_over(rt, alloc, words, &mut store, &mut report, &mut world)?;
    Ok(Came {
        status,
        report,
        store,
    })
}

// Whether these words are done and report this.
fn reports<R: Threads + Sync>(
    rt: &R,
    alloc: Global,
    words: &[&str],
    text: &[u8],
) -> Result<bool, NoMemory> {
    let came = came_of(rt, alloc, words, &[])?;
    Ok(is_done(&came.status) && same(put_by(&came), text) && has_counts(&came, text.len(), 0))
}

#[test]
fn sites_that_are_checked(rt: HostRuntime) -> Result<(), Fail> {
    let table: [(&[&str], &[u8]); 4] = [
        (&["check", "two"], b"ok: 2 scripts\n"),
        (&["check", "hosts"], b"ok: 3 scripts\n"),
        (&["check", "/s=/bin/cat"], b"ok: 1 scripts\n"),
        (&["--version"], b"cgihost 1\n"),
    ];
    for (words, text) in table {
        assert!(rt; reports(&rt, rt.alloc(), words, text)?, "{words:?}");
    }
    Ok(())
}

// Whether a status says this: `not TOML`, `missing` and a key, or `unread`.
fn says(status: &Status, wanted: &str) -> bool {
    match status {
        Status::SiteRefused(SiteFault::NotToml) => is(wanted, "not TOML"),
        Status::SiteRefused(SiteFault::Missing(key)) => match behind(wanted, "missing ") {
            Some(wanted) => is(key.as_str(), wanted),
            None => false,
        },
        Status::SiteUnread => is(wanted, "unread"),
        _ => false,
    }
}

// Whether a task with this site ends so and reports nothing.
fn refuses<R: Threads + Sync>(
    rt: &R,
    alloc: Global,
    task: &str,
    name: &str,
    wanted: &str,
) -> Result<bool, NoMemory> {
    let came = came_of(rt, alloc, &[task, name], &[])?;
    let unread: u64 = if is(wanted, "unread") { 1 } else { 0 };
    Ok(says(&came.status, wanted) && has_counts(&came, 0, unread))
}

#[test]
fn sites_that_are_refused(rt: HostRuntime) -> Result<(), Fail> {
    let alloc = rt.alloc();
    for (name, wanted) in [
        ("x", "not TOML"),
        ("latin", "not TOML"),
        ("version", "missing script"),
        ("lost", "unread"),
        ("none", "unread"),
    ] {
        for task in ["check", "upgrade"] {
            let refused = refuses(&rt, alloc, task, name, wanted)?;
            assert!(rt; refused, "{task} {name}");
        }
    }
    Ok(())
}

// Whether the first put of these words fails, once it has put so many bytes.
fn fails<R: Threads + Sync>(
    rt: &R,
    alloc: Global,
    words: &[&str],
    len: usize,
) -> Result<bool, NoMemory> {
    let came = came_of(rt, alloc, words, &[0])?;
    Ok(
        matches!(came.status, Status::ReportFault)
            && put_by(&came).len() == len
            && came.report.faults() == 1,
    )
}

// A report that is cut off by a fault, of which half was put.
#[test]
fn reports_that_fail(rt: HostRuntime) -> Result<(), Fail> {
    for (words, len) in [
        (["check", "two"].as_slice(), 7),
        (&["--version"], 5),
        (&["sample", "0", "1"], 25),
    ] {
        assert!(rt; fails(&rt, rt.alloc(), words, len)?, "{words:?}");
    }
    Ok(())
}

// Whether a text is read as a site whose first host has so many scripts.
fn has_scripts(alloc: Global, text: &str, count: usize) -> bool {
    match read_site(alloc, text.as_bytes()) {
        Ok(site) => site.hosts.as_slice()[0].scripts.len() == count,
        Err(_) => false,
    }
}

fn has_version_2(text: &str) -> bool {
    begins(text, "version = 2\n") || has(text, "\nversion = 2\n")
}

// Whether a site is written in version 2, with so many scripts of its first host.
fn is_upgraded<R: Threads + Sync>(
    rt: &R,
    alloc: Global,
    name: &str,
    scripts: usize,
) -> Result<bool, NoMemory> {
    let came = came_of(rt, alloc, &["upgrade", name], &[])?;
    let text = shown(put_by(&came));
    Ok(is_done(&came.status) && has_version_2(text) && has_scripts(alloc, text, scripts))
}

// What is written for a site says it in version 2, and is written for it again.
#[test]
fn sites_that_are_upgraded(rt: HostRuntime) -> Result<(), Fail> {
    for (name, scripts) in [("two", 2), ("hosts", 2), ("/s=/bin/cat", 1)] {
        let upgraded = is_upgraded(&rt, rt.alloc(), name, scripts)?;
        assert!(rt; upgraded, "{name}");
    }
    Ok(())
}

// The first form that the help doesn't name; nothing where it names all.
fn unnamed(help: &str) -> &'static str {
    for form in [
        "once SITE",
        "serve SITE",
        "check SITE",
        "upgrade SITE",
        "explain SITE",
        "sample SEED N",
        "--help",
        "--version",
        "  7  ",
    ] {
        if !has(help, form) {
            return form;
        }
    }
    ""
}

fn unnamed_by_help<R: Threads + Sync>(rt: &R, alloc: Global) -> Result<&'static str, NoMemory> {
    let came = came_of(rt, alloc, &["--help"], &[])?;
    match came.status {
        Status::Done => Ok(unnamed(shown(put_by(&came)))),
        _ => Ok("not done"),
    }
}

#[test]
fn the_help_names_what_there_is(rt: HostRuntime) -> Result<(), Fail> {
    assert_eq!(rt; unnamed_by_help(&rt, rt.alloc())?, "");
    Ok(())
}

// The world, which can't be entered, is not asked for.
#[test]
fn samples_that_are_reported(rt: HostRuntime) -> Result<(), Fail> {
    let table: [(&[&str], &[u8]); 3] = [
        (
            &["sample", "1", "6"],
            b"connections 6\nnone 1\nstatus 404 2\nstatus 502 3\nstarts 4\nreaps 4\n",
        ),
        (
            &["sample", "0", "1"],
            b"connections 1\nnone 0\nstatus 502 1\nstarts 1\nreaps 0\n",
        ),
        (
            &["sample", "4294967295", "9"],
            b"connections 9\nnone 0\nstatus 200 4\nstatus 404 1\nstatus 502 4\nstarts 8\nreaps 5\n",
        ),
    ];
    for (words, text) in table {
        assert!(rt; reports(&rt, rt.alloc(), words, text)?, "{words:?}");
    }
    Ok(())
}

// Whether these words are none of a command, and nothing is reported.
fn is_refused<R: Threads + Sync>(rt: &R, alloc: Global, words: &[&str]) -> Result<bool, NoMemory> {
    let came = came_of(rt, alloc, words, &[])?;
    Ok(matches!(came.status, Status::Usage) && put_by(&came).is_empty())
}

#[test]
fn words_of_no_sample(rt: HostRuntime) -> Result<(), Fail> {
    for words in [
        ["sample"].as_slice(),
        &["sample", "1"],
        &["sample", "1", "0"],
        &["sample", "1", "100001"],
        &["sample", "4294967296", "1"],
        &["sample", "-1", "1"],
        &["sample", "1", "x"],
        &["sample", "1", "00000000000000000001"],
        &["sample", "1", "1", "1"],
        &["samples", "1", "1"],
    ] {
        assert!(rt; is_refused(&rt, rt.alloc(), words)?, "{words:?}");
    }
    Ok(())
}
