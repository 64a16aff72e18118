// The words of the top call, its statuses, and what it enters a world for.
use super::drive::{FIRST, Heard, WORDS, is_done, is_spent, no_world, runs, world_of};
use super::lines::told;
use super::script::{has, is};
use host_base::{NoMemory, Site};
use host_run::Status;
use host_trace::{Item, Mode};
use memory_world::MemoryWorld;
use std::alloc::Global;
use std::test::Fail;
use std::thread::Threads;

// ---- words and statuses

// Whether the words have no form that there is, and the world gives no trace back.
fn is_no_form<R: Threads + Sync>(rt: &R, alloc: Global, words: &[&str]) -> Result<bool, NoMemory> {
    let mut world = world_of(alloc, &FIRST)?;
    let status = runs(rt, alloc, words, &mut world)?;
    Ok(matches!(status, Status::Usage) && world.given().is_empty())
}

#[test]
fn words_of_no_form(rt: HostRuntime) -> Result<(), Fail> {
    let none: [&str; 0] = [];
    for words in [
        none.as_slice(),
        &["once"],
        &["once", "x=/bin/cat"],
        &["once", "=/bin/cat"],
        &["once", "/=/bin/cat"],
        &["once", "/a//b=/bin/cat"],
        &["once", "/a/../b=/bin/cat"],
        &["once", "/a/=/bin/cat"],
        &["once", "/hello=bin/cat"],
        &["once", "/hello=/bin/"],
        &["once", "/hello=/bin/cat", "more"],
        &["serve"],
        &["serve", "x=/bin/cat"],
        &["serve", "/hello=/bin/cat", "--turns"],
        &["serve", "/hello=/bin/cat", "--turns", "0"],
        &["serve", "/hello=/bin/cat", "--turns", "+1"],
        &["serve", "/hello=/bin/cat", "--turns", ""],
        &["serve", "/hello=/bin/cat", "--turns", "4611686018427387905"],
        &[
            "serve",
            "/hello=/bin/cat",
            "--turns",
            "00000000000000000001",
        ],
        &["serve", "/hello=/bin/cat", "--turn", "1"],
        &["serve", "/hello=/bin/cat", "--loops", "0"],
        &["once", "/hello=/bin/cat", "--turns", "1"],
        &["Once", "/hello=/bin/cat"],
        &["once", ""],
        &["check"],
        &["check", ""],
        &["check", "x=/bin/cat"],
        &["upgrade"],
        &["upgrade", "site", "more"],
        &["explain"],
        &["explain", "x=/bin/cat"],
        &["help"],
        &["--help", "site"],
    ] {
        assert!(rt; is_no_form(&rt, rt.alloc(), words)?, "{words:?}");
    }
    Ok(())
}

#[test]
fn a_program_may_have_an_equals_sign(rt: HostRuntime) -> Result<(), Fail> {
    let mut world = world_of(rt.alloc(), &FIRST)?;
    let status = runs(
        &rt,
        rt.alloc(),
        &["once", "/cgi-bin/hello=/srv/a=b"],
        &mut world,
    )?;
    assert!(rt; is_done(&status));
    let told = told(rt.alloc(), &world)?;
    assert!(rt; has(told.as_str(), "Start 0 (0, 0, 0) /srv/a=b\n"));
    Ok(())
}

#[test]
fn a_world_that_refuses(rt: HostRuntime) -> Result<(), Fail> {
    let mut world = no_world(rt.alloc());
    let status = runs(&rt, rt.alloc(), &WORDS, &mut world)?;
    let refused = matches!(status, Status::WorldRefused);
    assert!(rt; refused && world.faults() == 1 && world.given().is_empty());
    Ok(())
}

// ---- what the world is entered for

fn has_script(site: &Site, path: &str) -> bool {
    for host in site.hosts.as_slice() {
        for script in host.scripts.as_slice() {
            if is(script.path.as_str(), path) {
                return true;
            }
        }
    }
    false
}

// Whether it was entered once, for one connection and a site with this script.
fn is_entered_for(world: &MemoryWorld, path: &str) -> bool {
    match world.entries() {
        [entry] => {
            world.tells_entries()
                && entry.mode == Mode::Once
                && entry.loops == 1
                && has_script(&entry.site, path)
        }
        _ => false,
    }
}

#[test]
fn a_world_is_entered_for_one_connection(rt: HostRuntime) -> Result<(), Fail> {
    let mut world = world_of(rt.alloc(), &FIRST)?;
    let status = runs(&rt, rt.alloc(), &WORDS, &mut world)?;
    let done = is_done(&status);
    assert!(rt; done && is_entered_for(&world, "/cgi-bin/hello"));
    Ok(())
}

// How many events were heard.
fn heard_in(items: &[Item]) -> usize {
    let mut count: usize = 0;
    for item in items {
        if let Item::In(_) = item {
            count = count.saturating_add(1);
        }
    }
    count
}

// Whether it was entered once, for sockets, and heard so many events.
fn has_served(world: &MemoryWorld, events: usize) -> bool {
    match (world.given(), world.entries()) {
        ([trace], [entry]) => heard_in(trace.as_slice()) == events && entry.mode == Mode::Serve,
        _ => false,
    }
}

// Whether so many turns are spent by so many events.
fn are_spent<R: Threads + Sync>(
    rt: &R,
    alloc: Global,
    turns: &str,
    events: usize,
) -> Result<bool, NoMemory> {
    let heard = [Heard::Accepted, Heard::Ticks(1), Heard::Ticks(1)];
    let mut world = world_of(alloc, &heard)?;
    let words = ["serve", "/cgi-bin/hello=/srv/cgi/hello", "--turns", turns];
    let status = runs(rt, alloc, &words, &mut world)?;
    Ok(is_spent(&status) && has_served(&world, events))
}

#[test]
fn turns_are_spent_over_sockets(rt: HostRuntime) -> Result<(), Fail> {
    for (turns, events) in [("1", 1), ("2", 2), ("0000000000000000002", 2)] {
        let spent = are_spent(&rt, rt.alloc(), turns, events)?;
        assert!(rt; spent, "{turns}");
    }
    Ok(())
}

// Whether the site of these words is not read, and no world is entered.
fn is_unread<R: Threads + Sync>(rt: &R, alloc: Global, words: &[&str]) -> Result<bool, NoMemory> {
    let mut world = world_of(alloc, &FIRST)?;
    let status = runs(rt, alloc, words, &mut world)?;
    Ok(matches!(status, Status::SiteUnread) && world.entries().is_empty())
}

#[test]
fn a_site_that_is_not_read_enters_no_world(rt: HostRuntime) -> Result<(), Fail> {
    for words in [
        ["once", "none"].as_slice(),
        &["serve", "none"],
        &["serve", "none", "--turns", "2"],
    ] {
        assert!(rt; is_unread(&rt, rt.alloc(), words)?, "{words:?}");
    }
    Ok(())
}
