// Rows that are made by a loop: eleven hops, a long body, a long output.
ghost use Rattle.host_base.specs.SiteRules.{IsServed};

use super::super::are_right;
use super::super::parts::Parts;
use super::super::script::{Name, Script};
use super::{SITE, judge, played};
use host_base::Site;
use site_file::read_site;
use std::alloc::Global;
use std::process::Abort;
use std::test::Fail;

const P: &str = r"GET /cgi-bin/hello HTTP/1.1\r\nHost: a\r\nConnection: close\r\n\r\n";

// Hears an event of this name, with its number and what it brings.
fn hear(script: &mut Script, name: Name, number: u64, text: &str) {
    script.hear("", name, number, text);
}

fn hear_hop(script: &mut Script, k: u64) {
    hear(script, Name::Started, k, "");
    hear(script, Name::Out, k, r"Location: /cgi-bin/hello\n\n");
    hear(script, Name::OutEnd, k, "");
    hear(script, Name::Exited, k, "");
}

fn push_hop(text: &mut Parts, k: u64) {
    text.push("Start ");
    text.push_number(k);
    text.push(" 0 ");
    text.push_number(k);
    text.push(" /srv/cgi/hello\nEndInput ");
    text.push_number(k);
    text.push("\nWantChild ");
    text.push_number(k);
    text.push("\nWantChild ");
    text.push_number(k);
    text.push("\n");
}

fn add_hops(script: &mut Script) {
    hear(script, Name::Accept, 0, "");
    hear(script, Name::Client, 0, P);
    script.due.push_line("WantClient");
    for k in 0..11u64 {
        hear_hop(script, k);
        push_hop(&mut script.due, k);
    }
    script.due.push(
        "Write HTTP/1.1 500 Internal Server Error\r\nContent-Type: text/plain\r\nContent-Length: 25\r\nConnection: close\r\n\r\ntoo many local redirects\n\nShut Done\n",
    );
}

fn hear_piece(script: &mut Script) {
    hear(script, Name::Fill, u64::from(b'x'), "65536");
    hear(script, Name::Took, 0, "65536");
}

fn add_body(script: &mut Script) {
    hear(script, Name::Accept, 0, "");
    hear(
        script,
        Name::Client,
        0,
        r"POST /cgi-bin/form HTTP/1.1\r\nHost: a\r\nContent-Length: 1048576\r\n\r\n",
    );
    hear(script, Name::Started, 0, "");
    script.due.push("WantClient\nStart 0 0 0 /srv/cgi/form\nWantClient\nWantChild 0\n");
    for _ in 0..15 {
        hear_piece(script);
        script.due.push("Feed 0 65536\nWantClient\n");
    }
    hear_piece(script);
    script.due.push("Feed 0 65536\nEndInput 0\n");
}

fn push_fill(text: &mut Parts, count: usize) {
    for _ in 0..count {
        text.push("a");
    }
}

// A long output whose reply has begun.
fn add_output(script: &mut Script) {
    hear(script, Name::Accept, 0, "");
    hear(script, Name::Client, 0, P);
    hear(script, Name::Started, 0, "");
    hear(
        script,
        Name::OutFill,
        0,
        r"9000 Content-Type: text/plain\n\n",
    );
    script.due.push(
        "WantClient\nStart 0 0 0 /srv/cgi/hello\nEndInput 0\nWantChild 0\nWrite HTTP/1.1 200 OK\r\nContent-Type: text/plain\r\nTransfer-Encoding: chunked\r\nConnection: close\r\n\r\n2328\r\n",
    );
    push_fill(&mut script.due, 9000);
    script.due.push("\r\n\nWantChild 0\n");
}

const ENDED_DUE: &str = "Write 1\r\nb\r\n\nWantChild 0\nWrite 0\r\n\r\n\nShut Done\n";

const BROKEN_DUE: &str = "Kill 0\nShut script output broken\n";

// .. and ends.
fn add_ended(script: &mut Script) {
    add_output(script);
    hear(script, Name::Out, 0, "b");
    hear(script, Name::OutEnd, 0, "");
    script.due.push(ENDED_DUE);
}

// .. and breaks.
fn add_broken(script: &mut Script) {
    add_output(script);
    hear(script, Name::OutBroken, 0, "");
    hear(script, Name::Exited, 0, "");
    script.due.push(BROKEN_DUE);
}

// More waits to be sent than lets a script be started, and a body goes on though nobody asked for it.
fn add_waiting(script: &mut Script) {
    hear(script, Name::Accept, 0, "");
    hear(
        script,
        Name::Client,
        0,
        r"GET /cgi-bin/hello HTTP/1.1\r\nHost: a\r\n\r\nPOST /cgi-bin/form HTTP/1.1\r\nHost: a\r\nContent-Length: 6\r\n\r\nx=",
    );
    hear(script, Name::Started, 0, "");
    hear(
        script,
        Name::OutFill,
        0,
        r"262144 Content-Type: text/plain\n\n",
    );
    hear(script, Name::OutEnd, 0, "");
    hear(script, Name::Exited, 0, "");
    hear(script, Name::Client, 0, "12");
    script.mark();
    hear(script, Name::Wrote, 0, "262144");
    hear(script, Name::Started, 1, "");
    hear(script, Name::Client, 0, "34");
    hear(script, Name::Took, 1, "4");
}

const WAITING_DUE: &str =
    "--\nStart 1 1 0 /srv/cgi/form\nWantClient\nFeed 1 4\nWantChild 1\nFeed 1 2\nEndInput 1\n";

// Says where that doesn't end as it must, with the whole body fed.
fn judge_waiting(alloc: Global, site: &Site, script: Script, said: &mut Parts)
    requires { IsServed site.now }
{
    let out = played(alloc, site, script, None);
    if !out.told.log.ends_with(WAITING_DUE) || !out.told.fed.has(b"x=1234") || out.told.is_lost() {
        said.push("waiting");
    }
}

#[derive(Clone, Copy)]
enum Long {
    Hops,
    Body,
    Ended,
    Broken,
    Waiting,
}

fn add_long(script: &mut Script, long: Long) {
    match long {
        Long::Hops => add_hops(script),
        Long::Body => add_body(script),
        Long::Ended => add_ended(script),
        Long::Broken => add_broken(script),
        Long::Waiting => add_waiting(script),
    }
}

// Says what is done, where it is not what is due.
fn judge_at(alloc: Global, site: &Site, long: Long, said: &mut Parts)
    requires { IsServed site.now }
{
    let mut script = Script::new(alloc, 0, false);
    add_long(&mut script, long);
    match long {
        Long::Waiting => judge_waiting(alloc, site, script, said),
        _ => judge(alloc, site, script, "a long row", said),
    }
}

fn judge_at_site(alloc: Global, long: Long, said: &mut Parts) {
    match read_site(alloc, SITE.as_bytes()) {
        Ok(site) => judge_at(alloc, &site, long, said),
        Err(_) => said.push("no site"),
    }
}

fn goes<R: Abort>(rt: &R, alloc: Global, long: Long) -> Result<(), Fail> {
    let mut said = Parts::new(alloc);
    judge_at_site(alloc, long, &mut said);
    are_right(rt, &said)
}

#[test]
fn long_rows_are_as_they_must_be(rt: HostRuntime) -> Result<(), Fail> {
    goes(&rt, rt.alloc(), Long::Hops)?;
    goes(&rt, rt.alloc(), Long::Body)
}

#[test]
fn long_outputs_are_written_as_they_come(rt: HostRuntime) -> Result<(), Fail> {
    goes(&rt, rt.alloc(), Long::Ended)?;
    goes(&rt, rt.alloc(), Long::Broken)
}

#[test]
fn a_body_goes_on_while_its_start_waits(rt: HostRuntime) -> Result<(), Fail> {
    goes(&rt, rt.alloc(), Long::Waiting)
}
