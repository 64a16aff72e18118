// The examples of the format, and how they are written.
use super::super::tables::shown;
use super::lines::{is_same, outcome, outcome_of, site_of};
use host_base::{NoMemory, Site, Text};
use site_file::{SiteFault, one_script, read_site, write_site};
use std::alloc::Global;
use std::process::Abort;
use std::test::Fail;

const EXAMPLE: &str = "version = 1
name = \"localhost\"
listen = \"127.0.0.1\"
port = 8080
root = \"/srv/www\"

[limits]
run_ticks = 600

[[script]]
path = \"/cgi-bin/hello\"
program = \"/srv/cgi/hello\"

[[script]]
path = \"/ws\"
program = \"/srv/cgi/lines\"
kind = \"websocket\"
origins = [\"http://example.com\"]
";

const SECOND: &str = "version = 2

[[host]]
name = \"a.example\"
aliases = [\"www.a.example\"]

[[host.script]]
path = \"/s\"
program = \"/srv/cgi/s\"

[[host.documents]]
path = \"/d\"
root = \"/srv/d\"

[host.documents.types]
txt = \"text/plain\"
html = \"text/html\"

[[host]]
name = \"b.example\"
any = true
root = \"/srv/b\"

[[host.documents]]
path = \"/t\"
";

// The keys that stand in the first example, and the defaults of all others.
#[test]
fn the_first_example_is_read(rt: HostRuntime) -> Result<(), Fail> {
    let want =
        "127.0.0.1:8080; localhost* /srv/www /cgi-bin/hello=/srv/cgi/hello /ws=websocket:/srv/cgi/lines<http://example.com";
    is_same(
        &rt,
        outcome(rt.alloc(), EXAMPLE.as_bytes())?.as_slice(),
        want,
    );
    Ok(())
}

fn has_defaults<R: Abort>(rt: &R, site: &Site) {
    assert_eq!(rt; (site.limits.run_ticks, site.limits.head), (600, 16_384));
}

#[test]
fn limits_have_defaults(rt: HostRuntime) -> Result<(), Fail> {
    match site_of(rt.alloc(), EXAMPLE.as_bytes()) {
        Ok(site) => has_defaults(&rt, &site),
        Err(_) => return Err("refused".into()),
    }
    Ok(())
}

#[test]
fn the_second_example_is_read(rt: HostRuntime) -> Result<(), Fail> {
    let want =
        "127.0.0.1:8080; a.example,www.a.example /srv/www /s=/srv/cgi/s /d=documents:0; b.example* /srv/b /t=documents:1; docs /srv/d html=text/html txt=text/plain; docs /srv/www";
    is_same(
        &rt,
        outcome(rt.alloc(), SECOND.as_bytes())?.as_slice(),
        want,
    );
    Ok(())
}

// The site of one script, or its fault.
fn one_said(alloc: Global, path: &str, program: &str) -> Result<Vec<u8>, NoMemory> {
    outcome_of(alloc, &site_of_one(alloc, path, program))
}

fn site_of_one(alloc: Global, path: &str, program: &str) -> Result<Site, SiteFault> {
    one_script(alloc, path, program)
}

static ONES: [(&str, &str, &str); 3] = [
    (
        "/s",
        "/bin/cat",
        "127.0.0.1:8080; localhost* /srv/www /s=/bin/cat",
    ),
    ("s", "cat", "out of range script[0].path"),
    ("/s", "/bin/", "out of range script[0].program"),
];

#[test]
fn one_script_is_a_site(rt: HostRuntime) -> Result<(), Fail> {
    for (path, program, want) in &ONES {
        is_same(&rt, one_said(rt.alloc(), path, program)?.as_slice(), want);
    }
    Ok(())
}

const WRITTEN: &str = "listen = \"127.0.0.1\"
port = 8080
version = 2

[[host]]
aliases = []
any = true
name = \"localhost\"
root = \"/srv/www\"

[[host.script]]
kind = \"cgi\"
path = \"/cgi-bin/hello\"
program = \"/srv/cgi/hello\"

[[host.script]]
kind = \"websocket\"
origins = [\"http://example.com\"]
path = \"/ws\"
program = \"/srv/cgi/lines\"

[limits]
body = 1048576
children = 64
connections = 256
head = 16384
idle_ticks = 150
linger_ticks = 20
output = 16777216
redirects = 10
run_ticks = 600
target = 8000
ws_text = 65536
";

// What is written of the site of a text.
fn written(alloc: Global, text: &str) -> Result<Text, Fail> {
    match read_site(alloc, text.as_bytes()) {
        Ok(site) => Ok(write_site(alloc, &site)?),
        Err(_) => Err("refused".into()),
    }
}

#[test]
fn sites_are_written(rt: HostRuntime) -> Result<(), Fail> {
    is_same(&rt, written(rt.alloc(), EXAMPLE)?.as_bytes(), WRITTEN);
    Ok(())
}

// What is written of the site of a text says what the text does.
fn reads_back<R: Abort>(rt: &R, alloc: Global, text: &str) -> Result<(), Fail> {
    let again = outcome(alloc, written(alloc, text)?.as_bytes())?;
    is_same(
        rt,
        again.as_slice(),
        shown(outcome(alloc, text.as_bytes())?.as_slice()),
    );
    Ok(())
}

#[test]
fn what_is_written_reads_back(rt: HostRuntime) -> Result<(), Fail> {
    for text in [EXAMPLE, SECOND] {
        reads_back(&rt, rt.alloc(), text)?;
    }
    Ok(())
}
