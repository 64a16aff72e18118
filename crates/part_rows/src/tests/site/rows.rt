// Files that differ in a few keys, and what they say, by the tables of the format.
use super::super::tables::parts_of;
use super::lines::{file_of, is_said, said};
use host_base::NoMemory;
use std::alloc::Global;
use std::process::Abort;
use std::test::Fail;

// What a file says in which a line stands between two texts.
fn said_of(alloc: Global, before: &str, line: &str, after: &str) -> Result<Vec<u8>, NoMemory> {
    let text = file_of(alloc, before, line, after)?;
    said(alloc, text.as_slice())
}

// A row has what stands in a file between two texts, and what it says.
fn check_row<R: Abort>(
    rt: &R,
    alloc: Global,
    before: &str,
    row: &str,
    after: &str,
) -> Result<(), NoMemory> {
    let (line, want) = parts_of(row, " => ");
    is_said(
        rt,
        said_of(alloc, before, line, after)?.as_slice(),
        want,
        line,
    );
    Ok(())
}

fn check<R: Abort + AllocGlobal>(
    rt: &R,
    before: &str,
    rows: &str,
    after: &str,
) -> Result<(), Fail> {
    let alloc = rt.alloc();
    for row in rows.lines() {
        check_row(rt, alloc, before, row, after)?;
    }
    Ok(())
}

const SCRIPT: &str = r#"[[script]]
path = "/s"
program = "/bin/cat"
"#;

const FIRST: &str = "version = 1\n";

const SECOND: &str = "version = 2\n";

const VERSIONS: &str = r#"name = "a" => missing version
version = 0 => out of range version
version = 3 => out of range version
version = -1 => out of range version
version = 9223372036854775807 => out of range version
version = 9223372036854775808 => not TOML
version = -9223372036854775808 => out of range version
version = -9223372036854775809 => not TOML
version = 1 | version = 1 => not TOML
version = 1 => ok
version = 0x1 => ok
version = 2 => missing host
"#;

#[test]
fn versions_are_ranged(rt: HostRuntime) -> Result<(), Fail> {
    check(&rt, "", VERSIONS, SCRIPT)
}

static TOP: &str = r#"name = "" => out of range name
name = "a" => ok
name = "a:80" => out of range name
name = "a b" => out of range name
name = "[::1]" => ok
name = "%61" => ok
name = "%6" => out of range name
listen = "255.255.255.255" => ok
listen = "0.0.0.0" => ok
listen = "256.0.0.0" => out of range listen
listen = "0.0.0.256" => out of range listen
listen = "1.2.3" => out of range listen
listen = "1.2.3.4.5" => out of range listen
listen = "01.2.3.4" => out of range listen
listen = "1.2.3." => out of range listen
listen = "199.200.249.99" => ok
port = 0 => out of range port
port = 1 => ok
port = 65535 => ok
port = 65536 => out of range port
port = -9223372036854775808 => out of range port
port = 18446744073709551617 => not TOML
root = "" => out of range root
root = "/" => out of range root
root = "/a" => ok
root = "/a/" => out of range root
root = "a" => out of range root
root = "/a\u0000" => out of range root
limits = {} => ok
limits = { head = 1024, body = 0 } => ok
limits.head = 1024 | limits.body = 0 => ok
limits.head.x = 1 => wrong kind limits.head
limits = {} | limits.head = 1024 => not TOML
limits.head = 1024 | limits.head = 1024 => not TOML
other = 1 => unknown other
zeta = 1 | alpha = 1 => unknown alpha
zeta.alpha = 1 => unknown zeta
zeta = 1 | limits = { alpha = 1 } => unknown zeta
limits = { zeta = 1, alpha = 1 } => unknown limits.alpha
limits = { heads = 1, head = 0 } => out of range limits.head
host = [] => unknown host
zeta = 1 | port = 0 => out of range port
root = "/" | name = "" => out of range name
"#;

#[test]
fn top_keys_are_ranged(rt: HostRuntime) -> Result<(), Fail> {
    check(&rt, FIRST, TOP, SCRIPT)
}

// Each limit at both ends of its range, and one past them.
static LIMITS: &str = r#"limits.head = 1023 => out of range limits.head
limits.head = 1024 => ok
limits.head = 65536 => ok
limits.head = 65537 => out of range limits.head
limits.target = 63 => out of range limits.target
limits.target = 64 => ok
limits.target = 32000 => ok
limits.target = 32001 => out of range limits.target
limits.body = -1 => out of range limits.body
limits.body = 0 => ok
limits.body = 16777216 => ok
limits.body = 16777217 => out of range limits.body
limits.output = 8191 => out of range limits.output
limits.output = 8192 => ok
limits.output = 16777216 => ok
limits.output = 16777217 => out of range limits.output
limits.run_ticks = 0 => out of range limits.run_ticks
limits.run_ticks = 1 => ok
limits.run_ticks = 864000 => ok
limits.run_ticks = 864001 => out of range limits.run_ticks
limits.idle_ticks = 0 => out of range limits.idle_ticks
limits.idle_ticks = 1 => ok
limits.idle_ticks = 36000 => ok
limits.idle_ticks = 36001 => out of range limits.idle_ticks
limits.linger_ticks = 0 => out of range limits.linger_ticks
limits.linger_ticks = 1 => ok
limits.linger_ticks = 600 => ok
limits.linger_ticks = 601 => out of range limits.linger_ticks
limits.redirects = -1 => out of range limits.redirects
limits.redirects = 0 => ok
limits.redirects = 10 => ok
limits.redirects = 11 => out of range limits.redirects
limits.connections = 0 => out of range limits.connections
limits.connections = 1 => ok
limits.connections = 1024 => ok
limits.connections = 1025 => out of range limits.connections
limits.children = 0 => out of range limits.children
limits.children = 1 => ok
limits.children = 256 => ok
limits.children = 257 => out of range limits.children
limits.ws_text = 0 => out of range limits.ws_text
limits.ws_text = 1 => ok
limits.ws_text = 1048576 => ok
limits.ws_text = 1048577 => out of range limits.ws_text
"#;

#[test]
fn limits_are_ranged(rt: HostRuntime) -> Result<(), Fail> {
    check(&rt, FIRST, LIMITS, SCRIPT)
}

static SCRIPTS: &str = r#"port = 1 => missing script
script = [1] => wrong kind script
script = [{ path = "/s", program = "/p" }, 1] => wrong kind script
script = [] => out of range script
script = { path = "/s", program = "/p" } => wrong kind script
script = [{ path = "/s", program = "/p" }] => ok
script = [{ program = "/p" }] => missing script[0].path
script = [{ path = "/s" }] => missing script[0].program
script = [{}] => missing script[0].path
script = [{ path = "", program = "/p" }] => out of range script[0].path
script = [{ path = "/", program = "/p" }] => out of range script[0].path
script = [{ path = "/a//b", program = "/p" }] => out of range script[0].path
script = [{ path = "/a/.", program = "/p" }] => out of range script[0].path
script = [{ path = "/a/..", program = "/p" }] => out of range script[0].path
script = [{ path = "/a/", program = "/p" }] => out of range script[0].path
script = [{ path = "a", program = "/p" }] => out of range script[0].path
script = [{ path = "/a\u0000", program = "/p" }] => out of range script[0].path
script = [{ path = "/...", program = "/p" }] => ok
script = [{ path = "/s", program = "" }] => out of range script[0].program
script = [{ path = "/s", program = "p" }] => out of range script[0].program
script = [{ path = "/s", program = "/p/" }] => out of range script[0].program
script = [{ path = "/s", program = "/p\u0000" }] => out of range script[0].program
script = [{ path = "/s", program = "//p" }] => ok
script = [{ path = "/s", program = "/p", kind = "cgi" }] => ok
script = [{ path = "/s", program = "/p", kind = "nph" }] => ok
script = [{ path = "/s", program = "/p", kind = "websocket" }] => ok
script = [{ path = "/s", program = "/p", kind = "CGI" }] => out of range script[0].kind
script = [{ path = "/s", program = "/p", kind = "" }] => out of range script[0].kind
script = [{ path = "/s", program = "/p", origins = [] }] => unknown script[0].origins
script = [{ path = "/s", program = "/p", kind = "nph", origins = [] }] => unknown script[0].origins
script = [{ path = "/s", program = "/p", origins = 1 }] => unknown script[0].origins
script = [{ path = "/s", program = "/p", kind = "websocket", origins = [] }] => ok
script = [{ path = "/s", program = "/p", kind = "websocket", origins = ["a", ""] }] => ok
script = [{ path = "/s", program = "/p", kind = "websocket", origins = ["a", 1] }] => wrong kind script[0].origins
script = [{ path = "/s", program = "/p", y = 1, x = 1 }] => unknown script[0].x
script = [{ path = "/s", program = "/p", x = 1 }, { path = "s" }] => out of range script[1].path
script = [{ path = "/s", program = "/p" }, { path = "/t", program = "/p", y = 1, x = 1 }] => unknown script[1].x
limits.x = 1 | script = [{ path = "/s", program = "/p", x = 1 }] => unknown limits.x
script = [{ path = "/s", program = "/p", x = 1 }, { path = "/s", program = "/p" }] => unknown script[0].x
script = [{ path = "/s", program = "/p" }, { path = "/t", program = "/p" }, { path = "/t", program = "/q" }, { path = "/s", program = "/q" }] => double script /t
script = [{ path = "/s", program = "/p" }, { path = "/S", program = "/p" }] => ok
"#;

#[test]
fn scripts_are_ranged(rt: HostRuntime) -> Result<(), Fail> {
    check(&rt, FIRST, SCRIPTS, "")
}

static HOSTS: &str = r#"port = 1 => missing host
host = [] => out of range host
host = [1] => wrong kind host
name = "a" | host = [{ name = "a", script = [{ path = "/s", program = "/p" }] }] => unknown name
root = "/a" | host = [{ name = "a", script = [{ path = "/s", program = "/p" }] }] => unknown root
script = [{ path = "/s", program = "/p" }] | host = [{ name = "a", script = [{ path = "/s", program = "/p" }] }] => unknown script
host = [{ script = [{ path = "/s", program = "/p" }] }] => missing host[0].name
host = [{ name = "", script = [{ path = "/s", program = "/p" }] }] => out of range host[0].name
host = [{ name = "a:80", script = [{ path = "/s", program = "/p" }] }] => out of range host[0].name
host = [{ name = "a", root = "/", script = [{ path = "/s", program = "/p" }] }] => out of range host[0].root
host = [{ name = "a" }] => missing host[0].script
host = [{ name = "a", script = [] }] => out of range host[0].script
host = [{ name = "a", script = [1] }] => wrong kind host[0].script
host = [{ name = "a", script = [{}] }] => missing host[0].script[0].path
host = [{ name = "a", script = [{ path = "/s" }] }] => missing host[0].script[0].program
host = [{ name = "a", script = [{ path = "/s", program = "/p" }] }, { name = "b", script = [{ path = "/s", program = "/p" }, { path = "/t", program = "/p", kind = "x" }] }] => out of range host[1].script[1].kind
host = [{ name = "a", any = true, script = [{ path = "/s", program = "/p" }] }] => ok
host = [{ name = "a", aliases = ["b", ""], script = [{ path = "/s", program = "/p" }] }] => out of range host[0].aliases
host = [{ name = "a", aliases = ["b", 1], script = [{ path = "/s", program = "/p" }] }] => wrong kind host[0].aliases
host = [{ name = "a", aliases = [], script = [{ path = "/s", program = "/p" }] }] => ok
host = [{ name = "a", aliases = ["b", "A"], script = [{ path = "/s", program = "/p" }] }] => double host A
host = [{ name = "a", x = 1, script = [{ path = "/s", program = "/p", a = 1 }] }] => unknown host[0].x
host = [{ name = "a", y = 1, x = 1, script = [{ path = "/s", program = "/p" }] }] => unknown host[0].x
limits.x = 1 | host = [{ name = "a", x = 1, script = [{ path = "/s", program = "/p" }] }] => unknown limits.x
host = [{ name = "a", script = [{ path = "/s", program = "/p" }] }, { name = "A", script = [{ path = "/s", program = "/p" }] }] => double host A
host = [{ name = "a", aliases = ["c"], script = [{ path = "/s", program = "/p" }] }, { name = "b", aliases = ["C"], script = [{ path = "/s", program = "/p" }] }] => double host C
host = [{ name = "a", aliases = ["b"], script = [{ path = "/s", program = "/p" }] }, { name = "B", script = [{ path = "/s", program = "/p" }] }] => double host B
host = [{ name = "a", any = true, script = [{ path = "/s", program = "/p" }] }, { name = "b", any = true, script = [{ path = "/s", program = "/p" }] }] => double host b
host = [{ name = "a", any = true, script = [{ path = "/s", program = "/p" }] }, { name = "b", any = true, script = [{ path = "/s", program = "/p" }] }, { name = "a", script = [{ path = "/s", program = "/p" }] }] => double host a
host = [{ name = "a", script = [{ path = "/s", program = "/p" }, { path = "/s", program = "/p" }] }, { name = "a", script = [{ path = "/s", program = "/p" }] }] => double host a
host = [{ name = "a", script = [{ path = "/s", program = "/p" }] }, { name = "b", script = [{ path = "/s", program = "/p" }, { path = "/s", program = "/p" }] }] => double script /s
host = [{ name = "a", script = [{ path = "/s", program = "/p" }] }, { name = "b", script = [{ path = "/s", program = "/p" }] }] => ok
"#;

#[test]
fn hosts_are_ranged(rt: HostRuntime) -> Result<(), Fail> {
    check(&rt, SECOND, HOSTS, "")
}

// Keys of a host.
static DOCUMENTS: &str = r#"documents = [] => missing host[0].script
script = [{ path = "/s", program = "/p" }], documents = [] => ok
documents = [{ path = "/d" }] => ok
script = [{ path = "/s", program = "/p" }], documents = [1] => wrong kind host[0].documents
documents = [{}] => missing host[0].documents[0].path
documents = [{ path = "/" }] => out of range host[0].documents[0].path
documents = [{ path = "/d", root = "/" }] => out of range host[0].documents[0].root
documents = [{ path = "/d", types = {} }] => ok
documents = [{ path = "/d", types = { a1 = "!~" } }] => ok
documents = [{ path = "/d", types = { txt = "" } }] => out of range host[0].documents[0].types.txt
documents = [{ path = "/d", types = { txt = "a b" } }] => out of range host[0].documents[0].types.txt
documents = [{ path = "/d", types = { txt = "a\u007F" } }] => out of range host[0].documents[0].types.txt
documents = [{ path = "/d", types = { TXT = "text/plain" } }] => out of range host[0].documents[0].types.TXT
documents = [{ path = "/d", types = { "" = "text/plain" } }] => out of range host[0].documents[0].types.
documents = [{ path = "/d", types = { z = 1, b = "a b" } }] => out of range host[0].documents[0].types.b
documents = [{ path = "/d", types.txt = "text/plain" }] => ok
documents = [{ path = "/d", program = "/p" }] => unknown host[0].documents[0].program
documents = [{ path = "/d", y = 1, x = 1 }] => unknown host[0].documents[0].x
script = [{ path = "/s", program = "/p" }], documents = [{ path = "/s" }] => double script /s
documents = [{ path = "/d" }, { path = "/d" }] => double script /d
script = [{ path = "/s", program = "/p", a = 1 }], documents = [{ path = "/d", b = 1 }] => unknown host[0].script[0].a
script = [{ path = "/s", program = "/p" }], documents = [{ path = "/d", b = 1 }] => unknown host[0].documents[0].b
"#;

#[test]
fn documents_are_ranged(rt: HostRuntime) -> Result<(), Fail> {
    check(
        &rt,
        "version = 2\nhost = [{ name = \"a\", ",
        DOCUMENTS,
        "}]",
    )
}
