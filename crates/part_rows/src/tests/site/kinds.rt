// Each key with a value of each kind but its own.
use super::super::tables::{is, joined, parts_of, shown};
use super::lines::{file_of, is_said, said};
use host_base::NoMemory;
use std::alloc::Global;
use std::process::Abort;
use std::test::Fail;

// Each key with its kind, and a file in which `?` stands for its value.
const KEYS: &str = r#"version: integer: version = ? | script = [{ path = "/s", program = "/p" }]
name: text: version = 1 | name = ? | script = [{ path = "/s", program = "/p" }]
listen: text: version = 1 | listen = ? | script = [{ path = "/s", program = "/p" }]
port: integer: version = 1 | port = ? | script = [{ path = "/s", program = "/p" }]
root: text: version = 1 | root = ? | script = [{ path = "/s", program = "/p" }]
limits: table: version = 1 | limits = ? | script = [{ path = "/s", program = "/p" }]
limits.head: integer: version = 1 | limits.head = ? | script = [{ path = "/s", program = "/p" }]
limits.target: integer: version = 1 | limits.target = ? | script = [{ path = "/s", program = "/p" }]
limits.body: integer: version = 1 | limits.body = ? | script = [{ path = "/s", program = "/p" }]
limits.output: integer: version = 1 | limits.output = ? | script = [{ path = "/s", program = "/p" }]
limits.run_ticks: integer: version = 1 | limits.run_ticks = ? | script = [{ path = "/s", program = "/p" }]
limits.idle_ticks: integer: version = 1 | limits.idle_ticks = ? | script = [{ path = "/s", program = "/p" }]
limits.linger_ticks: integer: version = 1 | limits.linger_ticks = ? | script = [{ path = "/s", program = "/p" }]
limits.redirects: integer: version = 1 | limits.redirects = ? | script = [{ path = "/s", program = "/p" }]
limits.connections: integer: version = 1 | limits.connections = ? | script = [{ path = "/s", program = "/p" }]
limits.children: integer: version = 1 | limits.children = ? | script = [{ path = "/s", program = "/p" }]
limits.ws_text: integer: version = 1 | limits.ws_text = ? | script = [{ path = "/s", program = "/p" }]
script: array: version = 1 | script = ?
script[0].path: text: version = 1 | script = [{ path = ?, program = "/p" }]
script[0].program: text: version = 1 | script = [{ path = "/s", program = ? }]
script[0].kind: text: version = 1 | script = [{ path = "/s", program = "/p", kind = ? }]
script[0].origins: array: version = 1 | script = [{ path = "/s", program = "/p", kind = "websocket", origins = ? }]
host: array: version = 2 | host = ?
host[0].name: text: version = 2 | host = [{ name = ?, script = [{ path = "/s", program = "/p" }] }]
host[0].aliases: array: version = 2 | host = [{ name = "a", aliases = ?, script = [{ path = "/s", program = "/p" }] }]
host[0].any: Boolean: version = 2 | host = [{ name = "a", any = ?, script = [{ path = "/s", program = "/p" }] }]
host[0].root: text: version = 2 | host = [{ name = "a", root = ?, script = [{ path = "/s", program = "/p" }] }]
host[0].script: array: version = 2 | host = [{ name = "a", script = ? }]
host[0].script[0].path: text: version = 2 | host = [{ name = "a", script = [{ path = ?, program = "/p" }] }]
host[0].script[0].program: text: version = 2 | host = [{ name = "a", script = [{ path = "/s", program = ? }] }]
host[0].script[0].kind: text: version = 2 | host = [{ name = "a", script = [{ path = "/s", program = "/p", kind = ? }] }]
host[0].script[0].origins: array: version = 2 | host = [{ name = "a", script = [{ path = "/s", program = "/p", kind = "websocket", origins = ? }] }]
host[0].documents: array: version = 2 | host = [{ name = "a", script = [{ path = "/s", program = "/p" }], documents = ? }]
host[0].documents[0].path: text: version = 2 | host = [{ name = "a", documents = [{ path = ? }] }]
host[0].documents[0].root: text: version = 2 | host = [{ name = "a", documents = [{ path = "/d", root = ? }] }]
host[0].documents[0].types: table: version = 2 | host = [{ name = "a", documents = [{ path = "/d", types = ? }] }]
host[0].documents[0].types.txt: text: version = 2 | host = [{ name = "a", documents = [{ path = "/d", types = { txt = ? } }] }]
"#;

// The kinds with values.
const VALUES: &str = r#"text: "a"
integer: 1
float: 1.0
float: inf
Boolean: true
date: 2020-01-01
date: 07:32:00
date: 1979-05-27T07:32:00Z
array: []
table: {}
"#;

// What a file says with a value in place of its `?`.
fn said_with(alloc: Global, file: &str, value: &str) -> Result<Vec<u8>, NoMemory> {
    let (before, after) = parts_of(file, "?");
    let line = joined(
        alloc,
        &[before.as_bytes(), value.as_bytes(), after.as_bytes()],
    )?;
    let text = file_of(alloc, "", shown(line.as_slice()), "")?;
    said(alloc, text.as_slice())
}

// A value of another kind than a key's is refused in a file.
fn is_wrong_kind<R: Abort>(
    rt: &R,
    alloc: Global,
    key: &str,
    file: &str,
    value: &str,
) -> Result<(), NoMemory> {
    let want = joined(alloc, &[b"wrong kind ", key.as_bytes()])?;
    let given = said_with(alloc, file, value)?;
    is_said(rt, given.as_slice(), shown(want.as_slice()), value);
    Ok(())
}

fn is_other_kind<R: Abort>(
    rt: &R,
    alloc: Global,
    (key, kind, file): (&str, &str, &str),
    row: &str,
) -> Result<(), NoMemory> {
    let (other, value) = parts_of(row, ": ");
    if is(other.as_bytes(), kind.as_bytes()) {
        return Ok(());
    }
    is_wrong_kind(rt, alloc, key, file, value)
}

fn are_other_kinds<R: Abort>(
    rt: &R,
    alloc: Global,
    key: (&str, &str, &str),
    values: &str,
) -> Result<(), NoMemory> {
    for value in values.lines() {
        is_other_kind(rt, alloc, key, value)?;
    }
    Ok(())
}

fn wrong_kinds<R: Abort>(rt: &R, alloc: Global, row: &str) -> Result<(), NoMemory> {
    let (key, rest) = parts_of(row, ": ");
    let (kind, file) = parts_of(rest, ": ");
    are_other_kinds(rt, alloc, (key, kind, file), VALUES)
}

fn are_wanted<R: Abort>(rt: &R, alloc: Global, keys: &str) -> Result<(), NoMemory> {
    for row in keys.lines() {
        wrong_kinds(rt, alloc, row)?;
    }
    Ok(())
}

#[test]
fn kinds_are_wanted(rt: HostRuntime) -> Result<(), Fail> {
    are_wanted(&rt, rt.alloc(), KEYS)?;
    Ok(())
}
