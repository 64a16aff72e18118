// Lists at their greatest lengths and one past them, and bytes that are no file at all.
use super::super::tables::{joined, push, repeated, shown};
use super::lines::{is_same, outcome, said};
use host_base::NoMemory;
use std::alloc::Global;
use std::process::Abort;
use std::test::Fail;

// A list in a file: what stands before it, each entry round its number, and what stands behind.
struct Listed {
    before: &'static str,
    entry: (&'static str, &'static str),
    after: &'static str,
}

fn file_of(alloc: Global, listed: &Listed, count: u32) -> Result<Vec<u8>, NoMemory> {
    let mut text = Vec::new(alloc);
    push(&mut text, listed.before.as_bytes())?;
    push_entries(alloc, &mut text, listed.entry, count)?;
    push(&mut text, listed.after.as_bytes())?;
    Ok(text)
}

fn push_entry(
    alloc: Global,
    text: &mut Vec<u8>,
    (front, back): (&str, &str),
    index: u32,
) -> Result<(), NoMemory> {
    push(text, front.as_bytes())?;
    push(text, format!(in alloc; "{index}")?.as_bytes())?;
    push(text, back.as_bytes())
}

fn push_entries(
    alloc: Global,
    text: &mut Vec<u8>,
    entry: (&str, &str),
    count: u32,
) -> Result<(), NoMemory> {
    for index in 0..count {
        push_entry(alloc, text, entry, index)?;
    }
    Ok(())
}

fn said_with(alloc: Global, listed: &Listed, count: u32) -> Result<Vec<u8>, NoMemory> {
    let text = file_of(alloc, listed, count)?;
    said(alloc, text.as_slice())
}

// A file with so many entries says this.
fn says<R: Abort>(
    rt: &R,
    alloc: Global,
    listed: &Listed,
    count: u32,
    want: &str,
) -> Result<(), NoMemory> {
    let given = said_with(alloc, listed, count)?;
    assert_eq!(rt; shown(given.as_slice()), want, "{count}");
    Ok(())
}

fn out_of_range(alloc: Global, key: &str) -> Result<Vec<u8>, NoMemory> {
    joined(alloc, &[b"out of range ", key.as_bytes()])
}

// A list has at most so many entries; one more is out of the range of this key.
fn is_bounded<R: Abort + AllocGlobal>(
    rt: &R,
    most: u32,
    key: &str,
    listed: &Listed,
) -> Result<(), Fail> {
    let want = out_of_range(rt.alloc(), key)?;
    says(rt, rt.alloc(), listed, most, "ok")?;
    says(
        rt,
        rt.alloc(),
        listed,
        most.saturating_add(1),
        shown(want.as_slice()),
    )?;
    Ok(())
}

static SCRIPTS: Listed = Listed {
    before: "version = 1\n",
    entry: ("[[script]]\npath = \"/s", "\"\nprogram = \"/p\"\n"),
    after: "",
};

static SCRIPTS_OF_A_HOST: Listed = Listed {
    before: "version = 2\n[[host]]\nname = \"a\"\n",
    entry: ("[[host.script]]\npath = \"/s", "\"\nprogram = \"/p\"\n"),
    after: "",
};

static ORIGINS: Listed = Listed {
    before: "version = 1\n[[script]]\npath = \"/s\"\nprogram = \"/p\"\nkind = \"websocket\"\norigins = [",
    entry: ("\"http://a", "\", "),
    after: "]\n",
};

static HOSTS: Listed = Listed {
    before: "version = 2\n",
    entry: (
        "[[host]]\nname = \"h",
        "\"\n[[host.script]]\npath = \"/s\"\nprogram = \"/p\"\n",
    ),
    after: "",
};

static ALIASES: Listed = Listed {
    before: "version = 2\n[[host]]\nname = \"a\"\naliases = [",
    entry: ("\"a", "\", "),
    after: "]\n[[host.script]]\npath = \"/s\"\nprogram = \"/p\"\n",
};

static DOCUMENTS: Listed = Listed {
    before: "version = 2\n[[host]]\nname = \"a\"\n",
    entry: ("[[host.documents]]\npath = \"/d", "\"\n"),
    after: "",
};

#[test]
fn lists_of_version_1_are_bounded(rt: HostRuntime) -> Result<(), Fail> {
    is_bounded(&rt, 256, "script", &SCRIPTS)?;
    is_bounded(&rt, 64, "script[0].origins", &ORIGINS)
}

#[test]
fn lists_of_version_2_are_bounded(rt: HostRuntime) -> Result<(), Fail> {
    is_bounded(&rt, 64, "host", &HOSTS)?;
    is_bounded(&rt, 64, "host[0].aliases", &ALIASES)?;
    is_bounded(&rt, 256, "host[0].script", &SCRIPTS_OF_A_HOST)?;
    is_bounded(&rt, 16, "host[0].documents", &DOCUMENTS)
}

const TYPE: &str = "version = 2\n[[host]]\nname = \"a\"\n[[host.documents]]\npath = \"/d\"\ntypes.";

fn said_of_type(alloc: Global, extension: &[u8], kind: &[u8]) -> Result<Vec<u8>, NoMemory> {
    let text = joined(
        alloc,
        &[TYPE.as_bytes(), extension, b" = \"", kind, b"\"\n"],
    )?;
    said(alloc, text.as_slice())
}

// What is said of a type that is taken, or not.
fn due_of_type(alloc: Global, extension: &[u8], is_taken: bool) -> Result<Vec<u8>, NoMemory> {
    if is_taken {
        joined(alloc, &[b"ok"])
    } else {
        joined(
            alloc,
            &[b"out of range host[0].documents[0].types.", extension],
        )
    }
}

// Whether an extension and a type of so many bytes are taken is said so.
fn is_type_said<R: Abort>(
    rt: &R,
    alloc: Global,
    extension: usize,
    kind: usize,
    is_taken: bool,
) -> Result<(), NoMemory> {
    let extension = repeated(alloc, b"", b"a", extension, b"")?;
    let kind = repeated(alloc, b"", b"b", kind, b"")?;
    let want = due_of_type(alloc, extension.as_slice(), is_taken)?;
    let given = said_of_type(alloc, extension.as_slice(), kind.as_slice())?;
    is_same(rt, given.as_slice(), shown(want.as_slice()));
    Ok(())
}

// An extension and a type have at most 100 bytes.
#[test]
fn types_are_bounded(rt: HostRuntime) -> Result<(), Fail> {
    for (extension, kind, is_taken) in [(100, 100, true), (101, 1, false), (1, 101, false)] {
        is_type_said(&rt, rt.alloc(), extension, kind, is_taken)?;
    }
    Ok(())
}

static NO_FILES: [(&[u8], &str); 6] = [
    (b"version = \xff", "not TOML"),
    (b"version = 1 # \xe4", "not TOML"),
    (b"", "missing version"),
    (b"version", "not TOML"),
    (b"version = 1\n[limits\n", "not TOML"),
    (b"x", "not TOML"),
];

#[test]
fn bytes_that_are_no_file(rt: HostRuntime) -> Result<(), Fail> {
    for (bytes, want) in &NO_FILES {
        is_same(&rt, outcome(rt.alloc(), bytes)?.as_slice(), want);
    }
    Ok(())
}
