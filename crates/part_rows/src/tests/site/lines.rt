// What a file says, as one line.
use super::super::tables::{joined, push, shown};
use host_base::{DocRoot, NoMemory, Pair, Script, ScriptKind, Site, Text, VHost};
use site_file::{SiteFault, read_site};
use std::alloc::Global;
use std::process::Abort;

// Adds two texts.
fn push_both(out: &mut Vec<u8>, one: &str, other: &str) -> Result<(), NoMemory> {
    push(out, one.as_bytes())?;
    push(out, other.as_bytes())
}

fn fault_word(fault: &SiteFault) -> &'static str {
    match fault {
        SiteFault::NotToml => "not TOML",
        SiteFault::Missing(_) => "missing ",
        SiteFault::WrongKind(_) => "wrong kind ",
        SiteFault::OutOfRange(_) => "out of range ",
        SiteFault::Unknown(_) => "unknown ",
        SiteFault::DoubleHost(_) => "double host ",
        SiteFault::DoubleScript(_) => "double script ",
        SiteFault::NoMemory => "no memory",
    }
}

// The key, name or path that a fault is of, or nothing.
fn fault_place(fault: &SiteFault) -> &str {
    match fault {
        SiteFault::Missing(key)
        | SiteFault::WrongKind(key)
        | SiteFault::OutOfRange(key)
        | SiteFault::Unknown(key)
        | SiteFault::DoubleHost(key)
        | SiteFault::DoubleScript(key) => key.as_str(),
        SiteFault::NotToml | SiteFault::NoMemory => "",
    }
}

/// A fault as the program says it.
pub fn words_of(alloc: Global, fault: &SiteFault) -> Result<Vec<u8>, NoMemory> {
    let mut words = Vec::new(alloc);
    push_both(&mut words, fault_word(fault), fault_place(fault))?;
    Ok(words)
}

fn add_texts(out: &mut Vec<u8>, mark: &str, texts: &[Text]) -> Result<(), NoMemory> {
    for text in texts {
        push_both(out, mark, text.as_str())?;
    }
    Ok(())
}

fn kind_mark(kind: ScriptKind) -> &'static str {
    match kind {
        ScriptKind::Cgi => "=",
        ScriptKind::Nph => "=nph:",
        ScriptKind::WebSocket => "=websocket:",
    }
}

fn add_script(out: &mut Vec<u8>, script: &Script) -> Result<(), NoMemory> {
    push_both(out, " ", script.path.as_str())?;
    push_both(out, kind_mark(script.kind), script.program.as_str())?;
    match &script.origins {
        Some(origins) => add_texts(out, "<", origins.as_slice()),
        None => Ok(()),
    }
}

fn add_scripts(out: &mut Vec<u8>, scripts: &[Script]) -> Result<(), NoMemory> {
    for script in scripts {
        add_script(out, script)?;
    }
    Ok(())
}

fn add_host(out: &mut Vec<u8>, host: &VHost) -> Result<(), NoMemory> {
    push_both(out, "; ", host.name.as_str())?;
    add_texts(out, ",", host.aliases.as_slice())?;
    push_both(out, if host.any { "* " } else { " " }, host.root.as_str())?;
    add_scripts(out, host.scripts.as_slice())
}

fn add_hosts(out: &mut Vec<u8>, hosts: &[VHost]) -> Result<(), NoMemory> {
    for host in hosts {
        add_host(out, host)?;
    }
    Ok(())
}

fn add_type(out: &mut Vec<u8>, pair: &Pair) -> Result<(), NoMemory> {
    push_both(out, " ", pair.name.as_str())?;
    push_both(out, "=", pair.value.as_str())
}

fn add_folder(out: &mut Vec<u8>, folder: &DocRoot) -> Result<(), NoMemory> {
    push_both(out, "; docs ", folder.root.as_str())?;
    for pair in folder.types.as_slice() {
        add_type(out, pair)?;
    }
    Ok(())
}

fn add_folders(out: &mut Vec<u8>, folders: &[DocRoot]) -> Result<(), NoMemory> {
    for folder in folders {
        add_folder(out, folder)?;
    }
    Ok(())
}

fn add_address(alloc: Global, out: &mut Vec<u8>, site: &Site) -> Result<(), NoMemory> {
    let port = site.port;
    push_both(
        out,
        site.listen.as_str(),
        format!(in alloc; ":{port}")?.as_str(),
    )
}

/// A site in one line: the address, the hosts with their scripts, the folders of documents.
pub fn line_of(alloc: Global, site: &Site) -> Result<Vec<u8>, NoMemory> {
    let mut out = Vec::new(alloc);
    add_address(alloc, &mut out, site)?;
    add_hosts(&mut out, site.hosts.as_slice())?;
    add_folders(&mut out, site.docs.as_slice())?;
    Ok(out)
}

/// The site of a file, or its fault.
pub fn site_of(alloc: Global, bytes: &[u8]) -> Result<Site, SiteFault> {
    read_site(alloc, bytes)
}

/// A site or a fault in one line.
pub fn outcome_of(alloc: Global, given: &Result<Site, SiteFault>) -> Result<Vec<u8>, NoMemory> {
    match given {
        Ok(site) => line_of(alloc, site),
        Err(fault) => words_of(alloc, fault),
    }
}

/// The site or the fault of a file.
pub fn outcome(alloc: Global, bytes: &[u8]) -> Result<Vec<u8>, NoMemory> {
    outcome_of(alloc, &site_of(alloc, bytes))
}

fn said_of(alloc: Global, given: &Result<Site, SiteFault>) -> Result<Vec<u8>, NoMemory> {
    match given {
        Ok(_) => joined(alloc, &[b"ok"]),
        Err(fault) => words_of(alloc, fault),
    }
}

/// The fault of a file, or `ok` where it says a site.
pub fn said(alloc: Global, bytes: &[u8]) -> Result<Vec<u8>, NoMemory> {
    said_of(alloc, &site_of(alloc, bytes))
}

/// What is said is this.
pub fn is_same<R: Abort>(rt: &R, given: &[u8], want: &str) {
    assert_eq!(rt; shown(given), want);
}

/// What is said is this. A message names the case.
pub fn is_said<R: Abort>(rt: &R, given: &[u8], want: &str, case: &str) {
    assert_eq!(rt; shown(given), want, "at {case}");
}

fn push_lines(text: &mut Vec<u8>, row: &str) -> Result<(), NoMemory> {
    for line in row.split(" | ") {
        push_both(text, line, "\n")?;
    }
    Ok(())
}

/// The lines of a file, of which ` | ` stands between two.
pub fn file_of(alloc: Global, before: &str, row: &str, after: &str) -> Result<Vec<u8>, NoMemory> {
    let mut text = Vec::new(alloc);
    push(&mut text, before.as_bytes())?;
    push_lines(&mut text, row)?;
    push(&mut text, after.as_bytes())?;
    Ok(text)
}
