// What a client is answered.
use doc_files::{DocFile, MemoryDocs};
use doc_run::run_docs;
use doc_world::{DocWorld, Given};
use host_base::{Bytes, NoMemory, Peer, Sequence, Text};
use host_run::Status;
use host_trace::{Act, Event, Events, Item};
use memory_world::{MemoryOutside, MemorySink, MemoryStore, MemoryWorld, StoredFile};
use std::alloc::Global;
use std::process::Abort;
use std::test::Fail;
use std::thread::Threads;

// A folder of documents beside a script.
const SITE: &str = "version = 2

[[host]]
name = \"a\"
any = true

[[host.script]]
path = \"/s\"
program = \"/srv/cgi/s\"

[[host.documents]]
path = \"/d\"
root = \"/srv/d\"

[host.documents.types]
txt = \"text/plain\"
";

fn file(alloc: Global, path: &str, bytes: &[u8]) -> Result<DocFile, NoMemory> {
    Ok(DocFile {
        root: Text::copy_of(alloc, "/srv/d")?,
        path: Text::copy_of(alloc, path)?,
        bytes: Bytes::from_slice(alloc, bytes)?,
    })
}

fn docs(alloc: Global, fails: bool) -> Result<MemoryDocs, NoMemory> {
    let mut files = Sequence::new(alloc);
    files.push(file(alloc, "/a.txt", b"hello")?)?;
    files.push(file(alloc, "/e.txt", b"")?)?;
    files.push(file(alloc, "/index.html", b"index")?)?;
    Ok(MemoryDocs::new(files, fails))
}

fn store(alloc: Global) -> Result<MemoryStore, NoMemory> {
    let mut files = Vec::new(alloc);
    files.push(StoredFile {
        name: Text::copy_of(alloc, "site")?,
        bytes: Bytes::from_slice(alloc, SITE.as_bytes())?,
    })?;
    Ok(MemoryStore::new(files, Vec::new(alloc)))
}

// A world that hears one client.
fn world(alloc: Global, request: &str) -> Result<MemoryWorld, NoMemory> {
    let mut events = Events::new(alloc);
    events.push(Event::Accepted {
        peer: Peer(Text::copy_of(alloc, "192.0.2.1")?),
    })?;
    events.push(Event::ClientBytes {
        c: 0,
        bytes: Bytes::from_slice(alloc, request.as_bytes())?,
    })?;
    let mut outs = Vec::new(alloc);
    outs.push(MemoryOutside::new(alloc, events, Vec::new(alloc), 64, 64)?)?;
    Ok(MemoryWorld::new(alloc, outs))
}

// What was written for the client.
fn written(alloc: Global, given: &[Given]) -> Result<Bytes, NoMemory> {
    let mut all = Bytes::new(alloc);
    for trace in given {
        for item in trace.items.as_slice() {
            if let Item::Out(Act::Write { bytes, .. }) = item {
                all.extend_from_slice(bytes.as_slice())?;
            }
        }
    }
    Ok(all)
}

// Whether the run was told whole and ended as it should, and what the client was answered.
fn answer<R: Threads + Sync>(
    rt: &R,
    alloc: Global,
    request: &str,
    fails: bool,
) -> Result<(bool, Bytes, u64), NoMemory> {
    let mut words = Vec::new(alloc);
    words.push("once".to_string(alloc)?)?;
    words.push("site".to_string(alloc)?)?;
    let mut world = DocWorld::new(alloc, world(alloc, request)?, docs(alloc, fails)?, 64);
    let mut store = store(alloc)?;
    let mut report = MemorySink::new(alloc, Vec::new(alloc));
    let status = run_docs(
        rt,
        alloc,
        words.as_slice(),
        &mut store,
        &mut report,
        &mut world,
    );
    let told = matches!(status, Status::Done) && world.tells() && world.given().len() == 1;
    Ok((told, written(alloc, world.given())?, world.docs.faults))
}

fn is_answered<R: Threads + Abort + Sync>(
    rt: &R,
    alloc: Global,
    request: &str,
    wanted: &str,
) -> Result<(), Fail> {
    let (told, bytes, faults) = answer(rt, alloc, request, false)?;
    assert!(rt; told, "{request}");
    assert_eq!(rt; bytes.as_slice(), wanted.as_bytes(), "{request}");
    assert_eq!(rt; faults, 0);
    Ok(())
}

const ROWS: [(&str, &str); 10] = [
    (
        "GET /d/a.txt HTTP/1.1\r\nHost: a\r\nConnection: close\r\n\r\n",
        "HTTP/1.1 200 OK\r\nContent-Type: text/plain\r\nAccept-Ranges: bytes\r\nContent-Length: 5\r\nConnection: close\r\n\r\nhello",
    ),
    (
        "GET /d/a.txt HTTP/1.1\r\nHost: a\r\nConnection: close\r\nRange: bytes=1-2\r\n\r\n",
        "HTTP/1.1 206 Partial Content\r\nContent-Type: text/plain\r\nContent-Range: bytes 1-2/5\r\nAccept-Ranges: bytes\r\nContent-Length: 2\r\nConnection: close\r\n\r\nel",
    ),
    (
        "GET /d/a.txt HTTP/1.1\r\nHost: a\r\nConnection: close\r\nRange: bytes=5-\r\n\r\n",
        "HTTP/1.1 416 Range Not Satisfiable\r\nContent-Range: bytes */5\r\nContent-Length: 0\r\nConnection: close\r\n\r\n",
    ),
    (
        "GET /d/a.txt HTTP/1.1\r\nHost: a\r\nConnection: close\r\nRange: bytes=1-2\r\nIf-Range: \"x\"\r\n\r\n",
        "HTTP/1.1 200 OK\r\nContent-Type: text/plain\r\nAccept-Ranges: bytes\r\nContent-Length: 5\r\nConnection: close\r\n\r\nhello",
    ),
    (
        "GET /d/a.txt HTTP/1.1\r\nHost: a\r\nConnection: close\r\nRange: bytes=0-0,2-3\r\n\r\n",
        "HTTP/1.1 200 OK\r\nContent-Type: text/plain\r\nAccept-Ranges: bytes\r\nContent-Length: 5\r\nConnection: close\r\n\r\nhello",
    ),
    (
        "GET /d/e.txt HTTP/1.1\r\nHost: a\r\nConnection: close\r\n\r\n",
        "HTTP/1.1 200 OK\r\nContent-Type: text/plain\r\nAccept-Ranges: bytes\r\nContent-Length: 0\r\nConnection: close\r\n\r\n",
    ),
    (
        "GET /d/e.txt HTTP/1.1\r\nHost: a\r\nConnection: close\r\nRange: bytes=0-\r\n\r\n",
        "HTTP/1.1 416 Range Not Satisfiable\r\nContent-Range: bytes */0\r\nContent-Length: 0\r\nConnection: close\r\n\r\n",
    ),
    (
        "GET /d/ HTTP/1.1\r\nHost: a\r\nConnection: close\r\n\r\n",
        "HTTP/1.1 200 OK\r\nContent-Type: application/octet-stream\r\nAccept-Ranges: bytes\r\nContent-Length: 5\r\nConnection: close\r\n\r\nindex",
    ),
    (
        "GET /d/none HTTP/1.1\r\nHost: a\r\nConnection: close\r\n\r\n",
        "HTTP/1.1 404 Not Found\r\nContent-Type: text/plain\r\nContent-Length: 12\r\nConnection: close\r\n\r\nno document\n",
    ),
    (
        "DELETE /d/a.txt HTTP/1.1\r\nHost: a\r\nConnection: close\r\n\r\n",
        "HTTP/1.1 405 Method Not Allowed\r\nAllow: GET, HEAD\r\nContent-Type: text/plain\r\nContent-Length: 19\r\nConnection: close\r\n\r\nmethod not allowed\n",
    ),
];

#[test]
fn documents_are_answered(rt: HostRuntime) -> Result<(), Fail> {
    let alloc = rt.alloc();
    for (request, wanted) in ROWS {
        is_answered(&rt, alloc, request, wanted)?;
    }
    let (told, bytes, faults) = answer(&rt, alloc, ROWS[0].0, true)?;
    assert!(rt; told);
    assert_eq!(rt;
        bytes.as_slice(),
        b"HTTP/1.1 502 Bad Gateway\r\nContent-Type: text/plain\r\nContent-Length: 28\r\nConnection: close\r\n\r\nscript could not be started\n".as_slice()
    );
    assert_eq!(rt; faults, 1);
    Ok(())
}
