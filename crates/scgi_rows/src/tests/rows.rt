// The rows.
ghost use Rattle.host_base.specs.SiteRules.{IsServed};

use super::play::{Comes, play};
use host_base::{Bytes, NoMemory, Site};
use site_file::read_site;
use std::alloc::Global;
use std::test::Fail;

const SITE: &str = "version = 1
[limits]
idle_ticks = 2
run_ticks = 3
linger_ticks = 2

[[script]]
path = \"/cgi-bin/hello\"
program = \"/srv/cgi/hello\"

[[script]]
path = \"/nph\"
program = \"/srv/cgi/nph\"
kind = \"nph\"
";

const HELLO: &[u8] =
    b"70:CONTENT_LENGTH\x000\x00SCGI\x001\x00REQUEST_METHOD\x00GET\x00SCRIPT_NAME\x00/cgi-bin/hello\x00,";

const HELLO_BY_URI: &[u8] =
    b"77:CONTENT_LENGTH\x000\x00SCGI\x001\x00REQUEST_METHOD\x00GET\x00REQUEST_URI\x00/x/../cgi-bin/hello?q\x00,";

const FORM: &[u8] =
    b"71:CONTENT_LENGTH\x003\x00SCGI\x001\x00REQUEST_METHOD\x00POST\x00SCRIPT_NAME\x00/cgi-bin/hello\x00,abc";

const MISSING: &[u8] =
    b"69:CONTENT_LENGTH\x000\x00SCGI\x001\x00REQUEST_METHOD\x00GET\x00SCRIPT_NAME\x00/cgi-bin/none\x00,";

const OUTPUT: &[u8] = b"Content-Type: text/plain\n\nhi\n";

const BAD: &str = "Status: 400 Bad Request\r\nContent-Type: text/plain\r\n\r\nbad scgi request\n";

// A row: what comes, what is written, and what is done after the client was asked for the first time.
#[derive(Clone, Copy)]
struct Row {
    name: &'static str,
    comes: &'static [Comes],
    written: &'static str,
    done: &'static str,
    // Its slot is needed at the end.
    held: bool,
}

const ROWS: &[Row] = &[
    Row {
        name: "a script answers",
        comes: &[
            Comes::Client(HELLO),
            Comes::Started,
            Comes::Output(OUTPUT),
            Comes::OutputEnds,
            Comes::Exits,
        ],
        written: "Content-Type: text/plain\n\nhi\n",
        done: "Start /srv/cgi/hello\nEndInput\nWantChild\nWantChild\nWrite\nShut Done\n",
        held: false,
    },
    Row {
        name: "by its REQUEST_URI",
        comes: &[
            Comes::Client(HELLO_BY_URI),
            Comes::Started,
            Comes::Output(OUTPUT),
            Comes::OutputEnds,
        ],
        written: "Content-Type: text/plain\n\nhi\n",
        done: "Start /srv/cgi/hello\nEndInput\nWantChild\nWantChild\nWrite\nShut Done\n",
        held: true,
    },
    Row {
        name: "a body is fed",
        comes: &[
            Comes::Client(FORM),
            Comes::Started,
            Comes::Took(3),
            Comes::OutputEnds,
        ],
        written: "Status: 502 Bad Gateway\r\nContent-Type: text/plain\r\n\r\nscript gave no output\n",
        done: "Start /srv/cgi/hello\nFeed\nEndInput\nWantChild\nWrite\nShut Done\n",
        held: true,
    },
    Row {
        name: "no request",
        comes: &[Comes::Client(b"x")],
        written: BAD,
        done: "Write\nShut Done\n",
        held: false,
    },
    Row {
        name: "no script",
        comes: &[Comes::Client(MISSING)],
        written: "Status: 404 Not Found\r\nContent-Type: text/plain\r\n\r\nno script for this path\n",
        done: "Write\nShut Done\n",
        held: false,
    },
    Row {
        name: "nothing is sent",
        comes: &[Comes::ClientEnds],
        written: "",
        done: "Shut Done\n",
        held: false,
    },
    Row {
        name: "nothing is sent for the idle time",
        comes: &[Comes::Tick, Comes::Tick],
        written: "",
        done: "Shut Idle\n",
        held: false,
    },
    Row {
        name: "it ends within the request",
        comes: &[Comes::Client(b"7"), Comes::ClientEnds],
        written: "Status: 400 Bad Request\r\nContent-Type: text/plain\r\n\r\nrequest ended early\n",
        done: "WantClient\nWrite\nShut Done\n",
        held: false,
    },
    Row {
        name: "the idle time counts anew with each byte",
        comes: &[Comes::Tick, Comes::Client(b"7"), Comes::Tick, Comes::Tick],
        written: "Status: 408 Request Timeout\r\nContent-Type: text/plain\r\n\r\nrequest took too long\n",
        done: "WantClient\nWrite\nShut Done\n",
        held: false,
    },
    Row {
        name: "a script takes too long",
        comes: &[
            Comes::Client(HELLO),
            Comes::Started,
            Comes::Output(OUTPUT),
            Comes::Tick,
            Comes::Tick,
            Comes::Tick,
            Comes::Exits,
        ],
        written: "Status: 504 Gateway Timeout\r\nContent-Type: text/plain\r\n\r\nscript took too long\n",
        done: "Start /srv/cgi/hello\nEndInput\nWantChild\nWantChild\nWrite\nKill\nShut Done\nRelease\n",
        held: false,
    },
    Row {
        name: "a script can't be started",
        comes: &[Comes::Client(HELLO), Comes::StartFails],
        written: "Status: 502 Bad Gateway\r\nContent-Type: text/plain\r\n\r\nscript could not be started\n",
        done: "Start /srv/cgi/hello\nWrite\nShut Done\n",
        held: false,
    },
    Row {
        name: "its output breaks",
        comes: &[
            Comes::Client(HELLO),
            Comes::Started,
            Comes::Output(OUTPUT),
            Comes::OutputBreaks,
        ],
        written: "Status: 502 Bad Gateway\r\nContent-Type: text/plain\r\n\r\nscript output broken\n",
        done: "Start /srv/cgi/hello\nEndInput\nWantChild\nWantChild\nWrite\nKill\nShut Done\n",
        held: true,
    },
    Row {
        name: "the server ends",
        comes: &[
            Comes::Client(HELLO),
            Comes::Started,
            Comes::Stop,
            Comes::Exits,
        ],
        written: "",
        done: "Start /srv/cgi/hello\nEndInput\nWantChild\nKill\nShut Stopped\nRelease\n",
        held: false,
    },
    Row {
        name: "the server ends before anything is sent",
        comes: &[Comes::Stop],
        written: "",
        done: "Shut Stopped\n",
        held: false,
    },
    Row {
        name: "the client is gone",
        comes: &[
            Comes::Client(HELLO),
            Comes::Started,
            Comes::ClientIsGone,
            Comes::Exits,
        ],
        written: "",
        done: "Start /srv/cgi/hello\nEndInput\nWantChild\nKill\nShut Gone\nRelease\n",
        held: false,
    },
    Row {
        name: "no memory is found to hear it",
        comes: &[Comes::Client(b"7"), Comes::NoRoom],
        written: "",
        done: "WantClient\nShut NoMemory\n",
        held: false,
    },
    Row {
        name: "a script lingers",
        comes: &[
            Comes::Client(HELLO),
            Comes::Started,
            Comes::Output(OUTPUT),
            Comes::OutputEnds,
            Comes::Tick,
            Comes::Tick,
        ],
        written: "Content-Type: text/plain\n\nhi\n",
        done: "Start /srv/cgi/hello\nEndInput\nWantChild\nWantChild\nWrite\nShut Done\nKill\n",
        held: true,
    },
];

// One of those acts that carry something finds no room.
struct Short {
    comes: &'static [Comes],
    refused: u32,
    done: &'static str,
}

const SHORT: &[Short] = &[
    Short {
        comes: &[Comes::Client(HELLO)],
        refused: 0,
        done: "no room\nShut NoMemory\n",
    },
    Short {
        comes: &[Comes::Client(b"x")],
        refused: 0,
        done: "no room\nShut NoMemory\n",
    },
    Short {
        comes: &[Comes::Client(FORM), Comes::Started],
        refused: 1,
        done: "Start /srv/cgi/hello\nno room\nEndInput\nKill\nShut NoMemory\n",
    },
    Short {
        comes: &[
            Comes::Client(HELLO),
            Comes::Started,
            Comes::Output(OUTPUT),
            Comes::OutputEnds,
            Comes::Exits,
        ],
        refused: 1,
        done: "Start /srv/cgi/hello\nEndInput\nWantChild\nWantChild\nno room\nKill\nShut NoMemory\n",
    },
];

// What is done, without the question with which each connection begins.
fn behind_first(log: &[u8]) -> &[u8] {
    log.strip_prefix(b"WantClient\n".as_slice()).unwrap_or(log)
}

// The row does what is due, whole or in single bytes.
fn is_right(alloc: Global, site: &Site, row: &Row, single: bool) -> Result<bool, NoMemory>
    requires { IsServed site.now }
{
    let (out, held) = play(alloc, site, row.comes, single, None)?;
    let done = if single {
        ends_with(out.log.as_slice(), last_of(row.done))
    } else {
        behind_first(out.log.as_slice()) == row.done.as_bytes()
    };
    Ok(done && out.written.as_slice() == row.written.as_bytes() && held == row.held)
}

// The line that ends a text, which a row in single bytes ends with too.
fn last_of(text: &'static str) -> &'static [u8] {
    let bytes = text.as_bytes();
    let body = bytes.strip_suffix(b"\n".as_slice()).unwrap_or(bytes);
    match body.iter().rposition(|byte| *byte == b'\n') {
        Some(at) => bytes.get(at..).unwrap_or(bytes),
        None => bytes,
    }
}

fn ends_with(log: &[u8], end: &[u8]) -> bool {
    log.ends_with(end)
}

// The names of the rows that do otherwise.
fn wrong_rows(alloc: Global, site: &Site) -> Result<Bytes, NoMemory>
    requires { IsServed site.now }
{
    let mut wrong = Bytes::new(alloc);
    for row in ROWS {
        let whole = is_right(alloc, site, row, false)?;
        let single = is_right(alloc, site, row, true)?;
        if !whole || !single {
            wrong.extend_from_slice(row.name.as_bytes())?;
            wrong.extend_from_slice(b"\n")?;
        }
    }
    Ok(wrong)
}

fn wrong_at_site(alloc: Global) -> Result<Bytes, NoMemory> {
    match read_site(alloc, SITE.as_bytes()) {
        Ok(site) => wrong_rows(alloc, &site),
        Err(_) => Bytes::from_slice(alloc, b"no site"),
    }
}

#[test]
fn rows(rt: HostRuntime) -> Result<(), Fail> {
    let wrong = wrong_at_site(rt.alloc())?;
    assert_eq!(rt; wrong.as_slice(), b"".as_slice());
    Ok(())
}

fn short_rows(alloc: Global, site: &Site) -> Result<bool, NoMemory>
    requires { IsServed site.now }
{
    for row in SHORT {
        let (out, _) = play(alloc, site, row.comes, false, Some(row.refused))?;
        if behind_first(out.log.as_slice()) != row.done.as_bytes() || !out.written.is_empty() {
            return Ok(false);
        }
    }
    Ok(true)
}

fn short_at_site(alloc: Global) -> Result<bool, NoMemory> {
    match read_site(alloc, SITE.as_bytes()) {
        Ok(site) => short_rows(alloc, &site),
        Err(_) => Ok(false),
    }
}

#[test]
fn without_room(rt: HostRuntime) -> Result<(), Fail> {
    let right = short_at_site(rt.alloc())?;
    assert!(rt; right);
    Ok(())
}

// What the script of a row is started with, and what it is fed.
fn started(alloc: Global, comes: &[Comes]) -> Result<(Bytes, Bytes), NoMemory> {
    match read_site(alloc, SITE.as_bytes()) {
        Ok(site) => {
            let (out, _) = play(alloc, &site, comes, false, None)?;
            Ok((out.env, out.fed))
        }
        Err(_) => Ok((Bytes::new(alloc), Bytes::new(alloc))),
    }
}

#[test]
fn environments(rt: HostRuntime) -> Result<(), Fail> {
    let (env, fed) = started(rt.alloc(), &[Comes::Client(HELLO)])?;
    assert_eq!(rt;
        env.as_slice(),
        b"CONTENT_LENGTH=0\nREQUEST_METHOD=GET\nGATEWAY_INTERFACE=CGI/1.1\nSCRIPT_NAME=/cgi-bin/hello\n".as_slice()
    );
    assert_eq!(rt; fed.as_slice(), b"".as_slice());
    let (env, _) = started(rt.alloc(), &[Comes::Client(HELLO_BY_URI)])?;
    assert_eq!(rt;
        env.as_slice(),
        b"CONTENT_LENGTH=0\nREQUEST_METHOD=GET\nREQUEST_URI=/x/../cgi-bin/hello?q\nGATEWAY_INTERFACE=CGI/1.1\nSCRIPT_NAME=/cgi-bin/hello\n".as_slice()
    );
    let (_, fed) = started(rt.alloc(), &[Comes::Client(FORM), Comes::Started])?;
    assert_eq!(rt; fed.as_slice(), b"abc".as_slice());
    Ok(())
}
