// What `explain` reports of requests over memory.
use super::drive::{Heard, is_done, report_with, runs_over, world_of};
use super::lines::{joined, shown, told};
use super::script::{is, single_bytes};
use super::texts::REQUEST;
use host_base::NoMemory;
use host_run::Status;
use memory_world::{MemorySink, MemoryStore, MemoryWorld};
use std::alloc::Global;
use std::test::Fail;
use std::thread::Threads;

const WORDS: [&str; 2] = ["explain", "/cgi-bin/hello=/srv/cgi/hello"];

// What came of a command: its status, its report and its world.
#[derive(Drop)]
struct Came {
    status: Status,
    report: MemorySink,
    world: MemoryWorld,
}

// Explains what is heard; the puts of these numbers fail.
fn came_of<R: Threads + Sync>(
    rt: &R,
    alloc: Global,
    heard: &[Heard],
    failing: &[u64],
) -> Result<Came, NoMemory> {
    let mut store = MemoryStore::new(Vec::new(alloc), Vec::new(alloc));
    let mut report = report_with(alloc, failing)?;
    let mut world = world_of(alloc, heard)?;
    let status = runs_over(rt, alloc, &WORDS, &mut store, &mut report, &mut world)?;
    Ok(Came {
        status,
        report,
        world,
    })
}

// Whether this is reported, and one trace is given back.
fn reports(came: &Came, text: &str) -> bool {
    is(shown(came.report.written()), text) && came.world.given().len() == 1
}

// .. and all is done.
fn is_explained(came: &Came, text: &str) -> bool {
    is_done(&came.status) && reports(came, text)
}

// Whether this is reported of what is heard.
fn explains<R: Threads + Sync>(
    rt: &R,
    alloc: Global,
    heard: &[Heard],
    text: &str,
) -> Result<bool, NoMemory> {
    let came = came_of(rt, alloc, heard, &[])?;
    Ok(is_explained(&came, text))
}

const HELLO: &str = "program /srv/cgi/hello
dir /srv/cgi
env GATEWAY_INTERFACE=CGI/1.1
env QUERY_STRING=
env REMOTE_ADDR=192.0.2.1
env REMOTE_HOST=192.0.2.1
env REQUEST_METHOD=GET
env SCRIPT_NAME=/cgi-bin/hello
env SERVER_NAME=a
env SERVER_PORT=8080
env SERVER_PROTOCOL=HTTP/1.1
env SERVER_SOFTWARE=cgihost/1
env HTTP_HOST=a
";

const ASKED: &str = "Accepted 192.0.2.1\n    WantClient 0\nClientBytes 0: 59\n";

// Whether it is explained, nothing is done but to ask, and the trace ends with the request.
fn is_only_asked_for<R: Threads + Sync>(rt: &R, alloc: Global) -> Result<bool, NoMemory> {
    let heard = [Heard::Accepted, Heard::Client(0, REQUEST)];
    let came = came_of(rt, alloc, &heard, &[])?;
    let trace = told(alloc, &came.world)?;
    Ok(is_explained(&came, HELLO) && is(trace.as_str(), ASKED))
}

#[test]
fn a_whole_request(rt: HostRuntime) -> Result<(), Fail> {
    assert!(rt; is_only_asked_for(&rt, rt.alloc())?);
    Ok(())
}

#[test]
fn a_path_that_goes_on_behind_its_script(rt: HostRuntime) -> Result<(), Fail> {
    let request = b"GET /cgi-bin/hello/a%20b/?x=1 HTTP/1.1\r\nHost: example.com:8080\r\n\r\n";
    let explained = explains(
        &rt,
        rt.alloc(),
        &[Heard::Accepted, Heard::Client(0, request)],
        "program /srv/cgi/hello
dir /srv/cgi
env GATEWAY_INTERFACE=CGI/1.1
env PATH_INFO=/a b/
env PATH_TRANSLATED=/srv/www/a b/
env QUERY_STRING=x=1
env REMOTE_ADDR=192.0.2.1
env REMOTE_HOST=192.0.2.1
env REQUEST_METHOD=GET
env SCRIPT_NAME=/cgi-bin/hello
env SERVER_NAME=example.com
env SERVER_PORT=8080
env SERVER_PROTOCOL=HTTP/1.1
env SERVER_SOFTWARE=cgihost/1
env HTTP_HOST=example.com:8080
",
    )?;
    assert!(rt; explained);
    Ok(())
}

fn in_single_bytes(alloc: Global) -> Result<Vec<Heard<'static>>, NoMemory> {
    let mut heard = Vec::new(alloc);
    heard.push(Heard::Accepted)?;
    let pieces = single_bytes(alloc, REQUEST)?;
    for piece in pieces.as_slice() {
        heard.push(Heard::Client(0, *piece))?;
    }
    Ok(heard)
}

fn explains_single_bytes<R: Threads + Sync>(rt: &R, alloc: Global) -> Result<bool, NoMemory> {
    let heard = in_single_bytes(alloc)?;
    explains(rt, alloc, heard.as_slice(), HELLO)
}

#[test]
fn a_request_in_single_bytes(rt: HostRuntime) -> Result<(), Fail> {
    assert!(rt; explains_single_bytes(&rt, rt.alloc())?);
    Ok(())
}

// Whether this is the cause for which a request is refused.
fn is_refused<R: Threads + Sync>(
    rt: &R,
    alloc: Global,
    request: &[u8],
    cause: &str,
) -> Result<bool, NoMemory> {
    let text = joined(alloc, "refused: ", cause, "\n")?;
    let heard = [Heard::Accepted, Heard::Client(0, request)];
    explains(rt, alloc, &heard, text.as_str())
}

// The head, the body that it announces, and the script of its target.
#[test]
fn requests_that_are_refused(rt: HostRuntime) -> Result<(), Fail> {
    let table: [(&[u8], &str); 5] = [
        (b"GET /x HTTP/2.0\r\n\r\n", "400 bad request head"),
        (
            b"GET /x HTTP/1.1\r\nHost: a\r\nX: a\r\n b\r\n\r\n",
            "400 bad request head",
        ),
        (b"GET /x HTTP/1.1\r\n\r\n", "400 bad host"),
        (
            b"POST /x HTTP/1.1\r\nHost: a\r\nContent-Length: 1048577\r\n\r\n",
            "413 request body too large",
        ),
        (
            b"GET /none HTTP/1.1\r\nHost: a\r\n\r\n",
            "404 no script for this path",
        ),
    ];
    for (request, cause) in table {
        assert!(rt; is_refused(&rt, rt.alloc(), request, cause)?, "{cause}");
    }
    Ok(())
}

// A client that ends within a request is answered; one that is gone isn't.
#[test]
fn requests_that_never_end(rt: HostRuntime) -> Result<(), Fail> {
    let table: [(&[u8], Heard, &str); 5] = [
        (
            b"GET /x HT",
            Heard::ClientEof(0),
            "refused: 400 request ended early\n",
        ),
        (b"\r\n", Heard::ClientEof(0), "no request\n"),
        (b"\r", Heard::ClientEof(0), "no request\n"),
        (b"GET /x HT", Heard::Gone(0), "no request\n"),
        (b"GET /x HT", Heard::Stop, "no request\n"),
    ];
    for (begun, end, text) in table {
        let heard = [Heard::Accepted, Heard::Client(0, begun), end];
        assert!(rt; explains(&rt, rt.alloc(), &heard, text)?, "{text}");
    }
    Ok(())
}

// .. nor one that never began.
#[test]
fn no_request(rt: HostRuntime) -> Result<(), Fail> {
    let ended = [Heard::Accepted, Heard::ClientEof(0)];
    for heard in [ended.as_slice(), &[]] {
        assert!(rt; explains(&rt, rt.alloc(), heard, "no request\n")?);
    }
    Ok(())
}

// A query of words, a line end in a path, and a tab and a backslash in a field.
#[test]
fn values_with_bytes_that_a_line_can_not_show(rt: HostRuntime) -> Result<(), Fail> {
    let request =
        b"GET /cgi-bin/hello/%0a?a%0D+b%5C HTTP/1.1\r\nHost: a\r\nX-Y: 1\t\\\r\nx-y: \xe9\r\n\r\n";
    let explained = explains(
        &rt,
        rt.alloc(),
        &[Heard::Accepted, Heard::Client(0, request)],
        "program /srv/cgi/hello
dir /srv/cgi
arg a\\x0D
arg b\\x5C
env GATEWAY_INTERFACE=CGI/1.1
env PATH_INFO=/\\x0A
env PATH_TRANSLATED=/srv/www/\\x0A
env QUERY_STRING=a%0D+b%5C
env REMOTE_ADDR=192.0.2.1
env REMOTE_HOST=192.0.2.1
env REQUEST_METHOD=GET
env SCRIPT_NAME=/cgi-bin/hello
env SERVER_NAME=a
env SERVER_PORT=8080
env SERVER_PROTOCOL=HTTP/1.1
env SERVER_SOFTWARE=cgihost/1
env HTTP_HOST=a
env HTTP_X_Y=1\\x09\\x5C, \u{e9}
",
    )?;
    assert!(rt; explained);
    Ok(())
}

// Whether half of a report that fails was put.
fn is_half_put<R: Threads + Sync>(rt: &R, alloc: Global) -> Result<bool, NoMemory> {
    let heard = [Heard::Accepted, Heard::ClientEof(0)];
    let came = came_of(rt, alloc, &heard, &[0])?;
    Ok(matches!(came.status, Status::ReportFault) && reports(&came, "no re"))
}

#[test]
fn a_report_that_fails(rt: HostRuntime) -> Result<(), Fail> {
    assert!(rt; is_half_put(&rt, rt.alloc())?);
    Ok(())
}

fn finds_no_memory<R: Threads + Sync>(rt: &R, alloc: Global) -> Result<bool, NoMemory> {
    let came = came_of(rt, alloc, &[Heard::Accepted, Heard::NoRoom(0)], &[])?;
    Ok(matches!(came.status, Status::NoMemory) && reports(&came, ""))
}

#[test]
fn a_client_for_whom_there_is_no_memory(rt: HostRuntime) -> Result<(), Fail> {
    assert!(rt; finds_no_memory(&rt, rt.alloc())?);
    Ok(())
}
