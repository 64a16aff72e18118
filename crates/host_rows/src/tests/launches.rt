// What children are started with and fed.
use super::drive::Heard::{Accepted, Client, Exited, Output, OutputEof, Started};
use super::drive::{Heard, is_done, runs, world_of};
use super::lines::{fed, given, joined, launches_of, words_of_launches};
use super::script::{is, same};
use host_base::NoMemory;
use host_trace::Item;
use std::alloc::Global;
use std::test::Fail;
use std::thread::Threads;

// A site, what is heard, what children are started with, and what they are fed.
struct Case {
    site: &'static str,
    heard: &'static [Heard<'static>],
    launched: &'static str,
    fed: &'static str,
}

// A form in the manner of a browser's, and the same in chunks.
const FORM: &[u8] = b"POST /cgi-bin/form HTTP/1.1\r
Host: www.example.com\r
User-Agent: Mozilla/5.0\r
Accept: text/html,*/*;q=0.8\r
Accept-Language: en\r
Accept-Encoding: gzip, deflate\r
Content-Type: application/x-www-form-urlencoded\r
Content-Length: 3\r
Origin: http://www.example.com\r
DNT: 1\r
Connection: keep-alive\r
Referer: http://www.example.com/form\r
Cookie: a=1; b=2\r
Upgrade-Insecure-Requests: 1\r
Cache-Control: max-age=0\r
Priority: u=0, i\r
\r
x=1";

pub const CHUNKED_FORM: &[u8] = b"POST /cgi-bin/form HTTP/1.1\r
Host: www.example.com\r
User-Agent: Mozilla/5.0\r
Accept: text/html,*/*;q=0.8\r
Accept-Language: en\r
Accept-Encoding: gzip, deflate\r
Content-Type: application/x-www-form-urlencoded\r
Transfer-Encoding: chunked\r
Origin: http://www.example.com\r
DNT: 1\r
Connection: keep-alive\r
Referer: http://www.example.com/form\r
Cookie: a=1\r
Cookie: b=2\r
Upgrade-Insecure-Requests: 1\r
Cache-Control: max-age=0\r
Priority: u=0, i\r
\r
3\r
x=1\r
0\r
\r
";

const FORM_LAUNCH: &str = "/srv/cgi/form
    /srv/cgi
    CONTENT_LENGTH=3
    CONTENT_TYPE=application/x-www-form-urlencoded
    GATEWAY_INTERFACE=CGI/1.1
    QUERY_STRING=
    REMOTE_ADDR=192.0.2.1
    REMOTE_HOST=192.0.2.1
    REQUEST_METHOD=POST
    SCRIPT_NAME=/cgi-bin/form
    SERVER_NAME=www.example.com
    SERVER_PORT=8080
    SERVER_PROTOCOL=HTTP/1.1
    SERVER_SOFTWARE=cgihost/1
    HTTP_HOST=www.example.com
    HTTP_USER_AGENT=Mozilla/5.0
    HTTP_ACCEPT=text/html,*/*;q=0.8
    HTTP_ACCEPT_LANGUAGE=en
    HTTP_ACCEPT_ENCODING=gzip, deflate
    HTTP_ORIGIN=http://www.example.com
    HTTP_DNT=1
    HTTP_REFERER=http://www.example.com/form
    HTTP_COOKIE=a=1; b=2
    HTTP_UPGRADE_INSECURE_REQUESTS=1
    HTTP_CACHE_CONTROL=max-age=0
    HTTP_PRIORITY=u=0, i
";

const CASES: [Case; 9] = [
    Case {
        site: "site",
        heard: &[Accepted, Client(0, FORM), Started(0)],
        launched: FORM_LAUNCH,
        fed: "x=1",
    },
    Case {
        site: "site",
        heard: &[Accepted, Client(0, CHUNKED_FORM), Started(0)],
        launched: FORM_LAUNCH,
        fed: "x=1",
    },
    // A local redirect is a GET with no body.
    Case {
        site: "site",
        heard: &[
            Accepted,
            Client(
                0,
                b"POST /cgi-bin/form HTTP/1.1\r\nHost: a\r\nConnection: close\r\nContent-Length: 3\r\nAccept: */*\r\n\r\nx=1",
            ),
            Started(0),
            Output(0, b"Location: /cgi-bin/hello/a?b+c%2Fd\n\n"),
            OutputEof(0),
            Exited(0),
        ],
        launched: "/srv/cgi/form
    /srv/cgi
    CONTENT_LENGTH=3
    GATEWAY_INTERFACE=CGI/1.1
    QUERY_STRING=
    REMOTE_ADDR=192.0.2.1
    REMOTE_HOST=192.0.2.1
    REQUEST_METHOD=POST
    SCRIPT_NAME=/cgi-bin/form
    SERVER_NAME=a
    SERVER_PORT=8080
    SERVER_PROTOCOL=HTTP/1.1
    SERVER_SOFTWARE=cgihost/1
    HTTP_HOST=a
    HTTP_ACCEPT=*/*
/srv/cgi/hello
    /srv/cgi
    arg:
    b
    arg:
    c/d
    GATEWAY_INTERFACE=CGI/1.1
    PATH_INFO=/a
    PATH_TRANSLATED=/srv/www/a
    QUERY_STRING=b+c%2Fd
    REMOTE_ADDR=192.0.2.1
    REMOTE_HOST=192.0.2.1
    REQUEST_METHOD=GET
    SCRIPT_NAME=/cgi-bin/hello
    SERVER_NAME=a
    SERVER_PORT=8080
    SERVER_PROTOCOL=HTTP/1.1
    SERVER_SOFTWARE=cgihost/1
    HTTP_HOST=a
    HTTP_ACCEPT=*/*
",
        fed: "x=1",
    },
    // The length that is announced, before any byte of the body.
    Case {
        site: "site",
        heard: &[
            Accepted,
            Client(
                0,
                b"POST /cgi-bin/form HTTP/1.1\r\nHost: a\r\nContent-Length: 1048576\r\n\r\n",
            ),
            Started(0),
        ],
        launched: "/srv/cgi/form
    /srv/cgi
    CONTENT_LENGTH=1048576
    GATEWAY_INTERFACE=CGI/1.1
    QUERY_STRING=
    REMOTE_ADDR=192.0.2.1
    REMOTE_HOST=192.0.2.1
    REQUEST_METHOD=POST
    SCRIPT_NAME=/cgi-bin/form
    SERVER_NAME=a
    SERVER_PORT=8080
    SERVER_PROTOCOL=HTTP/1.1
    SERVER_SOFTWARE=cgihost/1
    HTTP_HOST=a
",
        fed: "",
    },
    // The longest path of a script that fits, and what stands behind it.
    Case {
        site: "nested",
        heard: &[
            Accepted,
            Client(
                0,
                b"GET /cgi-bin/hello/a%20b/?x=1 HTTP/1.1\r\nHost: example.com:8080\r\n\r\n",
            ),
        ],
        launched: "/srv/cgi/hello
    /srv/cgi
    GATEWAY_INTERFACE=CGI/1.1
    PATH_INFO=/a b/
    PATH_TRANSLATED=/srv/www/a b/
    QUERY_STRING=x=1
    REMOTE_ADDR=192.0.2.1
    REMOTE_HOST=192.0.2.1
    REQUEST_METHOD=GET
    SCRIPT_NAME=/cgi-bin/hello
    SERVER_NAME=example.com
    SERVER_PORT=8080
    SERVER_PROTOCOL=HTTP/1.1
    SERVER_SOFTWARE=cgihost/1
    HTTP_HOST=example.com:8080
",
        fed: "",
    },
    // The name of the site where the request has none.
    Case {
        site: "site",
        heard: &[Accepted, Client(0, b"GET /cgi-bin/hello HTTP/1.0\r\n\r\n")],
        launched: "/srv/cgi/hello
    /srv/cgi
    GATEWAY_INTERFACE=CGI/1.1
    QUERY_STRING=
    REMOTE_ADDR=192.0.2.1
    REMOTE_HOST=192.0.2.1
    REQUEST_METHOD=GET
    SCRIPT_NAME=/cgi-bin/hello
    SERVER_NAME=localhost
    SERVER_PORT=8080
    SERVER_PROTOCOL=HTTP/1.0
    SERVER_SOFTWARE=cgihost/1
",
        fed: "",
    },
    // Two hosts: by an alias, by a name with a port, and the first where the request has none.
    Case {
        site: "hosts",
        heard: &[
            Accepted,
            Client(
                0,
                b"GET /s HTTP/1.1\r\nHost: WWW.A.Example\r\nConnection: close\r\n\r\n",
            ),
        ],
        launched: "/srv/a/s
    /srv/a
    GATEWAY_INTERFACE=CGI/1.1
    QUERY_STRING=
    REMOTE_ADDR=192.0.2.1
    REMOTE_HOST=192.0.2.1
    REQUEST_METHOD=GET
    SCRIPT_NAME=/s
    SERVER_NAME=WWW.A.Example
    SERVER_PORT=8080
    SERVER_PROTOCOL=HTTP/1.1
    SERVER_SOFTWARE=cgihost/1
    HTTP_HOST=WWW.A.Example
",
        fed: "",
    },
    Case {
        site: "hosts",
        heard: &[
            Accepted,
            Client(
                0,
                b"GET /s/x HTTP/1.1\r\nHost: b.example:81\r\nConnection: close\r\n\r\n",
            ),
        ],
        launched: "/srv/b/s
    /srv/b
    GATEWAY_INTERFACE=CGI/1.1
    PATH_INFO=/x
    PATH_TRANSLATED=/srv/b/x
    QUERY_STRING=
    REMOTE_ADDR=192.0.2.1
    REMOTE_HOST=192.0.2.1
    REQUEST_METHOD=GET
    SCRIPT_NAME=/s
    SERVER_NAME=b.example
    SERVER_PORT=8080
    SERVER_PROTOCOL=HTTP/1.1
    SERVER_SOFTWARE=cgihost/1
    HTTP_HOST=b.example:81
",
        fed: "",
    },
    Case {
        site: "hosts",
        heard: &[Accepted, Client(0, b"GET /s/x HTTP/1.0\r\n\r\n")],
        launched: "/srv/a/s
    /srv/a
    GATEWAY_INTERFACE=CGI/1.1
    PATH_INFO=/x
    PATH_TRANSLATED=/srv/www/x
    QUERY_STRING=
    REMOTE_ADDR=192.0.2.1
    REMOTE_HOST=192.0.2.1
    REQUEST_METHOD=GET
    SCRIPT_NAME=/s
    SERVER_NAME=a.example
    SERVER_PORT=8080
    SERVER_PROTOCOL=HTTP/1.0
    SERVER_SOFTWARE=cgihost/1
",
        fed: "",
    },
];

fn is_launched(alloc: Global, items: &[Item], wanted: &str) -> Result<bool, NoMemory> {
    let launched = launches_of(alloc, items)?;
    Ok(is(launched.as_str(), wanted))
}

fn is_fed(alloc: Global, items: &[Item], wanted: &str) -> Result<bool, NoMemory> {
    let fed = fed(alloc, items)?;
    Ok(same(fed.as_slice(), wanted.as_bytes()))
}

fn is_right<R: Threads + Sync>(rt: &R, alloc: Global, case: &Case) -> Result<bool, NoMemory> {
    let mut world = world_of(alloc, case.heard)?;
    let status = runs(rt, alloc, &["once", case.site], &mut world)?;
    let items = given(&world);
    Ok(
        is_done(&status)
            && is_launched(alloc, items, case.launched)?
            && is_fed(alloc, items, case.fed)?,
    )
}

#[test]
fn children_are_offered_what_the_request_says(rt: HostRuntime) -> Result<(), Fail> {
    for case in &CASES {
        assert!(rt; is_right(&rt, rt.alloc(), case)?, "{}", case.launched);
    }
    Ok(())
}

// A request line, and the words that its script is started with, each in brackets.
const SEARCHES: [(&str, &str); 9] = [
    ("GET /cgi-bin/hello?a+b%2Fc", " [a] [b/c]"),
    ("GET /cgi-bin/hello?%3D", " [=]"),
    ("GET /cgi-bin/hello?a++b", ""),
    ("GET /cgi-bin/hello?a=b", ""),
    ("GET /cgi-bin/hello?", ""),
    ("GET /cgi-bin/hello?%00", ""),
    ("GET /cgi-bin/hello?a+%zz", ""),
    (
        "GET /cgi-bin/hello?a+a+a+a+a+a+a+a+a+a+a+a+a+a+a+a+a+a+a+a+a+a+a+a+a+a+a+a+a+a+a+a+a+a+a+a+a+a+a+a+a+a+a+a+a+a+a+a+a+a+a+a+a+a+a+a+a+a+a+a+a+a+a+a+a",
        "",
    ),
    ("POST /cgi-bin/hello?a+b", ""),
];

fn searches<R: Threads + Sync>(
    rt: &R,
    alloc: Global,
    line: &str,
    words: &str,
) -> Result<bool, NoMemory> {
    let request = joined(
        alloc,
        line,
        " HTTP/1.1\r\nHost: a\r\nContent-Length: 0\r\n\r\n",
        "",
    )?;
    let mut world = world_of(alloc, &[Accepted, Client(0, request.as_bytes())])?;
    let status = runs(rt, alloc, &["once", "site"], &mut world)?;
    let started = words_of_launches(alloc, given(&world))?;
    let wanted = joined(alloc, "/srv/cgi/hello", words, "")?;
    Ok(is_done(&status) && is(started.as_str(), wanted.as_str()))
}

#[test]
fn words_of_a_search_are_arguments(rt: HostRuntime) -> Result<(), Fail> {
    for (line, words) in SEARCHES {
        assert!(rt; searches(&rt, rt.alloc(), line, words)?, "{line}");
    }
    Ok(())
}
