// What scripts write, and what that means.
use super::{Manner, Says};
use host_base::Cause;

// A header, a body and what they mean.
#[derive(Clone, Copy)]
pub struct Output {
    pub head: &'static str,
    pub body: &'static str,
    pub says: Says,
}

const PLAIN_SAYS: Says = Says::Reply {
    line: "200 OK",
    fields: "Content-Type: text/plain\r\n",
    dated: false,
    manner: Manner::Body,
};

pub const PLAIN: Output = Output {
    head: "Content-Type: text/plain\n\n",
    body: "hi\n",
    says: PLAIN_SAYS,
};

pub static OUTPUTS: [Output; 18] = [
    PLAIN,
    PLAIN,
    PLAIN,
    Output {
        head: "Status: 404 Not here\r\nContent-Type: text/html\r\nX-A:  1 \r\n\r\n",
        body: "<p>none",
        says: Says::Reply {
            line: "404 Not here",
            fields: "Content-Type: text/html\r\nX-A: 1\r\n",
            dated: false,
            manner: Manner::Body,
        },
    },
    Output {
        head: "Content-Type: text/plain\nContent-Length: 99\nX-CGI-B: 1\nConnection: x\nTransfer-Encoding: y\n\n",
        body: "",
        says: PLAIN_SAYS,
    },
    Output {
        head: "Status: 204\nContent-Length: 9\n\n",
        body: "stray",
        says: Says::Reply {
            line: "204 No Content",
            fields: "",
            dated: false,
            manner: Manner::Bare,
        },
    },
    Output {
        head: "Status: 304\nETag: \"x\"\n\n",
        body: "",
        says: Says::Reply {
            line: "304 Not Modified",
            fields: "ETag: \"x\"\r\n",
            dated: false,
            manner: Manner::Bare,
        },
    },
    Output {
        head: "Status: 205\n\n",
        body: "stray",
        says: Says::Reply {
            line: "205 Reset Content",
            fields: "",
            dated: false,
            manner: Manner::Empty,
        },
    },
    Output {
        head: "Location: http://x/y\nSet-Cookie: a=1\n\n",
        body: "body",
        says: Says::Reply {
            line: "302 Found",
            fields: "Location: http://x/y\r\nSet-Cookie: a=1\r\n",
            dated: false,
            manner: Manner::Dropped,
        },
    },
    Output {
        head: "Location: http://x/y\nContent-Type: text/plain\n\n",
        body: "see",
        says: Says::Reply {
            line: "302 Found",
            fields: "Location: http://x/y\r\nContent-Type: text/plain\r\n",
            dated: false,
            manner: Manner::Body,
        },
    },
    Output {
        head: "Location: /x\nStatus: 303\n\n",
        body: "",
        says: Says::Reply {
            line: "303 See Other",
            fields: "Location: /x\r\n",
            dated: false,
            manner: Manner::Body,
        },
    },
    Output {
        head: "Content-Type: text/plain\ndate: x\n\n",
        body: "dated",
        says: Says::Reply {
            line: "200 OK",
            fields: "Content-Type: text/plain\r\ndate: x\r\n",
            dated: true,
            manner: Manner::Body,
        },
    },
    Output {
        head: "Status: 199\n\n",
        body: "",
        says: Says::Fault(Cause::BadStatus),
    },
    Output {
        head: "Content-Type : a\n\n",
        body: "x",
        says: Says::Fault(Cause::HeaderLine),
    },
    Output {
        head: "X: 1\n\n",
        body: "x",
        says: Says::Fault(Cause::NoneOfThree),
    },
    Output {
        head: "Location: /a b\n\n",
        body: "x",
        says: Says::Fault(Cause::BadLocation),
    },
    Output {
        head: "Status: 200 OK\nStatus: 404 X\n\n",
        body: "x",
        says: Says::Fault(Cause::HeaderRepeated),
    },
    Output {
        head: "Status: 201\nContent-Type: a\n\n",
        body: "0\r\n\r\n",
        says: Says::Reply {
            line: "201 Created",
            fields: "Content-Type: a\r\n",
            dated: false,
            manner: Manner::Body,
        },
    },
];

pub const RAW: Output = Output {
    head: "",
    body: "HTTP/1.0 200 OK\r\n\r\nx",
    says: Says::Raw,
};

pub fn output_at(place: usize) -> &'static Output {
    &OUTPUTS[place % 18]
}
