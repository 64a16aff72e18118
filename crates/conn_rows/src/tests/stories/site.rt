// The site of all stories, and what its targets mean.
use host_base::Cause;

pub const SITE: &str = "version = 2
port = 8080

[limits]
head = 1024
target = 64
body = 140000
output = 300000
run_ticks = 5
idle_ticks = 4
linger_ticks = 2
redirects = 2

[[host]]
name = \"a\"
aliases = [\"www.a\"]
root = \"/srv/a\"

[[host.script]]
path = \"/cgi\"
program = \"/srv/bin/all\"

[[host.script]]
path = \"/cgi/form\"
program = \"/srv/bin/form\"

[[host.script]]
path = \"/nph\"
program = \"/srv/nph\"
kind = \"nph\"

[[host.script]]
path = \"/ws\"
program = \"/srv/bin/lines\"
kind = \"websocket\"

[[host]]
name = \"b\"
root = \"/srv/b\"

[[host.script]]
path = \"/only\"
program = \"/srv/bin/only\"
";

pub const HEAD_LIMIT: usize = 1024;

pub const BODY_LIMIT: usize = 140_000;

pub const IDLE_TICKS: u32 = 4;

pub const REDIRECTS: usize = 2;

// Where a target leads.
#[derive(Clone, Copy)]
pub enum Place {
    Runs {
        program: &'static str,
        dir: &'static str,
        nph: bool,
    },
    Refused(Cause),
}

const ALL: Place = Place::Runs {
    program: "/srv/bin/all",
    dir: "/srv/bin",
    nph: false,
};

const FORM: Place = Place::Runs {
    program: "/srv/bin/form",
    dir: "/srv/bin",
    nph: false,
};

const NPH: Place = Place::Runs {
    program: "/srv/nph",
    dir: "/srv",
    nph: true,
};

const ONLY: Place = Place::Runs {
    program: "/srv/bin/only",
    dir: "/srv/bin",
    nph: false,
};

// A target as it is sent, or a local location, and what it means.
#[derive(Clone, Copy)]
pub struct Target {
    pub text: &'static str,
    pub place: Place,
    // SCRIPT_NAME, PATH_INFO, PATH_TRANSLATED, QUERY_STRING.
    pub name: &'static str,
    pub info: &'static str,
    pub translated: &'static str,
    pub query: &'static str,
    pub args: &'static [&'static str],
}

const PLAIN: Target = Target {
    text: "/cgi",
    place: ALL,
    name: "/cgi",
    info: "",
    translated: "",
    query: "",
    args: &[],
};

static TARGETS: [Target; 14] = [
    Target {
        text: "/cgi/01234567890123456789012345678901234567890123456789012345678",
        place: ALL,
        name: "/cgi",
        info: "/01234567890123456789012345678901234567890123456789012345678",
        translated: "/srv/a/01234567890123456789012345678901234567890123456789012345678",
        query: "",
        args: &[],
    },
    Target {
        text: "/cgi/form",
        place: FORM,
        name: "/cgi/form",
        info: "",
        translated: "",
        query: "",
        args: &[],
    },
    Target {
        text: "/x/../cgi/./form",
        place: FORM,
        name: "/cgi/form",
        info: "",
        translated: "",
        query: "",
        args: &[],
    },
    Target {
        text: "/cgi/form/a%20b/?q=1",
        place: FORM,
        name: "/cgi/form",
        info: "/a b/",
        translated: "/srv/a/a b/",
        query: "q=1",
        args: &[],
    },
    Target {
        text: "/cgi?a+b%2Fc",
        place: ALL,
        name: "/cgi",
        info: "",
        translated: "",
        query: "a+b%2Fc",
        args: &["a", "b/c"],
    },
    Target {
        text: "/cgi/former?",
        place: ALL,
        name: "/cgi",
        info: "/former",
        translated: "/srv/a/former",
        query: "",
        args: &[],
    },
    Target {
        text: "http://a:80/cgi",
        place: ALL,
        name: "/cgi",
        info: "",
        translated: "",
        query: "",
        args: &[],
    },
    Target {
        text: "/nph",
        place: NPH,
        name: "/nph",
        info: "",
        translated: "",
        query: "",
        args: &[],
    },
    Target {
        text: "/nph",
        place: NPH,
        name: "/nph",
        info: "",
        translated: "",
        query: "",
        args: &[],
    },
    Target {
        text: "/none",
        place: Place::Refused(Cause::NoScript),
        name: "",
        info: "",
        translated: "",
        query: "",
        args: &[],
    },
    Target {
        text: "/cgi/a%2Fb",
        place: Place::Refused(Cause::NoScript),
        name: "",
        info: "",
        translated: "",
        query: "",
        args: &[],
    },
    Target {
        text: "/cgi/%zz",
        place: Place::Refused(Cause::BadPath),
        name: "",
        info: "",
        translated: "",
        query: "",
        args: &[],
    },
    Target {
        text: "/ws",
        place: Place::Refused(Cause::UpgradeNeeded),
        name: "",
        info: "",
        translated: "",
        query: "",
        args: &[],
    },
    Target {
        text: "/%2e%2e/cgi",
        place: Place::Refused(Cause::NoScript),
        name: "",
        info: "",
        translated: "",
        query: "",
        args: &[],
    },
];

// What local redirects lead to.
static LOCATIONS: [Target; 8] = [
    PLAIN,
    Target {
        text: "/cgi/form",
        place: FORM,
        name: "/cgi/form",
        info: "",
        translated: "",
        query: "",
        args: &[],
    },
    Target {
        text: "/x/../cgi/form/y?w",
        place: FORM,
        name: "/cgi/form",
        info: "/y",
        translated: "/srv/a/y",
        query: "w",
        args: &["w"],
    },
    Target {
        text: "/cgi?z=2",
        place: ALL,
        name: "/cgi",
        info: "",
        translated: "",
        query: "z=2",
        args: &[],
    },
    Target {
        text: "/nph",
        place: NPH,
        name: "/nph",
        info: "",
        translated: "",
        query: "",
        args: &[],
    },
    Target {
        text: "/none",
        place: Place::Refused(Cause::NoScript),
        name: "",
        info: "",
        translated: "",
        query: "",
        args: &[],
    },
    Target {
        text: "/cgi/%zz",
        place: Place::Refused(Cause::BadPath),
        name: "",
        info: "",
        translated: "",
        query: "",
        args: &[],
    },
    Target {
        text: "/ws",
        place: Place::Refused(Cause::UpgradeNeeded),
        name: "",
        info: "",
        translated: "",
        query: "",
        args: &[],
    },
];

const ONLY_TARGET: Target = Target {
    text: "/only",
    place: ONLY,
    name: "/only",
    info: "",
    translated: "",
    query: "",
    args: &[],
};

// Of a host that nobody serves.
static UNKNOWN: Target = Target {
    text: "/cgi",
    place: Place::Refused(Cause::UnknownHost),
    name: "",
    info: "",
    translated: "",
    query: "",
    args: &[],
};

static OTHER_TARGETS: [Target; 3] = [
    ONLY_TARGET,
    Target {
        text: "/only/%41?",
        place: ONLY,
        name: "/only",
        info: "/A",
        translated: "/srv/b/A",
        query: "",
        args: &[],
    },
    Target {
        text: "/cgi",
        place: Place::Refused(Cause::NoScript),
        name: "",
        info: "",
        translated: "",
        query: "",
        args: &[],
    },
];

// A Host field, the name that the script is told, and whose scripts they are.
#[derive(Clone, Copy)]
pub struct Seat {
    pub value: &'static str,
    pub name: &'static str,
    pub whose: Whose,
}

#[derive(Clone, Copy, PartialEq, Eq)]
pub enum Whose {
    First,
    Second,
    Nobodys,
}

// No Host field, which a request of HTTP/1.0 may lack.
pub const NO_SEAT: Seat = Seat {
    value: "",
    name: "a",
    whose: Whose::First,
};

const PLAIN_SEAT: Seat = Seat {
    value: "a",
    name: "a",
    whose: Whose::First,
};

static SEATS: [Seat; 8] = [
    PLAIN_SEAT,
    PLAIN_SEAT,
    PLAIN_SEAT,
    Seat {
        value: "WWW.a:8080",
        name: "WWW.a",
        whose: Whose::First,
    },
    PLAIN_SEAT,
    Seat {
        value: "b",
        name: "b",
        whose: Whose::Second,
    },
    PLAIN_SEAT,
    Seat {
        value: "c",
        name: "c",
        whose: Whose::Nobodys,
    },
];

pub fn seat_count() -> usize {
    SEATS.len()
}

pub fn seat_at(place: usize) -> &'static Seat {
    &SEATS[place % 8]
}

// A target of the host, by a number.
pub fn target_at(whose: Whose, place: usize) -> &'static Target {
    match whose {
        Whose::First => &TARGETS[place % 14],
        Whose::Second => &OTHER_TARGETS[place % 3],
        Whose::Nobodys => &UNKNOWN,
    }
}

// A local location there.
pub fn location_at(whose: Whose, place: usize) -> &'static Target {
    match whose {
        Whose::First => &LOCATIONS[place % 8],
        _ => &OTHER_TARGETS[place % 3],
    }
}

// What the clock shows, and as a date.
pub const CLOCKS: [(u64, &str); 4] = [
    (784_111_777, "Sun, 06 Nov 1994 08:49:37 GMT"),
    (0, "Thu, 01 Jan 1970 00:00:00 GMT"),
    (951_782_400, "Tue, 29 Feb 2000 00:00:00 GMT"),
    (253_402_300_799, "Fri, 31 Dec 9999 23:59:59 GMT"),
];

pub fn date_of(secs: u64) -> &'static str {
    for clock in CLOCKS {
        if clock.0 == secs {
            return clock.1;
        }
    }
    ""
}
