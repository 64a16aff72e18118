// Connections interleaved as a seed says, act for act: each goes on as by itself.
use super::drive::Heard;
use super::drive::Heard::{
    Accepted, Client, ClientEof, Exited, Gone, Output, OutputEof, StartFailed, Started, Stop, Took,
    WsText,
};
use super::lines::{numbered, shut_line, start_line, with_text};
use super::play::{Play, plays};
use super::talks::HANDSHAKE;
use super::texts::{OUTPUT, REQUEST};
use Did::{
    CloseWs, EndInput, Feed, Kill, Release, Says, Shut, Start, Upgrade, WantChild, WantClient,
    Write,
};
use host_base::NoMemory;
use std::alloc::Global;
use std::test::Fail;

// An act of a story, for its connection or for one of its own children.
#[derive(Clone, Copy)]
enum Did {
    WantClient,
    Write(&'static str),
    Upgrade,
    Says(&'static str),
    CloseWs(&'static str),
    Shut(&'static str),
    // The exchange, the hop and the program.
    Start(u32, u32, &'static str),
    Feed(usize, &'static str),
    EndInput(usize),
    WantChild(usize),
    Kill(usize),
    Release(usize),
}

// What is heard of the one connection of a story, or of one of its children by its place among them, and what
// follows.
type Step = (Heard<'static>, &'static [Did]);

const HELLO: &str = "/srv/cgi/hello";

const REPLY: &str =
    "HTTP/1.1 200 OK\r\nContent-Type: text/plain\r\nContent-Length: 3\r\nConnection: close\r\n\r\nhi\n";

const REPLY_OPEN: &str =
    "HTTP/1.1 200 OK\r\nContent-Type: text/plain\r\nContent-Length: 3\r\n\r\nhi\n";

const SERVED: &[Step] = &[
    (Accepted, &[WantClient]),
    (Client(0, REQUEST), &[Start(0, 0, HELLO)]),
    (Started(0), &[EndInput(0), WantChild(0)]),
    (Output(0, OUTPUT), &[WantChild(0)]),
    (OutputEof(0), &[Write(REPLY), Shut("Done")]),
    (Exited(0), &[]),
];

const TWO_REQUESTS: &[Step] = &[
    (Accepted, &[WantClient]),
    (
        Client(
            0,
            b"GET /cgi-bin/hello HTTP/1.1\r\nHost: a\r\n\r\nGET /cgi-bin/hello HTTP/1.1\r\nHost: a\r\n\r\n",
        ),
        &[Start(0, 0, HELLO)],
    ),
    (Started(0), &[EndInput(0), WantChild(0)]),
    (Exited(0), &[]),
    (Output(0, OUTPUT), &[WantChild(0)]),
    (OutputEof(0), &[Write(REPLY_OPEN), Start(1, 0, HELLO)]),
    (Started(1), &[EndInput(1), WantChild(1)]),
    (Output(1, OUTPUT), &[WantChild(1)]),
    (OutputEof(1), &[Write(REPLY_OPEN)]),
    (Exited(1), &[WantClient]),
    (ClientEof(0), &[Shut("Done")]),
];

const REDIRECTED: &[Step] = &[
    (Accepted, &[WantClient]),
    (
        Client(
            0,
            b"POST /cgi-bin/form HTTP/1.1\r\nHost: a\r\nConnection: close\r\nContent-Length: 3\r\n\r\n",
        ),
        &[Start(0, 0, "/srv/cgi/form"), WantClient],
    ),
    (Started(0), &[WantChild(0)]),
    (Client(0, b"x"), &[Feed(0, "x")]),
    (Took(0, 1), &[WantClient]),
    (Client(0, b"=1"), &[Feed(0, "=1"), EndInput(0)]),
    (Output(0, b"Location: /cgi-bin/hello\n\n"), &[WantChild(0)]),
    (OutputEof(0), &[]),
    (Exited(0), &[Start(0, 1, HELLO)]),
    (Started(1), &[EndInput(1), WantChild(1)]),
    (Output(1, OUTPUT), &[WantChild(1)]),
    (OutputEof(1), &[Write(REPLY), Shut("Done")]),
    (Exited(1), &[]),
];

const REFUSED: &[Step] = &[
    (Accepted, &[WantClient]),
    (Client(0, b"GET /none HTTP/1.1\r\nHo"), &[WantClient]),
    (
        Client(0, b"st: a\r\n\r\nGET /x HT"),
        &[
            Write(
                "HTTP/1.1 404 Not Found\r\nContent-Type: text/plain\r\nContent-Length: 24\r\n\r\nno script for this path\n",
            ),
            WantClient,
        ],
    ),
    (
        ClientEof(0),
        &[
            Write(
                "HTTP/1.1 400 Bad Request\r\nContent-Type: text/plain\r\nContent-Length: 20\r\nConnection: close\r\n\r\nrequest ended early\n",
            ),
            Shut("Done"),
        ],
    ),
];

const GIVEN_UP: &[Step] = &[
    (Accepted, &[WantClient]),
    (Client(0, REQUEST), &[Start(0, 0, HELLO)]),
    (Started(0), &[EndInput(0), WantChild(0)]),
    (Output(0, b"Content-Type: te"), &[WantChild(0)]),
    (Gone(0), &[Kill(0), Shut("Gone")]),
    (Exited(0), &[Release(0)]),
];

const NOT_STARTED: &[Step] = &[
    (Accepted, &[WantClient]),
    (
        Client(0, b"HEAD /cgi-bin/hello HTTP/1.1\r\nHost: a\r\n\r\n"),
        &[Start(0, 0, HELLO)],
    ),
    (
        StartFailed(0),
        &[
            Write("HTTP/1.1 502 Bad Gateway\r\nContent-Type: text/plain\r\n\r\n"),
            WantClient,
        ],
    ),
    (Client(0, REQUEST), &[Start(1, 0, HELLO)]),
    (Started(1), &[EndInput(1), WantChild(1)]),
    (Output(1, OUTPUT), &[WantChild(1)]),
    (OutputEof(1), &[Write(REPLY), Shut("Done")]),
    (Exited(1), &[]),
];

const TALKED: &[Step] = &[
    (Accepted, &[WantClient]),
    (
        Client(0, HANDSHAKE),
        &[
            Write(
                "HTTP/1.1 101 Switching Protocols\r\nUpgrade: websocket\r\nConnection: Upgrade\r\nSec-WebSocket-Accept: s3pPLMBiTxaQ9kYGzzhZRbK+xOo=\r\n\r\n",
            ),
            Upgrade,
            Start(0, 0, "/srv/cgi/lines"),
        ],
    ),
    (Started(0), &[WantChild(0), WantClient]),
    (WsText(0, b"a"), &[Feed(0, "a\n")]),
    (Output(0, b"x\ny"), &[Says("x; "), WantChild(0)]),
    (Took(0, 2), &[WantClient]),
    (WsText(0, b"b"), &[Feed(0, "b\n")]),
    (
        OutputEof(0),
        &[Says("y; "), CloseWs("1000"), EndInput(0), Shut("Done")],
    ),
    (Exited(0), &[]),
];

const STORIES: [&[Step]; 8] = [
    SERVED,
    TWO_REQUESTS,
    REDIRECTED,
    REFUSED,
    SERVED,
    GIVEN_UP,
    NOT_STARTED,
    TALKED,
];

// ---- one story among others

// How many connections were accepted, and how many children were to be started.
#[derive(Drop)]
struct Numbers {
    connections: u64,
    children: u64,
}

// How far a story is told, and the numbers of its connection and its children.
#[derive(Drop)]
struct Teller {
    steps: &'static [Step],
    told: usize,
    c: u64,
    kids: Vec<u64>,
}

impl Teller {
    fn kid(&self, place: usize) -> u64 {
        match self.kids.get(place) {
            Some(kid) => *kid,
            None => 0,
        }
    }

    fn kid_at(&self, place: u64) -> u64 {
        self.kid(place as usize)
    }

    fn heard(&self, heard: Heard<'static>) -> Heard<'static> {
        match heard {
            Client(_, bytes) => Client(self.c, bytes),
            ClientEof(_) => ClientEof(self.c),
            Gone(_) => Gone(self.c),
            WsText(_, bytes) => WsText(self.c, bytes),
            Started(place) => Started(self.kid_at(place)),
            StartFailed(place) => StartFailed(self.kid_at(place)),
            Output(place, bytes) => Output(self.kid_at(place), bytes),
            OutputEof(place) => OutputEof(self.kid_at(place)),
            Took(place, n) => Took(self.kid_at(place), n),
            Exited(place) => Exited(self.kid_at(place)),
            other => other,
        }
    }

    fn child_line(&self, alloc: Global, did: Did) -> Result<String, NoMemory> {
        match did {
            Feed(place, text) => with_text(alloc, "Feed", self.kid(place), text),
            EndInput(place) => numbered(alloc, "EndInput", self.kid(place)),
            WantChild(place) => numbered(alloc, "WantChild", self.kid(place)),
            Kill(place) => numbered(alloc, "Kill", self.kid(place)),
            Release(place) => numbered(alloc, "Release", self.kid(place)),
            _ => Ok(String::new(alloc)),
        }
    }

    // The line of an act; a Start is that of child `next`.
    fn line(&self, alloc: Global, did: Did, next: u64) -> Result<String, NoMemory> {
        let c = self.c;
        match did {
            WantClient => numbered(alloc, "WantClient", c),
            Write(text) => with_text(alloc, "Write", c, text),
            Upgrade => with_text(alloc, "Upgrade", c, ""),
            Says(texts) => with_text(alloc, "Says", c, texts),
            CloseWs(code) => with_text(alloc, "CloseWs", c, code),
            Shut(why) => shut_line(alloc, c, why),
            Start(j, hop, program) => start_line(alloc, next, (c, u128::from(j), hop), program),
            other => self.child_line(alloc, other),
        }
    }

    fn follow(&mut self, play: &mut Play, numbers: &mut Numbers, did: Did) -> Result<(), NoMemory> {
        let line = self.line(play.alloc(), did, numbers.children)?;
        if let Start(..) = did {
            self.kids.push(numbers.children)?;
            numbers.children = numbers.children.saturating_add(1);
        }
        play.follow(line.as_str())
    }

    fn hear(
        &mut self,
        play: &mut Play,
        numbers: &mut Numbers,
        heard: Heard<'static>,
    ) -> Result<(), NoMemory> {
        if let Accepted = heard {
            self.c = numbers.connections;
            numbers.connections = numbers.connections.saturating_add(1);
        }
        play.beat(self.heard(heard), &[])
    }

    // Tells the next step, if there is one.
    fn tell(&mut self, play: &mut Play, numbers: &mut Numbers) -> Result<(), NoMemory> {
        if let Some((heard, dids)) = self.steps.get(self.told) {
            self.told = self.told.saturating_add(1);
            self.hear(play, numbers, *heard)?;
            for did in dids.iter() {
                self.follow(play, numbers, *did)?;
            }
        }
        Ok(())
    }

    fn tell_all(&mut self, play: &mut Play, numbers: &mut Numbers) -> Result<(), NoMemory> {
        for _ in 0..self.steps.len() {
            self.tell(play, numbers)?;
        }
        Ok(())
    }
}

fn tellers(alloc: Global) -> Result<Vec<Teller>, NoMemory> {
    let mut tellers = Vec::new(alloc);
    for steps in STORIES {
        tellers.push(Teller {
            steps,
            told: 0,
            c: 0,
            kids: Vec::new(alloc),
        })?;
    }
    Ok(tellers)
}

// Steps of stories that a seed chooses, one after the other.
fn tell_some(
    play: &mut Play,
    numbers: &mut Numbers,
    tellers: &mut [Teller],
    seed: u32,
) -> Result<(), NoMemory> {
    let mut number = u64::from(seed);
    for _ in 0..70u32 {
        number = (number % 65_537 * 75 + 74) % 65_537;
        let at = (number / 16 % 8) as usize;
        if let Some(teller) = tellers.get_mut(at) {
            teller.tell(play, numbers)?;
        }
    }
    Ok(())
}

fn tell_rest(
    play: &mut Play,
    numbers: &mut Numbers,
    tellers: &mut [Teller],
) -> Result<(), NoMemory> {
    for teller in tellers.iter_mut() {
        teller.tell_all(play, numbers)?;
    }
    Ok(())
}

// All stories as a seed says, and Stop.
fn tell_stories(play: &mut Play, tellers: &mut [Teller], seed: u32) -> Result<(), NoMemory> {
    let mut numbers = Numbers {
        connections: 0,
        children: 0,
    };
    tell_some(play, &mut numbers, tellers, seed)?;
    tell_rest(play, &mut numbers, tellers)?;
    play.beat(Stop, &[])
}

fn interleaved(alloc: Global, seed: u32) -> Result<Play, NoMemory> {
    let mut tellers = tellers(alloc)?;
    let mut play = Play::new(alloc);
    tell_stories(&mut play, tellers.as_mut_slice(), seed)?;
    Ok(play)
}

#[test]
fn eight_connections_in_any_order(rt: HostRuntime) -> Result<(), Fail> {
    for seed in 0..100u32 {
        let play = interleaved(rt.alloc(), seed)?;
        let name = numbered(rt.alloc(), "seed", u64::from(seed))?;
        plays(&rt, "serve", "site", name.as_str(), play)?;
    }
    Ok(())
}
