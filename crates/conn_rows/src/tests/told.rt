// What is asked for, written down: by the outside of a connection, and by the plain programs of the stories.
use super::parts::Parts;
use std::alloc::Global;

#[derive(Drop)]
pub struct Told {
    // All acts, step by step.
    pub log: Parts,
    // What stays the same however a story is cut: the acts but those that ask, and what is written, said and fed.
    pub shape: Parts,
    // All bytes written.
    pub wrote: Parts,
    // All messages said. A story without a WebSocket has the bytes written here, but the framing of chunks.
    pub said: Parts,
    // All bytes fed.
    pub fed: Parts,
    // What children are started with: program, folder, arguments and variables, one a line.
    pub launched: Parts,
    // It goes on as long as it is let.
    pub endless: bool,
}

fn push_act(text: &mut Parts, act: &str, number: u64) {
    text.push(act);
    text.push(" ");
    text.push_number(number);
    text.push("\n");
}

fn push_start(text: &mut Parts, k: u64, j: u64, hop: u64, program: &str) {
    text.push("Start ");
    text.push_number(k);
    text.push(" ");
    text.push_number(j);
    text.push(" ");
    text.push_number(hop);
    text.push(" ");
    text.push_line(program);
}

fn push_shut(text: &mut Parts, why: &str) {
    text.push("Shut ");
    text.push_line(why);
}

impl Told {
    pub fn new(alloc: Global) -> Self {
        Told {
            log: Parts::new(alloc),
            shape: Parts::new(alloc),
            wrote: Parts::new(alloc),
            said: Parts::new(alloc),
            fed: Parts::new(alloc),
            launched: Parts::new(alloc),
            endless: false,
        }
    }

    // Memory ran out.
    pub fn is_lost(&self) -> bool {
        self.log.is_lost()
            || self.shape.is_lost()
            || self.wrote.is_lost()
            || self.said.is_lost()
            || self.fed.is_lost()
            || self.launched.is_lost()
    }

    pub fn lose(&mut self) {
        self.log.lose();
    }

    // A step ends.
    pub fn mark(&mut self) {
        self.log.push("--\n");
    }

    pub fn ask_client(&mut self) {
        self.log.push("WantClient\n");
    }

    pub fn ask_child(&mut self, k: u64) {
        push_act(&mut self.log, "WantChild", k);
    }

    pub fn write(&mut self, bytes: &[u8]) {
        self.wrote.add(bytes);
        self.log.push("Write ");
        self.log.add(bytes);
        self.log.push("\n");
    }

    pub fn feed(&mut self, k: u64, bytes: &[u8]) {
        self.fed.add(bytes);
        self.log.push("Feed ");
        self.log.push_number(k);
        self.log.push(" ");
        self.log.push_number(bytes.len() as u64);
        self.log.push("\n");
    }

    // Messages, each between angle brackets behind a blank.
    pub fn says(&mut self, messages: &[u8]) {
        self.log.push("Says");
        self.log.add(messages);
        self.log.push("\n");
    }

    // An act by its name and its number.
    pub fn act(&mut self, act: &str, number: u64) {
        push_act(&mut self.shape, act, number);
        push_act(&mut self.log, act, number);
    }

    pub fn upgrade(&mut self, rest: &[u8]) {
        self.shape.push("Upgrade\n");
        self.log.push("Upgrade <");
        self.log.add(rest);
        self.log.push(">\n");
    }

    pub fn start(&mut self, k: u64, j: u64, hop: u64, program: &str) {
        push_start(&mut self.shape, k, j, hop, program);
        push_start(&mut self.log, k, j, hop, program);
    }

    pub fn shut(&mut self, why: &str) {
        push_shut(&mut self.shape, why);
        push_shut(&mut self.log, why);
    }
}
