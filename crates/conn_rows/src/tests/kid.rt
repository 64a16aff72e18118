// A child by the rules: what happened to it, and what is due.
use host_base::Cause;
use host_trace::Event;

// What the sites of the stories keep their children to: how much a script may write, how many Ticks it may take, and how many
// a child may linger.
pub const OUTPUT_LIMIT: usize = 300_000;

const RUN_TICKS: u32 = 5;

const LINGER_TICKS: u32 = 2;

// What decides a run.
#[derive(Clone, Copy, PartialEq, Eq)]
pub enum By {
    // Its output ended.
    End,
    Failed(Cause),
    // Nobody is left to answer.
    Nobody,
}

#[derive(Clone, Copy)]
pub struct Kid {
    pub number: u64,
    pub hop: usize,
    // It talks over a WebSocket.
    pub talks: bool,
    pub started: bool,
    // It could not be started.
    pub refused: bool,
    pub fed: usize,
    pub taken: usize,
    pub input_over: bool,
    pub heard: usize,
    pub output_over: bool,
    pub exited: bool,
    pub killed: bool,
    pub asked: bool,
    // Its client closed the WebSocket.
    pub closed: bool,
    // Ticks since its Start, and since its output ended, or before that since its client closed.
    pub ticks: u32,
    pub late: u32,
    // A Tick came after its header.
    pub ticked: bool,
    pub by: Option<By>,
    // Its connection or the server ended.
    pub alone: bool,
}

impl Kid {
    pub fn new(number: u64, hop: usize, talks: bool) -> Self {
        Kid {
            number,
            hop,
            talks,
            started: false,
            refused: false,
            fed: 0,
            taken: 0,
            input_over: false,
            heard: 0,
            output_over: false,
            exited: false,
            killed: false,
            asked: false,
            closed: false,
            ticks: 0,
            late: 0,
            ticked: false,
            by: None,
            alone: false,
        }
    }

    // The first that decides it does.
    pub fn decide(&mut self, by: By) {
        if self.by.is_none() {
            self.by = Some(by);
            self.late = 0;
        }
    }

    pub fn leave(&mut self) {
        self.decide(By::Nobody);
        self.alone = true;
    }

    fn hear_output(&mut self, count: usize) {
        self.asked = false;
        self.heard = self.heard.saturating_add(count);
        if self.heard > OUTPUT_LIMIT && !self.talks {
            self.decide(By::Failed(Cause::OutputTooLarge));
        }
    }

    fn hear_end(&mut self, by: By) {
        self.asked = false;
        self.output_over = true;
        self.decide(by);
    }

    fn hear_refusal(&mut self, cause: Cause) {
        self.refused = true;
        self.decide(By::Failed(cause));
    }

    fn hear_taken(&mut self, n: u64) {
        let count = usize::try_from(n).unwrap_or(0);
        self.taken = self.taken.saturating_add(count);
    }

    pub fn hear(&mut self, event: &Event) {
        match event {
            Event::Started { .. } => self.started = true,
            Event::StartFailed { .. } => self.hear_refusal(Cause::StartFailed),
            Event::StartFull { seen, .. } => self.hear_refusal(Cause::Full { seen: *seen }),
            Event::Took { n, .. } => self.hear_taken(*n),
            Event::InputGone { .. } => self.input_over = true,
            Event::Exited { .. } => self.exited = true,
            _ => self.hear_pipe(event),
        }
    }

    fn hear_pipe(&mut self, event: &Event) {
        match event {
            Event::ChildBytes { bytes, .. } => self.hear_output(bytes.len()),
            Event::ChildEof { .. } => self.hear_end(By::End),
            Event::ChildBroken { .. } => self.hear_end(By::Failed(Cause::OutputBroken)),
            _ => {}
        }
    }

    // .. of a story with a WebSocket, which may end its talk.
    pub fn hear_talk(&mut self, event: &Event) {
        match event {
            Event::WsClosed { .. } => self.closed = true,
            Event::WsBinary { .. } => self.decide(By::Nobody),
            Event::Tick { .. } => self.tick_late(),
            Event::ClientGone { .. } | Event::WsBad { .. } | Event::NoRoom { .. } | Event::Stop => {
                self.leave();
            }
            _ => self.hear(event),
        }
    }

    fn tick_late(&mut self) {
        if self.closed || self.by == Some(By::End) {
            self.late = self.late.saturating_add(1);
        }
    }

    // `head`: how long the header of its output is.
    pub fn tick(&mut self, head: usize) {
        self.ticks = self.ticks.saturating_add(1);
        self.tick_late();
        if self.ticks == RUN_TICKS {
            self.decide(By::Failed(Cause::RunTime));
        }
        self.ticked |= self.heard > 0 && self.heard >= head;
    }

    // ---- what is the case

    // Its talk is over.
    pub fn is_over(&self) -> bool {
        self.by.is_some() || self.closed
    }

    pub fn is_settled(&self) -> bool {
        self.refused || self.exited && self.input_over && self.output_over
    }

    pub fn has_taken_all(&self) -> bool {
        self.taken == self.fed || self.input_over || self.exited
    }

    // What is said to it now is fed.
    pub fn may_feed(&self) -> bool {
        self.started && self.by.is_none() && !self.input_over && !self.exited
    }

    pub fn may_write(&self) -> bool {
        self.started && self.asked && !self.output_over
    }

    // ---- what is due

    // Nobody waits for it any more.
    fn is_given_up(&self) -> bool {
        match self.by {
            None => self.closed && self.late >= LINGER_TICKS,
            Some(By::End) => self.alone || self.late >= LINGER_TICKS,
            Some(_) => true,
        }
    }

    // How much is to be fed, of so much that came of the body.
    pub fn feed_due(&self, came: usize) -> usize {
        if self.may_feed() && self.taken == self.fed {
            came.saturating_sub(self.fed).min(65_536)
        } else {
            0
        }
    }

    // .. of a story with a WebSocket.
    pub fn must_end_talk(&self) -> bool {
        self.started && !self.input_over && (self.is_over() || !self.talks)
    }

    // The input of a script is over once so much of the body came whole and was fed.
    pub fn must_end_input(&self, came: usize, whole: bool) -> bool {
        let fed = whole && self.fed == came && !self.exited;
        self.started && !self.input_over && (self.by.is_some() || fed)
    }

    pub fn must_kill(&self) -> bool {
        self.started && !self.exited && !self.killed && self.is_given_up()
    }

    pub fn must_release(&self) -> bool {
        self.started && self.exited && !self.output_over && (self.is_given_up() || self.killed)
    }

    // `room`: not too much waits to be sent.
    pub fn must_ask(&self, room: bool) -> bool {
        let open = self.started && self.by.is_none() && !self.killed && !self.output_over;
        open && !self.asked && room
    }
}
