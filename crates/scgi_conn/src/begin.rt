// The Start of a script.
use crate::conn::ScgiConn;
use crate::stage::Stage;
use child_core::Run;
use host_base::{Launch, NoMemory, ScriptKind};
use host_trace::{Act, Acted, Outside};
use scgi_reader::Request;

impl<'s> ScgiConn<'s> {
    ghost use Rattle.std.specs.Prelude.{◌≡◌, true, IfOk, is_ok};
    ghost use Rattle.host_trace.specs.Told.{Adds};
    ghost use Rattle.scgi_conn.specs.Parts.{acts_begun, acts_of_start, begun_by, begun_conn, next_begun, next_if, run_begun};
    // Starts the script of a whole request; false where there was no room for it, or no number is left.
    pub(crate) fn begin<O: Outside>(&mut self, children: &mut u64, out: &mut O) -> bool
        ensures value { self.new ≡ begun_conn result children.old self.old }
        ensures next { children.new ≡ next_begun result self.old children.old }
        ensures told { Adds (O.trace out.old) (acts_begun result children.old self.old) (O.trace out.new) }
        ensures limit { O.limit out.new ≡ O.limit out.old }
    {
        match self.take_stage() {
            Stage::Starting(launch, request) => self.start(launch, request, children, out),
            stage => {
                self.put(stage);
                true
            }
        }
    }

    fn start<O: Outside>(
        &mut self,
        launch: Launch,
        request: Request,
        children: &mut u64,
        out: &mut O,
    ) -> bool
        ensures value { self.new ≡ begun_by result children.old request.body self.old }
        ensures next { children.new ≡ next_if result children.old }
        ensures told { Adds (O.trace out.old) (acts_of_start result children.old launch self.old.flags.c) (O.trace out.new) }
        ensures limit { O.limit out.new ≡ O.limit out.old }
    {
        let k = *children;
        let Ok(run) = self.run_of(k, &request) else {
            self.lose();
            return false;
        };
        if !self.give_start(launch, children, out) {
            self.lose();
            return false;
        }
        self.put_run(run);
        self.put(Stage::Running);
        true
    }

    // The run of a child for the request, whose whole body is there for its input.
    fn run_of(&self, k: u64, request: &Request) -> Result<Run, NoMemory>
        ensures { IfOk result (λ run. run ≡ run_begun self.now.site.now.limits k request.now.body) }
    {
        let mut run = Run::new(self.alloc, k, ScriptKind::Cgi, &self.site.limits);
        run.offer(request.body(), true)?;
        Ok(run)
    }

    // Gives the Start; false where there was no room for it, or no number is left.
    fn give_start<O: Outside>(&self, launch: Launch, children: &mut u64, out: &mut O) -> bool
        ensures told { Adds (O.trace out.old) (acts_of_start result children.old launch self.now.flags.c) (O.trace out.new) }
        ensures next { children.new ≡ next_if result children.old }
        ensures limit { O.limit out.new ≡ O.limit out.old }
    {
        let k = *children;
        let Some(next) = k.checked_add(1) else {
            return false;
        };
        let act = Act::Start {
            k,
            c: self.flags.c(),
            j: 0,
            hop: 0,
            launch,
        };
        match out.act(&act) {
            Acted::Done => {
                *children = next;
                true
            }
            Acted::NoRoom => false,
        }
    }
}
