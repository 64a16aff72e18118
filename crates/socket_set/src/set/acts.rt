// What the acts do to the clients of a loop.
ghost use Rattle.std.specs.Prelude.{◌≡◌, is_ok, if◌then◌else◌};

use super::{Ports, SocketSet};
use host_base::{NoMemory, Text};
use host_trace::{Act, Acted};

impl<P: Ports + Drop> SocketSet<P> {
    ghost use Rattle.std.specs.Prelude.{◌≡◌, length, sum_by, OnOk, OnErr};
    ghost use Rattle.socket_set.specs.Clients.{UnlessShut, Keeps, WantsMore, Writes, Upgrades, Frames, Shuts};
    ghost use Rattle.socket_set.specs.Sets.{On, Acts};

    /// Does an act on a client. Others do nothing.
    pub fn act(&mut self, act: &Act) -> Acted
        ensures { Acts act.now result self.old self.new }
    {
        match act {
            Act::WantClient { c } => self.want(*c),
            Act::Write { c, bytes } => return acted(self.write(*c, bytes.as_slice())),
            Act::Upgrade { c, rest } => return acted(self.upgrade(*c, rest.as_slice())),
            Act::Says { c, texts } => self.say(*c, texts.as_slice()),
            Act::CloseWs { c, code } => self.close(*c, *code),
            Act::Shut { c, .. } => self.shut(*c),
            _ => {}
        }
        Acted::Done
    }

    fn want(&mut self, c: u64)
        ensures { On c (UnlessShut WantsMore) self.old self.new }
    {
        if let Some(client) = self.clients.get_mut(&c) {
            client.want();
            client.enqueue(&mut self.due, c);
        }
    }

    fn write(&mut self, c: u64, bytes: &[u8]) -> Result<(), NoMemory>
        ensures ok { OnOk result (On c (UnlessShut (Writes bytes.now)) self.old self.new) }
        ensures err { OnErr result (On c Keeps self.old self.new) }
    {
        let Some(client) = self.clients.get_mut(&c) else {
            return Ok(());
        };
        client.write(bytes)?;
        client.enqueue(&mut self.due, c);
        Ok(())
    }

    fn upgrade(&mut self, c: u64, rest: &[u8]) -> Result<(), NoMemory>
        ensures ok { OnOk result (On c (UnlessShut Upgrades) self.old self.new) }
        ensures err { OnErr result (On c Keeps self.old self.new) }
    {
        let Some(client) = self.clients.get_mut(&c) else {
            return Ok(());
        };
        client.upgrade(self.alloc, rest)?;
        client.enqueue(&mut self.due, c);
        Ok(())
    }

    fn say(&mut self, c: u64, texts: &[Text])
        ensures { On c (UnlessShut (Frames (sum_by length texts.now))) self.old self.new }
    {
        if let Some(client) = self.clients.get_mut(&c) {
            client.say(texts);
            client.enqueue(&mut self.due, c);
            self.lengthen_round();
        }
    }

    fn close(&mut self, c: u64, code: u16)
        ensures { On c (UnlessShut (Frames 0)) self.old self.new }
    {
        if let Some(client) = self.clients.get_mut(&c) {
            client.close(code);
            client.enqueue(&mut self.due, c);
        }
    }

    fn shut(&mut self, c: u64)
        ensures { On c Shuts self.old self.new }
    {
        if let Some(client) = self.clients.get_mut(&c) {
            if !client.is_shut() {
                self.shut = self.shut.saturating_add(1);
            }
            client.shut();
            client.enqueue(&mut self.due, c);
            let _ = self.leaving.push_back(c);
            self.resume();
        }
    }
}

fn acted(done: Result<(), NoMemory>) -> Acted
    ensures { result ≡ (if is_ok done then Acted.Done else Acted.NoRoom) }
{
    match done {
        Ok(()) => Acted::Done,
        Err(NoMemory) => Acted::NoRoom,
    }
}
