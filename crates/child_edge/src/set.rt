// The children that run.
ghost use Rattle.std.specs.Prelude.{◌≡◌, ◌+◌, ◌%◌, ◌^◌, ◌≤◌, ◌<◌, ◌++◌, ◌∷◌, [], ◌==◌, nat_lt, count_by, vec_len, IfOk, OnOk, OnErr, IfSome, IsNone, is_ok, if◌then◌else◌};
ghost use Rattle.host_base.specs.Outsides.{Rose};
ghost use Rattle.child_edge.specs.Rows.{IsQuiet, Each, OneSays, AllSound, OnKept, Feeds, Stays, IsNewRow, StartsRow, Ends, AreEnded, Changes, Kills, Releases, want_marks, end_marks, kept, is_kept, runs};
ghost use Rattle.child_edge.specs.Starts.{counts_after, no_starts};

use super::round::{end_rows, round};
use super::{Kid, Row, SpawnFault, Spawner, StartCounts, acts};
use host_base::{Bytes, Launch, NoMemory};
use host_trace::Event;
use pipe_pump::{feed_rings, rings};
use std::alloc::Global;

/// How many bytes a ring has room for.
const RING: usize = 65_536;

/// The children of a loop, by their numbers, each until it is settled.
#[derive(Drop)]
pub struct ChildSet<S: Spawner> {
    spawner: S,
    alloc: Global,
    cap: u32,
    rows: Vec<Row<S::Kid>>,
    /// Where the next round begins: behind the child that gave the last event.
    first: usize,
    counts: StartCounts,
}

impl<S: Spawner + Drop> ChildSet<S> {
    /// Takes the room for `cap` children.
    pub fn new(alloc: Global, spawner: S, cap: u32) -> Result<ChildSet<S>, NoMemory>
        ensures empty { IfOk result (λ set. set.rows.items ≡ []) }
        ensures cap { IfOk result (λ set. set.cap ≡ cap) }
        ensures spawner { IfOk result (λ set. set.spawner ≡ spawner) }
        ensures counts { IfOk result (λ set. set.counts ≡ no_starts) }
    {
        let rows = Vec::with_capacity(alloc, cap as usize)?;
        Ok(ChildSet {
            spawner,
            alloc,
            cap,
            rows,
            first: 0,
            counts: StartCounts::none(),
        })
    }

    /// One event of a child, if there is any to tell.
    pub fn poll(&mut self) -> Option<Event>
        requires { AllSound S.Kid.tells self.old.rows.items }
        ensures some { IfSome result (λ event. OneSays S.Kid.tells event (kept self.old.rows.items) self.new.rows.items) }
        ensures none { IsNone result → Each (IsQuiet S.Kid.tells) (kept self.old.rows.items) self.new.rows.items }
        ensures cap { self.new.cap ≡ self.old.cap }
        ensures counts { self.new.counts ≡ self.old.counts }
        ensures faults { S.faults self.old.spawner ≤ S.faults self.new.spawner }

        // A kid that is kept no more was given back.
        ensures kids { (S.taken self.new.spawner + vec_len self.new.rows) % 2 ^ 64 ≡ (S.taken self.old.spawner + vec_len self.old.rows) % 2 ^ 64 }
        ensures sound { AllSound S.Kid.tells self.new.rows.items }
    {
        self.drop_settled();
        let first = self.first.min(self.rows.len());
        let heard = round(self.alloc, &mut self.rows, first)?;
        self.first = heard.at.saturating_add(1);
        Some(heard.event)
    }

    #[tactic(auto, using(crate::proofs::Lists::sound_filter, crate::proofs::Kept::one_taken))]
    fn drop_settled(&mut self)
        requires { AllSound S.Kid.tells self.old.rows.items }
        ensures kept { self.new.rows.items ≡ kept self.old.rows.items }
        ensures cap { self.new.cap ≡ self.old.cap }
        ensures counts { self.new.counts ≡ self.old.counts }
        ensures faults { S.faults self.old.spawner ≤ S.faults self.new.spawner }
        ensures kids { (S.taken self.new.spawner + vec_len self.new.rows) % 2 ^ 64 ≡ (S.taken self.old.spawner + vec_len self.old.rows) % 2 ^ 64 }
        ensures sound { AllSound S.Kid.tells self.new.rows.items }
    {
        let mut at = 0;
        while at < self.rows.len() {
            if self.rows[at].is_settled() {
                let row = self.rows.remove(at);
                self.spawner.take_back(row.into_kid());
            } else {
                at += 1;
            }
        }
    }

    /// Adds bytes to the input of child k.
    pub fn feed(&mut self, k: u64, bytes: &[u8]) -> Result<(), NoMemory>
        requires { AllSound S.Kid.tells self.old.rows.items }
        ensures fed { OnKept (Feeds S.Kid.tells (if is_ok result then bytes.now else [])) k self.old.rows.items self.new.rows.items }
        ensures cap { self.new.cap ≡ self.old.cap }
        ensures counts { self.new.counts ≡ self.old.counts }
        ensures spawner { self.new.spawner ≡ self.old.spawner }
        ensures sound { AllSound S.Kid.tells self.new.rows.items }
    {
        acts::feed(&mut self.rows, k, bytes)
    }

    /// One event of the output of child k is asked for.
    pub fn want(&mut self, k: u64)
        requires { AllSound S.Kid.tells self.old.rows.items }
        ensures same { OnKept (Changes S.Kid.tells want_marks) k self.old.rows.items self.new.rows.items }
        ensures cap { self.new.cap ≡ self.old.cap }
        ensures counts { self.new.counts ≡ self.old.counts }
        ensures spawner { self.new.spawner ≡ self.old.spawner }
        ensures sound { AllSound S.Kid.tells self.new.rows.items }
    {
        acts::want(&mut self.rows, k);
    }

    /// Closes the input of child k after what was fed.
    pub fn end_input(&mut self, k: u64)
        requires { AllSound S.Kid.tells self.old.rows.items }
        ensures same { OnKept (Changes S.Kid.tells end_marks) k self.old.rows.items self.new.rows.items }
        ensures cap { self.new.cap ≡ self.old.cap }
        ensures counts { self.new.counts ≡ self.old.counts }
        ensures spawner { self.new.spawner ≡ self.old.spawner }
        ensures sound { AllSound S.Kid.tells self.new.rows.items }
    {
        acts::end_input(&mut self.rows, k);
    }

    /// Kills child k.
    pub fn kill(&mut self, k: u64)
        requires { AllSound S.Kid.tells self.old.rows.items }
        ensures killed { OnKept (Kills S.Kid.tells) k self.old.rows.items self.new.rows.items }
        ensures cap { self.new.cap ≡ self.old.cap }
        ensures counts { self.new.counts ≡ self.old.counts }
        ensures spawner { self.new.spawner ≡ self.old.spawner }
        ensures sound { AllSound S.Kid.tells self.new.rows.items }
    {
        acts::kill(&mut self.rows, k);
    }

    /// Gives up the output of child k.
    pub fn release(&mut self, k: u64)
        requires { AllSound S.Kid.tells self.old.rows.items }
        ensures same { OnKept (Releases S.Kid.tells) k self.old.rows.items self.new.rows.items }
        ensures cap { self.new.cap ≡ self.old.cap }
        ensures counts { self.new.counts ≡ self.old.counts }
        ensures spawner { self.new.spawner ≡ self.old.spawner }
        ensures sound { AllSound S.Kid.tells self.new.rows.items }
    {
        acts::release(&mut self.rows, k);
    }

    /// How many children are kept. One that is settled isn't.
    pub fn len(&self) -> usize
        ensures { result ≡ count_by is_kept self.now.rows.items }
    {
        self.rows
            .iter()
            .filter(|row| !(row.exited && row.input_ended && row.output_ended))
            .count()
    }

    /// No child is kept.
    pub fn is_empty(&self) -> bool
        ensures { result ≡ (count_by is_kept self.now.rows.items == 0) }
    {
        self.len() == 0
    }

    /// One more can be started.
    pub fn has_room(&self) -> bool
        ensures { result ≡ nat_lt (count_by is_kept self.now.rows.items) self.now.cap }
    {
        self.len() < self.cap as usize
    }

    /// Ends every child: it waits for the start of each that is being started, kills and reaps them all, and only then
    /// the spawner takes back the kids. None is kept.
    pub fn end(&mut self)
        ensures ended { AreEnded S.Kid.tells self.old.rows.items }
        ensures none { self.new.rows.items ≡ [] }
        ensures cap { self.new.cap ≡ self.old.cap }
        ensures counts { self.new.counts ≡ self.old.counts }
        ensures faults { S.faults self.old.spawner ≤ S.faults self.new.spawner }
        ensures taken { S.taken self.new.spawner % 2 ^ 64 ≡ (S.taken self.old.spawner + vec_len self.old.rows) % 2 ^ 64 }
    {
        self.end_kids();
        self.give_back();
    }

    // Waits for the start of each, kills and reaps it.
    fn end_kids(&mut self)
        ensures ended { Each (Ends S.Kid.tells) self.old.rows.items self.new.rows.items }
        ensures length { vec_len self.new.rows ≡ vec_len self.old.rows }
        ensures cap { self.new.cap ≡ self.old.cap }
        ensures counts { self.new.counts ≡ self.old.counts }
        ensures spawner { self.new.spawner ≡ self.old.spawner }
    {
        end_rows(&mut self.rows);
    }

    // The spawner takes back all kids.
    #[tactic(auto, using(crate::proofs::Kept::one_taken, crate::proofs::Kept::all_taken))]
    fn give_back(&mut self)
        ensures none { self.new.rows.items ≡ [] }
        ensures cap { self.new.cap ≡ self.old.cap }
        ensures counts { self.new.counts ≡ self.old.counts }
        ensures faults { S.faults self.old.spawner ≤ S.faults self.new.spawner }
        ensures taken { S.taken self.new.spawner % 2 ^ 64 ≡ (S.taken self.old.spawner + vec_len self.old.rows) % 2 ^ 64 }
    {
        while let Some(row) = self.rows.pop() {
            self.spawner.take_back(row.into_kid());
        }
    }

    /// How many of them were not told to have exited.
    pub fn running(&self) -> usize
        ensures { result ≡ count_by runs self.now.rows.items }
    {
        self.rows.iter().filter(|row| !row.exited).count()
    }

    /// Hands the start of child k of connection c over. What is answered is counted.
    pub fn start(&mut self, k: u64, c: u64, launch: &Launch) -> Result<(), SpawnFault>
        requires sound { AllSound S.Kid.tells self.old.rows.items }
        requires room { count_by is_kept self.old.rows.items < self.old.cap }
        ensures ok { OnOk result (StartsRow S.Kid.tells k c launch.now (kept self.old.rows.items) self.new.rows.items) }
        ensures err { OnErr result (self.new.rows.items ≡ kept self.old.rows.items) }
        ensures sound { AllSound S.Kid.tells self.new.rows.items }
        ensures cap { self.new.cap ≡ self.old.cap }
        ensures counts { self.new.counts ≡ counts_after result self.old.counts }
        ensures faults { S.faults self.old.spawner ≤ S.faults self.new.spawner }
        ensures failed { result ≡ Err SpawnFault.Failed → Rose (S.faults self.old.spawner) (S.faults self.new.spawner) }

        // A kid that is kept no more was given back, and the new one is kept.
        ensures kids { OnErr result ((S.taken self.new.spawner + vec_len self.new.rows) % 2 ^ 64 ≡ (S.taken self.old.spawner + vec_len self.old.rows) % 2 ^ 64) }
        ensures kid { OnOk result ((S.taken self.new.spawner + vec_len self.new.rows) % 2 ^ 64 ≡ (S.taken self.old.spawner + vec_len self.old.rows + 1) % 2 ^ 64) }
    {
        let started = self.try_start(k, c, launch);
        self.counts = self.counts.after(&started);
        started
    }

    #[tactic(auto, using(crate::proofs::Kept::one_started))]
    fn try_start(&mut self, k: u64, c: u64, launch: &Launch) -> Result<(), SpawnFault>
        requires sound { AllSound S.Kid.tells self.old.rows.items }
        ensures ok { OnOk result (StartsRow S.Kid.tells k c launch.now (kept self.old.rows.items) self.new.rows.items) }
        ensures err { OnErr result (self.new.rows.items ≡ kept self.old.rows.items) }
        ensures sound { AllSound S.Kid.tells self.new.rows.items }
        ensures cap { self.new.cap ≡ self.old.cap }
        ensures counts { self.new.counts ≡ self.old.counts }
        ensures faults { S.faults self.old.spawner ≤ S.faults self.new.spawner }
        ensures failed { result ≡ Err SpawnFault.Failed → Rose (S.faults self.old.spawner) (S.faults self.new.spawner) }
        ensures kids { OnErr result ((S.taken self.new.spawner + vec_len self.new.rows) % 2 ^ 64 ≡ (S.taken self.old.spawner + vec_len self.old.rows) % 2 ^ 64) }
        ensures kid { OnOk result ((S.taken self.new.spawner + vec_len self.new.rows) % 2 ^ 64 ≡ (S.taken self.old.spawner + vec_len self.old.rows + 1) % 2 ^ 64) }
    {
        self.drop_settled();
        if self.rows.reserve(1).is_err() {
            return Err(SpawnFault::NoMemory);
        }
        let row = self.start_row(k, c, launch)?;
        match self.rows.push(row) {
            Ok(()) => Ok(()),
            Err(_) => unreachable!(),
        }
    }

    #[tactic(auto, using(crate::proofs::Lists::sound_filter))]
    fn start_row(&mut self, k: u64, c: u64, launch: &Launch) -> Result<Row<S::Kid>, SpawnFault>
        ensures rows { self.new.rows ≡ self.old.rows }
        ensures cap { self.new.cap ≡ self.old.cap }
        ensures counts { self.new.counts ≡ self.old.counts }
        ensures row { IfOk result (IsNewRow S.Kid.tells k c launch.now) }
        ensures faults { S.faults self.old.spawner ≤ S.faults self.new.spawner }
        ensures failed { result ≡ Err SpawnFault.Failed → Rose (S.faults self.old.spawner) (S.faults self.new.spawner) }
        ensures taken { S.taken self.new.spawner ≡ S.taken self.old.spawner }
    {
        let Ok((ring, tap)) = rings(self.alloc, RING) else {
            return Err(SpawnFault::NoMemory);
        };
        let Ok((feeder, feed)) = feed_rings(self.alloc, RING) else {
            return Err(SpawnFault::NoMemory);
        };
        let kid = self.spawner.start(launch, ring, feed)?;
        Ok(Row::new(self.alloc, k, c, kid, tap, feeder))
    }
}
