// Outsides that end beside each other.
ghost use Rattle.std.specs.Prelude.{◌≡◌, true, All};
ghost use Rattle.edge_loop.specs.Leaving.{both};

use std::sync::Wait;

// How long one of them waits at most before the others are looked at again, in milliseconds.
const TURN: u64 = 10;

// .. and where there is no other.
const LONG: u64 = 100;

/// How far it is that what is unsent is sent.
#[derive(Clone, Copy, Debug, PartialEq, Eq)]
pub enum Sending {
    /// Nothing is unsent.
    Done,
    /// More may be sent at once.
    Moving,
    /// No client takes more for now.
    Blocked,
}

impl Sending {
    // How far two are.
    fn and(self, other: Sending) -> Sending
        ensures { result ≡ both self other }
    {
        match (self, other) {
            (Sending::Moving, _) | (_, Sending::Moving) => Sending::Moving,
            (Sending::Blocked, _) | (_, Sending::Blocked) => Sending::Blocked,
            _ => Sending::Done,
        }
    }
}

/// The outside of a loop that is over.
pub trait Leaving {
    /// It has no child, and takes no further client.
    ghost is_halted: { Self → Type 0 };

    /// What was written to its clients was sent or given up.
    ghost is_sent: { Self → Type 0 };

    /// Sends some of what is unsent. It doesn't wait.
    fn send_some(&mut self) -> Sending
        ensures halted { is_halted self.old → is_halted self.new }
        ensures sent { result ≡ Sending.Done → is_sent self.new };

    /// Waits until a client takes more or the clock shows a tick, and no longer than so many milliseconds.
    fn wait_to_send(&mut self, millis: u64)
        ensures { is_halted self.old → is_halted self.new };
}

/// Sends what is unsent of one loop that is over.
pub(crate) fn send_one<E: Leaving, R: Wait>(rt: &R, out: &mut E)
    ensures halted { E.is_halted out.old → E.is_halted out.new }
    ensures sent { E.is_sent out.new }
{
    for _ in rt.forever() {
        match out.send_some() {
            Sending::Done => return,
            Sending::Moving => {}
            Sending::Blocked => out.wait_to_send(LONG),
        }
    }
    unreachable!()
}

/// Sends what is unsent of loops that are over, by turns, so that many take no longer than one.
pub fn send_all<E: Leaving, R: Wait>(rt: &R, outs: &mut [E])
    ensures halted { All E.is_halted outs.old → All E.is_halted outs.new }
    ensures sent { All E.is_sent outs.new }
{
    for _ in rt.forever() {
        if send_turn(outs) {
            return;
        }
    }
    unreachable!()
}

// Each sends some, and where none can each waits for a turn. It answers whether nothing is unsent.
fn send_turn<E: Leaving>(outs: &mut [E]) -> bool
    ensures halted { All E.is_halted outs.old → All E.is_halted outs.new }
    ensures sent { result ≡ true → All E.is_sent outs.new }
{
    match send_round(outs) {
        Sending::Done => true,
        Sending::Moving => false,
        Sending::Blocked => {
            wait_round(outs);
            false
        }
    }
}

// Each sends some.
fn send_round<E: Leaving>(outs: &mut [E]) -> Sending
    ensures halted { All E.is_halted outs.old → All E.is_halted outs.new }
    ensures sent { result ≡ Sending.Done → All E.is_sent outs.new }
{
    let mut all = Sending::Done;
    for i in 0..outs.len() {
        all = all.and(outs[i].send_some());
    }
    all
}

// Each waits for a turn.
fn wait_round<E: Leaving>(outs: &mut [E])
    ensures { All E.is_halted outs.old → All E.is_halted outs.new }
{
    for i in 0..outs.len() {
        outs[i].wait_to_send(TURN);
    }
}
