// What makes loops over memory for the tests.
use super::super::kids;
use super::super::kids::{FakeSpawner, Start};
use super::super::pipes::{all_or_none, one_more};
use super::super::ports::{Client, Ending, FakePorts, ONE_BYTE};
use edge_loop::{Maker, Order, Orders, Parts};
use host_base::Site;
use host_trace::EnterFault;
use std::alloc::Global;
use std::sync::Wait;

/// What the devices of a loop do.
#[derive(Clone, Copy)]
pub struct Plan {
    /// So many clients come, each of whom gives one byte. To take one fails at each try, or never.
    pub clients: u32,
    pub accepts_fail: bool,
    /// So many waits fail.
    pub waits_fail: u32,
    /// What becomes of each start, and how many asks for that are too early.
    pub start: Start,
    pub starts_after: u32,
    /// A child runs on at so many asks for its exit.
    pub exits_after: u32,
    /// What comes after the byte of each client.
    pub ending: Ending,
    /// What is ordered, and before which event.
    pub order: Option<Order>,
    pub at: u32,
}

impl Plan {
    // What each program does: it gives one byte, and takes all.
    fn program(&self) -> kids::Plan {
        kids::Plan {
            pieces: 1,
            exits_after: self.exits_after,
            start: self.start,
            starts_after: self.starts_after,
            ..kids::PLAIN
        }
    }

    fn ports(&self, alloc: Global) -> FakePorts {
        let accepts_fail = all_or_none(self.accepts_fail);
        let client = Client {
            ending: self.ending,
            ..ONE_BYTE
        };
        FakePorts::new(alloc, client, self.clients, accepts_fail, self.waits_fail)
    }
}

/// One order, before one event.
#[derive(Drop)]
pub struct FakeOrders {
    order: Option<Order>,
    at: u32,
    stop: bool,
    drain: bool,
}

impl Orders for FakeOrders {
    ghost told = { λ o. record { stop = o.stop; drain = o.drain } };

    fn next_order(&mut self) -> Option<Order> {
        if self.at > 0 {
            self.at -= 1;
            return None;
        }
        let order = self.order.take();
        match order {
            Some(Order::Stop) => self.stop = true,
            Some(Order::Drain) => self.drain = true,
            None => {}
        }
        order
    }
}

/// So many loops can be made.
#[derive(Drop)]
pub struct FakeMaker<R> {
    rt: R,
    alloc: Global,
    plan: Plan,
    left: u32,
    faults: u64,
}

impl<R> FakeMaker<R> {
    pub fn new(rt: R, alloc: Global, plan: Plan, left: u32) -> Self {
        FakeMaker {
            rt,
            alloc,
            plan,
            left,
            faults: 0,
        }
    }
}

impl<R: Wait + Copy + Drop> Maker for FakeMaker<R> {
    type Ports = FakePorts;

    type Spawner = FakeSpawner<R>;

    type Orders = FakeOrders;

    ghost faults = { λ m. m.faults };

    fn listen(&mut self, _site: &Site, _loops: u32) -> Result<(), EnterFault> {
        Ok(())
    }

    fn make(&mut self) -> Result<Parts<FakePorts, FakeSpawner<R>, FakeOrders>, EnterFault> {
        if self.left == 0 {
            self.faults = one_more(self.faults);
            return Err(EnterFault::Failed);
        }
        self.left -= 1;
        Ok(Parts {
            ports: self.plan.ports(self.alloc),
            spawner: FakeSpawner::new(self.rt, self.alloc, self.plan.program()),
            orders: FakeOrders {
                order: self.plan.order,
                at: self.plan.at,
                stop: false,
                drain: false,
            },
        })
    }

    fn begin(&mut self) {}
}
