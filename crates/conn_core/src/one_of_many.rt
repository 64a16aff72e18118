// A connection of this server is one of many.
ghost use Rattle.conn_core.specs.Given.{all_laws};
ghost use Rattle.conn_core.specs.Kind.{conn_kind};

use crate::conn::Conn;
use conn_phase::Phase;
use host_base::Site;
use host_trace::{Event, Outside};
use many_conns::{Connection, NewConnection};
use std::alloc::Global;

impl<'s> Connection for Conn<'s> {
    ghost kind = { conn_kind };

    fn step<O: Outside>(
        &mut self,
        ev: Event,
        now: Option<u64>,
        children: &mut u64,
        out: &mut O,
    ) -> bool {
        self.conn.step(ev, now, children, out);
        self.conn.is_held()
    }

    fn fits(&self, ev: &Event) -> bool {
        self.conn.fits(ev)
    }

    fn last_child(&self) -> Option<u64> {
        self.conn.last_child()
    }

    fn unsettled_child(&self) -> Option<u64> {
        self.conn.unsettled_child()
    }

    fn needs_slot(&self) -> bool {
        self.conn.is_held()
    }

    ghost laws = { all_laws };
}

impl<'s> NewConnection<'s> for Conn<'s> {
    fn new(alloc: Global, site: &'s Site, c: u64) -> Self {
        Conn {
            conn: Phase::new(alloc, site, c),
        }
    }
}
