// Events are told to a connection of a site.
ghost use Rattle.std.specs.Prelude.{◌≡◌};
ghost use Rattle.host_base.specs.SiteRules.{IsServed};
ghost use Rattle.reply_writer.specs.WholeRules.{IsStamp};
ghost use Rattle.conn_phase.specs.Phase.{may_step, site_of};

use super::recorder::Recorder;
use conn_phase::Phase;
use host_base::Site;
use host_trace::Event;
use reply_writer::DATES_END;
use std::alloc::Global;

// What the clock shows, where a date can name it.
fn stamp_of(clock: Option<u64>) -> Option<u64>
    ensures { IsStamp result }
{
    match clock {
        Some(secs) if secs < DATES_END => Some(secs),
        _ => None,
    }
}

fn secs_of(event: &Event, clock: Option<u64>) -> Option<u64> {
    match event {
        Event::Tick { secs } => Some(*secs),
        _ => clock,
    }
}

// A step of a connection, of which nothing is said but that the next one may come.
fn tell_event(
    conn: &mut Phase<'_>,
    event: Event,
    now: Option<u64>,
    children: &mut u64,
    out: &mut Recorder,
)
    requires stamp { IsStamp now }
    requires served { IsServed (site_of conn.old) }
    requires talks { may_step conn.old }
    ensures served { IsServed (site_of conn.new) }
    ensures talks { may_step conn.new }
{
    conn.step(event, now, children, out);
}

// Tells the events to a connection.
fn drive(conn: &mut Phase<'_>, events: Vec<Option<Event>>, out: &mut Recorder)
    requires served { IsServed (site_of conn.old) }
    requires talks { may_step conn.old }
{
    let mut children = 0u64;
    let mut clock = None;
    for event in events {
        match event {
            None => out.told.mark(),
            Some(event) => {
                clock = secs_of(&event, clock);
                tell_event(conn, event, stamp_of(clock), &mut children, out);
            }
        }
    }
}

// Lets a value go.
fn let_go<T: Drop>(_value: T) {}

// Hands the events to a connection of the site, with an act that finds no room, and hands out what was recorded. Nothing in
// place of an event ends a step.
pub fn play(
    alloc: Global,
    site: &Site,
    events: Vec<Option<Event>>,
    refused: Option<u32>,
) -> Recorder
    requires { IsServed site.now }
{
    let mut conn = Phase::new(alloc, site, 0);
    let mut out = Recorder::new(alloc, refused);
    drive(&mut conn, events, &mut out);
    let_go(conn);
    out
}
