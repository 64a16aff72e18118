// The table of limits.
ghost use Rattle.std.specs.Prelude.{◌≡◌, ◌<◌, ◌≤◌, ◌^◌, IfOk, codes};
ghost use Rattle.toml.specs.View.{table_view};
ghost use Rattle.site_file.specs.Keys.{optional_number};
ghost use Rattle.site_file.specs.SiteFile.{byte_limits_in, tick_limits_in, count_limits_in, limits_in, limits_of};
ghost use Rattle.site_file.specs.Steps.{Reads};

use crate::fault::{Key, SiteFault};
use crate::keys::optional_number;
use crate::said::{ByteLimits, CountLimits, TickLimits};
use crate::tables::optional_table;
use host_base::Limits;
use std::alloc::Global;
use toml::Table;

// A limit that fits 32 bits.
fn short(
    alloc: Global,
    table: &Table,
    key: Key,
    least: u32,
    greatest: u32,
    default: u32,
) -> Result<u32, SiteFault>
    requires { default ≤ greatest }
    ensures { Reads (optional_number key.entry.place.now (table_view table.now) key.entry.name.now least greatest default) result }
{
    let number = optional_number(
        alloc,
        table,
        key,
        u64::from(least),
        u64::from(greatest),
        u64::from(default),
    )?;
    Ok(number as u32)
}

#[tactic(auto, unfolding(crate::specs::SiteFile::byte_limits_in))]
fn byte_limits_in(alloc: Global, place: &str, table: &Table) -> Result<ByteLimits, SiteFault>
    ensures { Reads (byte_limits_in place.now (table_view table.now)) result }
{
    let head = optional_number(
        alloc,
        table,
        Key {
            place,
            name: "head",
        },
        1_024,
        65_536,
        16_384,
    )?;
    let target = optional_number(
        alloc,
        table,
        Key {
            place,
            name: "target",
        },
        64,
        32_000,
        8_000,
    )?;
    let body = optional_number(
        alloc,
        table,
        Key {
            place,
            name: "body",
        },
        0,
        16_777_216,
        1_048_576,
    )?;
    let output = optional_number(
        alloc,
        table,
        Key {
            place,
            name: "output",
        },
        8_192,
        16_777_216,
        16_777_216,
    )?;
    Ok(ByteLimits {
        head,
        target,
        body,
        output,
    })
}

#[tactic(auto, unfolding(crate::specs::SiteFile::tick_limits_in))]
fn tick_limits_in(alloc: Global, place: &str, table: &Table) -> Result<TickLimits, SiteFault>
    ensures { Reads (tick_limits_in place.now (table_view table.now)) result }
{
    let run = short(
        alloc,
        table,
        Key {
            place,
            name: "run_ticks",
        },
        1,
        864_000,
        300,
    )?;
    let idle = short(
        alloc,
        table,
        Key {
            place,
            name: "idle_ticks",
        },
        1,
        36_000,
        150,
    )?;
    let linger = short(
        alloc,
        table,
        Key {
            place,
            name: "linger_ticks",
        },
        1,
        600,
        20,
    )?;
    Ok(TickLimits { run, idle, linger })
}

#[tactic(auto, unfolding(crate::specs::SiteFile::count_limits_in))]
fn count_limits_in(alloc: Global, place: &str, table: &Table) -> Result<CountLimits, SiteFault>
    ensures { Reads (count_limits_in place.now (table_view table.now)) result }
{
    let redirects = short(
        alloc,
        table,
        Key {
            place,
            name: "redirects",
        },
        0,
        10,
        10,
    )?;
    let connections = short(
        alloc,
        table,
        Key {
            place,
            name: "connections",
        },
        1,
        1_024,
        256,
    )?;
    let children = short(
        alloc,
        table,
        Key {
            place,
            name: "children",
        },
        1,
        256,
        64,
    )?;
    let ws_text = optional_number(
        alloc,
        table,
        Key {
            place,
            name: "ws_text",
        },
        1,
        1_048_576,
        65_536,
    )?;
    Ok(CountLimits {
        redirects,
        connections,
        children,
        ws_text,
    })
}

#[tactic(auto, unfolding(crate::specs::SiteFile::limits_in))]
fn limits_in(alloc: Global, place: &str, table: &Table) -> Result<Limits, SiteFault>
    ensures { Reads (limits_in place.now (table_view table.now)) result }
{
    let bytes = byte_limits_in(alloc, place, table)?;
    let ticks = tick_limits_in(alloc, place, table)?;
    let counts = count_limits_in(alloc, place, table)?;
    Ok(Limits {
        head: bytes.head,
        target: bytes.target,
        body: bytes.body,
        output: bytes.output,
        run_ticks: ticks.run,
        idle_ticks: ticks.idle,
        linger_ticks: ticks.linger,
        redirects: counts.redirects,
        connections: counts.connections,
        children: counts.children,
        ws_text: counts.ws_text,
    })
}

/// The limits of a file: those of its table `limits`, and the defaults.
#[tactic(auto, unfolding(crate::specs::SiteFile::limits_of))]
pub fn limits_of(alloc: Global, table: &Table) -> Result<Limits, SiteFault>
    ensures { Reads (limits_of (table_view table.now)) result }
{
    match optional_table(
        alloc,
        table,
        Key {
            place: "",
            name: "limits",
        },
    )? {
        Some(limits) => limits_in(alloc, "limits.", limits),
        None => limits_in(alloc, "limits.", &Table::new(alloc)),
    }
}
