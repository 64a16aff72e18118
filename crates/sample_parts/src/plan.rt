// What the connections of a sample are.
ghost use Rattle.std.specs.Prelude.{◌≡◌, ◌<◌, IfOk};
ghost use Rattle.sample_parts.specs.Plan.{has_child, kind_at, kind_numbered, plan};

use host_base::NoMemory;
use std::alloc::Global;

/// What a connection of a sample does.
#[derive(Clone, Copy, Debug, PartialEq, Eq)]
pub enum Kind {
    /// It sends a GET, which the script answers.
    Get,
    /// It sends a GET for a path of no script.
    Missing,
    /// It sends a HEAD, which the script answers.
    Head,
    /// It sends a GET, and the script's header has no end.
    CutHeader,
    /// It sends a GET, and the script can't be started.
    NoStart,
    /// It sends a GET, and fails before the script's output ends.
    Leaves,
}

/// A connection of a sample, with its number and, where it has a child, the child's.
#[derive(Clone, Copy, Debug)]
pub struct Planned {
    pub c: u64,
    pub k: u64,
    pub kind: Kind,
}

fn kind_numbered(number: u64) -> Kind
    ensures { result ≡ kind_numbered number }
{
    match number {
        0 => Kind::Get,
        1 => Kind::Missing,
        2 => Kind::Head,
        3 => Kind::CutHeader,
        4 => Kind::NoStart,
        _ => Kind::Leaves,
    }
}

fn has_child(kind: Kind) -> bool
    ensures { result ≡ has_child kind }
{
    match kind {
        Kind::Missing => false,
        _ => true,
    }
}

/// The connections of a sample.
pub fn plan(alloc: Global, seed: u64, count: u32) -> Result<Vec<Planned>, NoMemory>
    ensures { IfOk result (λ planned. planned.items ≡ plan seed count) }
{
    let mut planned = Vec::new(alloc);
    let mut x = seed % 65537;
    let mut k = 0;
    for c in 0..count as u64 {
        x = (x * 75 + 74) % 65537;
        let kind = kind_numbered(x / 16 % 6);
        planned.push(Planned { c, k, kind })?;
        if has_child(kind) {
            k += 1;
        }
    }
    Ok(planned)
}
