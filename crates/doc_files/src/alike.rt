// What is the same.
ghost use Rattle.std.specs.Prelude.{◌≡◌, true};

use crate::memory::DocFile;
use host_base::{DocRoot, Pair};

/// Whether two are the same.
pub trait Alike: Sized {
    fn is_as(&self, other: &Self) -> bool
        ensures { result ≡ true → self.now ≡ other.now };
}

/// Whether two lists are the same.
pub fn are_alike<T: Alike>(one: &[T], other: &[T]) -> bool
    ensures { result ≡ true → one.now ≡ other.now }
{
    let mut rest = other;
    for item in one {
        match rest {
            [first, more @ ..] if item.is_as(first) => rest = more,
            _ => return false,
        }
    }
    rest.is_empty()
}

fn are_bytes(one: &[u8], other: &[u8]) -> bool
    ensures { result ≡ true → one.now ≡ other.now }
{
    one == other
}

impl Alike for Pair {
    fn is_as(&self, other: &Self) -> bool {
        are_bytes(self.name.as_bytes(), other.name.as_bytes())
            && are_bytes(self.value.as_bytes(), other.value.as_bytes())
    }
}

impl Alike for DocRoot {
    fn is_as(&self, other: &Self) -> bool {
        are_bytes(self.root.as_bytes(), other.root.as_bytes())
            && are_alike(self.types.as_slice(), other.types.as_slice())
    }
}

impl Alike for DocFile {
    fn is_as(&self, other: &Self) -> bool {
        are_bytes(self.root.as_bytes(), other.root.as_bytes())
            && are_bytes(self.path.as_bytes(), other.path.as_bytes())
            && are_bytes(self.bytes.as_slice(), other.bytes.as_slice())
    }
}
