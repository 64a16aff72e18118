// Why a site is refused.
ghost use Rattle.std.specs.Prelude.{◌≡◌, ◌≢◌, ◌++◌, IfOk};

use host_base::{NoMemory, Text};
use std::alloc::Global;

/// Why a site is refused. A key is named as in the site file: `port`, `limits.head`, `script[1].path`,
/// `host[0].script[1].path`.
#[derive(Drop, Debug)]
pub enum SiteFault {
    /// The bytes are no TOML, or no UTF-8.
    NotToml,
    /// A key that is required isn't there.
    Missing(Text),
    /// The value of a key is of another kind.
    WrongKind(Text),
    /// The value of a key is outside its range.
    OutOfRange(Text),
    /// A key that there is none of.
    Unknown(Text),
    /// A host's name or alias that stood before without regard to ASCII case, or the name of a second
    /// host that takes any name.
    DoubleHost(Text),
    /// A path that a script of the host has already.
    DoubleScript(Text),
    NoMemory,
}

impl From<NoMemory> for SiteFault {
    ghost use Rattle.std.specs.Prelude.{◌≡◌};
    ghost use Rattle.site_file.specs.declared.fault.SiteFault.{SiteFault};
    ghost use Rattle.site_file.specs.declared.fault.SiteFault.TheVariants as Fault;

    ghost from_gives = { λ _ fault. fault ≡ Fault.NoMemory };

    fn from(_: NoMemory) -> Self {
        SiteFault::NoMemory
    }
}

/// A key, and where its table stands: nothing for the top, else as `host[0].`.
#[derive(Clone, Copy)]
pub struct Key<'k> {
    pub place: &'k str,
    pub name: &'k str,
}

impl Key<'_> {
    fn text(self, alloc: Global) -> Result<Text, NoMemory>
        ensures { IfOk result (λ text. text ≡ self.entry.place.now ++ self.entry.name.now) }
    {
        let place = self.place;
        let name = self.name;
        Ok(Text::from_string(format!(in alloc; "{place}{name}")?))
    }

    pub fn missing(self, alloc: Global) -> SiteFault
        ensures { result ≢ SiteFault.NoMemory → result ≡ SiteFault.Missing (self.entry.place.now ++ self.entry.name.now) }
    {
        match self.text(alloc) {
            Ok(key) => SiteFault::Missing(key),
            Err(_) => SiteFault::NoMemory,
        }
    }

    pub fn wrong_kind(self, alloc: Global) -> SiteFault
        ensures { result ≢ SiteFault.NoMemory → result ≡ SiteFault.WrongKind (self.entry.place.now ++ self.entry.name.now) }
    {
        match self.text(alloc) {
            Ok(key) => SiteFault::WrongKind(key),
            Err(_) => SiteFault::NoMemory,
        }
    }

    pub fn out_of_range(self, alloc: Global) -> SiteFault
        ensures { result ≢ SiteFault.NoMemory → result ≡ SiteFault.OutOfRange (self.entry.place.now ++ self.entry.name.now) }
    {
        match self.text(alloc) {
            Ok(key) => SiteFault::OutOfRange(key),
            Err(_) => SiteFault::NoMemory,
        }
    }

    pub fn unknown(self, alloc: Global) -> SiteFault
        ensures { result ≢ SiteFault.NoMemory → result ≡ SiteFault.Unknown (self.entry.place.now ++ self.entry.name.now) }
    {
        match self.text(alloc) {
            Ok(key) => SiteFault::Unknown(key),
            Err(_) => SiteFault::NoMemory,
        }
    }
}
