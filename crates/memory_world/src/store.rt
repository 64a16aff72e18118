// A store in memory.
ghost use Rattle.std.specs.Prelude.{◌≡◌, Some};
ghost use Rattle.std.specs.List.{list_any};
ghost use Rattle.std.specs.Str.{bytes_eq};

use super::find::find;
use host_base::{Bytes, SiteStore, StoreFault, Text};

/// A file of a store in memory.
#[derive(Drop)]
pub struct StoredFile {
    pub name: Text,
    pub bytes: Bytes,
}

/// A store of some files. Reading one that it has not, or whose name is among `failing`, fails.
#[derive(Drop)]
pub struct MemoryStore {
    files: Vec<StoredFile>,
    failing: Vec<Text>,
    faults: u64,
}

impl MemoryStore {
    ghost use Rattle.std.specs.Prelude.{◌≡◌, Some, map};
    ghost use Rattle.memory_world.specs.StoreWords.{stored_of};

    pub fn new(files: Vec<StoredFile>, failing: Vec<Text>) -> Self
        ensures { ⟦<MemoryStore as SiteStore>⟧.stored result ≡ Some (map stored_of files.items) }
    {
        MemoryStore {
            files,
            failing,
            faults: 0,
        }
    }

    /// How many reads failed.
    pub fn faults(&self) -> u64
        ensures { result ≡ ⟦<MemoryStore as SiteStore>⟧.faults self.now }
    {
        self.faults
    }
}

fn is_among(name: &str, names: &[Text]) -> bool
    ensures { result ≡ list_any (bytes_eq name.now) names.now }
{
    names.iter().any(|other| name == other.as_str())
}

impl SiteStore for MemoryStore {
    ghost use Rattle.std.specs.Prelude.{◌≡◌, ◌≤◌, ◌↔◌, not, false, Some, map, IfOk};
    ghost use Rattle.host_base.specs.Outsides.{Rose, Holds};
    ghost use Rattle.memory_world.specs.ListedWords.{count_up};
    ghost use Rattle.memory_world.specs.StoreWords.{stored_of, can_read};

    ghost stored = { λ s. Some (map stored_of s.files.items) };

    ghost faults = { λ s. s.faults };

    fn read(&mut self, name: &str) -> Result<Vec<u8>, StoreFault>
        ensures found { IfOk result (λ bytes. Holds (Some (map stored_of self.old.files.items)) name.now bytes.items) }
        ensures same { Some (map stored_of self.new.files.items) ≡ Some (map stored_of self.old.files.items) }
        ensures count { self.old.faults ≤ self.new.faults }
        ensures cause { result ≡ Err StoreFault.Failed → Rose self.old.faults self.new.faults }

        // A read fails exactly where the file is missing or its name is listed, and each failure is counted once.
        ensures failed { (result ≡ Err StoreFault.Failed) ↔ (can_read self.old name.now ≡ false) }
        ensures counted { self.new ≡ record self.old { faults = count_up (not (can_read self.old name.now)) self.old.faults } }
    {
        if !is_among(name, self.failing.as_slice()) {
            if let Some(file) = find(self.files.as_slice(), name) {
                return match file.bytes.clone() {
                    Ok(bytes) => Ok(bytes.into_vec()),
                    Err(_) => Err(StoreFault::NoMemory),
                };
            }
        }
        self.faults = self.faults.saturating_add(1);
        Err(StoreFault::Failed)
    }
}
