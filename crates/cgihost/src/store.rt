// The real store.
ghost use Rattle.std.specs.Prelude.{◌≡◌, ◌+◌, take, IfOk, IfSome};

use host_base::{SiteStore, StoreFault};
use shown_text::Shown;
use std::alloc::Global;
use std::fs::File;
use std::io::{ErrorKind, Read};
use std::rt::Files;
use std::{fmt, io};

/// The longest site file that is read.
const LONGEST: u64 = 1_048_576;

/// The files of the system. It tells nothing of what they hold.
#[derive(Drop)]
pub struct FileStore<R> {
    rt: R,
    alloc: Global,
    faults: u64,
    // Whether what is read is kept, and what was read last.
    keeps: bool,
    kept: Option<Vec<u8>>,
}

// Why a file was not read.
#[derive(Clone, Copy)]
enum Unread<'s> {
    Failed(&'s io::Error),
    TooLong,
}

// Which file was not read, and why.
#[derive(Clone, Copy)]
struct UnreadLine<'n, 's>(&'n str, Unread<'s>);

impl fmt::Display for Unread<'_> {
    fn fmt<W: fmt::Write>(&self, f: &mut fmt::Formatter<W>) -> fmt::Result {
        match self {
            Unread::Failed(reason) => write!(f, "{}", reason),
            Unread::TooLong => write!(f, "longer than {} bytes", LONGEST),
        }
    }
}

impl fmt::Display for UnreadLine<'_, '_> {
    fn fmt<W: fmt::Write>(&self, f: &mut fmt::Formatter<W>) -> fmt::Result {
        write!(f, "cgihost: {}: {}", Shown(self.0), self.1)
    }
}

impl<R> FileStore<R> {
    /// The files of the system, of which nothing was read. Where `keeps`, what is read is kept beside.
    pub fn new(rt: R, alloc: Global, keeps: bool) -> Self
        ensures { result.faults ≡ 0 }
    {
        FileStore {
            rt,
            alloc,
            faults: 0,
            keeps,
            kept: None,
        }
    }

    /// The bytes of the file that was read last, where they are kept.
    pub fn kept(&self) -> Option<&[u8]> {
        match &self.kept {
            Some(bytes) => Some(bytes.as_slice()),
            None => None,
        }
    }

    // Keeps these bytes, where that is to be done and there is memory for it.
    fn keep(&mut self, bytes: &[u8])
        ensures { self.new.faults ≡ self.old.faults }
    {
        if self.keeps {
            self.kept = copy_of(self.alloc, bytes);
        }
    }
}

// The same bytes, where there is memory for them.
fn copy_of(alloc: Global, bytes: &[u8]) -> Option<Vec<u8>>
    ensures { IfSome result (λ copy. copy.items ≡ bytes.now) }
{
    let mut copy = Vec::new(alloc);
    match copy.extend_from_slice(bytes) {
        Ok(()) => Some(copy),
        Err(_) => None,
    }
}

// All that the file has left, where that is not longer than the longest; else one byte more than that of it.
fn front_of<F: Read + Drop>(alloc: Global, file: F) -> io::Result<Vec<u8>>
    ensures { IfOk result (λ front. IfSome (F.remaining file) (λ all. front.items ≡ take (LONGEST + 1) all)) }
{
    let mut bytes = Vec::new(alloc);
    file.take(LONGEST + 1).read_to_end(&mut bytes)?;
    Ok(bytes)
}

impl<R: Files + Eprint> SiteStore for FileStore<R> {
    ghost use Rattle.std.specs.Prelude.{◌≡◌, ◌≤◌, None, IfOk, OnOk, vec_len};
    ghost use Rattle.host_base.specs.Outsides.{Rose, Holds};

    ghost stored = { λ _. None };

    ghost faults = { λ s. s.faults };

    fn read(&mut self, name: &str) -> Result<Vec<u8>, StoreFault>
        ensures found { IfOk result (λ bytes. Holds None name.now bytes.items) }
        ensures count { self.old.faults ≤ self.new.faults }
        ensures cause { result ≡ Err StoreFault.Failed → Rose self.old.faults self.new.faults }
        ensures calm { OnOk result (self.new.faults ≡ self.old.faults) }
        ensures longest { IfOk result (λ bytes. vec_len bytes ≤ 1048576) }
    {
        let front = File::open(&self.rt, name).and_then(|file| front_of(self.alloc, file));
        match front {
            Ok(bytes) if bytes.len() as u64 <= LONGEST => {
                self.keep(bytes.as_slice());
                return Ok(bytes);
            }
            Err(error) if error.kind() == ErrorKind::OutOfMemory => {
                return Err(StoreFault::NoMemory);
            }
            Err(error) => {
                let _ = self.rt.eprintln(UnreadLine(name, Unread::Failed(&error)));
            }
            Ok(_) => {
                let _ = self.rt.eprintln(UnreadLine(name, Unread::TooLong));
            }
        }
        self.faults = self.faults.saturating_add(1);
        Err(StoreFault::Failed)
    }
}
