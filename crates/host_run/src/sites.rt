// The site that a command is about.
ghost use Rattle.std.specs.Prelude.{◌≡◌, Ok, Err, IfOk, IfErr, true, false};
ghost use Rattle.host_base.specs.Outsides.{Rose};
ghost use Rattle.host_base.specs.SiteRules.{IsServed};
ghost use Rattle.site_file.specs.OneScript.{site_of_one};
ghost use Rattle.site_file.specs.SiteFile.{IsSaid};
ghost use Rattle.host_run.specs.Statuses.{Says, ReadsBy, is_early};
ghost use Rattle.host_run.specs.Words.{InFile, is_file, place_at};

use super::top::Status;
use super::words::Place;
use host_base::{Site, SiteStore, StoreFault};
use site_file::{SiteFault, one_script, read_site};
use std::alloc::Global;

// The site of one script, which the words have looked at before.
fn site_of_one(alloc: Global, path: &str, program: &str) -> Result<Site, Status>
    ensures site { IfOk result (λ site. site ≡ site_of_one path.now program.now) }
    ensures status { IfErr result (λ status. status ≡ Status.NoMemory) }
    ensures served { IfOk result IsServed }
    ensures said { IfOk result IsSaid }
{
    match one_script(alloc, path, program) {
        Ok(site) => Ok(site),
        Err(_) => Err(Status::NoMemory),
    }
}

// The site of a file of the store.
fn site_in_file<F: SiteStore>(alloc: Global, name: &str, store: &mut F) -> Result<Site, Status>
    ensures site { IfOk result (λ site. Says (F.stored store.old) (InFile name.now) (Ok site)) }
    ensures status { IfErr result (ReadsBy (F.stored store.old) (InFile name.now)) }
    ensures early { IfErr result (λ status. is_early status ≡ true) }
    ensures unread { result ≡ Err Status.SiteUnread → Rose (F.faults store.old) (F.faults store.new) }
    ensures served { IfOk result IsServed }
    ensures said { IfOk result IsSaid }
{
    let bytes = match store.read(name) {
        Ok(bytes) => bytes,
        Err(StoreFault::Failed) => return Err(Status::SiteUnread),
        Err(StoreFault::NoMemory) => return Err(Status::NoMemory),
    };
    match read_site(alloc, bytes.as_slice()) {
        Ok(site) => Ok(site),
        Err(SiteFault::NoMemory) => Err(Status::NoMemory),
        Err(fault) => Err(Status::SiteRefused(fault)),
    }
}

/// The site that is said at a place, or the status of a run that has none.
pub fn site_at<F: SiteStore>(alloc: Global, place: &Place, store: &mut F) -> Result<Site, Status>
    ensures site { IfOk result (λ site. Says (F.stored store.old) (place_at place.now) (Ok site)) }
    ensures status { IfErr result (ReadsBy (F.stored store.old) (place_at place.now)) }
    ensures early { IfErr result (λ status. is_early status ≡ true) }
    ensures unread { result ≡ Err Status.SiteUnread → Rose (F.faults store.old) (F.faults store.new) }
    ensures served { IfOk result IsServed }
    ensures said { IfOk result IsSaid }
    ensures store { is_file (place_at place.now) ≡ false → store.new ≡ store.old }
{
    match place {
        Place::OneScript(path, program) => site_of_one(alloc, path, program),
        Place::File(name) => site_in_file(alloc, name, store),
    }
}
