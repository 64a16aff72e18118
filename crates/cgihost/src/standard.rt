// Standard input, standard output and standard error.
use std::fs;
use std::rt::Files;

// For reading alone (POSIX open).
const READ_ONLY: i32 = 0;

/// Opens each of the descriptors 0 to 2 that is closed on `/dev/null`. Else the first socket, pipe or file would become
/// what is read as input, written as a report or said as a fault. It is opened for reading alone, so that a report to a
/// closed output still fails. A program that is started doesn't get them: the kit opens nothing that stays open in it.
pub fn open_closed<R: Files>(rt: &R) {
    if fs::symlink_metadata(rt, "/proc/self/fd").is_err() {
        return;
    }
    for link in ["/proc/self/fd/0", "/proc/self/fd/1", "/proc/self/fd/2"] {
        if fs::symlink_metadata(rt, link).is_err() {
            let _ = os::open_with(b"/dev/null".as_slice(), READ_ONLY, 0);
        }
    }
}
