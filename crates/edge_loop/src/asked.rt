// A child that is to be started.
use host_base::Launch;

/// A child that was asked for and not started yet.
#[derive(Drop)]
pub struct Asked {
    pub k: u64,
    /// The connection for which it was asked.
    pub c: u64,
    pub launch: Launch,
}
