// What stands at a path.
use host_base::Bytes;

/// What was found at a path below a folder of documents.
#[derive(Drop, Debug)]
pub enum DocRead {
    /// A regular file with these bytes.
    Found(Bytes),
    /// No regular file stands there.
    Missing,
}
