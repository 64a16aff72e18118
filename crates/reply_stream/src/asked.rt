// What a reply is made for.
use host_base::{ScriptKind, Version};

/// What a reply depends on that is known before the first byte of its output.
#[derive(Clone, Copy, Debug, PartialEq, Eq)]
pub struct Asked {
    /// How the output of the script is read.
    pub kind: ScriptKind,
    /// The version of the request.
    pub version: Version,
    /// Whether its method is HEAD.
    pub head_only: bool,
}
