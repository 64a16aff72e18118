//! Where a request goes: its target (RFC 9112 3.2), and the script that serves it (RFC 3875).
#![tactic(auto)]

mod authority;
mod bytes;
mod escapes;
mod hosts;
mod laws;
mod mapping;
mod redirects;
mod segments;
mod split;
mod targets;

pub use authority::is_host;
pub use laws::{
    authorities_have_one_host, decoded_paths_are_mapped, dot_segments_are_removed, hosts_are_found,
    paths_are_mapped, paths_are_refused, targets_are_read,
};
pub use mapping::{decode_text, map, map_decoded};
pub use redirects::{authority_host, is_local, path_target, redirect_target};
pub use segments::{is_dot_segment, remove_dot_segments};
pub use split::split_target;
