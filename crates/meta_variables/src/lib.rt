//! What a script is started with: its environment (RFC 3875 4.1), its arguments and its folder.
#![tactic(auto)]

mod gateway;
mod headers;
mod laws;
mod request_variables;
mod start;
mod text;
mod variables;

pub use gateway::gateway_launch;
pub use laws::{environments_are_safe, gateway_environments_are_safe};
pub use request_variables::environment;
pub use start::launch;
