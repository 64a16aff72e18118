// The words of the host: its types, its causes, and the traits of what it reads and reports to.
#![tactic(auto)]

mod ascii;
mod cause;
mod fields;
mod launch;
mod limits;
mod memory;
mod reply;
mod request;
mod sequence;
mod site;
mod text;
mod traits;

pub use ascii::{decimal_digit, has_comma_word, hex_digit, is_same_word, trim};
pub use cause::Cause;
pub use fields::{Field, Fields};
pub use launch::{Launch, Pair, Pairs, Peer};
pub use limits::Limits;
pub use memory::{NoMemory, Refusal};
pub use reply::Reply;
pub use request::{Framing, Head, Request, Target, Version};
pub use sequence::{Bytes, Sequence};
pub use site::{DocRoot, Docs, Hosts, Mapped, Script, ScriptKind, Scripts, Site, VHost};
pub use text::{Text, Texts};
pub use traits::{Sink, SinkFault, SiteStore, StoreFault};
