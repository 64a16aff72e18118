//! Documents in a script's place: an outside over another one, whose document children are answered from a
//! store of files, and everything else by the inner outside.
#![tactic(auto)]

mod alike;
mod child;
mod children;
mod memory;
mod outside;
mod store;
mod told;

pub use alike::{Alike, are_alike};
pub use document_output::DocRead;
pub use memory::{DocFile, MemoryDocs};
pub use outside::{DocOutside, DocParts};
pub use store::{DocFault, DocStore};
pub use told::Told;
