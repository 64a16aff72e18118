// The site file, key by key in its order.
mod documents;
mod host;
mod limits;
mod script;
mod top;

pub use top::said;
