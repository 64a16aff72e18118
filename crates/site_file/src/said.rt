// What a site file says, key by key.
use host_base::{Limits, Pairs, Scripts, Sequence, Text, Texts};

/// The limits of a request and of an output, in bytes.
#[derive(Clone, Copy)]
pub struct ByteLimits {
    pub head: u64,
    pub target: u64,
    pub body: u64,
    pub output: u64,
}

/// The limits in ticks of 100 ms.
#[derive(Clone, Copy)]
pub struct TickLimits {
    pub run: u32,
    pub idle: u32,
    pub linger: u32,
}

/// The limits of numbers, and that of a WebSocket text in bytes.
#[derive(Clone, Copy)]
pub struct CountLimits {
    pub redirects: u32,
    pub connections: u32,
    pub children: u32,
    pub ws_text: u64,
}

/// A table of documents.
#[derive(Drop, Debug)]
pub struct SaidDocuments {
    pub path: Text,
    pub root: Text,
    pub types: Pairs,
}

/// A host with its scripts and its documents, in the order of the file.
#[derive(Drop, Debug)]
pub struct SaidHost {
    pub name: Text,
    pub aliases: Texts,
    pub any: bool,
    pub root: Text,
    pub scripts: Scripts,
    pub documents: Sequence<SaidDocuments>,
}

/// A whole site file.
#[derive(Drop, Debug)]
pub struct SaidSite {
    pub listen: Text,
    pub port: u16,
    pub limits: Limits,
    pub hosts: Sequence<SaidHost>,
}
