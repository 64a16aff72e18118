// What is served: hosts with their scripts, under an address and a port.
use super::{Limits, Pairs, Sequence, Text, Texts};

/// How a script's output is read.
#[derive(Clone, Copy, Debug, PartialEq, Eq)]
pub enum ScriptKind {
    /// A script of RFC 3875, whose output begins with a header.
    Cgi,
    /// A script whose output is the whole reply (RFC 3875 5).
    Nph,
    /// A program whose lines are the messages of a WebSocket.
    WebSocket,
}

/// A script and where it is served.
#[derive(Clone, Drop, Debug)]
pub struct Script {
    /// The path under which it is served: begins with `/` and has no empty, `.` or `..` segment.
    pub path: Text,
    /// The program's file.
    pub program: Text,
    pub kind: ScriptKind,
    /// For a WebSocket the values of Origin that are taken; all are where there is no list.
    pub origins: Option<Texts>,
}

/// Scripts in the order of the site file.
pub type Scripts = Sequence<Script>;

/// A virtual host: the names that it answers to, and what it serves (RFC 9110 7.2).
#[derive(Clone, Drop, Debug)]
pub struct VHost {
    /// The host's name, and SERVER_NAME where a request names no host.
    pub name: Text,
    /// Further names of the host.
    pub aliases: Texts,
    /// Whether it also takes each name that no host has.
    pub any: bool,
    /// The folder that PATH_TRANSLATED begins with.
    pub root: Text,
    pub scripts: Scripts,
}

/// Virtual hosts in the order of the site file.
pub type Hosts = Sequence<VHost>;

/// A folder whose files are served as documents.
#[derive(Clone, Drop, Debug)]
pub struct DocRoot {
    pub root: Text,
    /// Media types by the extensions of file names.
    pub types: Pairs,
}

/// Folders of documents, numbered over the whole site from 0.
pub type Docs = Sequence<DocRoot>;

/// A site: what the site file or a word of the command line says.
#[derive(Clone, Drop, Debug)]
pub struct Site {
    /// The IPv4 address to listen at.
    pub listen: Text,
    pub port: u16,
    pub limits: Limits,
    pub hosts: Hosts,
    pub docs: Docs,
}

/// A target's script.
#[derive(Clone, Drop, Debug)]
pub struct Mapped {
    /// The host's place in the site, from 0.
    pub host: u32,
    /// The script's place in the host, from 0.
    pub index: u32,
    /// SCRIPT_NAME of RFC 3875 4.1.13.
    pub script_name: Text,
    /// PATH_INFO of RFC 3875 4.1.5; empty where there is none.
    pub path_info: Text,
}
