// A reply as it is written.
ghost use Rattle.std.specs.Prelude.{◌≡◌};
ghost use Rattle.log_outside.specs.Exchanges.{is_own, is_status, IsRemarked};

use crate::client::Stamp;
use host_base::{Bytes, Text};
use log_line::{Remark, is_head_only, own_cause, status_of};
use std::alloc::Global;

const NO_CONTENT: u16 = 204;

const NOT_MODIFIED: u16 = 304;

const SWITCHING: u16 = 101;

/// A request and what was written of its reply.
#[derive(Drop, Debug)]
pub struct Exchange {
    pub began: Stamp,
    pub request: Bytes,
    /// The script that was started last for it; empty where none was.
    pub script: Text,
    /// More output of that script is to come.
    pub is_running: bool,
    /// A byte of the reply was written.
    pub has_reply: bool,
    pub status: Option<u16>,
    pub bytes: u64,
    pub remark: Remark,
}

// What is remarked of a reply of this status that begins with these bytes.
fn remark_of(status: Option<u16>, reply: &[u8], is_scripted: bool) -> Remark
    ensures { IsRemarked status reply.now is_scripted result }
{
    match status {
        Some(code) if code >= 400 => match own_cause(code, reply) {
            Some(cause) => Remark::Own(cause),
            None => {
                if is_scripted {
                    Remark::Whole
                } else {
                    Remark::Bare
                }
            }
        },
        _ => Remark::Whole,
    }
}

fn is_own(remark: Remark) -> bool
    ensures { result ≡ is_own remark }
{
    matches!(remark, Remark::Own(_) | Remark::Bare)
}

fn is_status(status: Option<u16>, code: u16) -> bool
    ensures { result ≡ is_status status code }
{
    match status {
        Some(other) => other == code,
        None => false,
    }
}

impl Exchange {
    ghost use Rattle.std.specs.Prelude.{◌≡◌, true, false};
    ghost use Rattle.log_outside.specs.Exchanges.{added, is_over, is_over_at_end, new_exchange, Writes};

    /// A request of which nothing was done yet.
    pub fn new(alloc: Global, began: Stamp, request: Bytes) -> Self
        ensures { result ≡ new_exchange began request }
    {
        Exchange {
            began,
            request,
            script: Text::from_string(String::new(alloc)),
            is_running: false,
            has_reply: false,
            status: None,
            bytes: 0,
            remark: Remark::Whole,
        }
    }

    /// A script was started for it.
    pub fn start(&mut self, script: Text)
        ensures { self.new ≡ record self.old { script = script; is_running = true } }
    {
        self.script = script;
        self.is_running = true;
    }

    /// No more output of its script is to come.
    pub fn settle(&mut self)
        ensures { self.new ≡ record self.old { is_running = false } }
    {
        self.is_running = false;
    }

    /// So many bytes more were written.
    pub fn add(&mut self, count: u64)
        ensures { self.new ≡ added count self.old }
    {
        self.bytes = self.bytes.saturating_add(count);
    }

    /// Bytes were written.
    pub fn write(&mut self, bytes: &[u8])
        ensures { Writes bytes.now self.old self.new }
    {
        if !self.has_reply {
            self.has_reply = true;
            self.status = status_of(bytes);
            self.remark = remark_of(self.status, bytes, !self.script.is_empty());
        }
        self.add(bytes.len() as u64);
    }

    /// Nothing more is written of it, now that bytes were. What a script gives while it runs goes on, and what is said on a
    /// WebSocket.
    pub fn is_over(&self) -> bool
        ensures { result ≡ is_over self.now }
    {
        self.has_reply
            && !is_status(self.status, SWITCHING)
            && (!self.is_running || is_own(self.remark))
    }

    /// Nothing more is written of it, now that its script's output has ended: it began, and has no body
    /// (RFC 9110 6.4.1).
    pub fn is_over_at_end(&self) -> bool
        ensures { result ≡ is_over_at_end self.now }
    {
        self.has_reply
            && (is_head_only(self.request.as_slice())
                || is_status(self.status, NO_CONTENT)
                || is_status(self.status, NOT_MODIFIED))
    }
}
