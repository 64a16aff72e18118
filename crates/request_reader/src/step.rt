// What a reader answers.
use host_base::{Cause, Request};

/// What the bytes that were fed and not taken off are.
#[derive(Drop, Debug)]
pub enum ReqStep {
    /// A request, whose bytes are taken off.
    Whole(Request),
    /// It has not ended yet; `continue_due` where the client waits for 100 Continue (RFC 9110 10.1.1).
    More { continue_due: bool },
    /// No request that is served, whatever follows. `bare` where its head was whole and its method is
    /// HEAD, so that a reply to it has no body (RFC 9110 9.3.2).
    Bad { cause: Cause, bare: bool },
}
