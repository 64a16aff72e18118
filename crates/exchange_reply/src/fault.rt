// The host's own reply as it is written.
ghost use Rattle.std.specs.Prelude.{◌≡◌, IfOk, option_map};
ghost use Rattle.reply_writer.specs.Dates.{date_text_of};
ghost use Rattle.reply_writer.specs.Spelling.{date_value};
ghost use Rattle.reply_writer.specs.WholeRules.{IsStamp};
ghost use Rattle.exchange_reply.specs.Reply.{SpellsFault};

use host_base::{Bytes, Cause, NoMemory};
use reply_writer::{DateText, date_text, fault_reply, whole_text};
use std::alloc::Global;

fn date_of(now: Option<u64>) -> Option<DateText>
    requires { IsStamp now }
    ensures { date_value result ≡ option_map date_text_of now }
{
    match now {
        Some(secs) => Some(date_text(secs)),
        None => None,
    }
}

/// The host's own reply for a cause. `bare` says that it has no body, since the method is HEAD (RFC 9110
/// 9.3.2); `closes` that the connection closes after it; `now` is the Unix second of its Date.
pub fn fault_text(
    alloc: Global,
    cause: Cause,
    bare: bool,
    closes: bool,
    now: Option<u64>,
) -> Result<Bytes, NoMemory>
    requires { IsStamp now }
    ensures { IfOk result (SpellsFault cause bare closes now) }
{
    let reply = fault_reply(alloc, cause)?;
    let date = date_of(now);
    whole_text(alloc, &reply, bare, closes, date.as_ref())
}
