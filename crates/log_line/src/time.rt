// The time of a line.
ghost use Rattle.std.specs.Prelude.{◌≡◌, ◌++◌, OnOk};
ghost use Rattle.log_line.specs.Line.{clock_text, time_text};
ghost use Rattle.reply_writer.specs.Dates.{date_text_of};

use host_base::{Bytes, NoMemory};
use reply_writer::{DATES_END, DateText, date_text};

// The parts of a date in the order of the common log format.
fn push_date(line: &mut Bytes, date: &DateText) -> Result<(), NoMemory>
    ensures { OnOk result (line.new ≡ line.old ++ clock_text date.now.text) }
{
    let text = &date.text;
    line.extend_from_slice(&text[5..7])?;
    line.extend_from_slice(b"/")?;
    line.extend_from_slice(&text[8..11])?;
    line.extend_from_slice(b"/")?;
    line.extend_from_slice(&text[12..16])?;
    line.extend_from_slice(b":")?;
    line.extend_from_slice(&text[17..25])?;
    line.extend_from_slice(b" +0000")
}

// Adds the time of a Unix second, or `-` from the year 10,000 on.
pub fn push_time(line: &mut Bytes, secs: u64) -> Result<(), NoMemory>
    ensures { OnOk result (line.new ≡ line.old ++ time_text secs) }
{
    if secs < DATES_END {
        push_date(line, &date_text(secs))
    } else {
        line.extend_from_slice(b"-")
    }
}
