// The Date of a reply.
ghost use Rattle.std.specs.Prelude.{◌≡◌, ◌<◌};
ghost use Rattle.httpdate.specs.declared.date.HttpDate.{HttpDate as Date};
ghost use Rattle.httpdate.specs.Date.{date_text as shown_date, unix_secs};
ghost use Rattle.reply_writer.specs.Dates.{date_text_of};

use httpdate::HttpDate;

/// The first Unix second past the last date that has a text, 31 December 9999.
pub const DATES_END: u64 = 253_402_300_800;

/// The value of a Date field (RFC 9110 6.6.1).
#[derive(Clone, Copy, Debug, PartialEq, Eq)]
pub struct DateText {
    pub text: [u8; 29],
}

/// The date of a Unix second as IMF-fixdate (RFC 9110 5.6.7). It takes no memory.
pub fn date_text(secs: u64) -> DateText
    requires { secs < DATES_END }
    ensures text { result.text ≡ date_text_of secs }
    ensures shows { (date : Date) × (unix_secs date ≡ secs) × (result.text ≡ shown_date date) }
{
    match HttpDate::from_unix_secs(secs) {
        Ok(date) => DateText {
            text: date.to_bytes(),
        },
        Err(_) => unreachable!(),
    }
}
