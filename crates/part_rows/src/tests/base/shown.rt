// What texts are shown as.
use super::cases::are_right_in;
use host_base::NoMemory;
use shown_text::Shown;
use std::alloc::Global;
use std::test::Fail;

// A text, and what it is shown as.
static SHOWN: [(&str, &str); 12] = [
    ("", ""),
    ("/srv/a b", "/srv/a b"),
    ("a\nb", "a\\x0Ab"),
    ("\0\t\r\x1f", "\\x00\\x09\\x0D\\x1F"),
    ("\x7f \x7e", "\\x7F ~"),
    ("a\\x0Ab", "a\\x5Cx0Ab"),
    ("\\", "\\x5C"),
    ("é\u{a0}\u{10ffff}", "é\u{a0}\u{10ffff}"),
    ("\u{80}\u{9b}2J\u{9f}", "\\xC2\\x80\\xC2\\x9B2J\\xC2\\x9F"),
    (
        "\u{2029}\u{202a}\u{202e}\u{202f}",
        "\u{2029}\\xE2\\x80\\xAA\\xE2\\x80\\xAE\u{202f}",
    ),
    (
        "\u{2065}\u{2066}\u{2069}\u{206a}",
        "\u{2065}\\xE2\\x81\\xA6\\xE2\\x81\\xA9\u{206a}",
    ),
    ("a\u{202e}cgi", "a\\xE2\\x80\\xAEcgi"),
];

fn is_shown(alloc: Global, (text, wanted): &(&str, &str)) -> Result<bool, NoMemory> {
    Ok(format!(in alloc; "{}", Shown(text))?.as_str() == *wanted)
}

#[test]
fn texts_as_a_line_shows_them(rt: HostRuntime) -> Result<(), Fail> {
    are_right_in(&rt, rt.alloc(), &SHOWN, is_shown)
}
