// The host of an authority (RFC 3986 3.2). None of this takes memory.
ghost use Rattle.std.specs.Prelude.{◌≡◌, length, take, drop, min};
ghost use Rattle.std.specs.List.{list_all};
ghost use Rattle.std.specs.Char.{is_ascii_digit};
ghost use Rattle.std.specs.Option.{option_copied};
ghost use Rattle.script_map.specs.Authority.{is_address_byte, is_ip_literal, is_name_mark, is_name_byte, is_registered_name, is_host, is_port_part, host_len, host_of_authority};

use crate::bytes::{begins_with, len_before};
use crate::escapes::has_whole_escapes;

fn is_address_byte(byte: u8) -> bool
    ensures { result ≡ is_address_byte byte }
{
    byte.is_ascii_hexdigit() || byte == b':' || byte == b'.'
}

fn are_address_bytes(bytes: &[u8]) -> bool
    ensures { result ≡ list_all is_address_byte bytes.now }
{
    bytes.iter().all(|byte| is_address_byte(*byte))
}

fn is_ip_literal(bytes: &[u8]) -> bool
    ensures { result ≡ is_ip_literal bytes.now }
{
    let len = bytes.len();
    len > 2
        && begins_with(bytes, b'[')
        && bytes[len - 1] == b']'
        && are_address_bytes(&bytes[1..len - 1])
}

fn is_name_mark(byte: u8) -> bool
    ensures { result ≡ is_name_mark byte }
{
    b"-._~!$&'()*+,;=".contains(&byte)
}

fn is_name_byte(byte: u8) -> bool
    ensures { result ≡ is_name_byte byte }
{
    byte.is_ascii_alphanumeric() || is_name_mark(byte) || byte == b'%'
}

fn are_name_bytes(bytes: &[u8]) -> bool
    ensures { result ≡ list_all is_name_byte bytes.now }
{
    bytes.iter().all(|byte| is_name_byte(*byte))
}

/// Whether the bytes are a host (RFC 3986 3.2.2): an IP literal in brackets, or a registered name, which
/// may be empty.
pub fn is_host(bytes: &[u8]) -> bool
    ensures { result ≡ is_host bytes.now }
{
    is_ip_literal(bytes) || (are_name_bytes(bytes) && has_whole_escapes(bytes))
}

fn are_digits(bytes: &[u8]) -> bool
    ensures { result ≡ list_all is_ascii_digit bytes.now }
{
    bytes.iter().all(|byte| byte.is_ascii_digit())
}

fn is_port_part(bytes: &[u8]) -> bool
    ensures { result ≡ is_port_part bytes.now }
{
    match bytes {
        [first, digits @ ..] => *first == b':' && are_digits(digits),
        [] => true,
    }
}

fn host_len(value: &[u8]) -> usize
    ensures { result ≡ min (host_len value.now) (length value.now) }
{
    if begins_with(value, b'[') {
        value.len().min(len_before(value, b']').saturating_add(1))
    } else {
        len_before(value, b':')
    }
}

/// The host of an authority, `host [ ":" port ]` (RFC 3986 3.2), brackets kept, or None where the
/// value is none: it has user information, a port with another byte than digits, or a byte that no
/// host has. A registered name may be empty.
pub fn host_of_authority(value: &[u8]) -> Option<&[u8]>
    ensures { option_copied result ≡ host_of_authority value.now }
{
    let (host, port) = value.split_at(host_len(value));
    if is_host(host) && is_port_part(port) {
        Some(host)
    } else {
        None
    }
}
