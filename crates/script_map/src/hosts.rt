// The host of a target (RFC 9110 7.2). None of this takes memory.
ghost use Rattle.std.specs.Prelude.{◌≡◌, ◌<◌, ◌≤◌, length, IfSome, position};
ghost use Rattle.std.specs.List.{list_any};
ghost use Rattle.std.specs.Option.{option_copied};
ghost use Rattle.std.specs.Str.{str_eq_ignore_ascii_case};
ghost use Rattle.host_base.specs.SiteRules.{takes_any};
ghost use Rattle.script_map.specs.Hosts.{answers_to, host_of_target};

use host_base::{Text, VHost, is_same_word};

fn has_alias(aliases: &[Text], name: &[u8]) -> bool
    ensures { result ≡ list_any (str_eq_ignore_ascii_case name.now) aliases.now }
{
    aliases
        .iter()
        .any(|alias| is_same_word(name, alias.as_bytes()))
}

fn answers_to(host: &VHost, name: &[u8]) -> bool
    ensures { result ≡ answers_to name.now host.now }
{
    is_same_word(name, host.name.as_bytes()) || has_alias(host.aliases.as_slice(), name)
}

fn named_at(hosts: &[VHost], name: &[u8]) -> Option<usize>
    ensures { result ≡ position (answers_to name.now) hosts.now }
{
    hosts.iter().position(|host| answers_to(host, name))
}

fn any_at(hosts: &[VHost]) -> Option<usize>
    ensures { result ≡ position takes_any hosts.now }
{
    hosts.iter().position(|host| host.any)
}

/// The place of the host that a target names, in the order of the site.
#[tactic(auto, unfolding(crate::specs::Hosts::host_of_target))]
pub fn host_place(hosts: &[VHost], name: Option<&[u8]>) -> Option<usize>
    requires { 1 ≤ length hosts.now }
    ensures value { result ≡ host_of_target hosts.now (option_copied name.entry) }
    ensures within { IfSome result (λ place. place < length hosts.now) }
{
    match name {
        Some(name) => match named_at(hosts, name) {
            Some(place) => Some(place),
            None => any_at(hosts),
        },
        None => Some(0),
    }
}
