// What stands at a key of a table.
ghost use Rattle.std.specs.Prelude.{◌≡◌, ◌≤◌, ◌++◌, [], true, false, option_map, IfOk, None, Some};
ghost use Rattle.std.specs.List.{list_all};
ghost use Rattle.std.specs.Option.{option_map_or};
ghost use Rattle.toml.specs.Data.{as_str, as_integer, as_bool, get_member};
ghost use Rattle.toml.specs.View.{view, array_view, table_view};
ghost use Rattle.site_file.specs.Keys.{ranged, required, optional, any_value, number_within, required_number, optional_number, each_of, as_texts};
ghost use Rattle.site_file.specs.Ranges.{are_at_most_64, are_aliases, is_host_name};
ghost use Rattle.site_file.specs.Steps.{Reads};
ghost use Rattle.site_file.specs.TextRanges.{admits};

use crate::fault::{Key, SiteFault};
use crate::ranges::{TextRange, is_host_name};
use host_base::{NoMemory, Text, Texts};
use std::alloc::Global;
use toml::value::Array;
use toml::{Table, Value};

/// The value at a key.
pub fn value_at<'t>(table: &'t Table, key: &str) -> Option<&'t Value>
    ensures { option_map (λ v. view v.now) result ≡ get_member key.now (table_view table.now) }
{
    table.get(key)
}

fn ranged_text(alloc: Global, value: &Value, key: Key, range: TextRange) -> Result<Text, SiteFault>
    ensures { Reads (ranged (admits range) (key.entry.place.now ++ key.entry.name.now) (as_str (view value.now))) result }
{
    match value.as_str() {
        Some(text) => {
            if range.admits(text) {
                Ok(Text::copy_of(alloc, text)?)
            } else {
                Err(key.out_of_range(alloc))
            }
        }
        None => Err(key.wrong_kind(alloc)),
    }
}

/// The text at a key that the table must have.
#[tactic(auto, unfolding(crate::specs::Keys::required))]
pub fn required_text(
    alloc: Global,
    table: &Table,
    key: Key,
    range: TextRange,
) -> Result<Text, SiteFault>
    ensures { Reads (required as_str (admits range) key.entry.place.now (table_view table.now) key.entry.name.now) result }
{
    match value_at(table, key.name) {
        Some(value) => ranged_text(alloc, value, key, range),
        None => Err(key.missing(alloc)),
    }
}

/// The text at a key, or the default.
#[tactic(auto, unfolding(crate::specs::Keys::optional))]
pub fn optional_text(
    alloc: Global,
    table: &Table,
    key: Key,
    range: TextRange,
    default: &str,
) -> Result<Text, SiteFault>
    ensures { Reads (optional as_str (admits range) key.entry.place.now (table_view table.now) key.entry.name.now default.now) result }
{
    match value_at(table, key.name) {
        Some(value) => ranged_text(alloc, value, key, range),
        None => Ok(Text::copy_of(alloc, default)?),
    }
}

/// The Boolean at a key, or false.
#[tactic(auto, unfolding(crate::specs::Keys::optional))]
pub fn optional_flag(alloc: Global, table: &Table, key: Key) -> Result<bool, SiteFault>
    ensures { Reads (optional as_bool any_value key.entry.place.now (table_view table.now) key.entry.name.now false) result }
{
    match value_at(table, key.name) {
        Some(value) => match value.as_bool() {
            Some(flag) => Ok(flag),
            None => Err(key.wrong_kind(alloc)),
        },
        None => Ok(false),
    }
}

fn ranged_number(
    alloc: Global,
    value: &Value,
    key: Key,
    least: u64,
    greatest: u64,
) -> Result<u64, SiteFault>
    ensures exact { Reads (number_within least greatest (key.entry.place.now ++ key.entry.name.now) (as_integer (view value.now))) result }
    ensures within { IfOk result (λ number. number ≤ greatest) }
{
    match value.as_integer() {
        Some(number) => match u64::try_from(number) {
            Ok(number) => {
                if least <= number && number <= greatest {
                    Ok(number)
                } else {
                    Err(key.out_of_range(alloc))
                }
            }
            Err(_) => Err(key.out_of_range(alloc)),
        },
        None => Err(key.wrong_kind(alloc)),
    }
}

/// The integer at a key that the table must have, from `least` to `greatest`.
#[tactic(auto, unfolding(crate::specs::Keys::required_number))]
pub fn required_number(
    alloc: Global,
    table: &Table,
    key: Key,
    least: u64,
    greatest: u64,
) -> Result<u64, SiteFault>
    ensures { Reads (required_number key.entry.place.now (table_view table.now) key.entry.name.now least greatest) result }
{
    match value_at(table, key.name) {
        Some(value) => ranged_number(alloc, value, key, least, greatest),
        None => Err(key.missing(alloc)),
    }
}

/// The integer at a key, from `least` to `greatest`, or the default.
#[tactic(auto, unfolding(crate::specs::Keys::optional_number))]
pub fn optional_number(
    alloc: Global,
    table: &Table,
    key: Key,
    least: u64,
    greatest: u64,
    default: u64,
) -> Result<u64, SiteFault>
    requires { default ≤ greatest }
    ensures exact { Reads (optional_number key.entry.place.now (table_view table.now) key.entry.name.now least greatest default) result }
    ensures within { IfOk result (λ number. number ≤ greatest) }
{
    match value_at(table, key.name) {
        Some(value) => ranged_number(alloc, value, key, least, greatest),
        None => Ok(default),
    }
}

// The texts of an array that has nothing else.
fn texts_of(alloc: Global, array: &Array) -> Result<Option<Texts>, NoMemory>
    ensures { IfOk result (λ texts. texts ≡ each_of as_str (array_view array.now)) }
{
    let mut texts = Texts::new(alloc);
    for value in array {
        match value.as_str() {
            Some(text) => texts.push(Text::copy_of(alloc, text)?)?,
            None => return Ok(None),
        }
    }
    Ok(Some(texts))
}

// The value as texts.
fn as_texts(alloc: Global, value: &Value) -> Result<Option<Texts>, NoMemory>
    ensures { IfOk result (λ texts. texts ≡ as_texts (view value.now)) }
{
    match value.as_array() {
        Some(array) => texts_of(alloc, array),
        None => Ok(None),
    }
}

fn are_host_names(texts: &[Text]) -> bool
    ensures { result ≡ list_all is_host_name texts.now }
{
    texts.iter().all(|text| is_host_name(text.as_str()))
}

fn are_aliases(texts: &Texts) -> bool
    ensures { result ≡ are_aliases texts.now }
{
    texts.len() <= 64 && are_host_names(texts.as_slice())
}

/// Host names at a key, at most 64, or none.
#[tactic(auto, unfolding(crate::specs::Keys::optional))]
pub fn optional_aliases(alloc: Global, table: &Table, key: Key) -> Result<Texts, SiteFault>
    ensures { Reads (optional as_texts are_aliases key.entry.place.now (table_view table.now) key.entry.name.now []) result }
{
    match value_at(table, key.name) {
        Some(value) => match as_texts(alloc, value)? {
            Some(texts) => {
                if are_aliases(&texts) {
                    Ok(texts)
                } else {
                    Err(key.out_of_range(alloc))
                }
            }
            None => Err(key.wrong_kind(alloc)),
        },
        None => Ok(Texts::new(alloc)),
    }
}

/// Texts at a key, at most 64, if there are any.
#[tactic(auto, unfolding(crate::specs::Keys::optional))]
pub fn optional_texts(alloc: Global, table: &Table, key: Key) -> Result<Option<Texts>, SiteFault>
    ensures { Reads (optional (λ found. option_map Some (as_texts found)) (λ found. option_map_or are_at_most_64 found true) key.entry.place.now (table_view table.now) key.entry.name.now None) result }
{
    match value_at(table, key.name) {
        Some(value) => match as_texts(alloc, value)? {
            Some(texts) => {
                if texts.len() <= 64 {
                    Ok(Some(texts))
                } else {
                    Err(key.out_of_range(alloc))
                }
            }
            None => Err(key.wrong_kind(alloc)),
        },
        None => Ok(None),
    }
}
