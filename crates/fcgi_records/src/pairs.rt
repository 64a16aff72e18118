// The pairs that some records carry (FastCGI 1.0, 3.4).
ghost use Rattle.std.specs.Prelude.{◌≡◌, ◌<◌, ◌≤◌, ◌+◌, ◌^◌, length, map, Some, None, Err, IfOk, OnOk, IfSome, IfNone};
ghost use Rattle.indexmap.specs.IndexMap.{insert_entry};
ghost use Rattle.fcgi_records.specs.Pairs.{length_of, sized, front_pair, cut, field_with, pairs_of, put};
ghost use Rattle.fcgi_records.specs.Entries.{fields_in};

use host_base::{Bytes, Field, Fields, NoMemory};
use indexmap::IndexMap;
use std::alloc::Global;

/// Why there are no pairs.
#[derive(Clone, Copy, Debug, PartialEq, Eq)]
pub enum PairFault {
    /// The content is no list of pairs.
    Malformed,
    NoMemory,
}

impl From<NoMemory> for PairFault {
    ghost use Rattle.std.specs.Prelude.{◌≡◌};
    ghost use Rattle.fcgi_records.specs.declared.pairs.PairFault.{PairFault};
    ghost use Rattle.fcgi_records.specs.declared.pairs.PairFault.TheVariants as Fault;

    ghost from_gives = { λ _ fault. fault ≡ Fault.NoMemory };

    fn from(_: NoMemory) -> Self {
        PairFault::NoMemory
    }
}

// The values by their names, in the order in which the names first came.
type Values = IndexMap<Vec<u8>, Vec<u8>>;

// The length at the front, and what stands behind it.
fn length_of(bytes: &[u8]) -> Option<(u32, &[u8])>
    ensures some { IfSome result (λ r. length_of bytes.now ≡ Some (sized r.0 r.1.now)) }
    ensures none { IfNone result (length_of bytes.now ≡ None) }
{
    match bytes {
        [] => None,
        [byte, rest @ ..] if *byte < 128 => Some((u32::from(*byte), rest)),
        [first, second, third, fourth, rest @ ..] => {
            let high = u32::from(*first - 128) * 256 + u32::from(*second);
            let low = u32::from(*third) * 256 + u32::from(*fourth);
            Some((high * 65536 + low, rest))
        }
        _ => None,
    }
}

// The pair at the front, and what stands behind it.
fn front_pair(bytes: &[u8]) -> Option<(&[u8], &[u8], &[u8])>
    ensures some { IfSome result (λ r. front_pair bytes.now ≡ Some (cut r.0.now r.1.now r.2.now)) }
    ensures none { IfNone result (front_pair bytes.now ≡ None) }
{
    let (name_len, behind) = length_of(bytes)?;
    let (value_len, rest) = length_of(behind)?;
    let name_len = name_len as usize;
    let value_len = value_len as usize;
    if name_len + value_len > rest.len() {
        return None;
    }
    let values = &rest[name_len..];
    Some((
        &rest[..name_len],
        &values[..value_len],
        &values[value_len..],
    ))
}

// A pair more: in the place of one of that name, or at the end.
fn put(alloc: Global, values: &mut Values, name: &[u8], value: &[u8]) -> Result<(), NoMemory>
    ensures { OnOk result (fields_in values.new.entries ≡ put (field_with name.now value.now) (fields_in values.old.entries)) }
{
    let name = Vec::from_slice(alloc, name)?;
    let value = Vec::from_slice(alloc, value)?;
    values.insert(name, value)?;
    Ok(())
}

// The pairs as fields, whose bytes are moved there.
fn fields_of(alloc: Global, values: Values) -> Result<Fields, NoMemory>
    ensures { IfOk result (λ fields. fields ≡ fields_in values.entries) }
{
    let fields = values
        .into_iter()
        .map(|(name, value)| Field {
            name: Bytes::from_vec(name),
            value: Bytes::from_vec(value),
        })
        .collect(alloc)?;
    Ok(Fields::from_vec(fields))
}

/// The pairs of a content, in their order. Of equal names the last value stands at the first one's place.
#[tactic(auto, using(crate::proofs::PairLaws::pairs_more, crate::proofs::PairLaws::pairs_bad))]
pub fn pairs_of(alloc: Global, content: &[u8]) -> Result<Fields, PairFault>
    ensures exact { IfOk result (λ fields. pairs_of content.now ≡ Some fields) }
    ensures malformed { result ≡ Err PairFault.Malformed → pairs_of content.now ≡ None }
{
    let mut values = IndexMap::new(alloc);
    let mut rest = content;
    while !rest.is_empty() {
        let Some((name, value, more)) = front_pair(rest) else {
            return Err(PairFault::Malformed);
        };
        put(alloc, &mut values, name, value)?;
        rest = more;
    }
    Ok(fields_of(alloc, values)?)
}
