// The one outside of a loop is put under a record, and taken out again.
ghost use Rattle.std.specs.Prelude.{◌≡◌, ◌<◌, [], All, map, vec_len, vec_capacity};
ghost use Rattle.host_loop.specs.Loops.{IsFresh};
ghost use Rattle.record_outside.specs.Record.{Keeps, Records};

use host_base::Text;
use host_trace::Outside;
use record_outside::{Record, RecordOutside};

/// Puts the one outside under an empty record. The list that it was in keeps its room.
pub fn cover<O: Outside>(outs: &mut Vec<O>, empty: Record, covered: &mut Vec<RecordOutside<O>>)
    requires one { vec_len outs.old ≡ 1 }
    requires fresh { All (λ o. IsFresh (O.trace o)) outs.old.items }
    requires empty { Keeps [] empty }
    requires none { (vec_len covered.old ≡ 0) × (covered.old.items ≡ []) }
    requires room { 0 < vec_capacity covered.old }
    ensures those { map (λ o. o.inner) covered.new.items ≡ outs.old.items }
    ensures one { vec_len covered.new ≡ 1 }
    ensures none { (vec_len outs.new ≡ 0) × (outs.new.items ≡ []) }
    ensures room { 0 < vec_capacity outs.new }
{
    match outs.pop() {
        Some(out) => covered.push_reserved(RecordOutside::new(out, empty)),
        None => unreachable!(),
    }
}

/// Takes the one outside out, back into the list that it was in, and gives the record.
pub fn uncover<O: Outside>(covered: &mut Vec<RecordOutside<O>>, outs: &mut Vec<O>) -> Text
    requires one { vec_len covered.old ≡ 1 }
    requires none { (vec_len outs.old ≡ 0) × (outs.old.items ≡ []) }
    requires room { 0 < vec_capacity outs.old }
    ensures those { outs.new.items ≡ map (λ o. o.inner) covered.old.items }
    ensures one { vec_len outs.new ≡ 1 }
    ensures none { vec_len covered.new ≡ 0 }
    ensures text { All (λ o. Records (O.trace o) result) outs.new.items }
{
    match covered.pop() {
        Some(out) => {
            let (inner, text) = out.into_parts();
            outs.push_reserved(inner);
            text
        }
        None => unreachable!(),
    }
}
