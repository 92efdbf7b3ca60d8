//! Fields by their names: the table of a node, and the look-up in it.
ghost use Rattle.std.specs.Prelude.{◌≡◌, ◌+◌, ◌*◌, ◌^◌, ◌<◌, ◌≤◌, bytes_eq, length, map, position, IfOk, MatchOption};
ghost use Rattle.std.specs.Cmp.Lexicographic.{slice_cmp};
ghost use Rattle.std.specs.Ordering.{nat_cmp};
ghost use Rattle.capnp_schema.specs.Schema.{Field, seen_field};
ghost use Rattle.capnp_schema.specs.Names.{name_at, IsNameTable};
ghost use Rattle.capnp_schema.specs.Steps.Names.{IsNameOrder, IsRepeated};

use crate::record::FieldRecord;
use std::alloc::{AllocError, Global};
use std::cmp::Ordering;

/// The name of field `i`, nothing past the end.
#[tactic(auto, using(crate::proofs::SeenNames::seen_name))]
fn name_of(fields: &[FieldRecord], i: u16) -> &str
    ensures { result.now ≡ name_at (map seen_field fields.now) i }
{
    match fields.get(i as usize) {
        Some(field) => field.name.as_str(),
        None => "",
    }
}

/// The order of two names, by their bytes. Each comparison of a look-up is made here, and counted.
fn compare_counted(a: &str, b: &str, count: &mut u32) -> Ordering
    requires { count.old < 64 }
    ensures order { result ≡ slice_cmp nat_cmp a.now b.now }
    ensures counted { count.new ≡ count.old + 1 }
{
    *count += 1;
    a.cmp(b)
}

/// The index of the field of a name, and how many names were compared: none where there are no fields, and otherwise at
/// least one and at most as many as their count has binary digits.
#[tactic(auto, using(crate::proofs::SeenNames::seen_count))]
pub(crate) fn find_counted(
    fields: &[FieldRecord],
    by_name: &[u16],
    name: &str,
) -> (Option<u16>, u32)
    requires table { IsNameTable (map seen_field fields.now) by_name.now }
    requires few { length fields.now ≤ 65535 }
    ensures found { result.0 ≡ position (λ (f : Field). bytes_eq f.name name.now) (map seen_field fields.now) }
    ensures none { length fields.now ≡ 0 → result.1 ≡ 0 }
    ensures some { 0 < length fields.now → 0 < result.1 }
    ensures digits { 0 < length fields.now → 2 ^ result.1 ≤ 2 * length fields.now }
{
    let mut count = 0;
    let mut low = 0;
    let mut high = by_name.len();
    while low < high {
        let middle = low + (high - low) / 2;
        let at = by_name[middle];
        match compare_counted(name_of(fields, at), name, &mut count) {
            Ordering::Equal => return (Some(at), count),
            Ordering::Less => low = middle + 1,
            Ordering::Greater => high = middle,
        }
    }
    (None, count)
}

/// The indices of the fields in the order of their names.
#[tactic(auto, using(crate::proofs::SeenNames::seen_count))]
pub(crate) fn name_order(alloc: Global, fields: &[FieldRecord]) -> Result<Vec<u16>, AllocError>
    requires { length fields.now ≤ 65535 }
    ensures { IfOk result (λ v. IsNameOrder (map seen_field fields.now) v.items) }
{
    let mut indices = Vec::with_capacity(alloc, fields.len())?;
    for i in 0..fields.len() {
        indices.push(i as u16)?;
    }
    indices.sort_by(|a, b| name_of(fields, *a).cmp(name_of(fields, *b)))?;
    Ok(indices)
}

/// A field whose name another field has too.
pub(crate) fn repeated_name(fields: &[FieldRecord], order: &[u16]) -> Option<u16>
    requires { IsNameOrder (map seen_field fields.now) order.now }
    ensures { MatchOption result (IsNameTable (map seen_field fields.now) order.now)
        (IsRepeated (map seen_field fields.now)) }
{
    for k in 1..order.len() {
        if name_of(fields, order[k - 1]) == name_of(fields, order[k]) {
            return Some(order[k]);
        }
    }
    None
}
