//! Types that are related.
ghost use Rattle.std.specs.Prelude.{◌≡◌, ◌↔◌, IsTrue, false, length, slice_get};
ghost use Rattle.std.specs.Option.{option_copied};
ghost use Rattle.capnp_base.specs.Types.{variant_kind};
ghost use Rattle.capnp_schema.specs.Entries.{lists_seen};
ghost use Rattle.capnp_schema.specs.Schema.{enum_at};
ghost use Rattle.capnp_schema.specs.Types.{seen_type, seen_variant};
ghost use Rattle.capnp_records.specs.Compatible.{Related};
ghost use Rattle.capnp_compatible.specs.Steps.Closing.{all_pairs, inside_lists, named_pair};

use crate::first::type_in_place;
use crate::pairs::Pair;
use capnp_base::introspect::{Type, TypeVariant};
use capnp_schema::record::EnumRecord;
use capnp_schema::set::SchemaSet;

fn kind(layer: TypeVariant) -> u8
    ensures { result ≡ variant_kind layer }
{
    match layer {
        TypeVariant::Void => 0,
        TypeVariant::Bool => 1,
        TypeVariant::Int8 => 2,
        TypeVariant::Int16 => 3,
        TypeVariant::Int32 => 4,
        TypeVariant::Int64 => 5,
        TypeVariant::UInt8 => 6,
        TypeVariant::UInt16 => 7,
        TypeVariant::UInt32 => 8,
        TypeVariant::UInt64 => 9,
        TypeVariant::Text => 10,
        TypeVariant::Data => 11,
        TypeVariant::Struct(_) => 12,
        TypeVariant::AnyPointer => 13,
        TypeVariant::Enum(_) => 14,
        TypeVariant::List(_) => 15,
    }
}

fn enum_of(enums: &[EnumRecord], number: u32) -> Option<&EnumRecord>
    ensures { option_copied result ≡ slice_get enums.now number }
{
    enums.get(number as usize)
}

/// How many names an enum of the set has.
fn enumerant_count(schemas: &SchemaSet, number: u32) -> usize
    ensures { result ≡ length (enum_at (lists_seen schemas.now) number).enumerants }
{
    match enum_of(schemas.enums(), number) {
        Some(record) => record.enumerants.len(),
        None => 0,
    }
}

/// Whether two layers are related, of which not both are lists.
fn are_related_layers(schemas: &SchemaSet, older: TypeVariant, newer: TypeVariant) -> bool
    requires { variant_kind older ≡ 15 → variant_kind newer ≡ 15 → ⊥ }
    ensures { IsTrue result ↔ Related false (lists_seen schemas.now) all_pairs (seen_variant older) (seen_variant newer) }
{
    if kind(older) != kind(newer) {
        return false;
    }
    match older {
        TypeVariant::Enum(d) => match newer {
            TypeVariant::Enum(e) => enumerant_count(schemas, d.number)
                <= enumerant_count(schemas, e.number),
            _ => false,
        },
        _ => true,
    }
}

/// The layers of two types inside the lists that both are: not both are lists. Where elements may have become structs,
/// the type of field 0 is gone on with in such a struct's place.
fn inside_lists(
    schemas: &SchemaSet,
    lists: bool,
    older: Type,
    newer: Type,
) -> (TypeVariant, TypeVariant)
    ensures older { seen_variant result.0 ≡ (inside_lists lists (lists_seen schemas.now) (seen_type older)
        (seen_type newer)).0 }
    ensures newer { seen_variant result.1 ≡ (inside_lists lists (lists_seen schemas.now) (seen_type older)
        (seen_type newer)).1 }
    ensures all { variant_kind result.0 ≡ 15 → variant_kind result.1 ≡ 15 → ⊥ }
{
    let mut one = older;
    let mut other = newer;
    loop {
        let s = one.which();
        let t = other.which();
        let TypeVariant::List(x) = s else {
            return (s, t);
        };
        let TypeVariant::List(y) = t else {
            return (s, t);
        };
        one = x;
        other = type_in_place(schemas, lists, x, y);
    }
}

/// Whether an older type is related to a newer one, where all pairs of structs are.
pub(crate) fn are_related(schemas: &SchemaSet, lists: bool, older: Type, newer: Type) -> bool
    ensures { IsTrue result ↔ Related lists (lists_seen schemas.now) all_pairs (seen_type older) (seen_type newer) }
{
    let (one, other) = inside_lists(schemas, lists, older, newer);
    are_related_layers(schemas, one, other)
}

/// The pair of structs that two layers name, of which not both are lists.
fn named_layers(
    schemas: &SchemaSet,
    lists: bool,
    older: TypeVariant,
    newer: TypeVariant,
) -> Option<Pair>
    requires { variant_kind older ≡ 15 → variant_kind newer ≡ 15 → ⊥ }
    ensures { result ≡ named_pair lists (lists_seen schemas.now) (seen_variant older) (seen_variant newer) }
{
    if kind(older) != kind(newer) {
        return None;
    }
    match older {
        TypeVariant::Struct(s) => match newer {
            TypeVariant::Struct(t) => Some(Pair {
                older: s.number,
                newer: t.number,
            }),
            _ => None,
        },
        _ => None,
    }
}

/// The pair of structs that two types name, inside lists of the same depth.
#[tactic(auto, using(crate::proofs::ByLayer::named_through))]
pub(crate) fn named(schemas: &SchemaSet, lists: bool, older: Type, newer: Type) -> Option<Pair>
    ensures { result ≡ named_pair lists (lists_seen schemas.now) (seen_type older) (seen_type newer) }
{
    let (one, other) = inside_lists(schemas, lists, older, newer);
    named_layers(schemas, lists, one, other)
}
