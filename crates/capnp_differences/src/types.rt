//! What differs in two types, and the structs that both name.
ghost use Rattle.std.specs.Prelude.{◌≡◌, length, slice_get};
ghost use Rattle.std.specs.Option.{option_copied};
ghost use Rattle.capnp_base.specs.Types.{variant_kind};
ghost use Rattle.capnp_schema.specs.Entries.{lists_seen};
ghost use Rattle.capnp_schema.specs.Schema.{enum_at};
ghost use Rattle.capnp_schema.specs.Types.{seen_type, seen_variant};
ghost use Rattle.capnp_differences.specs.Differences.{struct_pair, type_change};
ghost use Rattle.capnp_differences.specs.Steps.Comparing.{other_kind};

use crate::differences::{Cause, Pair};
use crate::first::type_in_place;
use crate::tell::unless;
use capnp_base::introspect::{Type, TypeVariant};
use capnp_schema::record::EnumRecord;
use capnp_schema::set::SchemaSet;

pub(crate) fn kind(layer: TypeVariant) -> u8
    ensures { result ≡ variant_kind layer }
{
    match layer {
        TypeVariant::Void => 0,
        TypeVariant::Bool => 1,
        TypeVariant::Int8 => 2,
        TypeVariant::Int16 => 3,
        TypeVariant::Int32 => 4,
        TypeVariant::Int64 => 5,
        TypeVariant::UInt8 => 6,
        TypeVariant::UInt16 => 7,
        TypeVariant::UInt32 => 8,
        TypeVariant::UInt64 => 9,
        TypeVariant::Text => 10,
        TypeVariant::Data => 11,
        TypeVariant::Struct(_) => 12,
        TypeVariant::AnyPointer => 13,
        TypeVariant::Enum(_) => 14,
        TypeVariant::List(_) => 15,
    }
}

pub(crate) fn enum_of(enums: &[EnumRecord], number: u32) -> Option<&EnumRecord>
    ensures { option_copied result ≡ slice_get enums.now number }
{
    enums.get(number as usize)
}

/// How many names an enum of the set has.
fn enumerant_count(schemas: &SchemaSet, number: u32) -> usize
    ensures { result ≡ length (enum_at (lists_seen schemas.now) number).enumerants }
{
    match enum_of(schemas.enums(), number) {
        Some(record) => record.enumerants.len(),
        None => 0,
    }
}

/// What is said of two layers of other kinds, by the newer one.
fn other_kind(became: Cause, newer: TypeVariant) -> Cause
    ensures { result ≡ other_kind became newer }
{
    match newer {
        TypeVariant::Struct(_) => became,
        _ => Cause::TypeChanged,
    }
}

/// What differs in two layers, of which not both are lists.
fn layer_change(
    schemas: &SchemaSet,
    became: Cause,
    older: TypeVariant,
    newer: TypeVariant,
) -> Option<Cause>
    requires { variant_kind older ≡ 15 → variant_kind newer ≡ 15 → ⊥ }
    ensures { result ≡ type_change became (lists_seen schemas.now) (seen_variant older) (seen_variant newer) }
{
    if kind(older) != kind(newer) {
        return Some(other_kind(became, newer));
    }
    let TypeVariant::Enum(d) = older else {
        return None;
    };
    let TypeVariant::Enum(e) = newer else {
        return None;
    };
    unless(
        enumerant_count(schemas, d.number) <= enumerant_count(schemas, e.number),
        Cause::FewerEnumerants,
    )
}

/// The pair of structs that two layers name, of which not both are lists.
fn named_layers(schemas: &SchemaSet, older: TypeVariant, newer: TypeVariant) -> Option<Pair>
    requires { variant_kind older ≡ 15 → variant_kind newer ≡ 15 → ⊥ }
    ensures { result ≡ struct_pair (lists_seen schemas.now) (seen_variant older) (seen_variant newer) }
{
    if kind(older) != kind(newer) {
        return None;
    }
    match older {
        TypeVariant::Struct(s) => match newer {
            TypeVariant::Struct(t) => Some(Pair {
                older: s.number,
                newer: t.number,
            }),
            _ => None,
        },
        _ => None,
    }
}

/// The layers of two types inside the lists that both are, of which not both are lists, and what is said where the newer
/// alone is a struct. In the place of a struct that stands where an element stood, the type of its field 0 is gone on with.
fn inside_lists(schemas: &SchemaSet, older: Type, newer: Type) -> (TypeVariant, TypeVariant, Cause)
    ensures change { type_change result.2 (lists_seen schemas.now) (seen_variant result.0) (seen_variant result.1)
        ≡ type_change Cause.TypeChanged (lists_seen schemas.now) (seen_type older) (seen_type newer) }
    ensures pair { struct_pair (lists_seen schemas.now) (seen_variant result.0) (seen_variant result.1)
        ≡ struct_pair (lists_seen schemas.now) (seen_type older) (seen_type newer) }
    ensures all { variant_kind result.0 ≡ 15 → variant_kind result.1 ≡ 15 → ⊥ }
{
    let mut one = older;
    let mut other = newer;
    let mut became = Cause::TypeChanged;
    loop {
        let s = one.which();
        let t = other.which();
        let TypeVariant::List(x) = s else {
            return (s, t, became);
        };
        let TypeVariant::List(y) = t else {
            return (s, t, became);
        };
        one = x;
        other = type_in_place(schemas, x, y);
        became = Cause::ElementsBecameStructs;
    }
}

/// What differs in two types.
pub(crate) fn type_change(schemas: &SchemaSet, older: Type, newer: Type) -> Option<Cause>
    ensures { result ≡ type_change Cause.TypeChanged (lists_seen schemas.now) (seen_type older) (seen_type newer) }
{
    let (one, other, became) = inside_lists(schemas, older, newer);
    layer_change(schemas, became, one, other)
}

/// The pair of structs that two types name, inside lists of the same depth.
pub(crate) fn named(schemas: &SchemaSet, older: Type, newer: Type) -> Option<Pair>
    ensures { result ≡ struct_pair (lists_seen schemas.now) (seen_type older) (seen_type newer) }
{
    let (one, other, _) = inside_lists(schemas, older, newer);
    named_layers(schemas, one, other)
}
