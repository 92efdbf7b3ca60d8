//! The enums that two types name inside lists, and the lists whose elements became structs.
ghost use Rattle.std.specs.Prelude.{◌≡◌, ◌≤◌};
ghost use Rattle.capnp_base.specs.Types.{variant_kind};
ghost use Rattle.capnp_schema.specs.Entries.{lists_seen};
ghost use Rattle.capnp_schema.specs.Types.{seen_type, seen_variant};
ghost use Rattle.capnp_differences.specs.Notes.{enum_pair, level_asked, more_levels, one_level};

use crate::first::{is_in_place, type_in_place};
use crate::noted::EnumPair;
use crate::types::kind;
use capnp_base::introspect::{Type, TypeVariant};
use capnp_schema::set::SchemaSet;

/// One level where it is asked.
fn one_level(asked: bool) -> usize
    ensures level { result ≡ one_level asked }
    ensures few { result ≤ 1 }
{
    if asked { 1 } else { 0 }
}

/// Whether a newer element is a struct that stands where an older element stood, as the levels that a reader needs more.
#[tactic(auto, using(crate::proofs::Layers::seen))]
fn level_asked(schemas: &SchemaSet, older: Type, newer: Type) -> usize
    ensures level { result ≡ level_asked (lists_seen schemas.now) (seen_type older) (seen_type newer) }
    ensures few { result ≤ 1 }
{
    let TypeVariant::Struct(schema) = newer.which() else {
        return 0;
    };
    one_level(is_in_place(schemas, older, schema.number))
}

/// The layers of two types inside the lists that both are, of which not both are lists, and in how many of these lists
/// elements became structs. In the place of such a struct the type of its field 0 is gone on with.
fn through_lists(schemas: &SchemaSet, older: Type, newer: Type) -> (TypeVariant, TypeVariant, usize)
    ensures enums { enum_pair (lists_seen schemas.now) (seen_variant result.0) (seen_variant result.1)
        ≡ enum_pair (lists_seen schemas.now) (seen_type older) (seen_type newer) }
    ensures levels { result.2 ≡ more_levels (lists_seen schemas.now) (seen_type older) (seen_type newer) }
    ensures all { variant_kind result.0 ≡ 15 → variant_kind result.1 ≡ 15 → ⊥ }
{
    let mut one = older;
    let mut other = newer;
    let mut levels: usize = 0;
    loop {
        let s = one.which();
        let t = other.which();
        let TypeVariant::List(x) = s else {
            return (s, t, levels);
        };
        let TypeVariant::List(y) = t else {
            return (s, t, levels);
        };
        levels += level_asked(schemas, x, y);
        one = x;
        other = type_in_place(schemas, x, y);
    }
}

/// The enums that two layers name, of which not both are lists.
fn enum_layers(schemas: &SchemaSet, older: TypeVariant, newer: TypeVariant) -> Option<EnumPair>
    requires { variant_kind older ≡ 15 → variant_kind newer ≡ 15 → ⊥ }
    ensures { result ≡ enum_pair (lists_seen schemas.now) (seen_variant older) (seen_variant newer) }
{
    if kind(older) != kind(newer) {
        return None;
    }
    match older {
        TypeVariant::Enum(d) => match newer {
            TypeVariant::Enum(e) => Some(EnumPair {
                older: d.number,
                newer: e.number,
            }),
            _ => None,
        },
        _ => None,
    }
}

/// The enums that two types name, and in how many lists that both are elements became structs.
pub(crate) fn enums_and_levels(
    schemas: &SchemaSet,
    older: Type,
    newer: Type,
) -> (Option<EnumPair>, usize)
    ensures enums { result.0 ≡ enum_pair (lists_seen schemas.now) (seen_type older) (seen_type newer) }
    ensures levels { result.1 ≡ more_levels (lists_seen schemas.now) (seen_type older) (seen_type newer) }
{
    let (one, other, levels) = through_lists(schemas, older, newer);
    (enum_layers(schemas, one, other), levels)
}
