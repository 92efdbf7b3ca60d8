//! Brands of one set by their numbers: whether one is a compatible successor of another, and a struct of either as the
//! other reads it.
ghost use Rattle.std.specs.Prelude.{◌≡◌, ◌≢◌, IfErr, IfOk, MatchOption};
ghost use Rattle.std.specs.Bool.{Decides};
ghost use Rattle.capnp_device.specs.declared.error.ErrorKind.TheVariants.{NoSuchElement, OutOfMemory};
ghost use Rattle.capnp_schema.specs.Entries.{lists_seen};
ghost use Rattle.capnp_schema.specs.StructHandles.{IsStruct, number_of, set_of};
ghost use Rattle.capnp_records.specs.Compatible.{IsCompatible, IsCompatibleOrUpgraded};
ghost use Rattle.capnp_callers.specs.Sight.{HasBoth, IsBetween, IsSeenByNewer, IsSeenByOlder};

use capnp_compatible::Compatible;
use capnp_differences::explain;
use capnp_dynamic::dynamic_struct;
use capnp_schema::schema::StructSchema;
use capnp_schema::set::SchemaSet;
use capnp_wire::StructReader;
use capnp_wire::error::{Error, ErrorKind, Result};
use std::alloc::Global;

/// The pair of two brands, where the newer is a compatible successor; nothing where it is not. Refused with
/// `NoSuchElement` where the set has no brand of a number, and with `OutOfMemory`.
pub fn between<'s>(
    alloc: Global,
    schemas: &'s SchemaSet,
    older: u32,
    newer: u32,
) -> Result<Option<Compatible<'s>>>
    ensures answer { IfOk result (λ found. MatchOption found
        (IsCompatibleOrUpgraded (lists_seen schemas.now) older newer → ⊥)
        (IsBetween (lists_seen schemas.now) older newer)) }
    ensures there { IfOk result (λ found. HasBoth (lists_seen schemas.now) older newer) }
    ensures refused { IfErr result (λ e. e.kind ≢ OutOfMemory → (e.kind ≡ NoSuchElement)
        × (HasBoth (lists_seen schemas.now) older newer → ⊥)) }
{
    let Some(one) = schemas.get_struct(older) else {
        return Err(Error::from(ErrorKind::NoSuchElement));
    };
    let Some(other) = schemas.get_struct(newer) else {
        return Err(Error::from(ErrorKind::NoSuchElement));
    };
    Compatible::check(alloc, one, other)
}

/// Whether a brand is a compatible successor of another. Refused as `between`.
pub fn is_successor(alloc: Global, schemas: &SchemaSet, older: u32, newer: u32) -> Result<bool>
    ensures answer { IfOk result (λ yes. Decides yes (IsCompatibleOrUpgraded (lists_seen schemas.now) older newer)) }
    ensures there { IfOk result (λ yes. HasBoth (lists_seen schemas.now) older newer) }
    ensures refused { IfErr result (λ e. e.kind ≢ OutOfMemory → (e.kind ≡ NoSuchElement)
        × (HasBoth (lists_seen schemas.now) older newer → ⊥)) }
{
    match between(alloc, schemas, older, newer)? {
        Some(pair) => {
            pair.follows();
            Ok(true)
        }
        None => Ok(false),
    }
}

/// Whether a brand is a compatible successor of another only because lists of numbers, texts, data or lists became lists
/// of structs. Refused as `between`.
pub fn is_upgrade(alloc: Global, schemas: &SchemaSet, older: u32, newer: u32) -> Result<bool>
    ensures answer { IfOk result (λ yes. Decides yes (IsCompatibleOrUpgraded (lists_seen schemas.now) older newer
        × (IsCompatible (lists_seen schemas.now) older newer → ⊥))) }
    ensures there { IfOk result (λ yes. HasBoth (lists_seen schemas.now) older newer) }
    ensures refused { IfErr result (λ e. e.kind ≢ OutOfMemory → (e.kind ≡ NoSuchElement)
        × (HasBoth (lists_seen schemas.now) older newer → ⊥)) }
{
    match between(alloc, schemas, older, newer)? {
        Some(pair) => {
            pair.follows();
            Ok(pair.upgrades())
        }
        None => Ok(false),
    }
}

/// Whether a newer schema is a compatible successor of an older one, by the differences that are told: there is none.
/// Refused with `OutOfMemory` alone.
///
/// # Conditions
///
/// Both schemas are brands of one accepted set (`IsStruct`).
pub fn has_no_difference(
    alloc: Global,
    older: StructSchema<'_>,
    newer: StructSchema<'_>,
) -> Result<bool>
    requires older { IsStruct older }
    requires newer { IsStruct newer }
    requires one_set { set_of newer ≡ set_of older }
    ensures answer { IfOk result (λ yes. Decides yes
        (IsCompatibleOrUpgraded (set_of older.entry) (number_of older.entry) (number_of newer.entry))) }
    ensures refused { IfErr result (λ e. e.kind ≡ OutOfMemory) }
{
    Ok(explain(alloc, older, newer)?.is_empty())
}

/// A struct of the newer brand as the older one reads it; nothing where the newer is no compatible successor. Refused
/// as `between`.
pub fn seen_by_older<'s>(
    alloc: Global,
    schemas: &'s SchemaSet,
    older: u32,
    newer: u32,
    sections: StructReader<'s>,
) -> Result<Option<dynamic_struct::Reader<'s>>>
    ensures answer { IfOk result (λ found. MatchOption found
        (IsCompatibleOrUpgraded (lists_seen schemas.now) older newer → ⊥)
        (IsSeenByOlder (lists_seen schemas.now) older newer sections.entry)) }
    ensures there { IfOk result (λ found. HasBoth (lists_seen schemas.now) older newer) }
    ensures refused { IfErr result (λ e. e.kind ≢ OutOfMemory → (e.kind ≡ NoSuchElement)
        × (HasBoth (lists_seen schemas.now) older newer → ⊥)) }
{
    match between(alloc, schemas, older, newer)? {
        Some(pair) => {
            let reader = dynamic_struct::Reader::new(sections, schemas.struct_schema(newer));
            Ok(Some(pair.narrow(reader)))
        }
        None => Ok(None),
    }
}

/// A struct of the older brand as the newer one reads it; nothing where the newer is no compatible successor. Refused
/// as `between`.
pub fn seen_by_newer<'s>(
    alloc: Global,
    schemas: &'s SchemaSet,
    older: u32,
    newer: u32,
    sections: StructReader<'s>,
) -> Result<Option<dynamic_struct::Reader<'s>>>
    ensures answer { IfOk result (λ found. MatchOption found
        (IsCompatibleOrUpgraded (lists_seen schemas.now) older newer → ⊥)
        (IsSeenByNewer (lists_seen schemas.now) older newer sections.entry)) }
    ensures there { IfOk result (λ found. HasBoth (lists_seen schemas.now) older newer) }
    ensures refused { IfErr result (λ e. e.kind ≢ OutOfMemory → (e.kind ≡ NoSuchElement)
        × (HasBoth (lists_seen schemas.now) older newer → ⊥)) }
{
    match between(alloc, schemas, older, newer)? {
        Some(pair) => {
            let reader = dynamic_struct::Reader::new(sections, schemas.struct_schema(older));
            Ok(Some(pair.widen(reader)))
        }
        None => Ok(None),
    }
}
