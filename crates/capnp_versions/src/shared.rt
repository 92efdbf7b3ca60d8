//! The structs whose display names stand in two sets.
ghost use Rattle.std.specs.Prelude.{◌≡◌, ◌≢◌, ◌<◌, ◌≤◌, ◌^◌, ◌++◌, All, IfErr, IfOk, IfSome, OnOk, Some, length};
ghost use Rattle.capnp_device.specs.declared.error.ErrorKind.TheVariants.{OutOfMemory, TooManyTypes};
ghost use Rattle.capnp_schema.specs.Entries.{lists_seen};
ghost use Rattle.capnp_differences.specs.Differences.{IsBrandPair};
ghost use Rattle.capnp_differences.specs.declared.differences.Pair.{Pair};
ghost use Rattle.capnp_joined_sets.specs.Joined.{joined};
ghost use Rattle.capnp_versions.specs.Steps.Index.{AreAllNames};
ghost use Rattle.capnp_versions.specs.Shared.{IsPast, shared_pair, shared_pairs, some_pair};

use crate::names::{first_at, name_at, number_named};
use crate::versions::moved_number;
use capnp_differences::Pair;
use capnp_schema::set::SchemaSet;
use capnp_wire::error::Result;
use std::alloc::Global;
use std::collections::HashMap;

/// The struct at an index of the older set and that of its name in the newer one, by their numbers in the joined set; none
/// where one of the sets has none. Refused with `TooManyTypes` where such a number takes more than 32 bits.
fn shared_pair(
    older: &SchemaSet,
    newer: &SchemaSet,
    older_names: &HashMap<&str, u32>,
    newer_names: &HashMap<&str, u32>,
    index: usize,
) -> Result<Option<Pair>>
    requires older { AreAllNames (lists_seen older.now) older_names.now }
    requires newer { AreAllNames (lists_seen newer.now) newer_names.now }
    ensures found { IfOk result (λ o. o ≡ shared_pair (lists_seen older.now) (lists_seen newer.now) index) }
    ensures inside { IfOk result (λ o. IfSome o (IsBrandPair (joined (lists_seen older.now) (lists_seen newer.now)))) }
    ensures past { IfErr result (λ e. (e.kind ≡ TooManyTypes) × ((p : Pair)
        × (shared_pair (lists_seen older.now) (lists_seen newer.now) index ≡ Some p) × (2 ^ 32 ≤ p.newer))) }
{
    let Some(number) = first_at(older, older_names, index) else {
        return Ok(None);
    };
    let Some(found) = number_named(newer, newer_names, name_at(older, number)) else {
        return Ok(None);
    };
    match moved_number(older, found) {
        Ok(moved) => Ok(Some(Pair {
            older: number,
            newer: moved,
        })),
        Err(error) => Err(error),
    }
}

/// Puts a pair at the end, where there is one. Refused with `OutOfMemory` alone.
fn push_some(pairs: &mut Vec<Pair>, pair: Option<Pair>) -> Result<()>
    ensures more { OnOk result (pairs.new.items ≡ pairs.old.items ++ some_pair pair) }
    ensures memory { IfErr result (λ e. e.kind ≡ OutOfMemory) }
{
    match pair {
        Some(found) => {
            pairs.push(found)?;
            Ok(())
        }
        None => Ok(()),
    }
}

/// The structs whose display names stand in both sets, by their numbers in the joined set. Refused with `TooManyTypes`
/// where such a number takes more than 32 bits, and with `OutOfMemory`.
pub(crate) fn shared_pairs(
    alloc: Global,
    older: &SchemaSet,
    newer: &SchemaSet,
    older_names: &HashMap<&str, u32>,
    newer_names: &HashMap<&str, u32>,
) -> Result<Vec<Pair>>
    requires older { AreAllNames (lists_seen older.now) older_names.now }
    requires newer { AreAllNames (lists_seen newer.now) newer_names.now }
    ensures pairs { IfOk result (λ pairs. pairs.items ≡ shared_pairs (lists_seen older.now) (lists_seen newer.now)) }
    ensures inside { IfOk result (λ pairs. All (IsBrandPair (joined (lists_seen older.now) (lists_seen newer.now))) pairs.items) }
    ensures refused { IfErr result (λ e. e.kind ≢ OutOfMemory → (e.kind ≡ TooManyTypes)
        × IsPast (lists_seen older.now) (lists_seen newer.now)) }
{
    let mut pairs = Vec::new(alloc);
    for i in 0..older.brands().len() {
        let pair = shared_pair(older, newer, older_names, newer_names, i)?;
        push_some(&mut pairs, pair)?;
    }
    Ok(pairs)
}
