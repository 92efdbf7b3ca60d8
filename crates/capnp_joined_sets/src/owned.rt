//! The join of two sets that nobody needs any more: their entries move.
ghost use Rattle.std.specs.Prelude.{◌≡◌, ◌++◌, All, IfErr, IfOk, map};
ghost use Rattle.capnp_device.specs.declared.error.ErrorKind.TheVariants.{OutOfMemory};
ghost use Rattle.capnp_schema.specs.Entries.{lists_seen};
ghost use Rattle.capnp_joined_sets.specs.Joined.{joined};
ghost use Rattle.capnp_joined_sets.specs.Refusals.{IsMoveRefusal, NumbersFit};

use crate::in_place::{MovedInPlace, move_all};
use crate::moves::Moves;
use crate::sets::ends_of;
use capnp_schema::set::{SchemaSet, SetLists};
use capnp_wire::error::Result;
use std::alloc::Global;

/// The items of two vectors, one behind the other. Refused with `OutOfMemory` alone.
fn add_all<T: Drop>(first: Vec<T>, second: Vec<T>) -> Result<Vec<T>>
    ensures added { IfOk result (λ out. out.items ≡ first.items ++ second.items) }
    ensures refused { IfErr result (λ e. e.kind ≡ OutOfMemory) }
{
    let mut out = first;
    let mut rest = second;
    out.append(&mut rest)?;
    Ok(out)
}

/// The entries of two lists, one behind the other. The numbers of the second move.
fn both_owned<T: MovedInPlace + Drop>(older: Vec<T>, newer: Vec<T>, moves: Moves) -> Result<Vec<T>>
    ensures joined { IfOk result (λ out. map T.seen out.items
        ≡ map T.seen older.items ++ map (T.moved moves) (map T.seen newer.items)) }
    ensures refused { IfErr result (IsMoveRefusal (All T.fits (map T.seen older.items ++ map (T.moved moves) (map T.seen newer.items)))) }
{
    let mut second = newer;
    move_all(&mut second, moves)?;
    add_all(older, second)
}

/// The set with the entries of both sets, as `join` makes it. Both sets are taken apart: their entries move, and nothing is
/// copied.
///
/// Refused as `join`, and then both sets are gone.
pub fn join_owned(alloc: Global, older: SchemaSet, newer: SchemaSet) -> Result<SchemaSet>
    ensures joined { IfOk result (λ set. lists_seen set ≡ joined (lists_seen older) (lists_seen newer)) }
    ensures refused { IfErr result (IsMoveRefusal (NumbersFit (joined (lists_seen older) (lists_seen newer)))) }
{
    let moves = ends_of(&older);
    let first = older.into_lists();
    let second = newer.into_lists();
    let nodes = both_owned(first.nodes, second.nodes, moves)?;
    let brands = both_owned(first.brands, second.brands, moves)?;
    let enums = both_owned(first.enums, second.enums, moves)?;
    let by_name = add_all(first.by_name, second.by_name)?;
    SchemaSet::of_lists(
        alloc,
        SetLists {
            nodes,
            brands,
            enums,
            by_name,
        },
    )
}
