//! The join of two sets.
ghost use Rattle.std.specs.Prelude.{◌≡◌, ◌++◌, All, IfErr, IfOk, map};
ghost use Rattle.capnp_schema.specs.Accepted.{IsAccepted};
ghost use Rattle.capnp_schema.specs.Entries.{lists_seen};
ghost use Rattle.capnp_schema.specs.Schema.{seen_brand, seen_enum, seen_node};
ghost use Rattle.capnp_joined_sets.specs.Joined.{ends_of, joined};
ghost use Rattle.capnp_joined_sets.specs.Refusals.{BrandFits, EnumFits, IsMoveRefusal, NodeFits, NumbersFit};
ghost use Rattle.capnp_joined_sets.specs.declared.moves.TheConstants.{NO_MOVES};

use crate::moves::{Moved, Moves, NO_MOVES, add_moved};
use crate::names::join_names;
use capnp_schema::record::{BrandRecord, EnumRecord, NodeRecord};
use capnp_schema::set::{SchemaSet, SetLists};
use capnp_wire::error::Result;
use std::alloc::Global;

/// Copies of the entries of two lists, one behind the other. The numbers of the second move.
fn both<T: Moved + Drop>(alloc: Global, older: &[T], newer: &[T], moves: Moves) -> Result<Vec<T>>
    ensures joined { IfOk result (λ out. map T.seen out.items
        ≡ map (T.moved NO_MOVES) (map T.seen older.now) ++ map (T.moved moves) (map T.seen newer.now)) }
    ensures refused { IfErr result (IsMoveRefusal (All T.fits
        (map (T.moved NO_MOVES) (map T.seen older.now) ++ map (T.moved moves) (map T.seen newer.now)))) }
{
    let mut out = Vec::with_capacity(alloc, older.len().saturating_add(newer.len()))?;
    add_moved(&mut out, alloc, older, NO_MOVES)?;
    add_moved(&mut out, alloc, newer, moves)?;
    Ok(out)
}

/// As far as the lists of a set reach.
pub(crate) fn ends_of(set: &SchemaSet) -> Moves
    ensures { result ≡ ends_of (lists_seen set.now) }
{
    Moves {
        nodes: set.nodes().len(),
        brands: set.brands().len(),
        enums: set.enums().len(),
    }
}

/// The nodes of both sets. Their lists meet the twelve rules together, as each set does.
fn join_nodes(alloc: Global, older: &SchemaSet, newer: &SchemaSet) -> Result<Vec<NodeRecord>>
    ensures joined { IfOk result (λ out. map seen_node out.items ≡ (joined (lists_seen older.now) (lists_seen newer.now)).nodes) }
    ensures refused { IfErr result (IsMoveRefusal (All NodeFits (joined (lists_seen older.now) (lists_seen newer.now)).nodes)) }
    ensures accepted { IsAccepted (joined (lists_seen older.now) (lists_seen newer.now)) }
{
    both(alloc, older.nodes(), newer.nodes(), ends_of(older))
}

/// The brands of both sets.
fn join_brands(alloc: Global, older: &SchemaSet, newer: &SchemaSet) -> Result<Vec<BrandRecord>>
    ensures joined { IfOk result (λ out. map seen_brand out.items ≡ (joined (lists_seen older.now) (lists_seen newer.now)).brands) }
    ensures refused { IfErr result (IsMoveRefusal (All BrandFits (joined (lists_seen older.now) (lists_seen newer.now)).brands)) }
{
    both(alloc, older.brands(), newer.brands(), ends_of(older))
}

/// The enums of both sets.
fn join_enums(alloc: Global, older: &SchemaSet, newer: &SchemaSet) -> Result<Vec<EnumRecord>>
    ensures joined { IfOk result (λ out. map seen_enum out.items ≡ (joined (lists_seen older.now) (lists_seen newer.now)).enums) }
    ensures refused { IfErr result (IsMoveRefusal (All EnumFits (joined (lists_seen older.now) (lists_seen newer.now)).enums)) }
{
    both(alloc, older.enums(), newer.enums(), ends_of(older))
}

/// The set with the entries of both sets: those of the first with the numbers that they have, and behind them those of
/// the second, with numbers that count on. Ids and names may be the same in both.
///
/// Refused with `OutOfMemory`, or with `TooManyTypes` where a number of the joined lists takes more than 32 bits.
pub fn join(alloc: Global, older: &SchemaSet, newer: &SchemaSet) -> Result<SchemaSet>
    ensures joined { IfOk result (λ set. lists_seen set ≡ joined (lists_seen older.now) (lists_seen newer.now)) }
    ensures refused { IfErr result (IsMoveRefusal (NumbersFit (joined (lists_seen older.now) (lists_seen newer.now)))) }
{
    let nodes = join_nodes(alloc, older, newer)?;
    let brands = join_brands(alloc, older, newer)?;
    let enums = join_enums(alloc, older, newer)?;
    let by_name = join_names(alloc, older, newer)?;
    SchemaSet::of_lists(
        alloc,
        SetLists {
            nodes,
            brands,
            enums,
            by_name,
        },
    )
}
