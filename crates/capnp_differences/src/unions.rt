//! What differs in the unions of two structs.
ghost use Rattle.std.specs.Prelude.{◌≡◌, IfErr, None, OnOk};
ghost use Rattle.capnp_device.specs.declared.error.ErrorKind.TheVariants.{OutOfMemory};
ghost use Rattle.capnp_schema.specs.Schema.{seen_node};
ghost use Rattle.capnp_differences.specs.Differences.{UnionDiffers, members_change, members_lost, place_change, union_moved};
ghost use Rattle.capnp_differences.specs.Steps.Telling.{IsOf, Orders, Tells};

use crate::differences::{Cause, Difference, Pair};
use crate::tell::{tell, unless};
use capnp_schema::record::NodeRecord;
use capnp_wire::error::Result;

/// By whether a union has as many members, and whether it has none.
fn members_lost(enough: bool, none: bool) -> Option<Cause>
    ensures { result ≡ members_lost enough none }
{
    if enough {
        return None;
    }
    if none {
        return Some(Cause::UnionGone);
    }
    Some(Cause::FewerMembers)
}

/// By whether there was no union, whether there is none, and whether its place is the same.
fn union_moved(had_none: bool, has_none: bool, same: bool) -> Option<Cause>
    ensures { result ≡ union_moved had_none has_none same }
{
    if had_none {
        return None;
    }
    if has_none {
        return None;
    }
    unless(same, Cause::UnionMoved)
}

/// Whether the newer struct's union has lost members.
fn members_change(older: &NodeRecord, newer: &NodeRecord) -> Option<Cause>
    ensures { result ≡ members_change (seen_node older.now) (seen_node newer.now) }
{
    let was = older.body.discriminant_count;
    let now = newer.body.discriminant_count;
    members_lost(was <= now, now == 0)
}

/// Whether its discriminant stands elsewhere.
fn place_change(older: &NodeRecord, newer: &NodeRecord) -> Option<Cause>
    ensures { result ≡ place_change (seen_node older.now) (seen_node newer.now) }
{
    union_moved(
        older.body.discriminant_count == 0,
        newer.body.discriminant_count == 0,
        older.body.discriminant_offset == newer.body.discriminant_offset,
    )
}

/// Tells what differs in the unions.
pub(crate) fn tell_union(
    told: &mut Vec<Difference>,
    pair: Pair,
    older: &NodeRecord,
    newer: &NodeRecord,
) -> Result<()>
    ensures told { OnOk result (Tells told.old.items told.new.items (IsOf pair None
        (UnionDiffers (seen_node older.now) (seen_node newer.now)))) }
    ensures turn { OnOk result (Orders told.old.items told.new.items pair 0 13) }
    ensures refused { IfErr result (λ e. e.kind ≡ OutOfMemory) }
{
    tell(told, pair, None, members_change(older, newer))?;
    tell(told, pair, None, place_change(older, newer))?;
    Ok(())
}
