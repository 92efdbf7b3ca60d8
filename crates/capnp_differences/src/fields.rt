//! What differs in the fields of two structs.
ghost use Rattle.std.specs.Prelude.{◌≡◌, ◌<◌, ◌+◌, ◌*◌, IfErr, OnOk, Some, length};
ghost use Rattle.capnp_device.specs.declared.error.ErrorKind.TheVariants.{OutOfMemory};
ghost use Rattle.capnp_schema.specs.Entries.{lists_seen};
ghost use Rattle.capnp_schema.specs.Schema.{fields_of, seen_field, seen_kind};
ghost use Rattle.capnp_schema.specs.FieldLists.{typed_of};
ghost use Rattle.capnp_differences.specs.Differences.{FieldDiffers, FieldsDiffer, SameDefaults, kind_change, member_change, membership_change};
ghost use Rattle.capnp_differences.specs.Steps.Comparing.{default_change};
ghost use Rattle.capnp_differences.specs.Steps.Telling.{AreKnown, IsKnown, IsKnownAt, IsOf, IsOfFields, IsOfPair, Orders, Tells};

use crate::brands::{field_count, field_of, node_of};
use crate::defaults::are_same_defaults;
use crate::differences::{Cause, Difference, Pair};
use crate::tell::{tell, unless};
use crate::types::type_change;
use crate::unions::tell_union;
use capnp_schema::record::{FieldKind, FieldRecord};
use capnp_schema::schema::Field;
use capnp_schema::set::SchemaSet;
use capnp_wire::error::Result;

/// Whether a slot became a group, a group a slot, or a slot stands elsewhere.
fn kind_change(one: &FieldKind, other: &FieldKind) -> Option<Cause>
    ensures { result ≡ kind_change (seen_kind one.now) (seen_kind other.now) }
{
    match one {
        FieldKind::Slot { offset, default: _ } => match other {
            FieldKind::Slot {
                offset: other_offset,
                default: _,
            } => unless(*offset == *other_offset, Cause::PlaceChanged),
            FieldKind::Group { .. } => Some(Cause::KindChanged),
        },
        FieldKind::Group { .. } => match other {
            FieldKind::Slot { .. } => Some(Cause::KindChanged),
            FieldKind::Group { .. } => None,
        },
    }
}

/// By whether a field was a member of the union, whether it is one, and whether its discriminant value is the same.
fn membership_change(was: bool, now: bool, same: bool) -> Option<Cause>
    ensures { result ≡ membership_change was now same }
{
    if was {
        if now {
            return unless(same, Cause::DiscriminantChanged);
        }
        return Some(Cause::LeftUnion);
    }
    if now {
        return Some(Cause::EnteredUnion);
    }
    None
}

/// Whether a field left the union, entered it, or is another member.
fn member_change(one: &FieldRecord, other: &FieldRecord) -> Option<Cause>
    ensures { result ≡ member_change (seen_field one.now) (seen_field other.now) }
{
    membership_change(
        one.is_member(),
        other.is_member(),
        one.discriminant_value == other.discriminant_value,
    )
}

/// Whether a default is another one. Defaults of another type are not compared.
fn default_change(same: bool, types: Option<Cause>) -> Option<Cause>
    ensures { result ≡ default_change same types }
{
    match types {
        Some(Cause::TypeChanged) => None,
        _ => unless(same, Cause::DefaultChanged),
    }
}

/// Tells what differs in a field that both structs have.
fn tell_shared(
    told: &mut Vec<Difference>,
    schemas: &SchemaSet,
    pair: Pair,
    index: u16,
    older: Field<'_>,
    newer: Field<'_>,
) -> Result<()>
    ensures told { OnOk result (Tells told.old.items told.new.items (IsOf pair (Some index)
        (FieldsDiffer (lists_seen schemas.now) (typed_of older.entry) (typed_of newer.entry)))) }
    ensures known { OnOk result (IsKnown (SameDefaults (typed_of older.entry).field.kind
        (typed_of newer.entry).field.kind)) }
    ensures turn { OnOk result (Orders told.old.items told.new.items pair (13 * (index + 1)) (13 * (index + 2))) }
    ensures refused { IfErr result (λ e. e.kind ≡ OutOfMemory) }
{
    let one = older.get_proto();
    let other = newer.get_proto();
    let same = are_same_defaults(&one.kind, &other.kind);
    let kinds = kind_change(&one.kind, &other.kind);
    let members = member_change(one, other);
    let types = type_change(schemas, older.get_type(), newer.get_type());
    tell(told, pair, Some(index), kinds)?;
    tell(told, pair, Some(index), default_change(same, types))?;
    tell(told, pair, Some(index), members)?;
    tell(told, pair, Some(index), types)?;
    Ok(())
}

/// Tells what differs in a field of the older struct.
fn tell_field(told: &mut Vec<Difference>, schemas: &SchemaSet, pair: Pair, index: u16) -> Result<()>
    requires { index < length (fields_of (lists_seen schemas.now) pair.older) }
    ensures told { OnOk result (Tells told.old.items told.new.items (IsOf pair (Some index)
        (FieldDiffers (lists_seen schemas.now) pair.older pair.newer index))) }
    ensures known { OnOk result (IsKnownAt (lists_seen schemas.now) pair.older pair.newer index) }
    ensures turn { OnOk result (Orders told.old.items told.new.items pair (13 * (index + 1)) (13 * (index + 2))) }
    ensures refused { IfErr result (λ e. e.kind ≡ OutOfMemory) }
{
    if index >= field_count(schemas, pair.newer) {
        tell(told, pair, Some(index), Some(Cause::FieldGone))?;
        return Ok(());
    }
    let older = field_of(schemas, pair.older, index);
    let newer = field_of(schemas, pair.newer, index);
    tell_shared(told, schemas, pair, index, older, newer)?;
    Ok(())
}

/// Tells what differs in the fields of the older struct.
fn tell_fields(told: &mut Vec<Difference>, schemas: &SchemaSet, pair: Pair) -> Result<()>
    ensures told { OnOk result (Tells told.old.items told.new.items (IsOfFields (lists_seen schemas.now) pair
        (length (fields_of (lists_seen schemas.now) pair.older)))) }
    ensures known { OnOk result (AreKnown (lists_seen schemas.now) pair.older pair.newer
        (length (fields_of (lists_seen schemas.now) pair.older))) }
    ensures turn { OnOk result (Orders told.old.items told.new.items pair 13
        (13 * (length (fields_of (lists_seen schemas.now) pair.older) + 1))) }
    ensures refused { IfErr result (λ e. e.kind ≡ OutOfMemory) }
{
    for i in 0..field_count(schemas, pair.older) {
        tell_field(told, schemas, pair, i)?;
    }
    Ok(())
}

/// Tells what differs in a pair of structs.
pub(crate) fn tell_pair(told: &mut Vec<Difference>, schemas: &SchemaSet, pair: Pair) -> Result<()>
    ensures told { OnOk result (Tells told.old.items told.new.items (IsOfPair (lists_seen schemas.now) pair)) }
    ensures known { OnOk result (AreKnown (lists_seen schemas.now) pair.older pair.newer
        (length (fields_of (lists_seen schemas.now) pair.older))) }
    ensures turn { OnOk result (Orders told.old.items told.new.items pair 0
        (13 * (length (fields_of (lists_seen schemas.now) pair.older) + 1))) }
    ensures refused { IfErr result (λ e. e.kind ≡ OutOfMemory) }
{
    let older = node_of(schemas, pair.older);
    let newer = node_of(schemas, pair.newer);
    tell_union(told, pair, older, newer)?;
    tell_fields(told, schemas, pair)?;
    Ok(())
}
