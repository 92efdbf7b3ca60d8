//! What is read of fields after they are written. Each law is of a field's handle, and its premises are what the calls
//! of `slot` and `group` say: so their clauses and a law together say what a read answers then, by a reader with any
//! number of levels left.
ghost use Rattle.capnp_schema.specs.FieldLists.{index_of};
ghost use Rattle.capnp_records.specs.Laws.{IsFieldAt};
ghost use Rattle.capnp_slots.specs.Fields.{field_brand, field_set};
ghost use Rattle.capnp_slots.specs.ReadBack.{ClearIsActive, ClearIsGot, CopyIsActive, CopyIsGot, DataIsGot, GroupIsActive, GroupStarts, InitIsActive, InitnIsActive, NumberIsGot, OtherIsGot, OtherIsThere, NonUnionStays, SetIsActive, TextIsGot, WholeIsGot};
ghost use Rattle.capnp_slots.specs.Sources.{source_seen};

use crate::source::{Source, source_fits};
use capnp_records::laws::{
    cleared_slots_are_read, groups_are_active, other_fields_are_read, written_slots_are_read,
};
use capnp_schema::laws::numbers_fit;
use capnp_schema::schema::Field;

/// A field's handle is one of an accepted set.
fn field_stands(field: Field<'_>)
    ensures { IsFieldAt (field_set field.entry) (field_brand field.entry) (index_of field.entry) }
{
    let schema = field.get_containing_struct();
    numbers_fit(schema.get_set());
}

/// After a set of a slot of a kind, which Void and untyped pointers have none of, to a number, a truth value, an enum's
/// number, a text or data, this value is read. Of all slots, what was given at once is read as it was given, a text or
/// data in a slot of its kind as its bytes, and what else was copied as the slot's type reads it. A member is the
/// active one.
pub fn sets_are_read(field: Field<'_>, source: Source<'_>)
    ensures values { WholeIsGot field.entry (source_seen source.entry) }
    ensures numbers { NumberIsGot field.entry (source_seen source.entry) }
    ensures copies { CopyIsGot field.entry (source_seen source.entry) }
    ensures texts { TextIsGot field.entry (source_seen source.entry) }
    ensures data { DataIsGot field.entry (source_seen source.entry) }
    ensures active { SetIsActive field.entry (source_seen source.entry) }
{
    field_stands(field);
    source_fits(source);
    written_slots_are_read();
}

/// After a clear of a slot its default is read, and a member is the active one; so it is after an init of a slot, and
/// one with a size.
pub fn starts_are_read(field: Field<'_>)
    ensures cleared { ClearIsGot field.entry }
    ensures active { ClearIsActive field.entry }
    ensures init { InitIsActive field.entry }
    ensures initn { InitnIsActive field.entry }
{
    field_stands(field);
    cleared_slots_are_read();
    written_slots_are_read();
}

/// After a clear or init of a group its member of discriminant value 0 is active, where it has one. A group that is a
/// member itself is the active one then, and after it was set, also where that was cut short.
pub fn groups_are_started(field: Field<'_>)
    ensures first { GroupStarts field.entry }
    ensures active { GroupIsActive field.entry }
    ensures set { CopyIsActive field.entry }
{
    field_stands(field);
    groups_are_active();
}

/// A write of a field changes nothing of what another one of the struct is read as, nor of whether it is there, unless
/// both are members; that of a non-union field leaves the active member.
pub fn others_are_read(field: Field<'_>, other: Field<'_>)
    ensures read { OtherIsGot field.entry other.entry }
    ensures there { OtherIsThere field.entry other.entry }
    ensures active { NonUnionStays field.entry }
{
    field_stands(field);
    field_stands(other);
    other_fields_are_read();
}
