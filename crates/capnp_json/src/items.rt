//! Which fields of a struct have an item.
ghost use Rattle.std.specs.Prelude.{◌≡◌, MatchOption, false};
ghost use Rattle.capnp_schema.specs.FieldLists.{IsFieldOf, IsFound, index_of};
ghost use Rattle.capnp_schema.specs.Schema.{is_member};
ghost use Rattle.capnp_records.specs.Part.{which_of};
ghost use Rattle.capnp_records.specs.Record.{is_there};
ghost use Rattle.capnp_dynamic_readers.specs.Handles.{schema_of};
ghost use Rattle.capnp_dynamic_readers.specs.Seen.{record_seen};
ghost use Rattle.capnp_dynamic_readers.specs.Steps.PartsRead.{field_in};
ghost use Rattle.capnp_dynamic_readers.specs.Steps.Shown.{part_seen};
ghost use Rattle.capnp_json.specs.Steps.Records.{HasNoMemberItem, IsActiveMember, IsMemberItem, is_item, is_member_item};

use capnp_dynamic_readers::dynamic_struct;
use capnp_schema::schema::Field;

/// Whether a non-union field is there.
fn is_field_there<'a>(reader: dynamic_struct::Reader<'a>, field: Field<'a>) -> bool
    requires field { IsFieldOf (schema_of reader) (index_of field) field }
    requires non_union { is_member (field_in reader field).field ≡ false }
    ensures { result ≡ is_there (part_seen reader.entry (field_in reader.entry field.entry)) }
{
    match reader.has(field) {
        Ok(is_there) => is_there,
        Err(_) => unreachable!(),
    }
}

/// Whether a field is no member and there.
pub(crate) fn is_item<'a>(reader: dynamic_struct::Reader<'a>, field: Field<'a>) -> bool
    requires field { IsFieldOf (schema_of reader) (index_of field) field }
    ensures { result ≡ is_item reader.entry (field_in reader.entry field.entry) }
{
    if field.get_proto().is_member() {
        return false;
    }
    is_field_there(reader, field)
}

/// Whether the active member is there.
pub(crate) fn is_member_there<'a>(reader: dynamic_struct::Reader<'a>, member: Field<'a>) -> bool
    requires { IsActiveMember reader member }
    ensures { result ≡ is_there (part_seen reader.entry (field_in reader.entry member.entry)) }
{
    match reader.has(member) {
        Ok(is_there) => is_there,
        Err(_) => unreachable!(),
    }
}

/// Whether the active member has an item: one of discriminant value 0 where it is there, and every other one always.
fn is_member_item<'a>(reader: dynamic_struct::Reader<'a>, member: Field<'a>) -> bool
    requires { IsActiveMember reader member }
    ensures { result ≡ is_member_item reader.entry (field_in reader.entry member.entry) }
{
    if member.get_proto().discriminant_value != 0 {
        return true;
    }
    is_member_there(reader, member)
}

/// The active member.
fn active_member<'a>(reader: dynamic_struct::Reader<'a>) -> Option<Field<'a>>
    ensures { IsFound (schema_of reader.entry) (which_of (record_seen reader.entry)) result }
{
    match reader.which() {
        Ok(member) => member,
        Err(_) => unreachable!(),
    }
}

/// The active member, where it has an item.
pub(crate) fn find_member<'a>(reader: dynamic_struct::Reader<'a>) -> Option<Field<'a>>
    ensures { MatchOption result (HasNoMemberItem reader.entry) (IsMemberItem reader.entry) }
{
    let Some(member) = active_member(reader) else {
        return None;
    };
    if !is_member_item(reader, member) {
        return None;
    }
    Some(member)
}
