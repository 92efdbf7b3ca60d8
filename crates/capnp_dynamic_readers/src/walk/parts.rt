//! What a printer reads of structs and lists.
ghost use Rattle.std.specs.Prelude.{◌≡◌, IfErr, IfOk, Some, false};
ghost use Rattle.capnp_schema.specs.FieldLists.{IsFieldOf, index_of};
ghost use Rattle.capnp_schema.specs.Schema.{is_member};
ghost use Rattle.capnp_schema.specs.Types.{seen_type};
ghost use Rattle.capnp_records.specs.Part.{which_of};
ghost use Rattle.capnp_records.specs.Record.{is_there};
ghost use Rattle.capnp_records.specs.Text.{entering_fault, is_entered};
ghost use Rattle.capnp_dynamic_readers.specs.Steps.GroupTexts.{IsSlotField, is_item};
ghost use Rattle.capnp_dynamic_readers.specs.Handles.{schema_of};
ghost use Rattle.capnp_dynamic_readers.specs.Steps.PartsRead.{fault_at, field_in};
ghost use Rattle.capnp_dynamic_readers.specs.Steps.StyledParts.{IsReadAt, IsRefusedAt, IsSlotRead, IsSlotRefused};
ghost use Rattle.capnp_dynamic_readers.specs.Seen.{record_seen};
ghost use Rattle.capnp_dynamic_readers.specs.Steps.Shown.{IsPending, is_member_shown, part_seen};

use crate::dynamic_value::Reader as Value;
use crate::{dynamic_list, dynamic_struct};
use capnp_base::introspect::{Type, TypeVariant};
use capnp_schema::schema::Field;
use capnp_wire::error::{Error, ErrorKind, Result};

/// What stands under a field that is no group.
pub(crate) fn read_slot<'a>(
    reader: dynamic_struct::Reader<'a>,
    field: Field<'a>,
) -> Result<Value<'a>>
    requires field { IsFieldOf (schema_of reader) (index_of field) field }
    requires slot { IsSlotField field }
    ensures read { IfOk result (IsSlotRead reader.entry field.entry) }
    ensures refused { IfErr result (λ e. IsSlotRefused reader.entry field.entry e.kind) }
{
    // The prover learns the set's invariant from this call.
    let _schema = field.get_containing_struct();
    reader.get(field)
}

/// Whether a field has an item: a non-union field where it is there, and the active member where it is shown.
pub(crate) fn has_item<'a>(reader: dynamic_struct::Reader<'a>, field: Field<'a>) -> bool
    requires field { IsFieldOf (schema_of reader) (index_of field) field }
    ensures { result ≡ is_item reader.entry (field_in reader.entry field.entry) (index_of field.entry) }
{
    if !field.get_proto().is_member() {
        return is_field_there(reader, field);
    }
    if !reader.is_active(field) {
        return false;
    }
    is_shown(reader, field)
}

/// Whether a non-union field is there.
fn is_field_there<'a>(reader: dynamic_struct::Reader<'a>, field: Field<'a>) -> bool
    requires field { IsFieldOf (schema_of reader) (index_of field) field }
    requires non_union { is_member (field_in reader field).field ≡ false }
    ensures { result ≡ is_there (part_seen reader.entry (field_in reader.entry field.entry)) }
{
    match reader.has(field) {
        Ok(is_there) => is_there,
        Err(_) => unreachable!(),
    }
}

/// Whether the active member is shown: one of discriminant value 0 where it is there, and every other one always.
fn is_shown<'a>(reader: dynamic_struct::Reader<'a>, member: Field<'a>) -> bool
    requires { IsPending reader (Some member) }
    ensures { result ≡ is_member_shown reader.entry (field_in reader.entry member.entry) }
{
    if member.get_proto().discriminant_value != 0 {
        return true;
    }
    match reader.has(member) {
        Ok(is_there) => is_there,
        Err(_) => unreachable!(),
    }
}

/// An element of a list.
pub(crate) fn read_element<'a>(list: dynamic_list::Reader<'a>, index: u32) -> Result<Value<'a>>
    ensures read { IfOk result (IsReadAt list.entry index) }
    ensures refused { IfErr result (λ e. IsRefusedAt list.entry index e.kind) }
{
    list.get(index)
}

/// Whether values of a type are entered.
fn is_entered_type(value_type: Type) -> bool
    ensures { result ≡ is_entered (seen_type value_type) }
{
    match value_type.which() {
        TypeVariant::Struct(_) => true,
        TypeVariant::List(_) => true,
        _ => false,
    }
}

/// The refusal of what is entered where no level is left.
fn entering_refusal(kind: ErrorKind) -> ErrorKind
    ensures { result ≡ entering_fault kind }
{
    match kind {
        ErrorKind::WrongPointerKind => ErrorKind::TooDeep,
        ErrorKind::WrongElementSize => ErrorKind::TooDeep,
        _ => kind,
    }
}

/// The refusal of a value of a type that can't be read, where so many levels are left: with none, a pointer of another
/// kind is too deep before it is another kind.
pub(crate) fn refusal(value_type: Type, left: u32, error: Error) -> Error
    ensures { result.kind ≡ fault_at left (seen_type value_type) error.kind }
{
    if left > 0 {
        return error;
    }
    if is_entered_type(value_type) {
        return Error::from(entering_refusal(error.kind));
    }
    error
}
