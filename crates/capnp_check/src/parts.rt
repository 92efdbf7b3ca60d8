//! What a check reads of structs and lists.
ghost use Rattle.std.specs.Prelude.{◌≡◌, ◌&&◌, ◌==◌, not, IfErr, IfOk};
ghost use Rattle.capnp_schema.specs.FieldLists.{IsFieldOf, index_of, typed_of};
ghost use Rattle.capnp_schema.specs.Schema.{is_member};
ghost use Rattle.capnp_schema.specs.StructHandles.{IsStruct, set_of};
ghost use Rattle.capnp_schema.specs.Types.{seen_type};
ghost use Rattle.capnp_records.specs.Text.{entering_fault, is_entered};
ghost use Rattle.capnp_dynamic_readers.specs.Handles.{element_of, list_set, schema_of};
ghost use Rattle.capnp_dynamic_readers.specs.Reads.{element_seen, field_seen};
ghost use Rattle.capnp_dynamic_readers.specs.Seen.{answered_value, record_seen};
ghost use Rattle.capnp_dynamic_readers.specs.Steps.GroupTexts.{IsSlotField};
ghost use Rattle.capnp_dynamic_readers.specs.Steps.PartsRead.{IsElementRead, IsElementRefused, IsPart, IsPartRefused, fault_at, field_in};
ghost use Rattle.capnp_dynamic_readers.specs.Typed.{IsOf, IsValueUnder};
ghost use Rattle.capnp_check.specs.ShownFields.{is_shown};

use capnp_base::introspect::{Type, TypeVariant};
use capnp_dynamic_readers::dynamic_value::Reader as Value;
use capnp_dynamic_readers::{dynamic_list, dynamic_struct};
use capnp_schema::schema::Field;
use capnp_wire::error::{Error, ErrorKind, Result};

/// What stands under a field that is no group.
pub(crate) fn read_slot<'a>(
    reader: dynamic_struct::Reader<'a>,
    field: Field<'a>,
) -> Result<Value<'a>>
    requires field { IsFieldOf (schema_of reader) (index_of field) field }
    requires slot { IsSlotField field }
    ensures value { answered_value result ≡ field_seen reader.entry (index_of field.entry) }
    ensures typed { IfOk result (IsOf (set_of (schema_of reader.entry)) (field_in reader.entry field.entry).type) }
    ensures stands { IsStruct (schema_of reader.entry) }
    ensures read { IfOk result (IsPart reader.entry field.entry) }
    ensures refused { IfErr result (λ e. IsPartRefused reader.entry field.entry e.kind) }
{
    // The prover learns the set's invariant from this call.
    let _schema = field.get_containing_struct();
    reader.get(field)
}

/// Whether a text shows a field.
pub(crate) fn is_field_shown<'a>(reader: dynamic_struct::Reader<'a>, field: Field<'a>) -> bool
    requires field { IsFieldOf (schema_of reader) (index_of field) field }
    ensures { result ≡ is_shown (record_seen reader.entry) (field_in reader.entry field.entry).field (index_of field.entry) }
{
    if !reader.is_active(field) {
        return false;
    }
    if is_always_shown(field) {
        return true;
    }
    match reader.has(field) {
        Ok(is_there) => is_there,
        Err(_) => unreachable!(),
    }
}

/// Whether a field is a member of a discriminant value other than 0.
fn is_always_shown(field: Field<'_>) -> bool
    ensures { result ≡ (is_member (typed_of field.entry).field && not ((typed_of field.entry).field.discriminant_value == 0)) }
{
    let proto = field.get_proto();
    proto.is_member() && proto.discriminant_value != 0
}

/// An element of a list.
pub(crate) fn read_element<'a>(list: dynamic_list::Reader<'a>, index: u32) -> Result<Value<'a>>
    ensures value { answered_value result ≡ element_seen list.entry index }
    ensures under { IfOk result (IsValueUnder (list_set list.entry) (element_of list.entry)) }
    ensures read { IfOk result (IsElementRead list.entry index) }
    ensures refused { IfErr result (λ e. IsElementRefused list.entry index e.kind) }
{
    list.get(index)
}

/// Whether values of a type are entered.
fn is_entered_type(value_type: Type) -> bool
    ensures { result ≡ is_entered (seen_type value_type) }
{
    match value_type.which() {
        TypeVariant::Struct(_) => true,
        TypeVariant::List(_) => true,
        _ => false,
    }
}

/// The refusal of what is entered where no level is left.
fn entering_refusal(kind: ErrorKind) -> ErrorKind
    ensures { result ≡ entering_fault kind }
{
    match kind {
        ErrorKind::WrongPointerKind => ErrorKind::TooDeep,
        ErrorKind::WrongElementSize => ErrorKind::TooDeep,
        _ => kind,
    }
}

/// The refusal of a value of a type that can't be read, where so many levels are left: with none, a pointer of another
/// kind is too deep before it is another kind.
pub(crate) fn refusal_at(value_type: Type, left: u32, error: Error) -> Error
    ensures { result.kind ≡ fault_at left (seen_type value_type) error.kind }
{
    if left > 0 {
        return error;
    }
    if is_entered_type(value_type) {
        return Error::from(entering_refusal(error.kind));
    }
    error
}
