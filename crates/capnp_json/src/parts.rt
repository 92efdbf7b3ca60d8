//! What a JSON reads of structs and lists.
ghost use Rattle.std.specs.Prelude.{◌≡◌, IfErr, IfOk, not, true};
ghost use Rattle.capnp_schema.specs.FieldLists.{IsFieldOf, index_of};
ghost use Rattle.capnp_schema.specs.Types.{seen_type};
ghost use Rattle.capnp_records.specs.Record.{is_there};
ghost use Rattle.capnp_records.specs.Text.{entering_fault, is_entered};
ghost use Rattle.capnp_dynamic_readers.specs.Handles.{schema_of};
ghost use Rattle.capnp_dynamic_readers.specs.Steps.GroupTexts.{IsSlotField};
ghost use Rattle.capnp_dynamic_readers.specs.Steps.PartsRead.{field_in};
ghost use Rattle.capnp_dynamic_readers.specs.Steps.Shown.{part_seen};
ghost use Rattle.capnp_json.specs.Steps.Shown.{IsElement, IsElementRefused, IsPart, IsPartRefused, element_there, has_null, read_refusal};

use crate::error::JsonError;
use capnp_base::introspect::{Type, TypeVariant};
use capnp_dynamic_readers::dynamic_value::Reader as Value;
use capnp_dynamic_readers::{dynamic_list, dynamic_struct};
use capnp_schema::schema::Field;
use capnp_wire::error::{Error, ErrorKind, Result};

/// What stands under a field that is no group and not missing.
pub(crate) fn read_slot<'a>(
    reader: dynamic_struct::Reader<'a>,
    field: Field<'a>,
) -> Result<Value<'a>>
    requires field { IsFieldOf (schema_of reader) (index_of field) field }
    requires slot { IsSlotField field }
    requires there { is_there (part_seen reader (field_in reader field)) ≡ true }
    ensures read { IfOk result (IsPart reader.entry field.entry) }
    ensures refused { IfErr result (λ e. IsPartRefused reader.entry field.entry e.kind) }
{
    // The prover learns the set's invariant from this call.
    let _schema = field.get_containing_struct();
    reader.get(field)
}

/// An element of a list that is not missing.
pub(crate) fn read_element<'a>(list: dynamic_list::Reader<'a>, index: u32) -> Result<Value<'a>>
    requires { is_there (element_there list index) ≡ true }
    ensures read { IfOk result (IsElement list.entry index) }
    ensures refused { IfErr result (λ e. IsElementRefused list.entry index e.kind) }
{
    list.get(index)
}

/// Whether elements of a type stand behind pointers of their own.
fn has_null(of: Type) -> bool
    ensures { result ≡ has_null (seen_type of) }
{
    match of.which() {
        TypeVariant::Text => true,
        TypeVariant::Data => true,
        TypeVariant::List(_) => true,
        TypeVariant::AnyPointer => true,
        _ => false,
    }
}

/// Whether an element of a list is missing.
pub(crate) fn is_missing<'a>(list: dynamic_list::Reader<'a>, index: u32) -> bool
    ensures { result ≡ not (is_there (element_there list.entry index)) }
{
    if !has_null(list.element_type()) {
        return false;
    }
    list.get_elements().get_pointer_element(index).is_null()
}

/// Whether values of a type are entered.
fn is_entered_type(value_type: Type) -> bool
    ensures { result ≡ is_entered (seen_type value_type) }
{
    match value_type.which() {
        TypeVariant::Struct(_) => true,
        TypeVariant::List(_) => true,
        _ => false,
    }
}

/// The refusal of what is entered where no level is left.
fn entering_refusal(kind: ErrorKind) -> ErrorKind
    ensures { result ≡ entering_fault kind }
{
    match kind {
        ErrorKind::WrongPointerKind => ErrorKind::TooDeep,
        ErrorKind::WrongElementSize => ErrorKind::TooDeep,
        _ => kind,
    }
}

/// The refusal of a value of a type that can't be read, where so many levels are left: with none, a pointer of another
/// kind is too deep before it is another kind.
pub(crate) fn refusal(value_type: Type, left: u32, error: Error) -> JsonError
    ensures { result ≡ read_refusal left (seen_type value_type) error.kind }
{
    if left > 0 {
        return JsonError::Read(error.kind);
    }
    if is_entered_type(value_type) {
        return JsonError::Read(entering_refusal(error.kind));
    }
    JsonError::Read(error.kind)
}
