//! Parts of structs and lists that are read, taken one after another without a condition but that a field belongs to
//! its struct.
ghost use Rattle.std.specs.Prelude.{IfErr, IfOk, ◌≡◌};
ghost use Rattle.capnp_schema.specs.Accepted.{NamesEntries};
ghost use Rattle.capnp_schema.specs.FieldLists.{index_of};
ghost use Rattle.capnp_schema.specs.Query.{field_named};
ghost use Rattle.capnp_schema.specs.StructHandles.{set_of, struct_field, struct_records};
ghost use Rattle.capnp_records.specs.Record as value;
ghost use Rattle.capnp_dynamic_readers.specs.Handles.{element_of, list_set, schema_of};
ghost use Rattle.capnp_dynamic_readers.specs.Reads.{BelongsTo, element_seen, field_seen, found_seen};
ghost use Rattle.capnp_dynamic_readers.specs.Seen.{list_seen, record_seen, value_seen};
ghost use Rattle.capnp_dynamic_readers.specs.Taken.{only_list, only_struct};
ghost use Rattle.capnp_dynamic_readers.specs.Typed.{IsOf, IsOfFound, IsValueUnder};
ghost use Rattle.capnp_dynamic_readers.specs.declared.dynamic_value.Reader.TheVariants as dynamic;

use crate::dynamic_value::Reader as Value;
use crate::{dynamic_list, dynamic_struct};
use capnp_schema::schema::Field;
use capnp_wire::error::{Error, Result};

/// The struct that a value is. Refused with `TypeMismatch` for every other value.
fn struct_of<'a>(part: Value<'a>) -> Result<dynamic_struct::Reader<'a>>
    ensures is { IfOk result (λ s. dynamic.Struct s ≡ part.entry) }
    ensures refused { IfErr result (λ e. value.Fault e.kind ≡ only_struct (value_seen part.entry)) }
{
    match part {
        Value::Struct(inner) => Ok(inner),
        _ => Err(Error::type_mismatch()),
    }
}

/// The list that a value is. Refused with `TypeMismatch` for every other value.
fn list_of<'a>(part: Value<'a>) -> Result<dynamic_list::Reader<'a>>
    ensures is { IfOk result (λ l. dynamic.List l ≡ part.entry) }
    ensures refused { IfErr result (λ e. value.Fault e.kind ≡ only_list (value_seen part.entry)) }
{
    match part {
        Value::List(list) => Ok(list),
        _ => Err(Error::type_mismatch()),
    }
}

/// The struct or group that a field has.
///
/// Refused as the read of the field, and with `TypeMismatch` exactly where that answers a value of another kind.
///
/// # Conditions
///
/// The field belongs to the struct's schema (`BelongsTo`).
pub fn struct_in<'a>(
    reader: dynamic_struct::Reader<'a>,
    field: Field<'a>,
) -> Result<dynamic_struct::Reader<'a>>
    requires { BelongsTo field (schema_of reader) }
    ensures value { IfOk result (λ s. value.Struct (record_seen s) ≡ field_seen reader.entry (index_of field.entry)) }
    ensures typed { IfOk result (λ s. IsOf (set_of (schema_of reader.entry))
        (struct_field (schema_of reader.entry) (index_of field.entry)).type (dynamic.Struct s)) }
    ensures refused { IfErr result (λ e. value.Fault e.kind
        ≡ only_struct (field_seen reader.entry (index_of field.entry))) }
{
    let part = reader.get(field)?;
    struct_of(part)
}

/// The struct or group that the field of a name has. Refused as the read of the field of that name, and with
/// `TypeMismatch` exactly where that answers a value of another kind.
pub fn struct_named<'a>(
    reader: dynamic_struct::Reader<'a>,
    name: &str,
) -> Result<dynamic_struct::Reader<'a>>
    ensures value { IfOk result (λ s. value.Struct (record_seen s) ≡
        found_seen reader.entry (field_named (struct_records (schema_of reader.entry)) name.now)) }
    ensures typed { IfOk result (λ s. IsOfFound reader.entry
        (field_named (struct_records (schema_of reader.entry)) name.now) (dynamic.Struct s)) }
    ensures refused { IfErr result (λ e. value.Fault e.kind ≡
        only_struct (found_seen reader.entry (field_named (struct_records (schema_of reader.entry)) name.now))) }
{
    let part = reader.get_named(name)?;
    struct_of(part)
}

/// The list that the field of a name has. Refused as the read of the field of that name, and with `TypeMismatch`
/// exactly where that answers a value of another kind.
pub fn list_named<'a>(
    reader: dynamic_struct::Reader<'a>,
    name: &str,
) -> Result<dynamic_list::Reader<'a>>
    ensures value { IfOk result (λ l. list_seen l ≡
        found_seen reader.entry (field_named (struct_records (schema_of reader.entry)) name.now)) }
    ensures typed { IfOk result (λ l. IsOfFound reader.entry
        (field_named (struct_records (schema_of reader.entry)) name.now) (dynamic.List l)) }
    ensures refused { IfErr result (λ e. value.Fault e.kind ≡
        only_list (found_seen reader.entry (field_named (struct_records (schema_of reader.entry)) name.now))) }
{
    let part = reader.get_named(name)?;
    list_of(part)
}

/// The struct that a list has at an index; past the end one of size zero. Refused as the read of the element, and with
/// `TypeMismatch` exactly where that answers a value of another kind.
pub fn struct_at<'a>(
    list: dynamic_list::Reader<'a>,
    index: u32,
) -> Result<dynamic_struct::Reader<'a>>
    ensures value { IfOk result (λ s. value.Struct (record_seen s) ≡ element_seen list.entry index) }
    ensures under { IfOk result (λ s. IsValueUnder (list_set list.entry) (element_of list.entry) (dynamic.Struct s)) }
    ensures typed { NamesEntries (list_set list.entry) (element_of list.entry)
        → IfOk result (λ s. IsOf (list_set list.entry) (element_of list.entry) (dynamic.Struct s)) }
    ensures refused { IfErr result (λ e. value.Fault e.kind ≡ only_struct (element_seen list.entry index)) }
{
    let part = list.get(index)?;
    struct_of(part)
}
