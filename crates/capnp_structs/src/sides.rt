//! What a field is, beside its name and its annotations.
ghost use Rattle.std.specs.Prelude.{◌≡◌, ◌++◌, IfErr, OnOk, string_bytes};
ghost use Rattle.capnp_device.specs.declared.error.ErrorKind.TheVariants.{OutOfMemory};
ghost use Rattle.capnp_schema.specs.FieldLists.{field_schema, typed_of};
ghost use Rattle.capnp_schema.specs.Schema.{kind_target};
ghost use Rattle.capnp_schema.specs.StructHandles.{number_of, set_of};
ghost use Rattle.capnp_dynamic_readers.specs.Pieces.{IsAppended};
ghost use Rattle.capnp_structs.specs.Sides.{field_side, kind_side, slot_head, slot_side};

use crate::fields::{put_kind, put_member, put_place, put_type};
use capnp_json_fields::fields::is_float;
use capnp_schema::schema::Field;
use capnp_wire::error::{Error, ErrorKind, Result};

/// Appends the type of a slot, and where it stands.
fn put_slot_head(out: &mut String, field: Field<'_>) -> Result<()>
    ensures put { OnOk result (string_bytes out.new ≡ string_bytes out.old
        ++ slot_head (set_of (field_schema field.entry)) (number_of (field_schema field.entry)) (typed_of field.entry)) }
    ensures memory { IfErr result (λ e. e.kind ≡ OutOfMemory) }
{
    put_type(
        out,
        is_float(field),
        field.get_containing_struct().get_set(),
        field.get_type(),
    )?;
    put_place(out, field.plan().place)
}

/// Appends what a slot is: its type, where it stands, and its default.
fn put_slot_side(out: &mut String, field: Field<'_>) -> Result<()>
    ensures put { OnOk result (IsAppended (string_bytes out.old)
        (slot_side (set_of (field_schema field.entry)) (number_of (field_schema field.entry)) (typed_of field.entry))
        (string_bytes out.new)) }
    ensures memory { IfErr result (λ e. e.kind ≡ OutOfMemory) }
{
    put_slot_head(out, field)?;
    let schemas = field.get_containing_struct().get_set();
    let kind = &field.get_proto().kind;
    match put_kind(
        out,
        u64::MAX,
        is_float(field),
        schemas,
        field.get_type(),
        kind,
    ) {
        Ok(()) => Ok(()),
        Err(_) => Err(Error::from(ErrorKind::OutOfMemory)),
    }
}

/// Appends what a slot is, or that the field is a group.
fn put_kind_side(out: &mut String, field: Field<'_>) -> Result<()>
    ensures put { OnOk result (IsAppended (string_bytes out.old)
        (kind_side (set_of (field_schema field.entry)) (number_of (field_schema field.entry)) (typed_of field.entry)
        (kind_target (typed_of field.entry).field.kind (typed_of field.entry).type)) (string_bytes out.new)) }
    ensures memory { IfErr result (λ e. e.kind ≡ OutOfMemory) }
{
    match field.get_group() {
        None => put_slot_side(out, field),
        Some(_) => Ok(out.push_str("group")?),
    }
}

/// Appends what a field is: the type of a slot, where it stands and its default, as `UInt16, data bit 0, default 5`, or that
/// it is a `group`; and behind that the value by which a union has it, `, member 1`. Refused with `OutOfMemory` alone; then a
/// beginning of it may stand there.
pub fn put_field_side(out: &mut String, field: Field<'_>) -> Result<()>
    ensures put { OnOk result (IsAppended (string_bytes out.old)
        (field_side (set_of (field_schema field.entry)) (number_of (field_schema field.entry)) (typed_of field.entry))
        (string_bytes out.new)) }
    ensures memory { IfErr result (λ e. e.kind ≡ OutOfMemory) }
{
    put_kind_side(out, field)?;
    put_member(out, field.plan().member)
}
