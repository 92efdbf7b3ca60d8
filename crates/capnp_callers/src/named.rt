//! Fields of a struct by their names: read where they are there, set, and cleared.
ghost use Rattle.std.specs.Prelude.{Err, IfErr, IfOk, IsErrAnd, MatchOption, None, Ok, OnErr, OnOk, false, true, ◌≡◌};
ghost use Rattle.capnp_device.specs.declared.error.ErrorKind.TheVariants.{FieldNotFound};
ghost use Rattle.capnp_wire.specs.Reading.{list_length};
ghost use Rattle.capnp_wire.specs.Standing.{list_of};
ghost use Rattle.capnp_arena.specs.Built.{ChangesIn};
ghost use Rattle.capnp_arena.specs.Segment.{segment};
ghost use Rattle.capnp_schema.specs.FieldLists.{index_of, typed_of};
ghost use Rattle.capnp_schema.specs.Query.{field_named};
ghost use Rattle.capnp_schema.specs.StructHandles.{struct_field, struct_records};
ghost use Rattle.capnp_schema.specs.declared.schema.fields.Field.{Field};
ghost use Rattle.capnp_records.specs.Part.{has_of};
ghost use Rattle.capnp_records.specs.Record.{Fault};
ghost use Rattle.capnp_slots.specs.Copied.{refusal_of};
ghost use Rattle.capnp_slots.specs.FieldWrites.{IsFieldSet, field_cleared};
ghost use Rattle.capnp_slots.specs.SetValues.{source_of};
ghost use Rattle.capnp_dynamic_readers.specs.Handles.{list_reader_of, schema_of};
ghost use Rattle.capnp_dynamic_readers.specs.Reads.{found_has, found_seen};
ghost use Rattle.capnp_dynamic_readers.specs.Seen.{list_seen, value_seen};
ghost use Rattle.capnp_dynamic_readers.specs.declared.dynamic_list.Reader.{Reader as ListHandle};
ghost use Rattle.capnp_dynamic.specs.Built.{IsReady, built_record, built_schema, built_struct, place_of, struct_behind};
ghost use Rattle.capnp_dynamic.specs.Names.{IsNamed};

use capnp_dynamic::parts::list_named;
use capnp_dynamic::{dynamic_struct, dynamic_value};
use capnp_wire::error::Result;

/// What the field of a name has, where it is there: a member that is active, and no null. None where it is not.
///
/// Refused with `FieldNotFound` where no field has the name, and as the read of a field that is there.
pub fn get_if_there<'a>(
    reader: dynamic_struct::Reader<'a>,
    name: &str,
) -> Result<Option<dynamic_value::Reader<'a>>>
    ensures value { IfOk result (λ found. MatchOption found
        (found_has reader.entry (field_named (struct_records (schema_of reader.entry)) name.now) ≡ Ok false)
        (λ v. (found_has reader.entry (field_named (struct_records (schema_of reader.entry)) name.now) ≡ Ok true)
        × (value_seen v ≡ found_seen reader.entry (field_named (struct_records (schema_of reader.entry)) name.now)))) }
    ensures refused { IfErr result (λ e.
        found_seen reader.entry (field_named (struct_records (schema_of reader.entry)) name.now) ≡ Fault e.kind) }
{
    if !reader.has_named(name)? {
        return Ok(None);
    }
    Ok(Some(reader.get_named(name)?))
}

/// Sets the field of a name, and answers whether it is there then.
///
/// Refused as the set of the field of that name, and with `FieldNotFound` where there is none.
///
/// # Conditions
///
/// The struct has at least its schema's sections, and stands at its place (`IsReady`).
pub fn set_and_look(
    builder: &mut dynamic_struct::Builder<'_>,
    name: &str,
    value: dynamic_value::Reader<'_>,
) -> Result<bool>
    requires { IsReady builder.old }
    ensures same { (struct_behind builder.new).ghost_name ≡ (struct_behind builder.old).ghost_name }
    ensures schema { built_schema builder.new ≡ built_schema builder.old }
    ensures place { place_of builder.new ≡ place_of builder.old }
    ensures changes { ChangesIn (place_of builder.old) (struct_behind builder.old).now (struct_behind builder.new).now }
    ensures set { (f : Field) → IsNamed (built_schema builder.old) name.now f → IsFieldSet f (source_of value.entry)
        (built_struct builder.old) (refusal_of result) (built_struct builder.new) }
    ensures there { (f : Field) → IsNamed (built_schema builder.old) name.now f
        → IfOk result (λ there. there ≡ has_of (built_record builder.new)
        (struct_field (built_schema builder.old) (index_of f)).field (index_of f)) }
    ensures none { field_named (struct_records (built_schema builder.old)) name.now ≡ None
        → IsErrAnd result (λ e. e.kind ≡ FieldNotFound) }
    ensures ready { IsReady builder.new }
{
    builder.set_named(name, value)?;
    builder.has_named(name)
}

/// Clears the field of a name, and answers whether it is there then: a member that is active, and no pointer's.
///
/// Refused with `FieldNotFound` where no field has the name.
///
/// # Conditions
///
/// The struct has at least its schema's sections, and stands at its place (`IsReady`).
pub fn clear_and_look(builder: &mut dynamic_struct::Builder<'_>, name: &str) -> Result<bool>
    requires { IsReady builder.old }
    ensures same { (struct_behind builder.new).ghost_name ≡ (struct_behind builder.old).ghost_name }
    ensures schema { built_schema builder.new ≡ built_schema builder.old }
    ensures place { place_of builder.new ≡ place_of builder.old }
    ensures changes { ChangesIn (place_of builder.old) (struct_behind builder.old).now (struct_behind builder.new).now }
    ensures cleared { (f : Field) → IsNamed (built_schema builder.old) name.now f
        → built_struct builder.new ≡ field_cleared f (built_struct builder.old) }
    ensures there { (f : Field) → IsNamed (built_schema builder.old) name.now f
        → result ≡ Ok (has_of (built_record builder.new)
        (struct_field (built_schema builder.old) (index_of f)).field (index_of f)) }
    ensures refused { OnErr result
        (segment (struct_behind builder.new).now ≡ segment (struct_behind builder.old).now) }
    ensures cause { IfErr result (λ e. (e.kind ≡ FieldNotFound)
        × (field_named (struct_records (built_schema builder.old)) name.now ≡ None)) }
    ensures ready { IsReady builder.new }
{
    builder.clear_named(name)?;
    builder.has_named(name)
}

/// How many elements the list has that the field of a name has. Refused as `list_named`.
pub fn count_named(reader: dynamic_struct::Reader<'_>, name: &str) -> Result<u32>
    ensures { IfOk result (λ n. (l : ListHandle)
        × (list_seen l ≡ found_seen reader.entry (field_named (struct_records (schema_of reader.entry)) name.now))
        × (n ≡ list_length (list_of (list_reader_of l)))) }
{
    Ok(list_named(reader, name)?.len())
}
