//! The enums that the fields of a struct name.
ghost use Rattle.std.specs.Prelude.{ℕ, [], ◌≡◌, ◌++◌, IfErr, MatchOption, OnOk, decimal, nat_eq, string_bytes};
ghost use Rattle.std.specs.HashSet.{contains};
ghost use Rattle.capnp_device.specs.declared.error.ErrorKind.TheVariants.{OutOfMemory};
ghost use Rattle.capnp_schema.specs.Annotated.{enumerant_annotations};
ghost use Rattle.capnp_schema.specs.Entries.{lists_seen};
ghost use Rattle.capnp_schema.specs.Enumerants.{containing_enum, ordinal_of};
ghost use Rattle.capnp_schema.specs.Enums.{enum_in, enum_number, enum_set};
ghost use Rattle.capnp_schema.specs.Schema.{enum_at};
ghost use Rattle.capnp_schema.specs.Types.{seen_type};
ghost use Rattle.capnp_records.specs.Text.{enum_text, said_text};
ghost use Rattle.capnp_dynamic_readers.specs.Pieces.{IsAppended};
ghost use Rattle.capnp_structs.specs.Enums.{before_name, enum_line, enum_lines, name_text, names_text, unless_met};
ghost use Rattle.capnp_structs.specs.Fields.{enums_named};
ghost use Rattle.capnp_structs.specs.Limits.{HasRefusedAmong, HasRefusedEnum, HasRefusedName, IsStopped};
ghost use Rattle.capnp_structs.specs.Steps.Fields.{IsEnumMet};

use crate::annotations::put_annotations;
use crate::limits::check_length;
use capnp_base::introspect::{Type, TypeVariant};
use capnp_schema::schema::{EnumSchema, Enumerant};
use capnp_schema::set::SchemaSet;
use capnp_wire::error::Result;
use std::collections::HashSet;

/// Appends the name of an enum.
pub(crate) fn put_enum(out: &mut String, schemas: &SchemaSet, number: u32) -> Result<()>
    ensures put { OnOk result (string_bytes out.new
        ≡ string_bytes out.old ++ (enum_at (lists_seen schemas.now) number).display_name) }
    ensures memory { IfErr result (λ e. e.kind ≡ OutOfMemory) }
{
    Ok(out.push_str(
        schemas
            .enum_schema(number)
            .get_proto()
            .display_name
            .as_str(),
    )?)
}

/// The name of an enum's enumerant; none past the enumerants, and none of another type.
fn enumerant_name(schemas: &SchemaSet, of: Type, number: u16) -> Option<&str>
    ensures { MatchOption result (enum_text (lists_seen schemas.now) (seen_type of) number ≡ decimal number)
        (λ name. enum_text (lists_seen schemas.now) (seen_type of) number ≡ name.now) }
{
    let TypeVariant::Enum(raw) = of.which() else {
        return None;
    };
    let record = schemas.enum_schema(raw.number).get_proto();
    match record.enumerants.as_slice().get(number as usize) {
        Some(enumerant) => Some(enumerant.name.as_str()),
        None => None,
    }
}

/// Appends the value of an enum.
pub(crate) fn put_enumerant(
    out: &mut String,
    schemas: &SchemaSet,
    of: Type,
    number: u16,
) -> Result<()>
    ensures put { OnOk result (IsAppended (string_bytes out.old)
        (said_text (enum_text (lists_seen schemas.now) (seen_type of) number)) (string_bytes out.new)) }
    ensures memory { IfErr result (λ e. e.kind ≡ OutOfMemory) }
{
    match enumerant_name(schemas, of, number) {
        Some(name) => Ok(out.push_str(name)?),
        None => Ok(write!(out, "{number}")?),
    }
}

/// Adds the enum that a type names, or its lists.
pub(crate) fn add_enum(enums: &mut Vec<u32>, of: Type) -> Result<()>
    ensures added { OnOk result (enums.new.items ≡ enums.old.items ++ enums_named (seen_type of)) }
    ensures memory { IfErr result (λ e. e.kind ≡ OutOfMemory) }
{
    if let TypeVariant::Enum(raw) = of.innermost() {
        enums.push(raw.number)?;
    }
    Ok(())
}

/// What stands before the name of a number.
fn before_name(number: u16) -> &'static str
    ensures { result.now ≡ before_name number }
{
    if number == 0 {
        return " ";
    }
    ", "
}

/// Appends a name, with its annotations.
fn put_name(out: &mut String, limit: u64, enumerant: Enumerant<'_>) -> Result<()>
    ensures put { OnOk result (IsAppended (string_bytes out.old)
        (name_text (enum_set (containing_enum enumerant.entry)) (enum_number (containing_enum enumerant.entry))
        (ordinal_of enumerant.entry)) (string_bytes out.new)) }
    ensures stopped { IfErr result (λ e. IsStopped limit (string_bytes out.old)
        (name_text (enum_set (containing_enum enumerant.entry)) (enum_number (containing_enum enumerant.entry))
        (ordinal_of enumerant.entry))
        (HasRefusedAmong (enum_set (containing_enum enumerant.entry)) (enumerant_annotations (enum_set (containing_enum enumerant.entry))
        (enum_number (containing_enum enumerant.entry)) (ordinal_of enumerant.entry))) e.kind) }
{
    let annotations = enumerant.get_annotations()?;
    let record = enumerant.get_proto();
    out.push_str(before_name(enumerant.get_ordinal()))?;
    out.push_str(record.name.as_str())?;
    put_annotations(out, limit, annotations, record.annotations.as_slice())
}

/// Appends the names of an enum.
fn put_names(out: &mut String, limit: u64, schema: EnumSchema<'_>) -> Result<()>
    ensures put { OnOk result (IsAppended (string_bytes out.old)
        (names_text (enum_set schema.entry) (enum_number schema.entry) 0 (enum_in schema.entry).enumerants)
        (string_bytes out.new)) }
    ensures stopped { IfErr result (λ e. IsStopped limit (string_bytes out.old)
        (names_text (enum_set schema.entry) (enum_number schema.entry) 0 (enum_in schema.entry).enumerants)
        ((i : ℕ) × HasRefusedAmong (enum_set schema.entry) (enumerant_annotations (enum_set schema.entry)
        (enum_number schema.entry) i)) e.kind) }
{
    let enumerants = schema.get_enumerants()?;
    for ordinal in 0..enumerants.len() {
        put_name(out, limit, enumerants.get(ordinal))?;
        check_length(out, limit)?;
    }
    Ok(())
}

/// Appends the line of an enum.
fn put_enum_line(out: &mut String, limit: u64, schemas: &SchemaSet, number: u32) -> Result<()>
    ensures put { OnOk result (IsAppended (string_bytes out.old) (enum_line (lists_seen schemas.now) number)
        (string_bytes out.new)) }
    ensures stopped { IfErr result (λ e. IsStopped limit (string_bytes out.old)
        (enum_line (lists_seen schemas.now) number)
        (HasRefusedName (lists_seen schemas.now) number) e.kind) }
{
    let schema = schemas.enum_schema(number);
    let annotations = schema.get_annotations()?;
    let enumeration = schema.get_proto();
    out.push_str("enum ")?;
    out.push_str(enumeration.display_name.as_str())?;
    put_annotations(out, limit, annotations, enumeration.annotations.as_slice())?;
    out.push_str(":")?;
    put_names(out, limit, schema)?;
    out.push_str("\n")?;
    check_length(out, limit)
}

/// Appends the line of an enum, where it was not met before. It is met from now on.
fn put_new_enum(
    out: &mut String,
    limit: u64,
    schemas: &SchemaSet,
    met: &mut HashSet<u32>,
    number: u32,
) -> Result<()>
    ensures put { OnOk result (IsAppended (string_bytes out.old)
        (unless_met (contains nat_eq met.old number) (enum_line (lists_seen schemas.now) number))
        (string_bytes out.new)) }
    ensures met { OnOk result (IsEnumMet number met.old met.new) }
    ensures stopped { IfErr result (λ e. IsStopped limit (string_bytes out.old)
        (unless_met (contains nat_eq met.old number) (enum_line (lists_seen schemas.now) number))
        (HasRefusedName (lists_seen schemas.now) number) e.kind) }
{
    if !met.insert(number)? {
        return Ok(());
    }
    put_enum_line(out, limit, schemas, number)
}

/// Appends a line for each of these enums, each once.
pub(crate) fn put_enum_lines(
    out: &mut String,
    limit: u64,
    schemas: &SchemaSet,
    enums: &[u32],
) -> Result<()>
    ensures put { OnOk result (IsAppended (string_bytes out.old) (enum_lines (lists_seen schemas.now) [] enums.now)
        (string_bytes out.new)) }
    ensures stopped { IfErr result (λ e. IsStopped limit (string_bytes out.old)
        (enum_lines (lists_seen schemas.now) [] enums.now)
        (HasRefusedEnum (lists_seen schemas.now) enums.now) e.kind) }
{
    let mut met = HashSet::new(*out.allocator());
    for number in enums {
        put_new_enum(out, limit, schemas, &mut met, *number)?;
    }
    Ok(())
}
