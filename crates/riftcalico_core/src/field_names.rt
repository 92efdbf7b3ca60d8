//! Paths with fields by their names, where these are plain and name the same fields.
ghost use Rattle.std.specs.Prelude.{Some, ◌≡◌, ◌&&◌, IfErr, IfOk};
ghost use Rattle.std.specs.Option.{option_map};
ghost use Rattle.capnp_call.specs.Seen.{path_seen, step_seen};
ghost use Rattle.capnp_device.specs.declared.error.ErrorKind.TheVariants.{OutOfMemory};
ghost use Rattle.capnp_records.specs.Run.{root_type};
ghost use Rattle.capnp_schema.specs.Entries.{lists_seen};
ghost use Rattle.capnp_schema.specs.Query.{field_named, records_of};
ghost use Rattle.capnp_schema.specs.StructHandles.{IsStruct, number_of, set_of};
ghost use Rattle.capnp_schema.specs.Types.{seen_type, seen_variant};
ghost use Rattle.riftcalico_core.specs.FieldNames.{are_name_bytes, is_index, is_name_byte, is_plain_name, name_at, named_field, named_first, named_path, named_step, type_next};

use crate::replies::find_type_behind;
use capnp_base::introspect::{Type, TypeVariant};
use capnp_call::calls::Step;
use capnp_schema::schema::StructSchema;
use capnp_schema::set::SchemaSet;
use capnp_wire::error::Result;
use std::alloc::Global;

/// Whether a byte is a letter, a digit or an underscore.
fn is_name_byte(byte: u8) -> bool
    ensures { result ≡ is_name_byte byte }
{
    byte.is_ascii_alphanumeric() || byte == b'_'
}

/// Whether all bytes are.
fn are_name_bytes(bytes: &[u8]) -> bool
    ensures { result ≡ are_name_bytes bytes.now }
{
    for byte in bytes {
        if !is_name_byte(*byte) {
            return false;
        }
    }
    true
}

/// Whether a name stands in a path as it is.
fn is_plain_name(name: &str) -> bool
    ensures { result ≡ is_plain_name name.now }
{
    let bytes = name.as_bytes();
    match bytes.first() {
        Some(first) => !first.is_ascii_digit() && are_name_bytes(bytes),
        None => false,
    }
}

/// The name of the field of an index, where there is one.
fn find_name<'s>(schema: StructSchema<'s>, index: u16) -> Option<&'s str>
    ensures { option_map (λ n. n.now) result ≡ name_at (set_of schema.entry) (number_of schema.entry) index }
{
    let fields = schema.get_fields().ok()?;
    if index < fields.len() {
        return Some(fields.get(index).get_proto().name.as_str());
    }
    None
}

/// Whether a name names the field of an index.
fn names_field(schema: StructSchema<'_>, name: &str, index: u16) -> bool
    ensures { result ≡ is_index index
        (field_named (records_of (set_of schema.entry) (number_of schema.entry)) name.now) }
{
    match schema.find_field_by_name(name) {
        Ok(Some(field)) => field.get_index() == index,
        _ => false,
    }
}

/// Whether the field of an index is told by this name: it stands in a path as it is, and names that field.
fn is_told_by(schema: StructSchema<'_>, name: &str, index: u16) -> bool
    ensures { result ≡ is_plain_name name.now && is_index index
        (field_named (records_of (set_of schema.entry) (number_of schema.entry)) name.now) }
{
    is_plain_name(name) && names_field(schema, name, index)
}

/// The step to the field of an index: by its name, where that is plain and names it.
fn name_field<'s>(schema: StructSchema<'s>, index: u16) -> Step<'s>
    ensures { step_seen result ≡ named_field (records_of (set_of schema.entry) (number_of schema.entry)) index
        (name_at (set_of schema.entry) (number_of schema.entry) index) }
{
    match find_name(schema, index) {
        Some(name) => {
            if is_told_by(schema, name, index) {
                Step::Named(name)
            } else {
                Step::Field(index)
            }
        }
        None => Step::Field(index),
    }
}

/// A step from a type, to a field by its name where that can be.
fn name_step<'s>(schemas: &'s SchemaSet, kind: TypeVariant, step: Step<'s>) -> Step<'s>
    ensures { step_seen result ≡ named_step (lists_seen schemas.now) (seen_variant kind) (step_seen step.entry) }
{
    match kind {
        TypeVariant::Struct(raw) => match step {
            Step::Field(index) => name_field(schemas.struct_schema(raw.number), index),
            Step::Named(_) | Step::Element(_) => step,
        },
        _ => step,
    }
}

/// A step from a type, if there is one, with a field by its name.
#[tactic(auto, using(capnp_schema::specs::Facts::Layers::seen_which))]
fn name_first<'s>(schemas: &'s SchemaSet, target: Option<Type>, step: Step<'s>) -> Step<'s>
    ensures { step_seen result ≡ named_first (lists_seen schemas.now) (option_map seen_type target) (step_seen step.entry) }
{
    match target {
        Some(of) => name_step(schemas, of.which(), step),
        None => step,
    }
}

/// The type behind a step from a type, if there is one.
#[tactic(auto, using(capnp_schema::specs::Facts::Layers::seen_which))]
fn find_next(schemas: &SchemaSet, target: Option<Type>, step: Step<'_>) -> Option<Type>
    ensures { option_map seen_type result
        ≡ type_next (lists_seen schemas.now) (option_map seen_type target) (step_seen step.entry) }
{
    match target {
        Some(of) => find_type_behind(schemas, of.which(), step),
        None => None,
    }
}

/// A path of a struct, with its fields by their names where that can be. Refused with `OutOfMemory` alone.
#[tactic(auto, using(crate::proofs::NamedPaths::named_more))]
pub(crate) fn name_path<'s>(
    alloc: Global,
    schema: StructSchema<'s>,
    path: &[Step<'s>],
) -> Result<Vec<Step<'s>>>
    requires { IsStruct schema }
    ensures named { IfOk result (λ named. path_seen named.items ≡ named_path (set_of schema.entry)
        (Some (root_type (set_of schema.entry) (number_of schema.entry))) (path_seen path.now)) }
    ensures memory { IfErr result (λ e. e.kind ≡ OutOfMemory) }
{
    let schemas = schema.get_set();
    let mut named = Vec::with_capacity(alloc, path.len())?;
    let mut target = Some(Type::from(TypeVariant::Struct(schema.into())));
    for step in path {
        named.push(name_first(schemas, target, *step))?;
        target = find_next(schemas, target, *step);
    }
    Ok(named)
}
