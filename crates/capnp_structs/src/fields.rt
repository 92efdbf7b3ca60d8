//! The fields of a struct, and the enums that they name.
ghost use Rattle.std.specs.Prelude.{ℕ, List, [], ◌≡◌, ◌≤◌, ◌++◌, IfErr, IfOk, OnOk, codes, cond, decimal, length, string_bytes};
ghost use Rattle.capnp_device.specs.declared.error.ErrorKind.TheVariants.{OutOfMemory};
ghost use Rattle.capnp_schema.specs.Annotated.{struct_annotations};
ghost use Rattle.capnp_base.specs.Types.{base_of, list_depth};
ghost use Rattle.capnp_schema.specs.Accepted.{NamesEntries};
ghost use Rattle.capnp_schema.specs.Entries.{lists_seen};
ghost use Rattle.capnp_schema.specs.FieldLists.{field_annotated, field_schema, index_of, typed_of};
ghost use Rattle.capnp_schema.specs.Plan.{plan_of};
ghost use Rattle.capnp_schema.specs.Schema.{kind_default, node_of, seen_kind};
ghost use Rattle.capnp_schema.specs.StructHandles.{IsStruct, number_of, set_of};
ghost use Rattle.capnp_schema.specs.Types.{seen_base, seen_type};
ghost use Rattle.capnp_dynamic_readers.specs.Pieces.{IsAppended};
ghost use Rattle.capnp_json_fields.specs.Marks.{is_float};
ghost use Rattle.capnp_structs.specs.Fields.{all_enums, field_end, fields_text, group_head, group_line, head_line, inside, lines_text, lines_within, member_text, place_text, slot_head, slot_line, type_text, union_line};
ghost use Rattle.capnp_structs.specs.Limits.{HasRefused, HasRefusedAmong, HasRefusedField, HasRefusedLine, IsRefused, IsStopped};
ghost use Rattle.capnp_structs.specs.Steps.Fields.{repeated_words};
ghost use Rattle.capnp_structs.specs.Values.{default_text};
ghost use Rattle.capnp_structs.specs.declared.values.Numbers.TheVariants.{Floats};

use crate::annotations::put_annotations;
use crate::enums::{add_enum, put_enum, put_enum_lines};
use crate::limits::check_length;
use crate::values::put_default;
use capnp_base::introspect::{Type, TypeVariant};
use capnp_json_fields::fields::is_float;
use capnp_schema::plan::Place;
use capnp_schema::record::FieldKind;
use capnp_schema::schema::{Field, GroupWalk, StructSchema};
use capnp_schema::set::SchemaSet;
use capnp_wire::error::{Error, ErrorKind, Result};
use std::alloc::Global;

/// Appends the name of an integer type.
fn put_width(out: &mut String, name: &str, bits: u8) -> Result<()>
    ensures put { OnOk result (string_bytes out.new ≡ string_bytes out.old ++ (name.now ++ decimal bits)) }
    ensures memory { IfErr result (λ e. e.kind ≡ OutOfMemory) }
{
    Ok(write!(out, "{name}{bits}")?)
}

/// Appends the name of a brand's struct.
fn put_struct(out: &mut String, schemas: &SchemaSet, number: u32) -> Result<()>
    ensures put { OnOk result (string_bytes out.new
        ≡ string_bytes out.old ++ (node_of (lists_seen schemas.now) number).display_name) }
    ensures memory { IfErr result (λ e. e.kind ≡ OutOfMemory) }
{
    Ok(out.push_str(
        schemas
            .struct_schema(number)
            .get_proto()
            .display_name
            .as_str(),
    )?)
}

/// Appends a piece for each list around a type.
fn put_lists(out: &mut String, of: Type, piece: &str) -> Result<()>
    ensures put { OnOk result (string_bytes out.new
        ≡ string_bytes out.old ++ repeated_words (list_depth of) piece.now) }
    ensures memory { IfErr result (λ e. e.kind ≡ OutOfMemory) }
{
    let mut rest = of;
    while let TypeVariant::List(element) = rest.which() {
        out.push_str(piece)?;
        rest = element;
    }
    Ok(())
}

/// The name of numbers without a sign that may stand for floats, where they do or not.
fn wide_name(floats: bool) -> &'static str
    ensures { result.now ≡ cond floats (codes "Float") (codes "UInt") }
{
    if floats { "Float" } else { "UInt" }
}

/// Appends what stands inside all lists around a type, whose numbers are floats or not.
fn put_innermost(out: &mut String, floats: bool, schemas: &SchemaSet, of: Type) -> Result<()>
    ensures put { OnOk result (string_bytes out.new
        ≡ string_bytes out.old ++ type_text floats (lists_seen schemas.now) (seen_base (base_of of))) }
    ensures memory { IfErr result (λ e. e.kind ≡ OutOfMemory) }
{
    match of.innermost() {
        TypeVariant::Void => Ok(out.push_str("Void")?),
        TypeVariant::Bool => Ok(out.push_str("Bool")?),
        TypeVariant::Int8 => put_width(out, "Int", 8),
        TypeVariant::Int16 => put_width(out, "Int", 16),
        TypeVariant::Int32 => put_width(out, "Int", 32),
        TypeVariant::Int64 => put_width(out, "Int", 64),
        TypeVariant::UInt8 => put_width(out, "UInt", 8),
        TypeVariant::UInt16 => put_width(out, "UInt", 16),
        TypeVariant::UInt32 => put_width(out, wide_name(floats), 32),
        TypeVariant::UInt64 => put_width(out, wide_name(floats), 64),
        TypeVariant::Text => Ok(out.push_str("Text")?),
        TypeVariant::Data => Ok(out.push_str("Data")?),
        TypeVariant::AnyPointer => Ok(out.push_str("AnyPointer")?),
        TypeVariant::Enum(raw) => put_enum(out, schemas, raw.number),
        TypeVariant::Struct(raw) => put_struct(out, schemas, raw.number),
        TypeVariant::List(_) => unreachable!(),
    }
}

/// Appends a type, whose numbers are floats or not.
pub(crate) fn put_type(out: &mut String, floats: bool, schemas: &SchemaSet, of: Type) -> Result<()>
    ensures put { OnOk result (string_bytes out.new
        ≡ string_bytes out.old ++ type_text floats (lists_seen schemas.now) (seen_type of)) }
    ensures memory { IfErr result (λ e. e.kind ≡ OutOfMemory) }
{
    put_lists(out, of, "List(")?;
    put_innermost(out, floats, schemas, of)?;
    put_lists(out, of, ")")
}

/// Appends where a field stands.
pub(crate) fn put_place(out: &mut String, place: Place) -> Result<()>
    ensures put { OnOk result (string_bytes out.new ≡ string_bytes out.old ++ place_text place) }
    ensures memory { IfErr result (λ e. e.kind ≡ OutOfMemory) }
{
    match place {
        Place::Bits {
            start,
            width: _,
            mask: _,
        } => Ok(write!(out, ", data bit {start}")?),
        Place::Pointer(number) => Ok(write!(out, ", pointer {number}")?),
        Place::Nothing | Place::Group(_) => Ok(()),
    }
}

/// Appends the value by which a union has its member.
pub(crate) fn put_member(out: &mut String, member: Option<(u32, u16)>) -> Result<()>
    ensures put { OnOk result (string_bytes out.new ≡ string_bytes out.old ++ member_text member) }
    ensures memory { IfErr result (λ e. e.kind ≡ OutOfMemory) }
{
    match member {
        Some((_, number)) => Ok(write!(out, ", member {number}")?),
        None => Ok(()),
    }
}

/// Appends what stands behind a field's default, or behind its name where it is a group.
fn put_end(out: &mut String, limit: u64, field: Field<'_>) -> Result<()>
    ensures put { OnOk result (IsAppended (string_bytes out.old)
        (field_end (set_of (field_schema field.entry)) (number_of (field_schema field.entry)) (index_of field.entry))
        (string_bytes out.new)) }
    ensures stopped { IfErr result (λ e. IsStopped limit (string_bytes out.old)
        (field_end (set_of (field_schema field.entry)) (number_of (field_schema field.entry)) (index_of field.entry))
        (HasRefusedAmong (set_of (field_schema field.entry))
        (field_annotated field.entry)) e.kind) }
{
    put_member(out, field.plan().member)?;
    let annotations = field.get_annotations()?;
    let record = field.get_proto();
    put_annotations(out, limit, annotations, record.annotations.as_slice())?;
    out.push_str("\n")?;
    check_length(out, limit)
}

/// Appends the default of a slot, and nothing of a group.
pub(crate) fn put_kind(
    out: &mut String,
    limit: u64,
    floats: bool,
    schemas: &SchemaSet,
    of: Type,
    kind: &FieldKind,
) -> Result<()>
    requires named { NamesEntries (lists_seen schemas.now) (seen_type of) }
    ensures put { OnOk result (IsAppended (string_bytes out.old)
        (default_text floats (lists_seen schemas.now) (seen_type of) (kind_default (seen_kind kind.now)))
        (string_bytes out.new)) }
    ensures stopped { IfErr result (λ e. IsStopped limit (string_bytes out.old)
        (default_text floats (lists_seen schemas.now) (seen_type of) (kind_default (seen_kind kind.now)))
        (IsRefused (Floats floats) (lists_seen schemas.now) (seen_type of) (kind_default (seen_kind kind.now))) e.kind) }
{
    match kind {
        FieldKind::Slot { offset: _, default } => put_default(
            out, limit, floats, schemas, of, default,
        ),
        FieldKind::Group { node: _ } => Ok(()),
    }
}

/// Appends what stands before a slot's default.
fn put_head(out: &mut String, prefix: &str, field: Field<'_>) -> Result<()>
    ensures put { OnOk result (string_bytes out.new
        ≡ string_bytes out.old ++ slot_head (set_of (field_schema field.entry)) prefix.now (typed_of field.entry)
        (plan_of (set_of (field_schema field.entry)) (number_of (field_schema field.entry)) (typed_of field.entry)).place) }
    ensures memory { IfErr result (λ e. e.kind ≡ OutOfMemory) }
{
    out.push_str(prefix)?;
    out.push_str(field.get_proto().name.as_str())?;
    out.push_str(": ")?;
    put_type(
        out,
        is_float(field),
        field.get_containing_struct().get_set(),
        field.get_type(),
    )?;
    put_place(out, field.plan().place)
}

/// Appends the line of a slot.
fn put_slot(out: &mut String, limit: u64, prefix: &str, field: Field<'_>) -> Result<()>
    ensures put { OnOk result (IsAppended (string_bytes out.old)
        (slot_line (set_of (field_schema field.entry)) (number_of (field_schema field.entry)) (index_of field.entry)
        prefix.now) (string_bytes out.new)) }
    ensures stopped { IfErr result (λ e. IsStopped limit (string_bytes out.old)
        (slot_line (set_of (field_schema field.entry)) (number_of (field_schema field.entry)) (index_of field.entry)
        prefix.now)
        (HasRefusedField (set_of (field_schema field.entry)) (number_of (field_schema field.entry)) (index_of field.entry)) e.kind) }
{
    put_head(out, prefix, field)?;
    let schemas = field.get_containing_struct().get_set();
    let kind = &field.get_proto().kind;
    put_kind(out, limit, is_float(field), schemas, field.get_type(), kind)?;
    put_end(out, limit, field)
}

/// Appends the name of a group.
fn put_group_head(out: &mut String, prefix: &str, field: Field<'_>) -> Result<()>
    ensures put { OnOk result (string_bytes out.new
        ≡ string_bytes out.old ++ group_head prefix.now (typed_of field.entry)) }
    ensures memory { IfErr result (λ e. e.kind ≡ OutOfMemory) }
{
    out.push_str(prefix)?;
    out.push_str(field.get_proto().name.as_str())?;
    out.push_str(": group")?;
    Ok(())
}

/// Appends the line of a group.
fn put_group(out: &mut String, limit: u64, prefix: &str, field: Field<'_>) -> Result<()>
    ensures put { OnOk result (IsAppended (string_bytes out.old)
        (group_line (set_of (field_schema field.entry)) (number_of (field_schema field.entry)) (index_of field.entry)
        prefix.now) (string_bytes out.new)) }
    ensures stopped { IfErr result (λ e. IsStopped limit (string_bytes out.old)
        (group_line (set_of (field_schema field.entry)) (number_of (field_schema field.entry)) (index_of field.entry)
        prefix.now)
        (HasRefusedField (set_of (field_schema field.entry)) (number_of (field_schema field.entry)) (index_of field.entry)) e.kind) }
{
    put_group_head(out, prefix, field)?;
    put_end(out, limit, field)
}

/// Appends the line of a union, where a struct or group has one.
fn put_union(out: &mut String, prefix: &str, schema: StructSchema<'_>) -> Result<()>
    ensures put { OnOk result (string_bytes out.new
        ≡ string_bytes out.old ++ union_line (set_of schema.entry) prefix.now (number_of schema.entry)) }
    ensures memory { IfErr result (λ e. e.kind ≡ OutOfMemory) }
{
    let Some(bit) = schema.get_discriminant() else {
        return Ok(());
    };
    let members = schema.get_proto().body.discriminant_count;
    Ok(write!(
        out,
        "{prefix}union: {members} members, tag at data bit {bit}\n"
    )?)
}

/// Lengthens what stands before the names of fields, for those of a field's group.
fn enter_path(path: &mut String, field: Field<'_>) -> Result<()>
    ensures path { OnOk result (string_bytes path.new ≡ inside (string_bytes path.old) (typed_of field.entry)) }
    ensures memory { IfErr result (λ e. e.kind ≡ OutOfMemory) }
{
    path.push_str(field.get_proto().name.as_str())?;
    path.push_str(".")?;
    Ok(())
}

/// Cuts off what was lengthened for the fields of a field's group.
fn leave_path(path: &mut String, field: Field<'_>)
    requires { (prefix : List ℕ) × (string_bytes path.old ≡ inside prefix (typed_of field)) }
    ensures { (prefix : List ℕ) → string_bytes path.old ≡ inside prefix (typed_of field.entry)
        → string_bytes path.new ≡ prefix }
{
    let name = field.get_proto().name.as_str();
    path.truncate(path.len() - name.len() - 1);
}

/// Appends the lines of the unions and fields of a struct or group, through at most so many groups, and adds the enums
/// that the fields name. A group in it is gone into where it stands, and left by its own field.
fn put_fields(
    out: &mut String,
    limit: u64,
    enums: &mut Vec<u32>,
    schema: StructSchema<'_>,
    groups: usize,
) -> Result<()>
    ensures put { OnOk result (IsAppended (string_bytes out.old)
        (lines_text (set_of schema.entry) (lines_within (set_of schema.entry) groups [] (number_of schema.entry)))
        (string_bytes out.new)) }
    ensures added { OnOk result (enums.new.items ≡ enums.old.items
        ++ all_enums (set_of schema.entry)
        (lines_within (set_of schema.entry) groups [] (number_of schema.entry))) }
    ensures stopped { IfErr result (λ e. IsStopped limit (string_bytes out.old)
        (lines_text (set_of schema.entry) (lines_within (set_of schema.entry) groups [] (number_of schema.entry)))
        (HasRefusedLine (set_of schema.entry) (lines_within (set_of schema.entry) groups [] (number_of schema.entry))) e.kind) }
{
    if groups == 0 {
        return Ok(());
    }
    let mut path = String::new(*out.allocator());
    put_union(out, path.as_str(), schema)?;
    let mut walk = GroupWalk::start(schema);
    let mut left = groups - 1;
    loop {
        let Some(field) = walk.get_field() else {
            let Some(own) = walk.get_schema().get_group_field() else {
                return Ok(());
            };
            let Some(outer) = walk.leave() else {
                return Ok(());
            };
            leave_path(&mut path, own);
            walk = outer;
            left += 1;
            continue;
        };
        let Some(group) = field.get_group() else {
            put_slot(out, limit, path.as_str(), field)?;
            add_enum(enums, field.get_type())?;
            walk = walk.advance();
            continue;
        };
        put_group(out, limit, path.as_str(), field)?;
        if left == 0 {
            walk = walk.advance();
            continue;
        }
        enter_path(&mut path, field)?;
        put_union(out, path.as_str(), group)?;
        walk = walk.enter(group);
        left -= 1;
    }
}

/// Appends the line of a struct with annotations.
fn put_head_line(out: &mut String, limit: u64, schema: StructSchema<'_>) -> Result<()>
    ensures put { OnOk result (IsAppended (string_bytes out.old)
        (head_line (set_of schema.entry) (number_of schema.entry)) (string_bytes out.new)) }
    ensures stopped { IfErr result (λ e. IsStopped limit (string_bytes out.old)
        (head_line (set_of schema.entry) (number_of schema.entry))
        (HasRefusedAmong (set_of schema.entry)
        (struct_annotations (set_of schema.entry) (number_of schema.entry))) e.kind) }
{
    let annotations = schema.get_annotations()?;
    if annotations.is_empty() {
        return Ok(());
    }
    let node = schema.get_proto();
    out.push_str("struct ")?;
    out.push_str(node.display_name.as_str())?;
    put_annotations(out, limit, annotations, node.annotations.as_slice())?;
    out.push_str("\n")?;
    Ok(())
}

/// The fields of a struct, by index, one a line: name, type, place, default, discriminant value and annotations. The
/// place is the first bit in the data section, or the number of a pointer. The discriminant value is that of a union's
/// member. A default is told as it is printed; an untyped one, and one whose text is refused, by how many words it has.
/// Where the numbers of a field are floats (`capnp_json_fields::fields::is_float`), its type and its default say so. An
/// annotation is ` $@0x`, its id in hexadecimal, and its value, told so, but with all numbers as integers.
///
/// Before all stand the struct's name and annotations, where it has some. Before the fields of a struct or group with a
/// union stands how many members it has, and the first bit of the discriminant. Behind a group's line stand those of
/// its union and its fields, each by its path. Behind all fields stands each enum that one of them names, or its lists,
/// with its annotations, its enumerants and theirs. Refused with `OutOfMemory` alone.
///
/// # Conditions
///
/// The schema is one of an accepted set (`IsStruct`).
pub fn get_fields(alloc: Global, schema: StructSchema<'_>) -> Result<String>
    requires { IsStruct schema }
    ensures text { IfOk result (λ text. IsAppended [] (fields_text (set_of schema.entry) (number_of schema.entry))
        (string_bytes text)) }
    ensures memory { IfErr result (λ e. e.kind ≡ OutOfMemory) }
{
    match get_fields_within(alloc, schema, u64::MAX) {
        Ok(lines) => Ok(lines),
        Err(_) => Err(Error::from(ErrorKind::OutOfMemory)),
    }
}

/// As `get_fields`, of a text that has at most `limit` bytes. It takes time and memory in proportion to the limit, and to
/// the longest name, type or path, and text or data in it.
///
/// Refused with `TooLarge` where the text is longer; also where the text of a default or an annotation is refused behind
/// the limit, so that it would be told by how many words it has (`HasRefused`).
///
/// # Conditions
///
/// The schema is one of an accepted set (`IsStruct`).
pub fn get_fields_within(alloc: Global, schema: StructSchema<'_>, limit: u64) -> Result<String>
    requires { IsStruct schema }
    ensures text { IfOk result (λ text. IsAppended [] (fields_text (set_of schema.entry) (number_of schema.entry))
        (string_bytes text)) }
    ensures within { IfOk result (λ text. length (string_bytes text) ≤ limit) }
    ensures stopped { IfErr result (λ e. IsStopped limit []
        (fields_text (set_of schema.entry) (number_of schema.entry))
        (HasRefused (set_of schema.entry) (number_of schema.entry)) e.kind) }
{
    let mut lines = String::new(alloc);
    let mut enums = Vec::new(alloc);
    let groups = schema.get_set().brands().len();
    put_head_line(&mut lines, limit, schema)?;
    put_fields(&mut lines, limit, &mut enums, schema, groups)?;
    put_enum_lines(&mut lines, limit, schema.get_set(), enums.as_slice())?;
    check_length(&lines, limit)?;
    Ok(lines)
}
