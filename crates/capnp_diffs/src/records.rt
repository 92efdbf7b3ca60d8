//! Structs and groups of one schema on both sides.
ghost use Rattle.std.specs.Prelude.{◌≡◌, ◌≤◌, ◌+◌, IfErr, IfOk, IsOk, OnOk, false, true};
ghost use Rattle.capnp_device.specs.declared.error.ErrorKind.TheVariants.{FieldNotFound, OutOfMemory, TooDeep};
ghost use Rattle.capnp_wire.specs.Standing.{struct_levels, struct_of};
ghost use Rattle.capnp_schema.specs.FieldLists.{IsFieldOf, field_schema, index_of, typed_of};
ghost use Rattle.capnp_schema.specs.Schema.{is_member};
ghost use Rattle.capnp_schema.specs.StructHandles.{IsStruct, number_of, set_of};
ghost use Rattle.capnp_schema.specs.Types.{is_pointer};
ghost use Rattle.capnp_dynamic_readers.specs.Seen.{value_seen};
ghost use Rattle.capnp_dynamic_readers.specs.Typed.{IsOf};
ghost use Rattle.capnp_diffs.specs.Refusals.{Fields, NewField, Structs, most_groups};
ghost use Rattle.capnp_diffs.specs.Steps.Adding.{AreFieldsFound, HaveOneNumber, IsPartFound, IsRecordFound, IsSwitchFound, IsUnionFound, whole_part, whole_record};
ghost use Rattle.capnp_diffs.specs.Steps.Refusing.{HaveOtherNumbers, IsRefusedAt};

use crate::change::{Change, put_change};
use crate::leaves::is_same_leaf;
use crate::pointers::{find_behind, put_pointer};
use capnp_call::calls::{Op, Step};
use capnp_dynamic_readers::dynamic_struct;
use capnp_dynamic_readers::dynamic_value::Reader as Value;
use capnp_dynamic_readers::presence::active_member;
use capnp_schema::loaded::load_pair;
use capnp_schema::plan::Place;
use capnp_schema::schema::{Field, StructSchema};
use capnp_wire::StructReader;
use capnp_wire::error::{Error, ErrorKind, Result};
use std::alloc::Global;

/// How many groups are gone into on the way to a part: each takes some of the stack, and no level.
const MOST_GROUPS: u32 = 64;

/// The number of groups with one more.
fn count_group(groups: u32) -> Result<u32>
    ensures count { IfOk result (λ n. n ≡ groups + 1) }
    ensures deep { IfErr result (λ e. (e.kind ≡ TooDeep) × (most_groups ≤ groups)) }
{
    if groups >= MOST_GROUPS {
        return Err(Error::from(ErrorKind::TooDeep));
    }
    Ok(groups + 1)
}

/// What a slot of the data section has.
fn read_slot<'a>(field: Field<'a>, reader: StructReader<'a>) -> Result<Value<'a>>
    requires number { is_pointer (typed_of field).type ≡ false }
    ensures seen { IfOk result (λ v. value_seen v ≡ whole_part (set_of (field_schema field.entry)) reader.entry (typed_of field.entry)) }
    ensures typed { IfOk result (IsOf (set_of (field_schema field.entry)) (typed_of field.entry).type) }
    ensures answers { IsOk result }
    ensures field { IsStruct (field_schema field.entry) × IsFieldOf (field_schema field.entry) (index_of field.entry) field.entry }
{
    let schema = field.get_containing_struct();
    dynamic_struct::Reader::new(reader, schema).get(field)
}

/// Adds what changes a slot of the data section.
fn find_in_data_slot<'a>(
    alloc: Global,
    field: Field<'a>,
    old: StructReader<'a>,
    new: StructReader<'a>,
    path: &[Step<'a>],
    out: &mut Vec<Change<'a>>,
) -> Result<()>
    requires number { is_pointer (typed_of field).type ≡ false }
    ensures found { OnOk result (IsPartFound (set_of (field_schema field.entry)) (typed_of field.entry) (index_of field.entry)
        (whole_part (set_of (field_schema field.entry)) old.entry (typed_of field.entry)) (whole_part (set_of (field_schema field.entry)) new.entry (typed_of field.entry))
        path.now out.old.items out.new.items) }
    ensures cause { IfErr result (λ e. e.kind ≡ OutOfMemory) }
{
    let source = read_slot(field, old)?;
    let target = read_slot(field, new)?;
    if is_same_leaf(source, target) {
        return Ok(());
    }
    put_change(
        alloc,
        path,
        Step::Field(field.get_index()),
        Op::Set(target),
        out,
    )
}

/// Adds what changes a field that stands on both sides.
#[cycle(find)]
fn find_in_field<'a>(
    alloc: Global,
    field: Field<'a>,
    old: StructReader<'a>,
    new: StructReader<'a>,
    groups: u32,
    path: &mut Vec<Step<'a>>,
    out: &mut Vec<Change<'a>>,
) -> Result<()>
    ensures path { OnOk result (path.new.items ≡ path.old.items) }
    ensures found { OnOk result (IsPartFound (set_of (field_schema field.entry)) (typed_of field.entry) (index_of field.entry)
        (whole_part (set_of (field_schema field.entry)) old.entry (typed_of field.entry)) (whole_part (set_of (field_schema field.entry)) new.entry (typed_of field.entry))
        path.old.items out.old.items out.new.items) }
    ensures refused { IfErr result (λ e. IsRefusedAt (set_of (field_schema field.entry)) groups (Fields (typed_of field.entry) (struct_of old.entry) (struct_levels old.entry) (struct_of new.entry) (struct_levels new.entry)) e.kind) }
{
    let schemas = field.get_containing_struct().get_set();
    let step = Step::Field(field.get_index());
    match field.plan().place {
        Place::Pointer(index) => find_behind(
            alloc,
            schemas,
            field.get_type(),
            step,
            old.get_pointer_field(index),
            new.get_pointer_field(index),
            groups,
            path,
            out,
        ),
        Place::Group(brand) => {
            let inside = count_group(groups)?;
            path.push(step)?;
            let group = schemas.struct_schema(brand);
            let found = find_in_record(alloc, group, old, new, inside, path, out);
            path.pop();
            found
        }
        _ => find_in_data_slot(alloc, field, old, new, path.as_slice(), out),
    }
}

/// Adds what makes a member active, with what it has.
#[cycle(find)]
fn switch_to<'a>(
    alloc: Global,
    field: Field<'a>,
    new: StructReader<'a>,
    groups: u32,
    path: &mut Vec<Step<'a>>,
    out: &mut Vec<Change<'a>>,
) -> Result<()>
    requires member { is_member (typed_of field).field ≡ true }
    ensures path { OnOk result (path.new.items ≡ path.old.items) }
    ensures found { OnOk result (IsSwitchFound (set_of (field_schema field.entry)) (typed_of field.entry) (index_of field.entry)
        (whole_part (set_of (field_schema field.entry)) new.entry (typed_of field.entry)) path.old.items out.old.items out.new.items) }
    ensures refused { IfErr result (λ e. IsRefusedAt (set_of (field_schema field.entry)) groups (NewField (typed_of field.entry) (struct_of new.entry) (struct_levels new.entry)) e.kind) }
{
    let schemas = field.get_containing_struct().get_set();
    let step = Step::Field(field.get_index());
    match field.plan().place {
        Place::Pointer(index) => put_pointer(
            alloc,
            schemas,
            field.get_type(),
            step,
            new.get_pointer_field(index),
            path.as_slice(),
            out,
        ),
        Place::Group(brand) => {
            let inside = count_group(groups)?;
            put_change(alloc, path.as_slice(), step, Op::Init, out)?;
            path.push(step)?;
            let group = schemas.struct_schema(brand);
            let found = find_in_record(
                alloc,
                group,
                StructReader::empty(0),
                new,
                inside,
                path,
                out,
            );
            path.pop();
            found
        }
        _ => {
            let target = read_slot(field, new)?;
            put_change(alloc, path.as_slice(), step, Op::Set(target), out)
        }
    }
}

/// Whether a discriminant that names no member stands on both sides.
fn check_unknown<'a>(
    schema: StructSchema<'a>,
    old: &StructReader<'a>,
    new: &StructReader<'a>,
) -> Result<()>
    ensures alike { OnOk result (HaveOneNumber schema.entry old.now new.now) }
    ensures refused { IfErr result (λ e. (e.kind ≡ FieldNotFound) × HaveOtherNumbers schema.entry old.now new.now) }
{
    let Some(first) = schema.get_discriminant() else {
        return Ok(());
    };
    if load_pair(old, first) == load_pair(new, first) {
        return Ok(());
    }
    Err(Error::from(ErrorKind::FieldNotFound))
}

/// Adds what changes a union.
#[cycle(find)]
fn find_in_union<'a>(
    alloc: Global,
    schema: StructSchema<'a>,
    old: StructReader<'a>,
    new: StructReader<'a>,
    groups: u32,
    path: &mut Vec<Step<'a>>,
    out: &mut Vec<Change<'a>>,
) -> Result<()>
    requires stands { IsStruct schema }
    ensures path { OnOk result (path.new.items ≡ path.old.items) }
    ensures found { OnOk result (IsUnionFound (set_of schema.entry) (number_of schema.entry)
        (whole_record (set_of schema.entry) old.entry (number_of schema.entry)) (whole_record (set_of schema.entry) new.entry (number_of schema.entry))
        path.old.items out.old.items out.new.items) }
    ensures refused { IfErr result (λ e. IsRefusedAt (set_of schema.entry) groups (Structs (number_of schema.entry) (struct_of old.entry) (struct_levels old.entry) (struct_of new.entry) (struct_levels new.entry)) e.kind) }
{
    let Some(field) = active_member(schema, &new) else {
        return check_unknown(schema, &old, &new);
    };
    if dynamic_struct::Reader::new(old, schema).is_active(field) {
        find_in_field(alloc, field, old, new, groups, path, out)
    } else {
        switch_to(alloc, field, new, groups, path, out)
    }
}

/// Adds what changes the non-union fields.
#[cycle(find)]
fn find_in_fields<'a>(
    alloc: Global,
    schema: StructSchema<'a>,
    old: StructReader<'a>,
    new: StructReader<'a>,
    groups: u32,
    path: &mut Vec<Step<'a>>,
    out: &mut Vec<Change<'a>>,
) -> Result<()>
    requires stands { IsStruct schema }
    ensures path { OnOk result (path.new.items ≡ path.old.items) }
    ensures found { OnOk result (AreFieldsFound (set_of schema.entry) (number_of schema.entry)
        (whole_record (set_of schema.entry) old.entry (number_of schema.entry)) (whole_record (set_of schema.entry) new.entry (number_of schema.entry))
        path.old.items out.old.items out.new.items) }
    ensures refused { IfErr result (λ e. IsRefusedAt (set_of schema.entry) groups (Structs (number_of schema.entry) (struct_of old.entry) (struct_levels old.entry) (struct_of new.entry) (struct_levels new.entry)) e.kind) }
{
    let Ok(fields) = schema.get_fields() else {
        unreachable!()
    };
    for index in 0..fields.len() {
        let field = fields.get(index);
        if field.get_proto().is_member() {
            continue;
        }
        if let Err(error) = find_in_field(alloc, field, old, new, groups, path, out) {
            return Err(error);
        }
    }
    Ok(())
}

/// Adds what changes a struct or group.
#[cycle(find)]
pub(crate) fn find_in_record<'a>(
    alloc: Global,
    schema: StructSchema<'a>,
    old: StructReader<'a>,
    new: StructReader<'a>,
    groups: u32,
    path: &mut Vec<Step<'a>>,
    out: &mut Vec<Change<'a>>,
) -> Result<()>
    requires stands { IsStruct schema }
    ensures path { OnOk result (path.new.items ≡ path.old.items) }
    ensures found { OnOk result (IsRecordFound (set_of schema.entry) (number_of schema.entry)
        (whole_record (set_of schema.entry) old.entry (number_of schema.entry)) (whole_record (set_of schema.entry) new.entry (number_of schema.entry))
        path.old.items out.old.items out.new.items) }
    ensures refused { IfErr result (λ e. IsRefusedAt (set_of schema.entry) groups (Structs (number_of schema.entry) (struct_of old.entry) (struct_levels old.entry) (struct_of new.entry) (struct_levels new.entry)) e.kind) }
{
    match find_in_fields(alloc, schema, old, new, groups, path, out) {
        Ok(()) => find_in_union(alloc, schema, old, new, groups, path, out),
        Err(error) => Err(error),
    }
}
