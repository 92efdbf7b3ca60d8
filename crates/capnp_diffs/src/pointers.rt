//! What stands behind two pointers of one type.
ghost use Rattle.std.specs.Prelude.{[], ◌∷◌, ◌≡◌, IfErr, OnOk, true};
ghost use Rattle.capnp_wire.specs.Standing.{levels_of, tree_of};
ghost use Rattle.capnp_schema.specs.Accepted.{NamesEntries};
ghost use Rattle.capnp_schema.specs.Entries.{lists_seen};
ghost use Rattle.capnp_schema.specs.StructHandles.{IsStruct, set_of};
ghost use Rattle.capnp_schema.specs.Types.{ListType, is_pointer, seen_type};
ghost use Rattle.capnp_records.specs.Reading.{value_of};
ghost use Rattle.capnp_records.specs.Record.{Endless};
ghost use Rattle.capnp_dynamic_readers.specs.Typed.{struct_type};
ghost use Rattle.capnp_call.specs.Seen.{step_seen};
ghost use Rattle.capnp_diffs.specs.Changes.{CanStand, whole_change};
ghost use Rattle.capnp_diffs.specs.Refusals.{NewPointer, Pointers};
ghost use Rattle.capnp_diffs.specs.Steps.Adding.{Adds, IsFoundAt};
ghost use Rattle.capnp_diffs.specs.Steps.Refusing.{IsRefusedAt, IsRefusedWhere};

use crate::change::Change;
use crate::lists::find_in_lists;
use crate::puts::{
    find_in_data, find_in_text, find_in_untyped, put_clear, put_data, put_list, put_struct,
    put_text,
};
use crate::reads::{data_there, list_there, struct_there, text_there};
use crate::records::find_in_record;
use capnp_base::introspect::{Type, TypeVariant};
use capnp_call::calls::Step;
use capnp_schema::schema::StructSchema;
use capnp_schema::set::SchemaSet;
use capnp_wire::PointerReader;
use capnp_wire::error::{Error, ErrorKind, Result};
use std::alloc::Global;

/// Adds what is put for a pointer that stands in the place of nothing.
pub(crate) fn put_pointer<'a>(
    alloc: Global,
    schemas: &'a SchemaSet,
    pointed: Type,
    step: Step<'a>,
    new: PointerReader<'a>,
    path: &[Step<'a>],
    out: &mut Vec<Change<'a>>,
) -> Result<()>
    requires pointer { is_pointer (seen_type pointed) ≡ true }
    requires named { NamesEntries (lists_seen schemas.now) (seen_type pointed) }
    ensures put { OnOk result (Adds (lists_seen schemas.now) path.now out.old.items out.new.items
        (whole_change (step_seen step.entry) (seen_type pointed)
        (value_of (lists_seen schemas.now) (tree_of new.entry) Endless (seen_type pointed)) ∷ [])) }
    ensures stands { OnOk result (CanStand (seen_type pointed)
        (value_of (lists_seen schemas.now) (tree_of new.entry) Endless (seen_type pointed))) }
    ensures refused { IfErr result (λ e. IsRefusedWhere (NewPointer (seen_type pointed) (tree_of new.entry) (levels_of new.entry)) e.kind) }
{
    if new.is_null() {
        return put_clear(alloc, step, path, out);
    }
    match pointed.which() {
        TypeVariant::Text => put_text(alloc, step, text_there(&new)?, path, out),
        TypeVariant::Data => put_data(alloc, step, data_there(&new)?, path, out),
        TypeVariant::Struct(raw) => {
            let target = new.get_struct()?;
            put_struct(
                alloc,
                schemas.struct_schema(raw.number),
                step,
                target,
                path,
                out,
            )
        }
        TypeVariant::List(element) => {
            let target = new.get_list(element.expected_element_size())?;
            put_list(alloc, schemas, element, step, &new, target, path, out)
        }
        _ => Err(Error::from(ErrorKind::CannotSetAnyPointerFieldToAPrimitiveValue)),
    }
}

/// Adds what changes a struct behind a pointer.
#[cycle(find)]
fn find_in_struct<'a>(
    alloc: Global,
    schema: StructSchema<'a>,
    step: Step<'a>,
    old: PointerReader<'a>,
    new: PointerReader<'a>,
    groups: u32,
    path: &mut Vec<Step<'a>>,
    out: &mut Vec<Change<'a>>,
) -> Result<()>
    requires { IsStruct schema }
    ensures path { OnOk result (path.new.items ≡ path.old.items) }
    ensures found { OnOk result (IsFoundAt (set_of schema.entry) step.entry (struct_type schema.entry)
        (value_of (set_of schema.entry) (tree_of old.entry) Endless (struct_type schema.entry))
        (value_of (set_of schema.entry) (tree_of new.entry) Endless (struct_type schema.entry)) path.old.items out.old.items out.new.items) }
    ensures refused { IfErr result (λ e. IsRefusedAt (set_of schema.entry) groups (Pointers (struct_type schema.entry) (tree_of old.entry) (levels_of old.entry) (tree_of new.entry) (levels_of new.entry)) e.kind) }
{
    let source = struct_there(&old)?;
    let Some(target) = struct_there(&new)? else {
        return match source {
            Some(_) => put_clear(alloc, step, path.as_slice(), out),
            None => Ok(()),
        };
    };
    let Some(source) = source else {
        return put_struct(alloc, schema, step, target, path.as_slice(), out);
    };
    path.push(step)?;
    let found = find_in_record(alloc, schema, source, target, groups, path, out);
    path.pop();
    found
}

/// Adds what changes a list behind a pointer.
#[cycle(find)]
fn find_in_list<'a>(
    alloc: Global,
    schemas: &'a SchemaSet,
    element: Type,
    step: Step<'a>,
    old: PointerReader<'a>,
    new: PointerReader<'a>,
    groups: u32,
    path: &mut Vec<Step<'a>>,
    out: &mut Vec<Change<'a>>,
) -> Result<()>
    requires named { NamesEntries (lists_seen schemas.now) (seen_type element) }
    ensures path { OnOk result (path.new.items ≡ path.old.items) }
    ensures found { OnOk result (IsFoundAt (lists_seen schemas.now) step.entry (ListType (seen_type element))
        (value_of (lists_seen schemas.now) (tree_of old.entry) Endless (ListType (seen_type element)))
        (value_of (lists_seen schemas.now) (tree_of new.entry) Endless (ListType (seen_type element))) path.old.items out.old.items out.new.items) }
    ensures refused { IfErr result (λ e. IsRefusedAt (lists_seen schemas.now) groups (Pointers (ListType (seen_type element)) (tree_of old.entry) (levels_of old.entry) (tree_of new.entry) (levels_of new.entry)) e.kind) }
{
    let size = element.expected_element_size();
    let source = list_there(&old, size)?;
    let Some(target) = list_there(&new, size)? else {
        return match source {
            Some(_) => put_clear(alloc, step, path.as_slice(), out),
            None => Ok(()),
        };
    };
    let Some(source) = source else {
        return put_list(
            alloc,
            schemas,
            element,
            step,
            &new,
            target,
            path.as_slice(),
            out,
        );
    };
    find_in_lists(
        alloc, schemas, element, step, source, target, &new, groups, path, out,
    )
}

/// Adds what changes what stands behind a pointer of a type.
#[cycle(find)]
pub(crate) fn find_behind<'a>(
    alloc: Global,
    schemas: &'a SchemaSet,
    pointed: Type,
    step: Step<'a>,
    old: PointerReader<'a>,
    new: PointerReader<'a>,
    groups: u32,
    path: &mut Vec<Step<'a>>,
    out: &mut Vec<Change<'a>>,
) -> Result<()>
    requires pointer { is_pointer (seen_type pointed) ≡ true }
    requires named { NamesEntries (lists_seen schemas.now) (seen_type pointed) }
    ensures path { OnOk result (path.new.items ≡ path.old.items) }
    ensures found { OnOk result (IsFoundAt (lists_seen schemas.now) step.entry (seen_type pointed)
        (value_of (lists_seen schemas.now) (tree_of old.entry) Endless (seen_type pointed))
        (value_of (lists_seen schemas.now) (tree_of new.entry) Endless (seen_type pointed)) path.old.items out.old.items out.new.items) }
    ensures refused { IfErr result (λ e. IsRefusedAt (lists_seen schemas.now) groups (Pointers (seen_type pointed) (tree_of old.entry) (levels_of old.entry) (tree_of new.entry) (levels_of new.entry)) e.kind) }
{
    match pointed.which() {
        TypeVariant::Text => find_in_text(alloc, step, &old, &new, path.as_slice(), out),
        TypeVariant::Data => find_in_data(alloc, step, &old, &new, path.as_slice(), out),
        TypeVariant::Struct(raw) => find_in_struct(
            alloc,
            schemas.struct_schema(raw.number),
            step,
            old,
            new,
            groups,
            path,
            out,
        ),
        TypeVariant::List(element) => {
            find_in_list(alloc, schemas, element, step, old, new, groups, path, out)
        }
        _ => find_in_untyped(alloc, step, &old, &new, path.as_slice(), out),
    }
}
