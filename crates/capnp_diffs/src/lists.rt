//! Lists of one type on both sides.
ghost use Rattle.std.specs.Prelude.{[], None, Some, ◌≡◌, ◌↔◌, IfErr, IfOk, IsOk, OnOk, false, true, IsTrue};
ghost use Rattle.capnp_wire.specs.Reading.{list_length};
ghost use Rattle.capnp_wire.specs.Standing.{list_levels, list_of, tree_of};
ghost use Rattle.capnp_schema.specs.Accepted.{NamesEntries};
ghost use Rattle.capnp_schema.specs.Entries.{lists_seen};
ghost use Rattle.capnp_schema.specs.StructHandles.{IsStruct, set_of};
ghost use Rattle.capnp_schema.specs.Types.{ListType, is_pointer, seen_type, struct_brand};
ghost use Rattle.capnp_records.specs.Reading.{value_of};
ghost use Rattle.capnp_records.specs.Record.{Endless};
ghost use Rattle.capnp_dynamic_readers.specs.Typed.{struct_type};
ghost use Rattle.capnp_diffs.specs.Changes.{row_changes};
ghost use Rattle.capnp_diffs.specs.Steps.Adding.{IsFoundAt, IsRowFound, elements_in};
ghost use Rattle.capnp_diffs.specs.Refusals.{Lists};
ghost use Rattle.capnp_diffs.specs.Steps.Leaves.{list_value};
ghost use Rattle.capnp_diffs.specs.Steps.Refusing.{IsRefusedAt};

use crate::change::Change;
use crate::leaves::is_same_leaf;
use crate::pointers::find_behind;
use crate::puts::put_list;
use crate::reads::element_there;
use crate::records::find_in_record;
use capnp_base::introspect::{Type, TypeVariant};
use capnp_call::calls::Step;
use capnp_dynamic_readers::dynamic_list;
use capnp_schema::schema::StructSchema;
use capnp_schema::set::SchemaSet;
use capnp_wire::error::Result;
use capnp_wire::{ListReader, PointerReader};
use std::alloc::Global;

/// Whether two lists of the same length of what takes no pointer are the same.
fn are_same_numbers<'a>(
    schemas: &'a SchemaSet,
    element: Type,
    old: ListReader<'a>,
    new: ListReader<'a>,
) -> Result<bool>
    requires number { is_pointer (seen_type element) ≡ false }
    requires length { list_length (list_of old) ≡ list_length (list_of new) }
    ensures same { IfOk result (λ q. IsTrue q ↔ (row_changes (lists_seen schemas.now) (seen_type element) 0
        (elements_in (lists_seen schemas.now) old.entry (seen_type element)) (elements_in (lists_seen schemas.now) new.entry (seen_type element)) ≡ [])) }
    ensures answers { IsOk result }
{
    let source = dynamic_list::Reader::new(old, element, schemas);
    let target = dynamic_list::Reader::new(new, element, schemas);
    for index in 0..new.len() {
        if !is_same_leaf(source.get(index)?, target.get(index)?) {
            return Ok(false);
        }
    }
    Ok(true)
}

/// Adds what changes the elements of a list of structs, both of the same length.
#[cycle(find)]
fn find_in_structs<'a>(
    alloc: Global,
    schema: StructSchema<'a>,
    old: ListReader<'a>,
    new: ListReader<'a>,
    groups: u32,
    path: &mut Vec<Step<'a>>,
    out: &mut Vec<Change<'a>>,
) -> Result<()>
    requires stands { IsStruct schema }
    requires length { list_length (list_of old) ≡ list_length (list_of new) }
    ensures path { OnOk result (path.new.items ≡ path.old.items) }
    ensures found { OnOk result (IsRowFound (set_of schema.entry) (struct_type schema.entry) 0 (elements_in (set_of schema.entry) old.entry (struct_type schema.entry)) (elements_in (set_of schema.entry) new.entry (struct_type schema.entry))
        path.old.items out.old.items out.new.items) }
    ensures refused { IfErr result (λ e. IsRefusedAt (set_of schema.entry) groups (Lists (struct_type schema.entry) (list_of old.entry) (list_levels old.entry) (list_of new.entry) (list_levels new.entry)) e.kind) }
{
    for index in 0..new.len() {
        let source = old.get_struct_element(index)?;
        let target = new.get_struct_element(index)?;
        path.push(Step::Element(index))?;
        let found = find_in_record(alloc, schema, source, target, groups, path, out);
        path.pop();
        if let Err(error) = found {
            return Err(error);
        }
    }
    Ok(())
}

/// Adds what changes the elements of a list of pointers, both of the same length.
#[cycle(find)]
fn find_in_pointers<'a>(
    alloc: Global,
    schemas: &'a SchemaSet,
    element: Type,
    old: ListReader<'a>,
    new: ListReader<'a>,
    groups: u32,
    path: &mut Vec<Step<'a>>,
    out: &mut Vec<Change<'a>>,
) -> Result<()>
    requires pointer { is_pointer (seen_type element) ≡ true }
    requires plain { struct_brand (seen_type element) ≡ None }
    requires named { NamesEntries (lists_seen schemas.now) (seen_type element) }
    requires length { list_length (list_of old) ≡ list_length (list_of new) }
    ensures path { OnOk result (path.new.items ≡ path.old.items) }
    ensures found { OnOk result (IsRowFound (lists_seen schemas.now) (seen_type element) 0 (elements_in (lists_seen schemas.now) old.entry (seen_type element)) (elements_in (lists_seen schemas.now) new.entry (seen_type element))
        path.old.items out.old.items out.new.items) }
    ensures refused { IfErr result (λ e. IsRefusedAt (lists_seen schemas.now) groups (Lists (seen_type element) (list_of old.entry) (list_levels old.entry) (list_of new.entry) (list_levels new.entry)) e.kind) }
{
    for index in 0..new.len() {
        let source = element_there(&old, index)?;
        let target = element_there(&new, index)?;
        let step = Step::Element(index);
        if let Err(error) = find_behind(
            alloc, schemas, element, step, source, target, groups, path, out,
        ) {
            return Err(error);
        }
    }
    Ok(())
}

/// Adds what changes a list: one of structs is gone into where the lengths are the same, any other is put whole where
/// it differs.
#[cycle(find)]
pub(crate) fn find_in_lists<'a>(
    alloc: Global,
    schemas: &'a SchemaSet,
    element: Type,
    step: Step<'a>,
    old: ListReader<'a>,
    new: ListReader<'a>,
    pointer: &PointerReader<'a>,
    groups: u32,
    path: &mut Vec<Step<'a>>,
    out: &mut Vec<Change<'a>>,
) -> Result<()>
    requires named { NamesEntries (lists_seen schemas.now) (seen_type element) }
    requires same { list_of new ≡ tree_of pointer.now }
    requires value { value_of (lists_seen schemas.now) (tree_of pointer.now) Endless (ListType (seen_type element))
        ≡ list_value (lists_seen schemas.now) (seen_type element) (Some new) }
    ensures path { OnOk result (path.new.items ≡ path.old.items) }
    ensures found { OnOk result (IsFoundAt (lists_seen schemas.now) step.entry (ListType (seen_type element))
        (list_value (lists_seen schemas.now) (seen_type element) (Some old.entry)) (list_value (lists_seen schemas.now) (seen_type element) (Some new.entry))
        path.old.items out.old.items out.new.items) }
    ensures refused { IfErr result (λ e. IsRefusedAt (lists_seen schemas.now) groups (Lists (seen_type element) (list_of old.entry) (list_levels old.entry) (list_of new.entry) (list_levels new.entry)) e.kind) }
{
    if old.len() != new.len() {
        return put_list(
            alloc,
            schemas,
            element,
            step,
            pointer,
            new,
            path.as_slice(),
            out,
        );
    }
    if let TypeVariant::Struct(raw) = element.which() {
        path.push(step)?;
        let schema = schemas.struct_schema(raw.number);
        let found = find_in_structs(alloc, schema, old, new, groups, path, out);
        path.pop();
        return found;
    }
    if !element.is_pointer_type() {
        if are_same_numbers(schemas, element, old, new)? {
            return Ok(());
        }
        return put_list(
            alloc,
            schemas,
            element,
            step,
            pointer,
            new,
            path.as_slice(),
            out,
        );
    }
    let mut differing = Vec::new(alloc);
    if let Err(error) = find_in_pointers(
        alloc,
        schemas,
        element,
        old,
        new,
        groups,
        path,
        &mut differing,
    ) {
        return Err(error);
    }
    if differing.len() == 0 {
        return Ok(());
    }
    put_list(
        alloc,
        schemas,
        element,
        step,
        pointer,
        new,
        path.as_slice(),
        out,
    )
}
