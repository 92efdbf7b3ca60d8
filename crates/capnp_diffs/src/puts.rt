//! What is put whole, and what of pointers is compared whole.
ghost use Rattle.std.specs.Prelude.{[], ◌∷◌, ◌≡◌, IfErr, OnOk, Some};
ghost use Rattle.capnp_device.specs.declared.error.ErrorKind.TheVariants.{OutOfMemory};
ghost use Rattle.capnp_wire.specs.Place.{struct_tree};
ghost use Rattle.capnp_wire.specs.Standing.{levels_of, list_of, struct_of, tree_of};
ghost use Rattle.capnp_schema.specs.Entries.{lists_seen};
ghost use Rattle.capnp_schema.specs.Schema.{Schemas};
ghost use Rattle.capnp_schema.specs.StructHandles.{number_of, set_of};
ghost use Rattle.capnp_schema.specs.Types.{AnyPointerType, DataType, ListType, StructType, TextType, seen_type};
ghost use Rattle.capnp_records.specs.Reading.{reads, value_of};
ghost use Rattle.capnp_records.specs.Record.{Endless, Struct};
ghost use Rattle.capnp_dynamic_readers.specs.Typed.{struct_type};
ghost use Rattle.capnp_diffs.specs.Changes.{Clears, whole_change};
ghost use Rattle.capnp_diffs.specs.Refusals.{Pointers};
ghost use Rattle.capnp_diffs.specs.Steps.Adding.{Adds, IsFoundAt, one_change};
ghost use Rattle.capnp_diffs.specs.Steps.Leaves.{data_value, list_value, text_value};
ghost use Rattle.capnp_diffs.specs.Steps.Refusing.{IsPutRefusal, IsRefusedWhere};
ghost use Rattle.capnp_call.specs.Seen.{step_seen};

use crate::change::{Change, put_change};
use crate::leaves::is_same_blob;
use crate::reads::{data_there, text_there};
use capnp_base::introspect::Type;
use capnp_base::text;
use capnp_call::calls::{Op, Step};
use capnp_dynamic_readers::dynamic_value::Reader as Value;
use capnp_dynamic_readers::{dynamic_list, dynamic_struct};
use capnp_schema::schema::StructSchema;
use capnp_schema::set::SchemaSet;
use capnp_wire::error::{Error, ErrorKind, Result};
use capnp_wire::{ListReader, PointerReader, StructReader};
use std::alloc::Global;

/// Adds that a field is cleared.
pub(crate) fn put_clear<'a>(
    alloc: Global,
    step: Step<'a>,
    path: &[Step<'a>],
    out: &mut Vec<Change<'a>>,
) -> Result<()>
    ensures added { OnOk result ((set : Schemas) → Adds set path.now out.old.items out.new.items (one_change step.entry Clears)) }
    ensures cause { IfErr result (λ e. e.kind ≡ OutOfMemory) }
{
    put_change(alloc, path, step, Op::Clear, out)
}

/// Adds that a text is put, or cleared where it is missing.
pub(crate) fn put_text<'a>(
    alloc: Global,
    step: Step<'a>,
    new: Option<&'a [u8]>,
    path: &[Step<'a>],
    out: &mut Vec<Change<'a>>,
) -> Result<()>
    ensures added { OnOk result ((set : Schemas) → Adds set path.now out.old.items out.new.items
        (whole_change (step_seen step.entry) TextType (text_value new.entry) ∷ [])) }
    ensures cause { IfErr result (λ e. e.kind ≡ OutOfMemory) }
{
    match new {
        Some(bytes) => put_change(
            alloc,
            path,
            step,
            Op::Set(Value::Text(text::Reader(bytes))),
            out,
        ),
        None => put_clear(alloc, step, path, out),
    }
}

/// Adds that data is put, or cleared where it is missing.
pub(crate) fn put_data<'a>(
    alloc: Global,
    step: Step<'a>,
    new: Option<&'a [u8]>,
    path: &[Step<'a>],
    out: &mut Vec<Change<'a>>,
) -> Result<()>
    ensures added { OnOk result ((set : Schemas) → Adds set path.now out.old.items out.new.items
        (whole_change (step_seen step.entry) DataType (data_value new.entry) ∷ [])) }
    ensures cause { IfErr result (λ e. e.kind ≡ OutOfMemory) }
{
    match new {
        Some(bytes) => put_change(alloc, path, step, Op::Set(Value::Data(bytes)), out),
        None => put_clear(alloc, step, path, out),
    }
}

/// Adds that a struct is put whole. Refused where a pointer in it can't be followed, which no call copies.
pub(crate) fn put_struct<'a>(
    alloc: Global,
    schema: StructSchema<'a>,
    step: Step<'a>,
    new: StructReader<'a>,
    path: &[Step<'a>],
    out: &mut Vec<Change<'a>>,
) -> Result<()>
    ensures added { OnOk result (Adds (set_of schema.entry) path.now out.old.items out.new.items
        (whole_change (step_seen step.entry) (struct_type schema.entry)
        (Struct (reads (set_of schema.entry) (struct_of new.entry) (number_of schema.entry))) ∷ [])) }
    ensures refused { IfErr result (λ e. IsPutRefusal (struct_tree (struct_of new.entry)) e.kind) }
{
    new.total_size()?;
    let value = Value::Struct(dynamic_struct::Reader::new(new, schema));
    put_change(alloc, path, step, Op::Set(value), out)
}

/// Adds that the list behind a pointer is put whole. Refused as `put_struct`.
pub(crate) fn put_list<'a>(
    alloc: Global,
    schemas: &'a SchemaSet,
    element: Type,
    step: Step<'a>,
    new: &PointerReader<'a>,
    list: ListReader<'a>,
    path: &[Step<'a>],
    out: &mut Vec<Change<'a>>,
) -> Result<()>
    requires same { list_of list ≡ tree_of new.now }
    requires value { value_of (lists_seen schemas.now) (tree_of new.now) Endless (ListType (seen_type element))
        ≡ list_value (lists_seen schemas.now) (seen_type element) (Some list) }
    ensures added { OnOk result (Adds (lists_seen schemas.now) path.now out.old.items out.new.items
        (whole_change (step_seen step.entry) (ListType (seen_type element))
        (list_value (lists_seen schemas.now) (seen_type element) (Some list.entry)) ∷ [])) }
    ensures refused { IfErr result (λ e. IsPutRefusal (tree_of new.now) e.kind) }
{
    new.total_size()?;
    let value = Value::List(dynamic_list::Reader::new(list, element, schemas));
    put_change(alloc, path, step, Op::Set(value), out)
}

/// Adds what changes a text.
pub(crate) fn find_in_text<'a>(
    alloc: Global,
    step: Step<'a>,
    old: &PointerReader<'a>,
    new: &PointerReader<'a>,
    path: &[Step<'a>],
    out: &mut Vec<Change<'a>>,
) -> Result<()>
    ensures found { OnOk result ((set : Schemas) → IsFoundAt set step.entry TextType
        (value_of set (tree_of old.now) Endless TextType) (value_of set (tree_of new.now) Endless TextType)
        path.now out.old.items out.new.items) }
    ensures refused { IfErr result (λ e. IsRefusedWhere (Pointers TextType (tree_of old.now) (levels_of old.now) (tree_of new.now) (levels_of new.now)) e.kind) }
{
    let source = text_there(old)?;
    let target = text_there(new)?;
    if is_same_blob(source, target) {
        return Ok(());
    }
    put_text(alloc, step, target, path, out)
}

/// Adds what changes data.
pub(crate) fn find_in_data<'a>(
    alloc: Global,
    step: Step<'a>,
    old: &PointerReader<'a>,
    new: &PointerReader<'a>,
    path: &[Step<'a>],
    out: &mut Vec<Change<'a>>,
) -> Result<()>
    ensures found { OnOk result ((set : Schemas) → IsFoundAt set step.entry DataType
        (value_of set (tree_of old.now) Endless DataType) (value_of set (tree_of new.now) Endless DataType)
        path.now out.old.items out.new.items) }
    ensures refused { IfErr result (λ e. IsRefusedWhere (Pointers DataType (tree_of old.now) (levels_of old.now) (tree_of new.now) (levels_of new.now)) e.kind) }
{
    let source = data_there(old)?;
    let target = data_there(new)?;
    if is_same_blob(source, target) {
        return Ok(());
    }
    put_data(alloc, step, target, path, out)
}

/// Adds what changes an untyped pointer: nothing where the same tree stands on both sides, and where it became null it
/// is cleared. No call puts another one.
pub(crate) fn find_in_untyped<'a>(
    alloc: Global,
    step: Step<'a>,
    old: &PointerReader<'a>,
    new: &PointerReader<'a>,
    path: &[Step<'a>],
    out: &mut Vec<Change<'a>>,
) -> Result<()>
    ensures found { OnOk result ((set : Schemas) → IsFoundAt set step.entry AnyPointerType
        (value_of set (tree_of old.now) Endless AnyPointerType) (value_of set (tree_of new.now) Endless AnyPointerType)
        path.now out.old.items out.new.items) }
    ensures refused { IfErr result (λ e. IsRefusedWhere (Pointers AnyPointerType (tree_of old.now) (levels_of old.now) (tree_of new.now) (levels_of new.now)) e.kind) }
{
    if old.has_same_tree(new) {
        return Ok(());
    }
    if !new.is_null() {
        return Err(Error::from(ErrorKind::CannotSetAnyPointerFieldToAPrimitiveValue));
    }
    put_clear(alloc, step, path, out)
}
