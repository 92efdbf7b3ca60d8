//! Sources that are copied into a slot.
ghost use Rattle.std.specs.Prelude.{ℕ, List, ◌≡◌, IfErr, IfOk, OnErr, OnOk};
ghost use Rattle.capnp_arena.specs.Frame.{LeavesStruct};
ghost use Rattle.capnp_arena.specs.Segment.{segment};
ghost use Rattle.capnp_arena.specs.Built.{IsBuilt, built_at};
ghost use Rattle.capnp_wire.specs.Tree.{StructTree, Tree};
ghost use Rattle.capnp_schema.specs.Schema.{Schemas};
ghost use Rattle.capnp_schema.specs.Types.{SchemaType, seen_variant};
ghost use Rattle.capnp_records.specs.Call.{DataSource, ListSource, StructSource, TextSource};
ghost use Rattle.capnp_records.specs.Given.{Fails, given_slot};
ghost use Rattle.capnp_records.specs.Record.{Levels};
ghost use Rattle.capnp_records.specs.Writes.Contents.{source_tree};
ghost use Rattle.capnp_records.specs.Writes.Slots.{At};
ghost use Rattle.capnp_slots.specs.Fields.{IsPointerField, IsRoomFor, IsSlot, Keeps, names_of, slot_with};
ghost use Rattle.capnp_slots.specs.Primitives.{given_to};
ghost use Rattle.capnp_slots.specs.Sources.{IsPointed, source_seen};
ghost use Rattle.capnp_slots.specs.Steps.Sources.{GivesCopy, GivesUntyped, IsCopy, IsCopyDue, IsSoundCopy, TakesSource};

use crate::slot::set_pointer;
use crate::source::{ListInput, Source, StructInput};
use capnp_arena::arena::{Arena, Place as StructPlace};
use capnp_base::introspect::TypeVariant;
use capnp_base::{any_pointer, data, text};
use capnp_schema::schema::Field;
use capnp_wire::error::{Error, ErrorKind, Result};

/// Whether a slot of a type takes a copy of a text.
fn copies_text(variant: TypeVariant) -> Result<bool>
    ensures { (schemas : Schemas) (bytes : List ℕ)
        → GivesCopy (TextSource bytes) (given_slot schemas (seen_variant variant) (TextSource bytes)) result }
{
    match variant {
        TypeVariant::Void => Ok(false),
        TypeVariant::Text => Ok(true),
        TypeVariant::AnyPointer => Ok(true),
        _ => Err(Error::type_mismatch()),
    }
}

/// Whether it takes one of data.
fn copies_data(variant: TypeVariant) -> Result<bool>
    ensures { (schemas : Schemas) (bytes : List ℕ)
        → GivesCopy (DataSource bytes) (given_slot schemas (seen_variant variant) (DataSource bytes)) result }
{
    match variant {
        TypeVariant::Void => Ok(false),
        TypeVariant::Data => Ok(true),
        TypeVariant::AnyPointer => Ok(true),
        _ => Err(Error::type_mismatch()),
    }
}

/// Whether it takes one of a struct, whatever its schema.
fn copies_struct(variant: TypeVariant) -> Result<bool>
    ensures { (schemas : Schemas) (l : Levels) (s : StructTree) (b : ℕ)
        → GivesCopy (StructSource l s b) (given_slot schemas (seen_variant variant) (StructSource l s b)) result }
{
    match variant {
        TypeVariant::Void => Ok(false),
        TypeVariant::Struct(_) => Ok(true),
        TypeVariant::AnyPointer => Ok(true),
        _ => Err(Error::type_mismatch()),
    }
}

/// Whether it takes one of a list, whatever its elements' type.
fn copies_list(variant: TypeVariant) -> Result<bool>
    ensures { (schemas : Schemas) (l : Levels) (t : Tree) (e : SchemaType)
        → GivesCopy (ListSource l t e) (given_slot schemas (seen_variant variant) (ListSource l t e)) result }
{
    match variant {
        TypeVariant::Void => Ok(false),
        TypeVariant::List(_) => Ok(true),
        TypeVariant::AnyPointer => Ok(true),
        _ => Err(Error::type_mismatch()),
    }
}

/// An untyped pointer is taken by no slot but a void one, which takes nothing of it.
fn copies_untyped(variant: TypeVariant) -> Result<bool>
    ensures { GivesUntyped (seen_variant variant) result }
{
    match variant {
        TypeVariant::Void => Ok(false),
        TypeVariant::AnyPointer => Err(Error::from(
            ErrorKind::CannotSetAnyPointerFieldToAPrimitiveValue,
        )),
        _ => Err(Error::type_mismatch()),
    }
}

/// Whether a slot of a type takes a copy of a source that stands behind a pointer; a void slot takes nothing of it.
///
/// Refused with `CannotSetAnyPointerFieldToAPrimitiveValue` for an untyped slot and an untyped pointer, and with
/// `TypeMismatch` where the slot is of another kind.
pub(crate) fn copies_source(variant: TypeVariant, source: Source<'_>) -> Result<bool>
    requires { IsPointed (source_seen source) }
    ensures { (schemas : Schemas) → GivesCopy (source_seen source.entry)
        (given_slot schemas (seen_variant variant) (source_seen source.entry)) result }
{
    match source {
        Source::Primitive(_) => unreachable!(),
        Source::Text(_) => copies_text(variant),
        Source::Data(_) => copies_data(variant),
        Source::Struct(_, _) => copies_struct(variant),
        Source::List(_, _) => copies_list(variant),
        Source::AnyPointer(_) => copies_untyped(variant),
    }
}

/// Whether a field's slot takes a copy of a source that stands behind a pointer. Refused as `copies_source`.
pub(crate) fn copies_to(field: Field<'_>, source: Source<'_>) -> Result<bool>
    requires { IsPointed (source_seen source) }
    ensures takes { IfOk result (TakesSource field.entry (source_seen source.entry)) }
    ensures refused { IfErr result (λ e. given_to field.entry (source_seen source.entry) ≡ Fails e.kind) }
{
    copies_source(field.get_type().which(), source)
}

/// Copies a source into a pointer's slot, which becomes active after it.
///
/// Refused with the first fault in the source, with `SizePastFormat` or with `OutOfMemory`, and then nothing has
/// changed.
pub(crate) fn copy_to(
    arena: &mut Arena,
    place: StructPlace,
    field: Field<'_>,
    source: Source<'_>,
) -> Result<()>
    requires planted { IsBuilt arena.old place }
    requires slot { IsSlot field }
    requires pointer { IsPointerField field }
    requires room { IsRoomFor field (built_at arena.old place) }
    requires copy { IsCopy (source_seen source) }
    ensures frame { OnOk result (LeavesStruct place arena.old arena.new) }
    ensures written { OnOk result (built_at arena.new place
        ≡ slot_with field.entry (At (source_tree (source_seen source.entry))) (built_at arena.old place)) }
    ensures kept { OnOk result (Keeps (names_of field.entry) (built_at arena.old place) (built_at arena.new place)) }
    ensures sound { OnOk result (IsSoundCopy (source_seen source.entry)) }
    ensures refused { OnErr result (segment arena.new ≡ segment arena.old) }
    ensures cause { IfErr result (λ e. IsCopyDue (source_seen source.entry) e.kind) }
{
    match source {
        Source::Primitive(_) => unreachable!(),
        Source::Text(text) => set_pointer::<text::Owned, text::Reader<'_>>(
            arena, place, field, text,
        ),
        Source::Data(bytes) => set_pointer::<data::Owned, data::Reader<'_>>(
            arena, place, field, bytes,
        ),
        Source::Struct(reader, _) => set_pointer::<any_pointer::Owned, StructInput<'_>>(
            arena,
            place,
            field,
            StructInput(reader),
        ),
        Source::List(reader, _) => set_pointer::<any_pointer::Owned, ListInput<'_>>(
            arena,
            place,
            field,
            ListInput(reader),
        ),
        Source::AnyPointer(_) => unreachable!(),
    }
}
