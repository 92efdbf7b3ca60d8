//! Parts of a struct that is built: what a builder's `get` of a slot fills, and what it lends.
ghost use Rattle.std.specs.Prelude.{List, ℕ, None, false, true, ◌≡◌, IfErr, IfOk, IsOk, OnErr, OnOk};
ghost use Rattle.capnp_arena.specs.Frame.{LeavesStruct};
ghost use Rattle.capnp_arena.specs.Forest.{Changes, Forest, tree};
ghost use Rattle.capnp_arena.specs.Segment.{segment};
ghost use Rattle.capnp_arena.specs.Built.{IsBuilt, LeavesIn, built_at};
ghost use Rattle.capnp_wire.specs.Defaults.{default_tree as reader_tree, error_of};
ghost use Rattle.capnp_wire.specs.Reading.{is_null_tree};
ghost use Rattle.capnp_records.specs.Writes.TreeCopy.{or_else};
ghost use Rattle.capnp_wire.specs.Edits.{IsDueRefusal, with_pointer_tree};
ghost use Rattle.capnp_schema.specs.Entries.{lists_seen};
ghost use Rattle.capnp_schema.specs.FieldLists.{typed_of};
ghost use Rattle.capnp_schema.specs.Schema.{default_of};
ghost use Rattle.capnp_schema.specs.StructHandles.{generic_of, number_of, set_of};
ghost use Rattle.capnp_schema.specs.Types.{ListType, StructType, seen_type};
ghost use Rattle.capnp_slots.specs.Fields.{IsPointerField, IsRoomFor, IsSlot, field_set, pointer_index};
ghost use Rattle.capnp_slots.specs.Fills.{RestsIn, due_in, filled_in, pointer_in};
ghost use Rattle.capnp_slots.specs.Steps.Fills.{HoldsThere, IsDefaultPointer, IsListFilled, IsSlotFilled, IsThere, filled_blob, blob_filled, tree_there};

use crate::fill::{extend_struct, fill_list, fill_struct, fill_structs};
use crate::fill_element::check_blob;
use crate::make::size_of;
use crate::pointer::{pointer_slot, set_at};
use crate::setter::SetterInput;
use capnp_arena::arena::{Arena, Place as StructPlace};
use capnp_arena::structs::pointer_at;
use capnp_base::introspect::{Type, TypeVariant};
use capnp_base::{data, text};
use capnp_schema::schema::{Field, StructSchema};
use capnp_schema::set::SchemaSet;
use capnp_schema::value::Value;
use capnp_wire::PointerReader;
use capnp_wire::error::Result;

/// The root pointer of a field's default, where it has one.
#[inline(always)]
fn default_pointer<'s>(field: Field<'s>) -> Option<PointerReader<'s>>
    ensures { IsDefaultPointer field.entry result }
{
    field.get_default_pointer()
}

/// Fills the list at a pointer, of elements of a type.
#[inline(always)]
fn fill_elements(
    arena: &mut Arena,
    place: StructPlace,
    index: u16,
    schemas: &SchemaSet,
    element: Type,
    default: Option<PointerReader<'_>>,
) -> Result<()>
    requires planted { IsBuilt arena.old place }
    requires inside { IsThere (built_at arena.old place) index }
    ensures frame { OnOk result (LeavesStruct place arena.old arena.new) }
    ensures written { IsListFilled (lists_seen schemas.now) (seen_type element) (reader_tree default.entry)
        (built_at arena.old place) index result (built_at arena.new place) }
    ensures refused { OnErr result (segment arena.new ≡ segment arena.old) }
{
    match element.which() {
        TypeVariant::Struct(raw) => {
            let size = size_of(schemas.struct_schema(raw.number));
            fill_structs(arena, place, index, size, default)
        }
        _ => fill_list(
            arena,
            place,
            index,
            element.expected_element_size(),
            default,
        ),
    }
}

/// Fills a pointer's slot where it may be null: its default is read.
fn fill_null(arena: &mut Arena, place: StructPlace, field: Field<'_>, index: u16) -> Result<()>
    requires planted { IsBuilt arena.old place }
    requires slot { IsSlot field }
    requires pointer { IsPointerField field }
    requires is { index ≡ pointer_index field }
    requires inside { IsThere (built_at arena.old place) index }
    ensures frame { OnOk result (LeavesStruct place arena.old arena.new) }
    ensures written { IsSlotFilled field.entry (built_at arena.old place) index result (built_at arena.new place) }
    ensures refused { OnErr result (segment arena.new ≡ segment arena.old) }
{
    let schemas = field.get_containing_struct().get_set();
    let default = default_pointer(field);
    match field.get_type().which() {
        TypeVariant::Struct(raw) => {
            let size = size_of(schemas.struct_schema(raw.number));
            fill_struct(arena, place, index, size, default)
        }
        TypeVariant::List(element) => fill_elements(arena, place, index, schemas, element, default),
        TypeVariant::Text => fill_blob(arena, place, index, field, true),
        TypeVariant::Data => fill_blob(arena, place, index, field, false),
        TypeVariant::AnyPointer => Ok(()),
        _ => unreachable!(),
    }
}

/// Fills a pointer's slot that is not null: its default is not read.
#[inline(always)]
fn fill_standing(arena: &mut Arena, place: StructPlace, field: Field<'_>, index: u16) -> Result<()>
    requires planted { IsBuilt arena.old place }
    requires slot { IsSlot field }
    requires pointer { IsPointerField field }
    requires is { index ≡ pointer_index field }
    requires inside { IsThere (built_at arena.old place) index }
    requires standing { is_null_tree (tree_there (built_at arena.old place) index) ≡ false }
    ensures frame { OnOk result (LeavesStruct place arena.old arena.new) }
    ensures written { IsSlotFilled field.entry (built_at arena.old place) index result (built_at arena.new place) }
    ensures refused { OnErr result (segment arena.new ≡ segment arena.old) }
{
    let schemas = field.get_containing_struct().get_set();
    match field.get_type().which() {
        TypeVariant::Struct(raw) => {
            let size = size_of(schemas.struct_schema(raw.number));
            extend_struct(arena, place, index, size)
        }
        TypeVariant::List(element) => fill_elements(arena, place, index, schemas, element, None),
        TypeVariant::Text => check_blob(arena, pointer_at(arena, place, index), true),
        TypeVariant::Data => check_blob(arena, pointer_at(arena, place, index), false),
        TypeVariant::AnyPointer => Ok(()),
        _ => unreachable!(),
    }
}

/// Fills a pointer's slot. The default is read where the pointer is null alone.
#[inline(always)]
fn fill_slot(arena: &mut Arena, place: StructPlace, field: Field<'_>, index: u16) -> Result<()>
    requires planted { IsBuilt arena.old place }
    requires slot { IsSlot field }
    requires pointer { IsPointerField field }
    requires is { index ≡ pointer_index field }
    requires inside { IsThere (built_at arena.old place) index }
    ensures frame { OnOk result (LeavesStruct place arena.old arena.new) }
    ensures written { IsSlotFilled field.entry (built_at arena.old place) index result (built_at arena.new place) }
    ensures refused { OnErr result (segment arena.new ≡ segment arena.old) }
{
    if arena.is_null(pointer_at(arena, place, index)) {
        return fill_null(arena, place, field, index);
    }
    fill_standing(arena, place, field, index)
}

/// Fills the text, or else the data, at a pointer: a null becomes a default of bytes, empty ones too.
fn fill_blob(
    arena: &mut Arena,
    place: StructPlace,
    index: u16,
    field: Field<'_>,
    is_text: bool,
) -> Result<()>
    requires planted { IsBuilt arena.old place }
    requires inside { IsThere (built_at arena.old place) index }
    ensures frame { OnOk result (LeavesStruct place arena.old arena.new) }
    ensures ok { OnOk result (HoldsThere (built_at arena.old place) index (built_at arena.new place)
        (blob_filled (default_of (typed_of field.entry).field) (tree_there (built_at arena.old place) index))) }
    ensures within { OnOk result (error_of (filled_blob is_text (tree_there (built_at arena.old place) index)) ≡ None) }
    ensures refused { OnErr result (segment arena.new ≡ segment arena.old) }
    ensures cause { IfErr result (λ e. IsDueRefusal e
        (error_of (filled_blob is_text (tree_there (built_at arena.old place) index)))) }
{
    check_blob(arena, pointer_at(arena, place, index), is_text)?;
    match field.get_default() {
        Value::Text(text) => put::<text::Owned, text::Reader<'_>>(arena, place, index, text),
        Value::Data(bytes) => put::<data::Owned, data::Reader<'_>>(arena, place, index, bytes),
        _ => Ok(()),
    }
}

/// Puts a default in the place of a null.
fn put<R, S: SetterInput<R> + Copy>(
    arena: &mut Arena,
    place: StructPlace,
    index: u16,
    input: S,
) -> Result<()>
    requires planted { IsBuilt arena.old place }
    requires inside { IsThere (built_at arena.old place) index }
    ensures frame { OnOk result (LeavesStruct place arena.old arena.new) }
    ensures ok { OnOk result (HoldsThere (built_at arena.old place) index (built_at arena.new place)
        (or_else (tree_there (built_at arena.old place) index) (S.set_tree input))) }
    ensures refused { OnErr result (segment arena.new ≡ segment arena.old) }
    ensures null { OnErr result (is_null_tree (tree_there (built_at arena.old place) index) ≡ true) }
    ensures cause { IfErr result (S.set_refusal input) }
{
    if !arena.is_null(pointer_at(arena, place, index)) {
        return Ok(());
    }
    set_at(arena, place, index, input)
}

/// Fills what stands behind the pointer of a slot, as a builder's `get` does: a null text or data becomes a default of
/// its own kind, an empty one too; a null struct its default or an empty one, and a struct that is smaller than its
/// schema gets zeros and nulls after what it has; a null list becomes its default where that isn't null, and structs of
/// a list get at least their schema's sections. An untyped pointer stays. Whether a member is active is not asked, and
/// no union is switched.
///
/// Refused with `WrongPointerKind`, `WrongElementSize` or `TextNotTerminated` where what stands there is not read as
/// the slot's type, with `SizePastFormat` where the structs of a list would take 2^29 words or more, and else with
/// `OutOfMemory`; then nothing has changed. Where nothing has to be filled or extended no memory is taken.
///
/// # Conditions
///
/// The field is a slot of a pointer type (`IsSlot`, `IsPointerField`). A struct of this message stands at the place
/// (`IsBuilt`), with at least the sections of the field's schema (`IsRoomFor`).
pub fn fill(arena: &mut Arena, place: StructPlace, field: Field<'_>) -> Result<()>
    requires planted { IsBuilt arena.old place }
    requires slot { IsSlot field }
    requires pointer { IsPointerField field }
    requires room { IsRoomFor field (built_at arena.old place) }
    ensures frame { OnOk result (LeavesStruct place arena.old arena.new) }
    ensures filled { OnOk result (built_at arena.new place
        ≡ with_pointer_tree (built_at arena.old place) (pointer_index field.entry)
        (filled_in field.entry (built_at arena.old place))) }
    ensures here { OnOk result (pointer_in field.entry (built_at arena.new place)
        ≡ filled_in field.entry (built_at arena.old place)) }
    ensures within { OnOk result (due_in field.entry (built_at arena.old place) ≡ None) }
    ensures refused { OnErr result (segment arena.new ≡ segment arena.old) }
    ensures cause { IfErr result (λ e. IsDueRefusal e (due_in field.entry (built_at arena.old place))) }
    ensures rests { RestsIn field.entry (built_at arena.old place) → IsOk result }
{
    let (index, _) = pointer_slot(field);
    fill_slot(arena, place, field, index)
}

/// Fills the pointer of a slot of a struct's type, by the type's schema.
#[inline(always)]
fn fill_struct_at(
    arena: &mut Arena,
    place: StructPlace,
    field: Field<'_>,
    schema: StructSchema<'_>,
    index: u16,
) -> Result<()>
    requires planted { IsBuilt arena.old place }
    requires slot { IsSlot field }
    requires pointer { IsPointerField field }
    requires set { set_of schema ≡ field_set field }
    requires type_is { StructType (number_of schema) (generic_of schema) ≡ (typed_of field).type }
    requires is { index ≡ pointer_index field }
    requires inside { IsThere (built_at arena.old place) index }
    ensures frame { OnOk result (LeavesStruct place arena.old arena.new) }
    ensures written { IsSlotFilled field.entry (built_at arena.old place) index result (built_at arena.new place) }
    ensures refused { OnErr result (segment arena.new ≡ segment arena.old) }
{
    if arena.is_null(pointer_at(arena, place, index)) {
        return fill_null(arena, place, field, index);
    }
    extend_struct(arena, place, index, size_of(schema))
}

/// Fills what stands behind the pointer of a slot of a struct's type, as `fill`: for a caller that has the type's
/// schema.
///
/// Refused as `fill`.
///
/// # Conditions
///
/// The field is a slot (`IsSlot`) of a struct's type, and `schema` is that type's, of the field's set. A struct of this
/// message stands at the place (`IsBuilt`), with at least the sections of the field's schema (`IsRoomFor`).
#[inline(always)]
pub fn fill_struct_slot(
    arena: &mut Arena,
    place: StructPlace,
    field: Field<'_>,
    schema: StructSchema<'_>,
) -> Result<()>
    requires planted { IsBuilt arena.old place }
    requires slot { IsSlot field }
    requires set { set_of schema ≡ field_set field }
    requires type_is { StructType (number_of schema) (generic_of schema) ≡ (typed_of field).type }
    requires room { IsRoomFor field (built_at arena.old place) }
    ensures frame { OnOk result (LeavesStruct place arena.old arena.new) }
    ensures filled { OnOk result (built_at arena.new place
        ≡ with_pointer_tree (built_at arena.old place) (pointer_index field.entry)
        (filled_in field.entry (built_at arena.old place))) }
    ensures here { OnOk result (pointer_in field.entry (built_at arena.new place)
        ≡ filled_in field.entry (built_at arena.old place)) }
    ensures within { OnOk result (due_in field.entry (built_at arena.old place) ≡ None) }
    ensures refused { OnErr result (segment arena.new ≡ segment arena.old) }
    ensures cause { IfErr result (λ e. IsDueRefusal e (due_in field.entry (built_at arena.old place))) }
    ensures rests { RestsIn field.entry (built_at arena.old place) → IsOk result }
{
    let (index, _) = pointer_slot(field);
    fill_struct_at(arena, place, field, schema, index)
}

/// Fills the pointer of a slot of a list's type, by the type of the elements.
#[inline(always)]
fn fill_list_at(
    arena: &mut Arena,
    place: StructPlace,
    field: Field<'_>,
    element: Type,
    index: u16,
) -> Result<()>
    requires planted { IsBuilt arena.old place }
    requires slot { IsSlot field }
    requires pointer { IsPointerField field }
    requires type_is { ListType (seen_type element) ≡ (typed_of field).type }
    requires is { index ≡ pointer_index field }
    requires inside { IsThere (built_at arena.old place) index }
    ensures frame { OnOk result (LeavesStruct place arena.old arena.new) }
    ensures written { IsSlotFilled field.entry (built_at arena.old place) index result (built_at arena.new place) }
    ensures refused { OnErr result (segment arena.new ≡ segment arena.old) }
{
    if arena.is_null(pointer_at(arena, place, index)) {
        return fill_null(arena, place, field, index);
    }
    let schemas = field.get_containing_struct().get_set();
    fill_elements(arena, place, index, schemas, element, None)
}

/// Fills what stands behind the pointer of a slot of a list's type, as `fill`: for a caller that has the type of the
/// elements.
///
/// Refused as `fill`.
///
/// # Conditions
///
/// The field is a slot (`IsSlot`) of a list's type, and `element` is its elements' type. A struct of this message
/// stands at the place (`IsBuilt`), with at least the sections of the field's schema (`IsRoomFor`).
#[inline(always)]
pub fn fill_list_slot(
    arena: &mut Arena,
    place: StructPlace,
    field: Field<'_>,
    element: Type,
) -> Result<()>
    requires planted { IsBuilt arena.old place }
    requires slot { IsSlot field }
    requires type_is { ListType (seen_type element) ≡ (typed_of field).type }
    requires room { IsRoomFor field (built_at arena.old place) }
    ensures frame { OnOk result (LeavesStruct place arena.old arena.new) }
    ensures filled { OnOk result (built_at arena.new place
        ≡ with_pointer_tree (built_at arena.old place) (pointer_index field.entry)
        (filled_in field.entry (built_at arena.old place))) }
    ensures here { OnOk result (pointer_in field.entry (built_at arena.new place)
        ≡ filled_in field.entry (built_at arena.old place)) }
    ensures within { OnOk result (due_in field.entry (built_at arena.old place) ≡ None) }
    ensures refused { OnErr result (segment arena.new ≡ segment arena.old) }
    ensures cause { IfErr result (λ e. IsDueRefusal e (due_in field.entry (built_at arena.old place))) }
    ensures rests { RestsIn field.entry (built_at arena.old place) → IsOk result }
{
    let (index, _) = pointer_slot(field);
    fill_list_at(arena, place, field, element, index)
}

/// The word of the pointer of a slot.
///
/// # Conditions
///
/// The field is a slot of a pointer type (`IsSlot`, `IsPointerField`). A struct of this message stands at the place
/// (`IsBuilt`), with at least the sections of the field's schema (`IsRoomFor`).
#[inline(always)]
pub fn pointer(arena: &Arena, place: StructPlace, field: Field<'_>) -> usize
    requires planted { IsBuilt arena.now place }
    requires slot { IsSlot field }
    requires pointer { IsPointerField field }
    requires room { IsRoomFor field (built_at arena.now place) }
    ensures forest { Forest (segment arena.now) result }
    ensures tree { tree (segment arena.now) result ≡ pointer_in field.entry (built_at arena.now place) }
    ensures leaves { (new : List ℕ) → Forest new result → Changes result (segment arena.now) new
        → LeavesIn place (pointer_index field.entry) arena.now result new }
{
    let (index, _) = pointer_slot(field);
    pointer_at(arena, place, index)
}

/// Fills what stands behind the pointer of a slot, as `fill`, and answers the pointer's word.
///
/// Refused as `fill`.
///
/// # Conditions
///
/// The field is a slot of a pointer type (`IsSlot`, `IsPointerField`). A struct of this message stands at the place
/// (`IsBuilt`), with at least the sections of the field's schema (`IsRoomFor`).
pub fn get(arena: &mut Arena, place: StructPlace, field: Field<'_>) -> Result<usize>
    requires planted { IsBuilt arena.old place }
    requires slot { IsSlot field }
    requires pointer { IsPointerField field }
    requires room { IsRoomFor field (built_at arena.old place) }
    ensures frame { OnOk result (LeavesStruct place arena.old arena.new) }
    ensures filled { OnOk result (built_at arena.new place
        ≡ with_pointer_tree (built_at arena.old place) (pointer_index field.entry)
        (filled_in field.entry (built_at arena.old place))) }
    ensures forest { IfOk result (λ at. Forest (segment arena.new) at) }
    ensures now { IfOk result (λ at. tree (segment arena.new) at ≡ filled_in field.entry (built_at arena.old place)) }
    ensures leaves { IfOk result (λ at. (new : List ℕ) → Forest new at → Changes at (segment arena.new) new
        → LeavesIn place (pointer_index field.entry) arena.new at new) }
    ensures within { OnOk result (due_in field.entry (built_at arena.old place) ≡ None) }
    ensures refused { OnErr result (segment arena.new ≡ segment arena.old) }
    ensures cause { IfErr result (λ e. IsDueRefusal e (due_in field.entry (built_at arena.old place))) }
    ensures rests { RestsIn field.entry (built_at arena.old place) → IsOk result }
{
    let (index, _) = pointer_slot(field);
    fill_slot(arena, place, field, index)?;
    Ok(pointer_at(arena, place, index))
}
