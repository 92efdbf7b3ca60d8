//! Slots of a struct that is built: a union's member becomes active, and then what stands in the slot is written.
ghost use Rattle.std.specs.Prelude.{None, ◌≡◌, IfErr, IfSome, OnErr, OnOk, not};
ghost use Rattle.capnp_device.specs.declared.error.ErrorKind.TheVariants.{OutOfMemory};
ghost use Rattle.capnp_wire.specs.Edits.{zero_struct};
ghost use Rattle.capnp_arena.specs.Frame.{LeavesStruct};
ghost use Rattle.capnp_arena.specs.Segment.{segment};
ghost use Rattle.capnp_arena.specs.Built.{IsBuilt, built_at};
ghost use Rattle.capnp_wire.specs.Place.{struct_tree};
ghost use Rattle.capnp_wire.specs.WellFormed.{IsWellFormed};
ghost use Rattle.capnp_wire.specs.Words.{first_fault};
ghost use Rattle.capnp_schema.specs.FieldLists.{typed_of};
ghost use Rattle.capnp_records.specs.Given.{Fails};
ghost use Rattle.capnp_records.specs.Step.{is_group_field};
ghost use Rattle.capnp_records.specs.Writes.Overlay.{cleared_content};
ghost use Rattle.capnp_records.specs.Writes.Slots.{At};
ghost use Rattle.capnp_slots.specs.Fields.{field_set, IsPointerField, IsRoomFor, IsSlot, Keeps, names_of, slot_with, switch_names, switched_to};
ghost use Rattle.capnp_slots.specs.Sources.{IsPointed, IsSet, IsSetRefusal, source_seen};
ghost use Rattle.capnp_slots.specs.Inits.{HasInit, HasInitn, IsInitRefusal, IsInitnRefusal, init_content, initn_content};
ghost use Rattle.capnp_slots.specs.Primitives.{IsGiven, given_to, primitive_source, set_content};
ghost use Rattle.capnp_slots.specs.Steps.Primitives.{IsGivenAs, refusal_at};

use crate::copies::{copies_to, copy_to};
use crate::make::{is_sized, size_of};
use crate::planned::{clear_plan, field_plan, slot_plan, store_number, switch_member};
use crate::pointer::{make_sized_at, make_struct_at, pointer_slot, set_at};
use crate::primitive::{Primitive, number_at_once, number_fits, refusal_at};
use crate::setter::SetterInput;
use crate::source::Source;
use capnp_arena::arena::{Arena, Place as StructPlace};
use capnp_base::introspect::TypeVariant;
use capnp_schema::plan::Place;
use capnp_schema::schema::Field;
use capnp_wire::error::{Error, ErrorKind, Result};
use capnp_wire::size::StructSize;

/// Whether a field is a slot and no group.
#[inline(always)]
pub fn is_slot(field: Field<'_>) -> bool
    ensures { result ≡ not (is_group_field (typed_of field.entry).field.kind) }
{
    match field.plan().place {
        Place::Group(_brand) => false,
        _ => true,
    }
}

/// Makes a field active, where it is a member of its struct's union: its number stands in the discriminant. A non-union
/// field changes nothing. What stands in the field stays, and no memory is taken.
///
/// # Conditions
///
/// A struct of this message stands at the place (`IsBuilt`), with at least the sections of the field's schema
/// (`IsRoomFor`).
#[inline(always)]
pub fn switch(arena: &mut Arena, place: StructPlace, field: Field<'_>)
    requires planted { IsBuilt arena.old place }
    requires room { IsRoomFor field (built_at arena.old place) }
    ensures frame { LeavesStruct place arena.old arena.new }
    ensures switched { built_at arena.new place ≡ switched_to field.entry (built_at arena.old place) }
    ensures kept { Keeps (switch_names field.entry) (built_at arena.old place) (built_at arena.new place) }
{
    switch_member(arena, place, field_plan(field).member);
}

/// The number that a field's slot stores for a value, but for its default. None where the set is refused.
#[inline(always)]
fn number_for(field: Field<'_>, value: Primitive) -> Option<u64>
    ensures number { IfSome result (IsGivenAs (field_set field.entry) (typed_of field.entry).type
        (primitive_source value)) }
    ensures none { result ≡ None → given_to field.entry (primitive_source value)
        ≡ Fails (refusal_at (typed_of field.entry).type) }
{
    number_fits(value);
    number_at_once(field.get_type().which(), value)
}

/// What a field's slot refuses a value of another kind with.
fn refuse_at(field: Field<'_>) -> Error
    ensures { result.kind ≡ refusal_at (typed_of field.entry).type }
{
    refusal_at(field.get_type().which())
}

/// Sets a slot to a value that no pointer stands for: what is stored is its number, XORed with that of the slot's
/// default. A member becomes active. A slot of type Void takes every value, and an enum's the number alone. No memory
/// is taken.
///
/// Refused with `CannotSetAnyPointerFieldToAPrimitiveValue` for an untyped slot, and with `TypeMismatch` for a slot of
/// another kind than the value's; then nothing has changed.
///
/// # Conditions
///
/// The field is a slot (`IsSlot`). A struct of this message stands at the place (`IsBuilt`), with at least the sections
/// of the field's schema (`IsRoomFor`).
#[inline(always)]
pub fn set_primitive(
    arena: &mut Arena,
    place: StructPlace,
    field: Field<'_>,
    value: Primitive,
) -> Result<()>
    requires planted { IsBuilt arena.old place }
    requires slot { IsSlot field }
    requires room { IsRoomFor field (built_at arena.old place) }
    ensures frame { OnOk result (LeavesStruct place arena.old arena.new) }
    ensures written { OnOk result (built_at arena.new place
        ≡ slot_with field.entry (set_content field.entry (primitive_source value)) (built_at arena.old place)) }
    ensures given { OnOk result (IsGiven (given_to field.entry (primitive_source value))) }
    ensures kept { OnOk result (Keeps (names_of field.entry) (built_at arena.old place) (built_at arena.new place)) }
    ensures refused { OnErr result (segment arena.new ≡ segment arena.old) }
    ensures cause { IfErr result (λ e. given_to field.entry (primitive_source value) ≡ Fails e.kind) }
{
    match number_for(field, value) {
        Some(number) => {
            store_number(arena, place, slot_plan(field), number);
            Ok(())
        }
        None => Err(refuse_at(field)),
    }
}

/// Sets a slot to what a pointer can be set to: a text, data, a struct, a list, or what an untyped pointer leads to.
/// The copy is made first, and then a member becomes active.
///
/// Refused as the input's set of a pointer, and then nothing has changed.
///
/// # Conditions
///
/// The field is a slot of a pointer type (`IsSlot`, `IsPointerField`). A struct of this message stands at the place
/// (`IsBuilt`), with at least the sections of the field's schema (`IsRoomFor`).
pub fn set_pointer<R, S: SetterInput<R>>(
    arena: &mut Arena,
    place: StructPlace,
    field: Field<'_>,
    input: S,
) -> Result<()>
    requires planted { IsBuilt arena.old place }
    requires slot { IsSlot field }
    requires pointer { IsPointerField field }
    requires room { IsRoomFor field (built_at arena.old place) }
    ensures frame { OnOk result (LeavesStruct place arena.old arena.new) }
    ensures written { OnOk result (built_at arena.new place
        ≡ slot_with field.entry (At (S.set_tree input)) (built_at arena.old place)) }
    ensures kept { OnOk result (Keeps (names_of field.entry) (built_at arena.old place) (built_at arena.new place)) }
    ensures formed { OnOk result (IsWellFormed (S.set_tree input)) }
    ensures sound { OnOk result (first_fault (S.set_tree input) ≡ None) }
    ensures refused { OnErr result (segment arena.new ≡ segment arena.old) }
    ensures cause { IfErr result (S.set_refusal input) }
{
    let (index, member) = pointer_slot(field);
    set_at(arena, place, index, input)?;
    switch_member(arena, place, member);
    Ok(())
}

/// Sets a slot. A void slot takes every source. A value that no pointer stands for is stored as by `set_primitive`. A
/// text, data, a struct and a list are copied into a slot of their kind or an untyped one, whatever the struct's schema
/// or the list's elements are: the copy is made first, and keeps what the slot's type doesn't know. Then a member
/// becomes active.
///
/// Refused, in this order: with `CannotSetAnyPointerFieldToAPrimitiveValue` for an untyped slot and a source of another
/// kind than these four, and with `TypeMismatch` for another slot and a source of another kind than its own; with
/// `BadPointer`, `TooDeep` or `CapabilityPointer` where a pointer in the source can't be followed, by the first of
/// these in preorder; with `SizePastFormat` for a text of more than 2^29 - 2 bytes or data of more than 2^29 - 1; and
/// with `OutOfMemory`. Then nothing has changed.
///
/// # Conditions
///
/// The field is a slot (`IsSlot`). A struct of this message stands at the place (`IsBuilt`), with at least the sections
/// of the field's schema (`IsRoomFor`).
#[tactic(auto, using(crate::proofs::Kept::set_keeps))]
#[inline(always)]
pub fn set(
    arena: &mut Arena,
    place: StructPlace,
    field: Field<'_>,
    source: Source<'_>,
) -> Result<()>
    requires planted { IsBuilt arena.old place }
    requires slot { IsSlot field }
    requires room { IsRoomFor field (built_at arena.old place) }
    ensures frame { OnOk result (LeavesStruct place arena.old arena.new) }
    ensures set { OnOk result (IsSet field.entry (source_seen source.entry) (built_at arena.old place)
        (built_at arena.new place)) }
    ensures kept { Keeps (names_of field.entry) (built_at arena.old place) (built_at arena.new place) }
    ensures refused { OnErr result (segment arena.new ≡ segment arena.old) }
    ensures cause { IfErr result (λ e. IsSetRefusal (given_to field.entry (source_seen source.entry)) e.kind) }
{
    match source {
        Source::Primitive(value) => set_primitive(arena, place, field, value),
        _ => set_pointed(arena, place, field, source),
    }
}

/// Sets a slot to what stands behind a pointer.
#[inline(never)]
fn set_pointed(
    arena: &mut Arena,
    place: StructPlace,
    field: Field<'_>,
    source: Source<'_>,
) -> Result<()>
    requires planted { IsBuilt arena.old place }
    requires slot { IsSlot field }
    requires room { IsRoomFor field (built_at arena.old place) }
    requires pointed { IsPointed (source_seen source) }
    ensures frame { OnOk result (LeavesStruct place arena.old arena.new) }
    ensures set { OnOk result (IsSet field.entry (source_seen source.entry) (built_at arena.old place)
        (built_at arena.new place)) }
    ensures refused { OnErr result (segment arena.new ≡ segment arena.old) }
    ensures cause { IfErr result (λ e. IsSetRefusal (given_to field.entry (source_seen source.entry)) e.kind) }
{
    if copies_to(field, source)? {
        copy_to(arena, place, field, source)
    } else {
        set_primitive(arena, place, field, Primitive::Void)
    }
}

/// Initializes a slot: a struct's becomes a new struct of its schema's sections, all zero and null, and an untyped one
/// null. Then a member becomes active. An untyped slot takes no memory.
///
/// Refused with `InitIsOnlyValidForStructAndAnyPointerFields` for another slot, and with `OutOfMemory` for a struct;
/// then nothing has changed.
///
/// # Conditions
///
/// The field is a slot (`IsSlot`). A struct of this message stands at the place (`IsBuilt`), with at least the sections
/// of the field's schema (`IsRoomFor`).
pub fn init(arena: &mut Arena, place: StructPlace, field: Field<'_>) -> Result<()>
    requires planted { IsBuilt arena.old place }
    requires slot { IsSlot field }
    requires room { IsRoomFor field (built_at arena.old place) }
    ensures frame { OnOk result (LeavesStruct place arena.old arena.new) }
    ensures written { OnOk result (built_at arena.new place
        ≡ slot_with field.entry (init_content field.entry) (built_at arena.old place)) }
    ensures has { OnOk result (HasInit field.entry) }
    ensures kept { OnOk result (Keeps (names_of field.entry) (built_at arena.old place) (built_at arena.new place)) }
    ensures refused { OnErr result (segment arena.new ≡ segment arena.old) }
    ensures cause { IfErr result (λ e. IsInitRefusal (typed_of field.entry).type e.kind) }
{
    match field.get_type().which() {
        TypeVariant::Struct(raw) => {
            let schemas = field.get_containing_struct().get_set();
            init_struct(
                arena,
                place,
                field,
                size_of(schemas.struct_schema(raw.number)),
            )
        }
        TypeVariant::AnyPointer => {
            clear(arena, place, field);
            Ok(())
        }
        _ => Err(Error::from(ErrorKind::InitIsOnlyValidForStructAndAnyPointerFields)),
    }
}

/// Makes a pointer's slot a struct of a size, and then its field active.
fn init_struct(
    arena: &mut Arena,
    place: StructPlace,
    field: Field<'_>,
    size: StructSize,
) -> Result<()>
    requires planted { IsBuilt arena.old place }
    requires slot { IsSlot field }
    requires pointer { IsPointerField field }
    requires room { IsRoomFor field (built_at arena.old place) }
    ensures frame { OnOk result (LeavesStruct place arena.old arena.new) }
    ensures written { OnOk result (built_at arena.new place
        ≡ slot_with field.entry (At (struct_tree (zero_struct size))) (built_at arena.old place)) }
    ensures kept { OnOk result (Keeps (names_of field.entry) (built_at arena.old place) (built_at arena.new place)) }
    ensures refused { OnErr result (segment arena.new ≡ segment arena.old) }
    ensures cause { IfErr result (λ e. e.kind ≡ OutOfMemory) }
{
    let (index, member) = pointer_slot(field);
    make_struct_at(arena, place, index, size)?;
    switch_member(arena, place, member);
    Ok(())
}

/// Initializes a slot with a size: it becomes a text or data of so many zero bytes, or a list of so many elements, all
/// zero, false or null, or structs of their schema's sections. Then a member becomes active.
///
/// Refused with `InitnIsOnlyValidForListTextOrDataFields` for another slot; with `SizePastFormat` for a text of more
/// than 2^29 - 2 bytes, data of more than 2^29 - 1, 2^29 elements or more, or structs that take 2^29 words or more; and
/// with `OutOfMemory`. Then nothing has changed.
///
/// # Conditions
///
/// The field is a slot (`IsSlot`). A struct of this message stands at the place (`IsBuilt`), with at least the sections
/// of the field's schema (`IsRoomFor`).
pub fn initn(arena: &mut Arena, place: StructPlace, field: Field<'_>, count: u32) -> Result<()>
    requires planted { IsBuilt arena.old place }
    requires slot { IsSlot field }
    requires room { IsRoomFor field (built_at arena.old place) }
    ensures frame { OnOk result (LeavesStruct place arena.old arena.new) }
    ensures written { OnOk result (built_at arena.new place
        ≡ slot_with field.entry (initn_content field.entry count) (built_at arena.old place)) }
    ensures has { OnOk result (HasInitn field.entry count) }
    ensures kept { OnOk result (Keeps (names_of field.entry) (built_at arena.old place) (built_at arena.new place)) }
    ensures refused { OnErr result (segment arena.new ≡ segment arena.old) }
    ensures cause { IfErr result (λ e. IsInitnRefusal (field_set field.entry) count
        (typed_of field.entry).type e.kind) }
{
    let variant = field.get_type().which();
    if !is_sized(variant) {
        return Err(Error::from(ErrorKind::InitnIsOnlyValidForListTextOrDataFields));
    }
    let (index, member) = pointer_slot(field);
    let schemas = field.get_containing_struct().get_set();
    make_sized_at(arena, place, index, schemas, variant, count)?;
    switch_member(arena, place, member);
    Ok(())
}

/// Clears a slot: its bits are zero, which reads as its default, or its pointer is null. A member becomes active. No
/// memory is taken.
///
/// # Conditions
///
/// The field is a slot (`IsSlot`). A struct of this message stands at the place (`IsBuilt`), with at least the sections
/// of the field's schema (`IsRoomFor`).
#[inline(always)]
pub fn clear(arena: &mut Arena, place: StructPlace, field: Field<'_>)
    requires planted { IsBuilt arena.old place }
    requires slot { IsSlot field }
    requires room { IsRoomFor field (built_at arena.old place) }
    ensures frame { LeavesStruct place arena.old arena.new }
    ensures cleared { built_at arena.new place ≡ slot_with field.entry (cleared_content (typed_of field.entry).type)
        (built_at arena.old place) }
    ensures kept { Keeps (names_of field.entry) (built_at arena.old place) (built_at arena.new place) }
{
    clear_plan(arena, place, slot_plan(field));
}
