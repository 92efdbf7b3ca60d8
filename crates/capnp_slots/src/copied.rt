//! Copies of a slot out of a struct of the same schema that is read.
ghost use Rattle.std.specs.Prelude.{false, true, None, ◌≡◌, ◌≢◌, IfErr, OnErr, OnOk};
ghost use Rattle.capnp_device.specs.declared.error.ErrorKind.TheVariants.{OutOfMemory};
ghost use Rattle.capnp_wire.specs.Edits.{IsCopyRefusal};
ghost use Rattle.capnp_arena.specs.Frame.{LeavesStruct};
ghost use Rattle.capnp_arena.specs.Segment.{segment};
ghost use Rattle.capnp_arena.specs.Built.{IsBuilt, built_at};
ghost use Rattle.capnp_wire.specs.Standing.{levels_of, struct_levels, struct_of, tree_of};
ghost use Rattle.capnp_wire.specs.Words.{first_fault};
ghost use Rattle.capnp_schema.specs.Defaults.{DefaultFits};
ghost use Rattle.capnp_schema.specs.FieldLists.{typed_of};
ghost use Rattle.capnp_schema.specs.Types.{AnyPointerType, is_pointer, seen_variant};
ghost use Rattle.capnp_records.specs.Record.{Left};
ghost use Rattle.capnp_records.specs.Writes.Slots.{At};
ghost use Rattle.capnp_slots.specs.Copied.{IsCopied, IsCopiedFrom, copy_given, refusal_of};
ghost use Rattle.capnp_slots.specs.Steps.Copied.{IsGivenCopy, default_in, empty_tree, pointer_content, pointer_given, read_due};
ghost use Rattle.capnp_slots.specs.Fields.{IsPointerField, IsRoomFor, IsSlot, Keeps, names_of, pointer_index, slot_with};
ghost use Rattle.capnp_records.specs.Writes.TreeCopy.{or_else};
ghost use Rattle.capnp_slots.specs.Sources.{IsSetRefusal};

use crate::planned::{copy_bits, slot_plan, switch_member};
use crate::pointer::{make_empty_at, pointer_slot};
use crate::slot::set_pointer;
use crate::source::PointerInput;
use capnp_arena::arena::{Arena, Place as StructPlace};
use capnp_base::introspect::TypeVariant;
use capnp_base::{any_pointer, data, text};
use capnp_schema::schema::Field;
use capnp_schema::value::Value;
use capnp_wire::error::{Error, ErrorKind, Result};
use capnp_wire::{PointerReader, StructReader};

/// The variant of a field's type.
pub(crate) fn variant_of(field: Field<'_>) -> TypeVariant
    ensures { seen_variant result ≡ (typed_of field.entry).type }
{
    field.get_type().which()
}

/// What a read is refused with, without what it answers.
fn refusal_alone<T: Drop>(read: Result<T>) -> Result<()>
    ensures { refusal_of result ≡ refusal_of read }
{
    match read {
        Ok(_) => Ok(()),
        Err(error) => Err(error),
    }
}

/// Refuses a pointer that is not read as a value of a type, as its read does; an untyped one is never copied.
fn check_read(variant: TypeVariant, pointer: &PointerReader<'_>) -> Result<()>
    requires { is_pointer (seen_variant variant) ≡ true }
    ensures { refusal_of result ≡ read_due (seen_variant variant) (tree_of pointer.now) (levels_of pointer.now) }
{
    match variant {
        TypeVariant::Text => refusal_alone(pointer.get_text()),
        TypeVariant::Data => refusal_alone(pointer.get_data()),
        TypeVariant::Struct(_) => refusal_alone(pointer.get_struct()),
        TypeVariant::List(element) => {
            refusal_alone(pointer.get_list(element.expected_element_size()))
        }
        TypeVariant::AnyPointer => Err(Error::from(
            ErrorKind::CannotSetAnyPointerFieldToAPrimitiveValue,
        )),
        _ => unreachable!(),
    }
}

/// Copies what a reader stands on into a pointer's slot, which becomes active after it. A refusal changes nothing; so
/// it is with each call below.
fn put(
    arena: &mut Arena,
    place: StructPlace,
    field: Field<'_>,
    pointer: PointerReader<'_>,
) -> Result<()>
    requires planted { IsBuilt arena.old place }
    requires slot { IsSlot field }
    requires pointer { IsPointerField field }
    requires room { IsRoomFor field (built_at arena.old place) }
    ensures frame { OnOk result (LeavesStruct place arena.old arena.new) }
    ensures written { OnOk result (built_at arena.new place
        ≡ slot_with field.entry (At (tree_of pointer.entry)) (built_at arena.old place)) }
    ensures kept { OnOk result (Keeps (names_of field.entry) (built_at arena.old place) (built_at arena.new place)) }
    ensures sound { OnOk result (first_fault (tree_of pointer.entry) ≡ None) }
    ensures refused { OnErr result (segment arena.new ≡ segment arena.old) }
    ensures cause { IfErr result (λ e. IsCopyRefusal e (first_fault (tree_of pointer.entry))) }
{
    set_pointer::<any_pointer::Owned, PointerInput<'_>>(arena, place, field, PointerInput(pointer))
}

/// Copies what stands in the place of a default that is none: no bytes, a struct of size zero, or a list of no
/// elements.
fn put_empty(arena: &mut Arena, place: StructPlace, field: Field<'_>) -> Result<()>
    requires planted { IsBuilt arena.old place }
    requires slot { IsSlot field }
    requires pointer { IsPointerField field }
    requires room { IsRoomFor field (built_at arena.old place) }
    requires typed { AnyPointerType ≢ (typed_of field).type }
    ensures frame { OnOk result (LeavesStruct place arena.old arena.new) }
    ensures written { OnOk result (built_at arena.new place
        ≡ slot_with field.entry (At (empty_tree (typed_of field.entry).type)) (built_at arena.old place)) }
    ensures kept { OnOk result (Keeps (names_of field.entry) (built_at arena.old place) (built_at arena.new place)) }
    ensures refused { OnErr result (segment arena.new ≡ segment arena.old) }
    ensures cause { IfErr result (λ e. e.kind ≡ OutOfMemory) }
{
    let variant = variant_of(field);
    let (index, member) = pointer_slot(field);
    make_empty_at(arena, place, index, variant)?;
    switch_member(arena, place, member);
    Ok(())
}

/// Copies the words of a default, where they are no null.
fn put_words(
    arena: &mut Arena,
    place: StructPlace,
    field: Field<'_>,
    pointer: PointerReader<'_>,
) -> Result<()>
    requires planted { IsBuilt arena.old place }
    requires slot { IsSlot field }
    requires pointer { IsPointerField field }
    requires room { IsRoomFor field (built_at arena.old place) }
    requires typed { AnyPointerType ≢ (typed_of field).type }
    requires sound { first_fault (tree_of pointer) ≡ None }
    ensures frame { OnOk result (LeavesStruct place arena.old arena.new) }
    ensures written { OnOk result (built_at arena.new place
        ≡ slot_with field.entry (At (or_else (tree_of pointer.entry) (empty_tree (typed_of field.entry).type)))
        (built_at arena.old place)) }
    ensures kept { OnOk result (Keeps (names_of field.entry) (built_at arena.old place) (built_at arena.new place)) }
    ensures refused { OnErr result (segment arena.new ≡ segment arena.old) }
    ensures cause { IfErr result (λ e. e.kind ≡ OutOfMemory) }
{
    if pointer.is_null() {
        put_empty(arena, place, field)
    } else {
        put(arena, place, field, pointer)
    }
}

/// Copies the default of a pointer's slot.
fn put_default(arena: &mut Arena, place: StructPlace, field: Field<'_>) -> Result<()>
    requires planted { IsBuilt arena.old place }
    requires slot { IsSlot field }
    requires pointer { IsPointerField field }
    requires room { IsRoomFor field (built_at arena.old place) }
    requires typed { AnyPointerType ≢ (typed_of field).type }
    ensures frame { OnOk result (LeavesStruct place arena.old arena.new) }
    ensures written { OnOk result (built_at arena.new place
        ≡ slot_with field.entry (At (default_in field.entry)) (built_at arena.old place)) }
    ensures kept { OnOk result (Keeps (names_of field.entry) (built_at arena.old place) (built_at arena.new place)) }
    ensures refused { OnErr result (segment arena.new ≡ segment arena.old) }
    ensures cause { IfErr result (λ e. e.kind ≡ OutOfMemory) }
{
    match field.get_default() {
        Value::Text(text) => set_pointer::<text::Owned, text::Reader<'_>>(
            arena, place, field, text,
        ),
        Value::Data(bytes) => set_pointer::<data::Owned, data::Reader<'_>>(
            arena, place, field, bytes,
        ),
        Value::Struct(words) => put_words(arena, place, field, words),
        Value::List(words) => put_words(arena, place, field, words),
        _ => put_empty(arena, place, field),
    }
}

/// What is known of a field's default in every set.
fn default_fits(field: Field<'_>)
    ensures { DefaultFits (typed_of field.entry) }
{
    let _default = field.get_default();
}

/// Refuses a pointer that is not copied into a slot, whatever it leads to.
fn check_copy(field: Field<'_>, pointer: &PointerReader<'_>) -> Result<()>
    requires slot { IsSlot field }
    requires pointer { IsPointerField field }
    ensures given { OnOk result (IsGivenCopy field.entry (levels_of pointer.now) (tree_of pointer.now)) }
    ensures cause { IfErr result (λ e. IsSetRefusal
        (pointer_given field.entry (levels_of pointer.now) (tree_of pointer.now)) e.kind) }
{
    default_fits(field);
    check_read(variant_of(field), pointer)
}

/// Copies a pointer into a slot, which becomes active after it: what it leads to, and a null as the slot's default.
fn copy_pointer(
    arena: &mut Arena,
    place: StructPlace,
    field: Field<'_>,
    pointer: PointerReader<'_>,
) -> Result<()>
    requires planted { IsBuilt arena.old place }
    requires slot { IsSlot field }
    requires pointer { IsPointerField field }
    requires room { IsRoomFor field (built_at arena.old place) }
    ensures frame { OnOk result (LeavesStruct place arena.old arena.new) }
    ensures copied { OnOk result (IsCopied field.entry
        (pointer_given field.entry (levels_of pointer.entry) (tree_of pointer.entry))
        (pointer_content field.entry (tree_of pointer.entry)) (built_at arena.old place) (built_at arena.new place)) }
    ensures refused { OnErr result (segment arena.new ≡ segment arena.old) }
    ensures cause { IfErr result (λ e. IsSetRefusal
        (pointer_given field.entry (levels_of pointer.entry) (tree_of pointer.entry)) e.kind) }
{
    check_copy(field, &pointer)?;
    if pointer.is_null() {
        put_default(arena, place, field)
    } else {
        put(arena, place, field, pointer)
    }
}

/// Copies a pointer's slot out of a struct.
fn copy_behind(
    arena: &mut Arena,
    place: StructPlace,
    field: Field<'_>,
    source: &StructReader<'_>,
    index: u16,
) -> Result<()>
    requires planted { IsBuilt arena.old place }
    requires slot { IsSlot field }
    requires pointer { IsPointerField field }
    requires is { index ≡ pointer_index field }
    requires room { IsRoomFor field (built_at arena.old place) }
    ensures frame { OnOk result (LeavesStruct place arena.old arena.new) }
    ensures copied { OnOk result (IsCopiedFrom field.entry (struct_levels source.now) (struct_of source.now)
        (built_at arena.old place)
        (built_at arena.new place)) }
    ensures refused { OnErr result (segment arena.new ≡ segment arena.old) }
    ensures cause { IfErr result (λ e. IsSetRefusal
        (copy_given field.entry (Left (struct_levels source.now)) (struct_of source.now)) e.kind) }
{
    copy_pointer(arena, place, field, source.get_pointer_field(index))
}

/// Copies a slot of the data section out of a struct.
fn copy_number(arena: &mut Arena, place: StructPlace, field: Field<'_>, source: &StructReader<'_>)
    requires planted { IsBuilt arena.old place }
    requires slot { IsSlot field }
    requires number { is_pointer (typed_of field).type ≡ false }
    requires room { IsRoomFor field (built_at arena.old place) }
    ensures frame { LeavesStruct place arena.old arena.new }
    ensures written { IsCopiedFrom field.entry (struct_levels source.now) (struct_of source.now)
        (built_at arena.old place) (built_at arena.new place) }
{
    copy_bits(arena, place, slot_plan(field), source);
}

/// Whether a type's values stand behind a pointer.
pub fn is_behind(variant: TypeVariant) -> bool
    ensures { result ≡ is_pointer (seen_variant variant) }
{
    match variant {
        TypeVariant::Text => true,
        TypeVariant::Data => true,
        TypeVariant::Struct(_) => true,
        TypeVariant::List(_) => true,
        TypeVariant::AnyPointer => true,
        _ => false,
    }
}

/// Copies a slot out of a struct of the field's schema, whether the field is active there or not. What stands there is
/// copied as it is stored, a null pointer as its default. Then a member becomes active.
///
/// Refused, in this order: for an untyped slot with `CannotSetAnyPointerFieldToAPrimitiveValue`, even where it is null;
/// as the read of the source's pointer under the slot's type; with `BadPointer`, `TooDeep` or `CapabilityPointer` where
/// a pointer in what it leads to can't be followed, by the first of these in preorder; and with `OutOfMemory`. Then
/// nothing has changed.
///
/// # Conditions
///
/// The field is a slot (`IsSlot`). A struct of this message stands at the place (`IsBuilt`), with at least the sections
/// of the field's schema (`IsRoomFor`).
pub fn copy(
    arena: &mut Arena,
    place: StructPlace,
    field: Field<'_>,
    source: StructReader<'_>,
) -> Result<()>
    requires planted { IsBuilt arena.old place }
    requires slot { IsSlot field }
    requires room { IsRoomFor field (built_at arena.old place) }
    ensures frame { OnOk result (LeavesStruct place arena.old arena.new) }
    ensures copied { OnOk result (IsCopiedFrom field.entry (struct_levels source.entry) (struct_of source.entry)
        (built_at arena.old place)
        (built_at arena.new place)) }
    ensures refused { OnErr result (segment arena.new ≡ segment arena.old) }
    ensures cause { IfErr result (λ e. IsSetRefusal
        (copy_given field.entry (Left (struct_levels source.entry)) (struct_of source.entry)) e.kind) }
{
    if is_behind(variant_of(field)) {
        let (index, _) = pointer_slot(field);
        copy_behind(arena, place, field, &source, index)
    } else {
        copy_number(arena, place, field, &source);
        Ok(())
    }
}
