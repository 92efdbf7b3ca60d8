//! Elements of a list that is built.
ghost use Rattle.std.specs.Prelude.{None, true, ◌≡◌, ◌<◌, ◌^◌, IfErr, IfOk, IsOk, OnErr, OnOk, length};
ghost use Rattle.capnp_arena.specs.Frame.{LeavesPointer};
ghost use Rattle.capnp_arena.specs.Forest.{Forest, tree};
ghost use Rattle.capnp_arena.specs.Segment.{segment};
ghost use Rattle.capnp_wire.specs.WellFormed.{IsWellFormed};
ghost use Rattle.capnp_wire.specs.Edits.{IsCopyRefusal, IsDueRefusal, fitted_struct};
ghost use Rattle.capnp_wire.specs.Elements.{HasPointer, HasStruct, with_pointer_element, with_struct_element};
ghost use Rattle.capnp_wire.specs.Reading.{element_pointer, element_struct};
ghost use Rattle.capnp_wire.specs.Standing.{struct_levels, struct_of};
ghost use Rattle.capnp_wire.specs.Tree.{tree_count};
ghost use Rattle.capnp_wire.specs.Words.{first_fault, first_fault_of_all};
ghost use Rattle.capnp_schema.specs.Entries.{lists_seen};
ghost use Rattle.capnp_schema.specs.Schema.{VoidValue};
ghost use Rattle.capnp_schema.specs.Types.{ListType, seen_type, width, seen_variant};
ghost use Rattle.capnp_records.specs.Call.{StructSource};
ghost use Rattle.capnp_records.specs.Record.{Left};
ghost use Rattle.capnp_schema.specs.StructHandles.{number_of};
ghost use Rattle.capnp_records.specs.Given.{Fails, given_element, given_slot};
ghost use Rattle.capnp_records.specs.Writes.ElementEnds.{HasElementThere, InitnContent, element_written, with_element_number};
ghost use Rattle.capnp_slots.specs.ElementSets.{IsElementInitRefusal, IsElementSet};
ghost use Rattle.capnp_slots.specs.Steps.ElementSets.{IsBlobOrList, NoStruct, TakesInto};
ghost use Rattle.capnp_slots.specs.Fills.{ElementRests, element_due, element_filled, fill_due, is_behind};
ghost use Rattle.capnp_slots.specs.Primitives.{primitive_source};
ghost use Rattle.capnp_slots.specs.Steps.Primitives.{IsGivenAs};
ghost use Rattle.capnp_slots.specs.Sources.{IsPointed, IsSetRefusal, source_seen};
ghost use Rattle.capnp_slots.specs.Steps.Sources.{IsCopyDue, IsSoundCopy};
ghost use Rattle.capnp_records.specs.Writes.Contents.{initn_tree, source_tree};
ghost use Rattle.capnp_records.specs.Writes.Fill.{IsAtRest, entered_list};
ghost use Rattle.capnp_records.specs.Writes.Slots.{At};
ghost use Rattle.capnp_slots.specs.Inits.{IsInitnRefusal};
ghost use Rattle.capnp_slots.specs.Steps.Inits.{is_sized};

use crate::copies::copies_source;
use crate::fill_element::{check_blob, check_list, extend_structs};
use crate::make::{make_sized, size_of};
use crate::primitive::{Primitive, number_fits, number_given};
use crate::setter::SetterInput;
use crate::source::{ListInput, Source};
use capnp_arena::arena::Arena;
use capnp_arena::handles::PointerBuilder;
use capnp_base::introspect::{RawBrandedStructSchema, Type, TypeVariant};
use capnp_base::{any_pointer, data, text};
use capnp_schema::schema::StructSchema;
use capnp_schema::set::SchemaSet;
use capnp_wire::StructReader;
use capnp_wire::error::{Error, ErrorKind, Result};

/// Stores a number in an element of a type.
fn store_element(arena: &mut Arena, at: usize, variant: TypeVariant, index: u32, number: u64)
    requires forest { Forest (segment arena.old) at }
    requires room { HasElementThere (seen_variant variant) (tree (segment arena.old) at) index }
    requires fits { number < 2 ^ width (seen_variant variant) }
    ensures frame { LeavesPointer at arena.old arena.new }
    ensures written { tree (segment arena.new) at
        ≡ with_element_number (seen_variant variant) (tree (segment arena.old) at) index number }
{
    match variant {
        TypeVariant::Bool => arena.set_bool_element(at, index, number == 1),
        TypeVariant::Int8 | TypeVariant::UInt8 => {
            arena.set_data_element::<u8>(at, index, number as u8)
        }
        TypeVariant::Int16 | TypeVariant::UInt16 | TypeVariant::Enum(_) => {
            arena.set_data_element::<u16>(at, index, number as u16)
        }
        TypeVariant::Int32 | TypeVariant::UInt32 => {
            arena.set_data_element::<u32>(at, index, number as u32)
        }
        TypeVariant::Int64 | TypeVariant::UInt64 => arena.set_data_element::<u64>(
            at, index, number,
        ),
        _ => {}
    }
}

/// The number that an element of a type stores for a value.
///
/// Refused with `ListAnyPointerNotSupported` for an untyped element, and with `TypeMismatch` where the element is of
/// another kind than the value.
fn number_in(schemas: &SchemaSet, element: Type, value: Primitive) -> Result<u64>
    ensures number { IfOk result (IsGivenAs (lists_seen schemas.now) (seen_type element) (primitive_source value)) }
    ensures given { OnOk result (given_element (lists_seen schemas.now) (seen_type element) (primitive_source value)
        ≡ given_slot (lists_seen schemas.now) (seen_type element) (primitive_source value)) }
    ensures refused { IfErr result (λ e. given_element (lists_seen schemas.now) (seen_type element)
        (primitive_source value) ≡ Fails e.kind) }
{
    number_fits(value);
    match element.which() {
        TypeVariant::AnyPointer => Err(Error::from(ErrorKind::ListAnyPointerNotSupported)),
        variant => number_given(variant, value),
    }
}

/// Sets an element to a value that no pointer stands for. An element of type Void takes every value, and an enum's the
/// number alone. No memory is taken.
///
/// Refused with `ListAnyPointerNotSupported` for an untyped element, and with `TypeMismatch` where the element is of
/// another kind than the value; then nothing has changed.
///
/// # Conditions
///
/// The pointer at the word `at` leads to a tree of this message, no two of whose parts share a word (`Forest`). That
/// has an element of the type at `index`, unless this is Void (`HasElementThere`).
pub fn set_primitive(
    arena: &mut Arena,
    at: usize,
    schemas: &SchemaSet,
    element: Type,
    index: u32,
    value: Primitive,
) -> Result<()>
    requires forest { Forest (segment arena.old) at }
    requires room { HasElementThere (seen_type element) (tree (segment arena.old) at) index }
    ensures frame { OnOk result (LeavesPointer at arena.old arena.new) }
    ensures set { OnOk result (IsElementSet (lists_seen schemas.now) (seen_type element) (primitive_source value) index
        (tree (segment arena.old) at)
        (tree (segment arena.new) at)) }
    ensures refused { OnErr result (segment arena.new ≡ segment arena.old) }
    ensures cause { IfErr result (λ e. given_element (lists_seen schemas.now) (seen_type element) (primitive_source value)
        ≡ Fails e.kind) }
{
    let number = number_in(schemas, element, value)?;
    store_element(arena, at, element.which(), index, number);
    Ok(())
}

/// Sets the pointer of an element.
fn set_at<R, S: SetterInput<R>>(arena: &mut Arena, at: usize, index: u32, input: S) -> Result<()>
    requires forest { Forest (segment arena.old) at }
    requires room { HasPointer (tree (segment arena.old) at) index }
    ensures frame { OnOk result (LeavesPointer at arena.old arena.new) }
    ensures written { OnOk result (tree (segment arena.new) at
        ≡ with_pointer_element index (S.set_tree input) (tree (segment arena.old) at)) }
    ensures sound { OnOk result ((first_fault (S.set_tree input) ≡ None) × IsWellFormed (S.set_tree input)) }
    ensures refused { OnErr result (segment arena.new ≡ segment arena.old) }
    ensures cause { IfErr result (S.set_refusal input) }
{
    let pointer = arena.get_pointer_element(at, index);
    let builder = PointerBuilder { arena, at: pointer };
    S::set_pointer_builder(builder, input, false)?;
    Ok(())
}

/// Copies what fits of a struct into an element of a list of structs; the rest of the element is zero and null.
fn copy_at(arena: &mut Arena, at: usize, index: u32, source: &StructReader<'_>) -> Result<()>
    requires forest { Forest (segment arena.old) at }
    requires room { HasStruct (tree (segment arena.old) at) index }
    ensures frame { OnOk result (LeavesPointer at arena.old arena.new) }
    ensures written { OnOk result (tree (segment arena.new) at
        ≡ with_struct_element index (fitted_struct (length (element_struct (tree (segment arena.old) at) index).bytes)
        (tree_count (element_struct (tree (segment arena.old) at) index).pointers) (struct_of source.now))
        (tree (segment arena.old) at)) }
    ensures sound { OnOk result (first_fault_of_all (struct_of source.now).pointers ≡ None) }
    ensures refused { OnErr result (segment arena.new ≡ segment arena.old) }
    ensures cause { IfErr result (λ e. IsCopyRefusal e (first_fault_of_all (struct_of source.now).pointers)) }
{
    let place = arena.get_struct_at(at, index);
    arena.copy_content_from(place, source)?;
    Ok(())
}

/// Sets the pointer of an element to a copy of a text, data or list.
fn set_copied(arena: &mut Arena, at: usize, index: u32, source: Source<'_>) -> Result<()>
    requires forest { Forest (segment arena.old) at }
    requires pointer { HasPointer (tree (segment arena.old) at) index }
    requires copy { IsBlobOrList (source_seen source) }
    ensures frame { OnOk result (LeavesPointer at arena.old arena.new) }
    ensures written { OnOk result (tree (segment arena.new) at
        ≡ with_pointer_element index (source_tree (source_seen source.entry)) (tree (segment arena.old) at)) }
    ensures sound { OnOk result (IsSoundCopy (source_seen source.entry)) }
    ensures refused { OnErr result (segment arena.new ≡ segment arena.old) }
    ensures cause { IfErr result (λ e. IsCopyDue (source_seen source.entry) e.kind) }
{
    match source {
        Source::Primitive(_) => unreachable!(),
        Source::Text(text) => set_at::<text::Owned, text::Reader<'_>>(arena, at, index, text),
        Source::Data(bytes) => set_at::<data::Owned, data::Reader<'_>>(arena, at, index, bytes),
        Source::Struct(_, _) => unreachable!(),
        Source::List(reader, _) => set_at::<any_pointer::Owned, ListInput<'_>>(
            arena,
            at,
            index,
            ListInput(reader),
        ),
        Source::AnyPointer(_) => unreachable!(),
    }
}

/// Sets an element to a text, data, a list or an untyped pointer.
fn set_pointed(
    arena: &mut Arena,
    at: usize,
    schemas: &SchemaSet,
    element: Type,
    index: u32,
    source: Source<'_>,
) -> Result<()>
    requires forest { Forest (segment arena.old) at }
    requires room { HasElementThere (seen_type element) (tree (segment arena.old) at) index }
    requires pointed { IsPointed (source_seen source) }
    requires no_struct { NoStruct (source_seen source) }
    ensures frame { OnOk result (LeavesPointer at arena.old arena.new) }
    ensures set { OnOk result (IsElementSet (lists_seen schemas.now) (seen_type element) (source_seen source.entry) index
        (tree (segment arena.old) at)
        (tree (segment arena.new) at)) }
    ensures refused { OnErr result (segment arena.new ≡ segment arena.old) }
    ensures cause { IfErr result (λ e. IsSetRefusal
        (given_element (lists_seen schemas.now) (seen_type element) (source_seen source.entry)) e.kind) }
{
    match copies_into(schemas, element, source) {
        Err(error) => Err(error),
        Ok(true) => set_copied(arena, at, index, source),
        Ok(false) => set_primitive(arena, at, schemas, element, index, Primitive::Void),
    }
}

/// Whether an element of a type takes a copy of a text, data, a list or an untyped pointer; a void one takes nothing of
/// it.
fn copies_into(schemas: &SchemaSet, element: Type, source: Source<'_>) -> Result<bool>
    requires pointed { IsPointed (source_seen source) }
    requires no_struct { NoStruct (source_seen source) }
    ensures takes { IfOk result (TakesInto (lists_seen schemas.now) (seen_type element) (source_seen source.entry)) }
    ensures refused { IfErr result (λ e. given_element (lists_seen schemas.now) (seen_type element)
        (source_seen source.entry) ≡ Fails e.kind) }
{
    match element.which() {
        TypeVariant::AnyPointer => Err(Error::from(ErrorKind::ListAnyPointerNotSupported)),
        variant => copies_source(variant, source),
    }
}

/// Sets an element to a struct: of the element's own schema, of which it keeps what fits its size.
fn set_struct(
    arena: &mut Arena,
    at: usize,
    schemas: &SchemaSet,
    element: Type,
    index: u32,
    reader: StructReader<'_>,
    schema: StructSchema<'_>,
) -> Result<()>
    requires forest { Forest (segment arena.old) at }
    requires room { HasElementThere (seen_type element) (tree (segment arena.old) at) index }
    ensures frame { OnOk result (LeavesPointer at arena.old arena.new) }
    ensures set { OnOk result (IsElementSet (lists_seen schemas.now) (seen_type element)
        (StructSource (Left (struct_levels reader.entry)) (struct_of reader.entry) (number_of schema.entry)) index
        (tree (segment arena.old) at)
        (tree (segment arena.new) at)) }
    ensures refused { OnErr result (segment arena.new ≡ segment arena.old) }
    ensures cause { IfErr result (λ e. IsSetRefusal (given_element (lists_seen schemas.now) (seen_type element)
        (StructSource (Left (struct_levels reader.entry)) (struct_of reader.entry) (number_of schema.entry))) e.kind) }
{
    match element.which() {
        TypeVariant::Void => set_primitive(arena, at, schemas, element, index, Primitive::Void),
        TypeVariant::AnyPointer => Err(Error::from(ErrorKind::ListAnyPointerNotSupported)),
        TypeVariant::Struct(raw) => {
            if RawBrandedStructSchema::from(schema).number != raw.number {
                return Err(Error::type_mismatch());
            }
            copy_at(arena, at, index, &reader)
        }
        _ => Err(Error::type_mismatch()),
    }
}

/// Sets an element. A void element takes every source. Else it takes a value, text, data or list of its kind, of which
/// a copy is made, and a struct of its own schema, of which the element keeps what fits its size, with zeros and nulls
/// after that.
///
/// Refused with `ListAnyPointerNotSupported` for an untyped element, and with `TypeMismatch` for a source of another
/// kind and a struct of another schema; then with `BadPointer`, `TooDeep` or `CapabilityPointer` where a pointer in the
/// source can't be followed, by the first of these in preorder, also where it would not fit; with `SizePastFormat` for
/// a text of more than 2^29 - 2 bytes or data of more than 2^29 - 1; and with `OutOfMemory`. Then nothing has changed.
///
/// # Conditions
///
/// The pointer at the word `at` leads to a tree of this message, no two of whose parts share a word (`Forest`). That
/// has an element of the type at `index`, unless this is Void (`HasElementThere`).
pub fn set(
    arena: &mut Arena,
    at: usize,
    schemas: &SchemaSet,
    element: Type,
    index: u32,
    source: Source<'_>,
) -> Result<()>
    requires forest { Forest (segment arena.old) at }
    requires room { HasElementThere (seen_type element) (tree (segment arena.old) at) index }
    ensures frame { OnOk result (LeavesPointer at arena.old arena.new) }
    ensures set { OnOk result (IsElementSet (lists_seen schemas.now) (seen_type element) (source_seen source.entry) index
        (tree (segment arena.old) at)
        (tree (segment arena.new) at)) }
    ensures refused { OnErr result (segment arena.new ≡ segment arena.old) }
    ensures cause { IfErr result (λ e. IsSetRefusal
        (given_element (lists_seen schemas.now) (seen_type element) (source_seen source.entry)) e.kind) }
{
    match source {
        Source::Primitive(value) => set_primitive(arena, at, schemas, element, index, value),
        Source::Struct(reader, schema) => set_struct(
            arena, at, schemas, element, index, reader, schema,
        ),
        Source::Text(_) | Source::Data(_) | Source::List(_, _) | Source::AnyPointer(_) => {
            set_pointed(arena, at, schemas, element, index, source)
        }
    }
}

/// Makes the pointer of an element lead to a new text, data or list of a type, with so many bytes or elements.
fn init_at(
    arena: &mut Arena,
    at: usize,
    schemas: &SchemaSet,
    variant: TypeVariant,
    index: u32,
    count: u32,
) -> Result<()>
    requires forest { Forest (segment arena.old) at }
    requires inside { HasPointer (tree (segment arena.old) at) index }
    requires is_sized { is_sized (seen_variant variant) ≡ true }
    ensures frame { OnOk result (LeavesPointer at arena.old arena.new) }
    ensures written { OnOk result (tree (segment arena.new) at
        ≡ with_pointer_element index (initn_tree (lists_seen schemas.now) (seen_variant variant) count)
        (tree (segment arena.old) at)) }
    ensures within { OnOk result (InitnContent (lists_seen schemas.now) count (seen_variant variant)
        (At (initn_tree (lists_seen schemas.now) (seen_variant variant) count))) }
    ensures refused { OnErr result (segment arena.new ≡ segment arena.old) }
    ensures cause { IfErr result (λ e. IsInitnRefusal (lists_seen schemas.now) count (seen_variant variant) e.kind) }
{
    let pointer = arena.get_pointer_element(at, index);
    make_sized(arena, pointer, schemas, variant, count)?;
    Ok(())
}

/// Initializes an element with a size: it becomes a text or data of so many zero bytes, or a list of so many elements,
/// all zero, false or null, or structs of their schema's sections.
///
/// Refused with `ListAnyPointerNotSupported` for an untyped element and `ExpectedAListOrBlob` for another one that is
/// no list, text or data; with `SizePastFormat` for a text of more than 2^29 - 2 bytes, data of more than 2^29 - 1,
/// 2^29 elements or more, or structs that take 2^29 words or more; and with `OutOfMemory`. Then nothing has changed.
///
/// # Conditions
///
/// The pointer at the word `at` leads to a tree of this message, no two of whose parts share a word (`Forest`). That
/// has an element of the type at `index`, unless this is Void (`HasElementThere`).
pub fn init(
    arena: &mut Arena,
    at: usize,
    schemas: &SchemaSet,
    element: Type,
    index: u32,
    count: u32,
) -> Result<()>
    requires forest { Forest (segment arena.old) at }
    requires room { HasElementThere (seen_type element) (tree (segment arena.old) at) index }
    ensures frame { OnOk result (LeavesPointer at arena.old arena.new) }
    ensures written { OnOk result (tree (segment arena.new) at
        ≡ element_written (seen_type element) (tree (segment arena.old) at) index
        (At (initn_tree (lists_seen schemas.now) (seen_type element) count))) }
    ensures has { OnOk result (InitnContent (lists_seen schemas.now) count (seen_type element)
        (At (initn_tree (lists_seen schemas.now) (seen_type element) count))) }
    ensures refused { OnErr result (segment arena.new ≡ segment arena.old) }
    ensures cause { IfErr result (λ e. IsElementInitRefusal (lists_seen schemas.now) count (seen_type element) e.kind) }
{
    let variant = element.which();
    match variant {
        TypeVariant::Text => init_at(arena, at, schemas, variant, index, count),
        TypeVariant::Data => init_at(arena, at, schemas, variant, index, count),
        TypeVariant::List(_) => init_at(arena, at, schemas, variant, index, count),
        TypeVariant::AnyPointer => Err(Error::from(ErrorKind::ListAnyPointerNotSupported)),
        _ => Err(Error::from(ErrorKind::ExpectedAListOrBlob)),
    }
}

/// Fills what stands behind the pointer of an element, as a builder's `get` does: of a list of structs, these get at
/// least their schema's sections, with zeros and nulls after what they have. A null, a text, data, another list and an
/// untyped pointer stay as they are.
///
/// Refused with `WrongPointerKind`, `WrongElementSize` or `TextNotTerminated` where what stands there is not read as
/// the element's type, with `SizePastFormat` where the structs of a list would take 2^29 words or more, and else with
/// `OutOfMemory`; then nothing has changed. Where nothing has to be extended no memory is taken.
///
/// # Conditions
///
/// The pointer at the word `at` leads to a tree of this message, no two of whose parts share a word (`Forest`). That is
/// a list with a pointer at `index` (`HasPointer`). An element of the type stands behind a pointer of its own
/// (`is_behind`).
pub fn fill(
    arena: &mut Arena,
    at: usize,
    schemas: &SchemaSet,
    element: Type,
    index: u32,
) -> Result<()>
    requires forest { Forest (segment arena.old) at }
    requires behind { is_behind (seen_type element) ≡ true }
    requires pointer { HasPointer (tree (segment arena.old) at) index }
    ensures frame { OnOk result (LeavesPointer at arena.old arena.new) }
    ensures filled { OnOk result (tree (segment arena.new) at
        ≡ with_pointer_element index (element_filled (lists_seen schemas.now) (seen_type element)
        (element_pointer (tree (segment arena.old) at) index 1))
        (tree (segment arena.old) at)) }
    ensures within { OnOk result (element_due (lists_seen schemas.now) (seen_type element)
        (element_pointer (tree (segment arena.old) at) index 1) ≡ None) }
    ensures refused { OnErr result (segment arena.new ≡ segment arena.old) }
    ensures cause { IfErr result (λ e. IsDueRefusal e (element_due (lists_seen schemas.now) (seen_type element)
        (element_pointer (tree (segment arena.old) at) index 1))) }
    ensures rests { ElementRests (lists_seen schemas.now) (seen_type element)
        (element_pointer (tree (segment arena.old) at) index 1) → IsOk result }
{
    fill_at(arena, at, schemas, element.which(), index)
}

/// Fills what stands behind the pointer of an element of a type.
fn fill_at(
    arena: &mut Arena,
    at: usize,
    schemas: &SchemaSet,
    variant: TypeVariant,
    index: u32,
) -> Result<()>
    requires forest { Forest (segment arena.old) at }
    requires behind { is_behind (seen_variant variant) ≡ true }
    requires pointer { HasPointer (tree (segment arena.old) at) index }
    ensures frame { OnOk result (LeavesPointer at arena.old arena.new) }
    ensures filled { OnOk result (tree (segment arena.new) at
        ≡ with_pointer_element index (element_filled (lists_seen schemas.now) (seen_variant variant)
        (element_pointer (tree (segment arena.old) at) index 1))
        (tree (segment arena.old) at)) }
    ensures within { OnOk result (element_due (lists_seen schemas.now) (seen_variant variant)
        (element_pointer (tree (segment arena.old) at) index 1) ≡ None) }
    ensures refused { OnErr result (segment arena.new ≡ segment arena.old) }
    ensures cause { IfErr result (λ e. IsDueRefusal e (element_due (lists_seen schemas.now) (seen_variant variant)
        (element_pointer (tree (segment arena.old) at) index 1))) }
    ensures rests { ElementRests (lists_seen schemas.now) (seen_variant variant)
        (element_pointer (tree (segment arena.old) at) index 1) → IsOk result }
{
    let pointer = arena.get_pointer_element(at, index);
    fill_behind(arena, pointer, schemas, variant)?;
    Ok(())
}

/// Fills what stands behind the pointer of an element of a type: a list of structs gets structs of at least their
/// schema's sections, and everything else stays.
///
/// Refused where it is not read as the type, and as `extend_structs`; then nothing has changed.
fn fill_behind(
    arena: &mut Arena,
    at: usize,
    schemas: &SchemaSet,
    variant: TypeVariant,
) -> Result<()>
    requires forest { Forest (segment arena.old) at }
    requires behind { is_behind (seen_variant variant) ≡ true }
    ensures frame { OnOk result (LeavesPointer at arena.old arena.new) }
    ensures filled { OnOk result (tree (segment arena.new) at
        ≡ element_filled (lists_seen schemas.now) (seen_variant variant) (tree (segment arena.old) at)) }
    ensures within { OnOk result (element_due (lists_seen schemas.now) (seen_variant variant) (tree (segment arena.old) at)
        ≡ None) }
    ensures refused { OnErr result (segment arena.new ≡ segment arena.old) }
    ensures cause { IfErr result (λ e. IsDueRefusal e
        (element_due (lists_seen schemas.now) (seen_variant variant) (tree (segment arena.old) at))) }
    ensures rests { ElementRests (lists_seen schemas.now) (seen_variant variant) (tree (segment arena.old) at)
        → IsOk result }
{
    match variant {
        TypeVariant::Text => check_blob(arena, at, true),
        TypeVariant::Data => check_blob(arena, at, false),
        TypeVariant::List(element) => fill_list(arena, at, schemas, element),
        TypeVariant::AnyPointer => Ok(()),
        _ => unreachable!(),
    }
}

/// Fills the list behind a pointer that is an element, of elements of a type, as a builder's `get` does: structs get at
/// least their schema's sections, and a list of other elements becomes one of structs where these are asked. A null
/// stays null, and has no elements.
///
/// Refused with `WrongPointerKind` or `WrongElementSize` where what stands there is not read as such a list, with
/// `SizePastFormat` where the structs would take 2^29 words or more, and else with `OutOfMemory`; then nothing has
/// changed. Where no struct has to be extended no memory is taken.
///
/// # Conditions
///
/// The pointer at the word `at` leads to a tree of this message, no two of whose parts share a word (`Forest`).
pub fn fill_list(arena: &mut Arena, at: usize, schemas: &SchemaSet, element: Type) -> Result<()>
    requires forest { Forest (segment arena.old) at }
    ensures frame { OnOk result (LeavesPointer at arena.old arena.new) }
    ensures filled { OnOk result (tree (segment arena.new) at
        ≡ entered_list (lists_seen schemas.now) (seen_type element) (tree (segment arena.old) at)) }
    ensures within { OnOk result (fill_due (lists_seen schemas.now) VoidValue (ListType (seen_type element))
        (tree (segment arena.old) at) ≡ None) }
    ensures refused { OnErr result (segment arena.new ≡ segment arena.old) }
    ensures cause { IfErr result (λ e. IsDueRefusal e
        (fill_due (lists_seen schemas.now) VoidValue (ListType (seen_type element)) (tree (segment arena.old) at))) }
    ensures rests { IsAtRest (lists_seen schemas.now) VoidValue (ListType (seen_type element))
        (tree (segment arena.old) at) → IsOk result }
{
    match element.which() {
        TypeVariant::Struct(raw) => {
            let size = size_of(schemas.struct_schema(raw.number));
            extend_structs(arena, at, size)
        }
        _ => check_list(arena, at, element.expected_element_size()),
    }
}
