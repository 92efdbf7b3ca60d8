//! Lists of values, each in a message of its own.
ghost use Rattle.std.specs.Prelude.{IfErr, IfOk, true, ◌*◌, ◌+◌, ◌≡◌, ◌≢◌, ◌≤◌, ◌⊎◌};
ghost use Rattle.capnp_device.specs.declared.error.ErrorKind.TheVariants.{OutOfMemory, SizePastFormat};
ghost use Rattle.capnp_wire.specs.Edits.{zero_list, zero_structs};
ghost use Rattle.capnp_wire.specs.Locate.{words_past_format};
ghost use Rattle.capnp_arena.specs.Message.{IsMessage, message_tree};
ghost use Rattle.capnp_schema.specs.Entries.{lists_seen};
ghost use Rattle.capnp_schema.specs.Types.{StructType, seen_type};
ghost use Rattle.capnp_records.specs.Given.{given_element};
ghost use Rattle.capnp_records.specs.Operation.{elements_past};
ghost use Rattle.capnp_records.specs.Writes.Contents.{new_list};
ghost use Rattle.capnp_slots.specs.SetValues.{source_of};
ghost use Rattle.capnp_slots.specs.Sources.{IsSetRefusal};
ghost use Rattle.capnp_edits.specs.Added.{IsOne};
ghost use Rattle.capnp_edits.specs.Changes.{least_size};
ghost use Rattle.capnp_edits.specs.Steps.Plain.{IsPlain};

use capnp_arena::arena::Arena;
use capnp_base::introspect::{RawBrandedStructSchema, Type, TypeVariant};
use capnp_dynamic_readers::dynamic_value::Reader as Value;
use capnp_schema::set::SchemaSet;
use capnp_slots::source::{Source, source_fits};
use capnp_slots::{element, size_of};
use capnp_splices::alone::list_struct;
use capnp_wire::error::{Error, Result};
use capnp_wire::size::{ElementSize, StructSize};
use std::alloc::Global;

/// A message whose root is a list of so many elements of a size, all zero, false or null.
fn new_plain(alloc: Global, size: ElementSize, count: u32) -> Result<Arena>
    requires { size ≢ ElementSize.InlineComposite }
    ensures message { IfOk result IsMessage }
    ensures made { IfOk result (λ m. message_tree m ≡ zero_list size count) }
    ensures cause { IfErr result (λ e. e.kind ≢ OutOfMemory → (e.kind ≡ SizePastFormat) × (words_past_format ≤ count)) }
{
    let mut made = Arena::new(alloc)?;
    made.init_list(0, size, count)?;
    Ok(made)
}

/// A message whose root is a list of so many structs of a size, all zero and null.
fn new_structs(alloc: Global, size: StructSize, count: u32) -> Result<Arena>
    ensures message { IfOk result IsMessage }
    ensures made { IfOk result (λ m. message_tree m ≡ zero_structs size count) }
    ensures cause { IfErr result (λ e. e.kind ≢ OutOfMemory → (e.kind ≡ SizePastFormat)
        × ((words_past_format ≤ count) ⊎ (words_past_format ≤ count * (size.data_words + size.pointers)))) }
{
    let mut made = Arena::new(alloc)?;
    made.init_struct_list(0, count, size)?;
    Ok(made)
}

/// A message whose root is a list of so many new elements of a type.
///
/// Refused with `SizePastFormat` for 2^29 elements or more, or structs that would take 2^29 words or more; and with
/// `OutOfMemory`.
pub fn new_elements(alloc: Global, schemas: &SchemaSet, element: Type, count: u32) -> Result<Arena>
    ensures message { IfOk result IsMessage }
    ensures made { IfOk result (λ m. message_tree m ≡ new_list (lists_seen schemas.now) (seen_type element) count) }
    ensures cause { IfErr result (λ e. e.kind ≢ OutOfMemory → (e.kind ≡ SizePastFormat)
        × (elements_past (lists_seen schemas.now) (seen_type element) count ≡ true)) }
{
    match element.which() {
        TypeVariant::Struct(raw) => {
            let size = size_of(schemas.struct_schema(raw.number));
            new_structs(alloc, size, count)
        }
        _ => new_plain(alloc, element.expected_element_size(), count),
    }
}

/// A message whose root is a list of one struct: a value of the struct's schema, with all that it has.
fn list_one_struct(
    alloc: Global,
    schemas: &SchemaSet,
    raw: RawBrandedStructSchema,
    value: Value<'_>,
) -> Result<Arena>
    ensures message { IfOk result IsMessage }
    ensures made { IfOk result (λ m. IsOne (lists_seen schemas.now) (StructType raw.number raw.generic)
        (source_of value.entry) (message_tree m)) }
    ensures cause { IfErr result (λ e. e.kind ≢ OutOfMemory → IsSetRefusal
        (given_element (lists_seen schemas.now) (StructType raw.number raw.generic) (source_of value.entry)) e.kind) }
{
    let Value::Struct(reader) = value else {
        return Err(Error::type_mismatch());
    };
    if RawBrandedStructSchema::from(reader.get_schema()).number != raw.number {
        return Err(Error::type_mismatch());
    }
    let least = size_of(schemas.struct_schema(raw.number));
    list_struct(alloc, &reader.get_sections(), least)
}

/// A message whose root is a list of one element that is no struct.
fn list_one_other(
    alloc: Global,
    schemas: &SchemaSet,
    element: Type,
    value: Value<'_>,
) -> Result<Arena>
    requires { IsPlain (seen_type element) }
    ensures message { IfOk result IsMessage }
    ensures made { IfOk result (λ m. IsOne (lists_seen schemas.now) (seen_type element)
        (source_of value.entry) (message_tree m)) }
    ensures cause { IfErr result (λ e. e.kind ≢ OutOfMemory → IsSetRefusal
        (given_element (lists_seen schemas.now) (seen_type element) (source_of value.entry)) e.kind) }
{
    let mut made = new_elements(alloc, schemas, element, 1)?;
    let source = Source::from(value);
    source_fits(source);
    element::set(&mut made, 0, schemas, element, 0, source)?;
    Ok(made)
}

/// A message whose root is a list of one element, a copy of a value, as a set of an element takes it: of a struct
/// everything, whatever the sizes of the schema.
///
/// Refused as a set of an element: with `ListAnyPointerNotSupported` for an untyped element, and with `TypeMismatch` for a
/// value of another type; then with `BadPointer`, `TooDeep` or `CapabilityPointer` where a pointer in the value can't be
/// followed, by the first of these in preorder; with `SizePastFormat` for a text of more than 2^29 - 2 bytes or data of
/// more than 2^29 - 1; and with `OutOfMemory`.
pub fn list_one(
    alloc: Global,
    schemas: &SchemaSet,
    element: Type,
    value: Value<'_>,
) -> Result<Arena>
    ensures message { IfOk result IsMessage }
    ensures made { IfOk result (λ m. IsOne (lists_seen schemas.now) (seen_type element)
        (source_of value.entry) (message_tree m)) }
    ensures cause { IfErr result (λ e. e.kind ≢ OutOfMemory → IsSetRefusal
        (given_element (lists_seen schemas.now) (seen_type element) (source_of value.entry)) e.kind) }
{
    match element.which() {
        TypeVariant::Struct(raw) => list_one_struct(alloc, schemas, raw, value),
        _ => list_one_other(alloc, schemas, element, value),
    }
}

/// The least sections of structs of a type; none of what is no struct.
pub fn find_size(schemas: &SchemaSet, element: Type) -> StructSize
    ensures { result ≡ least_size (lists_seen schemas.now) (seen_type element) }
{
    match element.which() {
        TypeVariant::Struct(raw) => size_of(schemas.struct_schema(raw.number)),
        _ => StructSize {
            data_words: 0,
            pointers: 0,
        },
    }
}
