//! Types, as their records say them.
ghost use Rattle.std.specs.Prelude.{◌≡◌, ◌≢◌, Ok, IfErr, IfOk, map};
ghost use Rattle.capnp_device.specs.declared.error.ErrorKind.TheVariants.{OutOfMemory};
ghost use Rattle.capnp_base.specs.Types.{list_depth};
ghost use Rattle.capnp_schema.specs.Builtin.{zero_word};
ghost use Rattle.capnp_schema.specs.Meta.{meta_structs, meta};
ghost use Rattle.capnp_schema.specs.Schema.{ListValue, VoidValue};
ghost use Rattle.capnp_schema.specs.Types.{ListType, SchemaType, StructType, lists_of, seen_type};
ghost use Rattle.capnp_dynamic_readers.specs.Reads.{pointer_read};
ghost use Rattle.capnp_sets.specs.Causes.{HasCause, ◌<*>◌};
ghost use Rattle.capnp_sets.specs.Steps.Handles.{IsMetaFieldActive, IsMetaSlot, list_in, meta_record_in, values_in};
ghost use Rattle.capnp_sets.specs.Parts.{meta_read_at};
ghost use Rattle.capnp_sets.specs.Types.{base_type_meant, generic_in, type_lists, type_meant, types};

use crate::parts::{BRAND, MetaSet, TYPE};
use crate::rows::{Context, FromRecord, MOST_ROOM, all_read};
use capnp_base::introspect::{RawBrandedStructSchema, RawEnumSchema, Type, TypeVariant};
use capnp_known::numbers::{u16_at, u32_at};
use capnp_known::pointers::{is_no_list, list_at};
use capnp_wire::error::{Error, ErrorKind, Result};
use capnp_wire::size::ElementSize;
use capnp_wire::{ListReader, PointerReader, StructReader};

/// The node of a brand, 0 past the last brand.
fn generic_of(brands: &ListReader<'_>, number: u32) -> Result<u32>
    ensures read { IfOk result (λ node. generic_in (values_in brands.now) number ≡ Ok node) }
    ensures refused { IfErr result (λ e. HasCause (generic_in (values_in brands.now) number) e.kind) }
{
    if number >= brands.len() {
        return Ok(0);
    }
    let record = brands.get_struct_element(number)?;
    Ok(u32_at::<MetaSet>(&record, BRAND, 0, 0))
}

/// The type of the structs of a brand.
fn struct_type(brands: &ListReader<'_>, number: u32) -> Result<Type>
    ensures read { IfOk result (λ t. Ok (StructType number) <*> generic_in (values_in brands.now) number
        ≡ Ok (seen_type t)) }
    ensures bare { IfOk result (λ t. list_depth t ≡ 0) }
    ensures refused { IfErr result (λ e. HasCause
        (Ok (StructType number) <*> generic_in (values_in brands.now) number) e.kind) }
{
    let generic = generic_of(brands, number)?;
    Ok(Type::from(TypeVariant::Struct(RawBrandedStructSchema { number, generic })))
}

/// The type of a base, which is no list.
#[inline(always)]
#[tactic(auto, unfolding(crate::specs::Types::base_type_meant))]
fn base_type(brands: &ListReader<'_>, base: u16, number: u32) -> Result<Type>
    ensures read { IfOk result (λ t. base_type_meant (values_in brands.now) base number ≡ Ok (seen_type t)) }
    ensures bare { IfOk result (λ t. list_depth t ≡ 0) }
    ensures refused { IfErr result (λ e. HasCause (base_type_meant (values_in brands.now) base number) e.kind) }
{
    if base > 18 {
        return Err(Error {
            kind: ErrorKind::UnknownKind,
        });
    }
    match base {
        0 => Ok(Type::from(TypeVariant::Void)),
        1 => Ok(Type::from(TypeVariant::Bool)),
        2 => Ok(Type::from(TypeVariant::Int8)),
        3 => Ok(Type::from(TypeVariant::Int16)),
        4 => Ok(Type::from(TypeVariant::Int32)),
        5 => Ok(Type::from(TypeVariant::Int64)),
        6 => Ok(Type::from(TypeVariant::UInt8)),
        7 => Ok(Type::from(TypeVariant::UInt16)),
        8 => Ok(Type::from(TypeVariant::UInt32)),
        9 => Ok(Type::from(TypeVariant::UInt64)),
        10 => Err(Error {
            kind: ErrorKind::FloatType,
        }),
        11 => Err(Error {
            kind: ErrorKind::FloatType,
        }),
        12 => Ok(Type::from(TypeVariant::Text)),
        13 => Ok(Type::from(TypeVariant::Data)),
        14 => Err(Error {
            kind: ErrorKind::UnknownKind,
        }),
        15 => Ok(Type::from(TypeVariant::Enum(RawEnumSchema { number }))),
        16 => struct_type(brands, number),
        17 => Err(Error {
            kind: ErrorKind::InterfaceType,
        }),
        18 => Ok(Type::from(TypeVariant::AnyPointer)),
        _ => unreachable!(),
    }
}

/// A type that is no list, with so many lists around it.
#[inline(always)]
fn lists_around(inner: Type, count: u16) -> Type
    requires { list_depth inner ≡ 0 }
    ensures { seen_type result ≡ lists_of count (seen_type inner) }
{
    let mut outer = inner;
    for _ in 0..count {
        outer = Type::list_of(outer);
    }
    outer
}

/// The type of a record of a type.
#[inline(always)]
#[tactic(auto, unfolding(crate::specs::Types::type_meant))]
fn read_type(brands: &ListReader<'_>, reader: &StructReader<'_>) -> Result<Type>
    ensures read { IfOk result (λ t. type_meant (values_in brands.now) (meta_record_in 7 reader.now) ≡ Ok (seen_type t)) }
    ensures refused { IfErr result (λ e. HasCause (type_meant (values_in brands.now) (meta_record_in 7 reader.now)) e.kind) }
{
    let list_count = u16_at::<MetaSet>(reader, TYPE, 1, 1, 0);
    let base = u16_at::<MetaSet>(reader, TYPE, 0, 0, 0);
    let number = u32_at::<MetaSet>(reader, TYPE, 2, 1);
    let inner = base_type(brands, base, number)?;
    Ok(lists_around(inner, list_count))
}

impl FromRecord for Type {
    ghost Seen = { SchemaType };

    ghost seen = { seen_type };

    ghost brand = { 7 };

    ghost of_record = { λ brands r. type_meant brands r };

    #[inline(always)]
    fn from_record(context: &Context<'_>, reader: &StructReader<'_>) -> Result<Type> {
        read_type(&context.brands, reader)
    }
}

/// The types of the list behind a pointer.
#[inline(always)]
fn types_behind(context: &Context<'_>, pointer: &PointerReader<'_>) -> Result<Vec<Type>>
    ensures read { IfOk result (λ v. types (values_in context.now.brands)
        (pointer_read meta VoidValue (meta_structs 7) pointer.now) ≡ Ok (map seen_type v.items)) }
    ensures refused { IfErr result (λ e. e.kind ≢ OutOfMemory
        → HasCause (types (values_in context.now.brands) (pointer_read meta VoidValue (meta_structs 7) pointer.now)) e.kind) }
{
    if is_no_list(pointer) {
        return Ok(Vec::new(context.alloc));
    }
    let elements = pointer.get_list(ElementSize::InlineComposite)?;
    all_read::<Type>(context, &elements)
}

/// The types of each list of types: those of the annotations of fields or enumerants.
fn type_lists(context: &Context<'_>, elements: &ListReader<'_>) -> Result<Vec<Vec<Type>>>
    ensures read { IfOk result (λ v. type_lists (values_in context.now.brands) (list_in (meta_structs 7) elements.now)
        ≡ Ok (map (λ types. map seen_type types.items) v.items)) }
    ensures refused { IfErr result (λ e. e.kind ≢ OutOfMemory
        → HasCause (type_lists (values_in context.now.brands) (list_in (meta_structs 7) elements.now)) e.kind) }
{
    let count = elements.len();
    let mut out = Vec::with_capacity(context.alloc, count.min(MOST_ROOM) as usize)?;
    for index in 0..count {
        let pointer = elements.get_pointer_element(index);
        let made = types_behind(context, &pointer)?;
        out.push(made)?;
    }
    Ok(out)
}

/// The types of each list of types in the list that a field has.
#[inline(always)]
pub(crate) fn type_lists_at(
    context: &Context<'_>,
    reader: &StructReader<'_>,
    brand: u32,
    index: u16,
    place: u16,
) -> Result<Vec<Vec<Type>>>
    requires field { IsMetaSlot brand index (ListType (meta_structs 7)) place (ListValue zero_word) }
    requires active { IsMetaFieldActive brand index reader.now }
    ensures read { IfOk result (λ v. type_lists (values_in context.now.brands)
        (meta_read_at brand index (meta_record_in brand reader.now)) ≡ Ok (map (λ types. map seen_type types.items) v.items)) }
    ensures refused { IfErr result (λ e. e.kind ≢ OutOfMemory
        → HasCause (type_lists (values_in context.now.brands)
        (meta_read_at brand index (meta_record_in brand reader.now))) e.kind) }
{
    let elements = list_at::<MetaSet>(reader, brand, index, place, ElementSize::Pointer)?;
    type_lists(context, &elements)
}
