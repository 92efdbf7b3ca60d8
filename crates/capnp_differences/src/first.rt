//! Lists that became lists of structs: whether field 0 of a struct stands where an element stood.
ghost use Rattle.std.specs.Prelude.{◌≡◌, ◌<◌, ◌&&◌, IsTrue, length, true};
ghost use Rattle.capnp_schema.specs.Entries.{lists_seen};
ghost use Rattle.capnp_schema.specs.Schema.{ListValue, fields_of, seen_kind, seen_value};
ghost use Rattle.capnp_schema.specs.Types.{seen_type, seen_variant};
ghost use Rattle.capnp_records.specs.Compatible.{can_become_struct, is_empty_default, is_first_slot, stands_first, type_in_place};

use crate::brands::{field_count, field_of};
use capnp_base::introspect::{Type, TypeVariant};
use capnp_schema::record::{FieldKind, ValueRecord};
use capnp_schema::set::SchemaSet;
use capnp_wire::PointerReader;

/// Whether the words of a value are those of a null pointer.
fn is_null(words: &[u8]) -> bool
    ensures { result ≡ is_empty_default (ListValue words.now) }
{
    PointerReader::from_words(words).is_null()
}

/// Whether a default changes nothing: it is zero, has no bytes, or is a null list. An untyped one is none.
fn is_empty_default(value: &ValueRecord) -> bool
    ensures { result ≡ is_empty_default (seen_value value.now) }
{
    match value {
        ValueRecord::Int8(x) => *x == 0,
        ValueRecord::Int16(x) => *x == 0,
        ValueRecord::Int32(x) => *x == 0,
        ValueRecord::Int64(x) => *x == 0,
        ValueRecord::UInt8(x) => *x == 0,
        ValueRecord::UInt16(x) => *x == 0,
        ValueRecord::UInt32(x) => *x == 0,
        ValueRecord::UInt64(x) => *x == 0,
        ValueRecord::Text(bytes) => bytes.is_empty(),
        ValueRecord::Data(bytes) => bytes.is_empty(),
        ValueRecord::List(words) => is_null(words.as_slice()),
        ValueRecord::AnyPointer(_) => true,
        _ => false,
    }
}

/// Whether a field is a slot at the start of its struct, whose default changes nothing.
fn is_first_slot(kind: &FieldKind) -> bool
    ensures { result ≡ is_first_slot (seen_kind kind.now) }
{
    match kind {
        FieldKind::Slot { offset, default } => *offset == 0 && is_empty_default(default),
        FieldKind::Group { .. } => false,
    }
}

/// Whether field 0 of a brand stands where an element stood.
fn stands_first(schemas: &SchemaSet, number: u32) -> bool
    ensures is { result ≡ stands_first (lists_seen schemas.now) number }
    ensures inside { IsTrue result → 0 < length (fields_of (lists_seen schemas.now) number) }
{
    if field_count(schemas, number) == 0 {
        return false;
    }
    let field = field_of(schemas, number, 0).get_proto();
    !field.is_member() && is_first_slot(&field.kind)
}

/// Whether elements of a type can have become structs: integers, texts, data and lists.
fn can_become_struct(layer: TypeVariant) -> bool
    ensures { result ≡ can_become_struct (seen_variant layer) }
{
    match layer {
        TypeVariant::Int8 => true,
        TypeVariant::Int16 => true,
        TypeVariant::Int32 => true,
        TypeVariant::Int64 => true,
        TypeVariant::UInt8 => true,
        TypeVariant::UInt16 => true,
        TypeVariant::UInt32 => true,
        TypeVariant::UInt64 => true,
        TypeVariant::Text => true,
        TypeVariant::Data => true,
        TypeVariant::List(_) => true,
        _ => false,
    }
}

/// Whether field 0 of a brand stands where an element of a type stood.
#[tactic(auto, using(crate::proofs::Layers::seen))]
pub(crate) fn is_in_place(schemas: &SchemaSet, older: Type, number: u32) -> bool
    ensures is { result ≡ (can_become_struct (seen_type older) && stands_first (lists_seen schemas.now) number) }
    ensures inside { IsTrue result → 0 < length (fields_of (lists_seen schemas.now) number) }
{
    can_become_struct(older.which()) && stands_first(schemas, number)
}

/// The type that stands where an older element stood: that of the newer one, or, of a struct that may stand there, that
/// of its field 0.
pub(crate) fn type_in_place(schemas: &SchemaSet, older: Type, newer: Type) -> Type
    ensures { seen_type result ≡ type_in_place true (lists_seen schemas.now) (seen_type older) (seen_type newer) }
{
    let TypeVariant::Struct(schema) = newer.which() else {
        return newer;
    };
    if is_in_place(schemas, older, schema.number) {
        return field_of(schemas, schema.number, 0).get_type();
    }
    newer
}
