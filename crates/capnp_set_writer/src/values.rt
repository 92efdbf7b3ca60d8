//! Values and annotations, as their records are written.
ghost use Rattle.std.specs.Prelude.{◌≡◌, ◌≢◌, ◌≤◌, ◌<◌, ◌+◌, ◌*◌, ◌^◌, ⊤, [], IfErr, IsOk, OnOk, IsFalse, IsTrue};
ghost use Rattle.capnp_wire.specs.Tree.{Numbers};
ghost use Rattle.capnp_wire.specs.Edits.{with_pointer_tree};
ghost use Rattle.capnp_wire.specs.WellFormed.{AreBytes};
ghost use Rattle.capnp_arena.specs.Frame.{LeavesStruct};
ghost use Rattle.capnp_arena.specs.Built.{built_at};
ghost use Rattle.capnp_base.specs.Text.{text_tree};
ghost use Rattle.capnp_schema.specs.Builtin.{zero_word};
ghost use Rattle.capnp_schema.specs.Ranges.{IsSigned};
ghost use Rattle.capnp_schema.specs.Schema.{Annotation, IntValue, Value, seen_annotation, seen_value};
ghost use Rattle.capnp_schema.specs.SlotValue.{bit_number};
ghost use Rattle.capnp_set_writer.specs.Kept.{AnnotationKept, ValueKept};
ghost use Rattle.capnp_set_writer.specs.Limits.{AnnotationFits, AnnotationHasKind, HasForm, IsDataLength, IsTextLength, ValueHasForm};
ghost use Rattle.capnp_set_writer.specs.Trees.{annotation_tree, value_tree};
ghost use Rattle.capnp_set_writer.specs.Steps.Writes.{IsNew, IsPartWriteRefusal, blank, number_put};

use crate::rows::{Part, put_part};
use crate::writes::{put_data, put_text};
use capnp_arena::arena::{Arena, Place};
use capnp_schema::record::{AnnotationRecord, ValueRecord};
use capnp_wire::error::{Error, ErrorKind, Result};
use capnp_wire::primitive::PrimitiveElement;
use capnp_wire::size::StructSize;

/// Stores the number of a value's kind, and the value's number in the second word. Never refused.
fn put_kind<T: PrimitiveElement>(
    arena: &mut Arena,
    place: Place,
    kind: u16,
    offset: u32,
    value: T,
) -> Result<()>
    requires new { IsNew 2 1 arena.old place }
    requires inside { (offset + 1) * T.width ≤ 16 }
    ensures frame { LeavesStruct place arena.old arena.new }
    ensures written { built_at arena.new place ≡ number_put T.width offset (T.to_number value)
        (number_put 2 0 kind (blank 2 1)) }
    ensures done { IsOk result }
{
    arena.set_number::<u16>(place, 0, kind);
    arena.set_number(place, offset, value);
    Ok(())
}

/// Stores the number of a value's kind, and puts its text.
fn put_kind_text(arena: &mut Arena, place: Place, kind: u16, text: &[u8]) -> Result<()>
    requires { IsNew 2 1 arena.old place }
    ensures frame { OnOk result (LeavesStruct place arena.old arena.new) }
    ensures written { OnOk result (built_at arena.new place
        ≡ with_pointer_tree (number_put 2 0 kind (blank 2 1)) 0 (text_tree text.now)) }
    ensures kept { AreBytes text.now }
    ensures fits { OnOk result (IsTextLength text.now) }
    ensures cause { IfErr result (λ e. IsPartWriteRefusal ⊤ (IsTextLength text.now) e.kind) }
{
    arena.set_number::<u16>(place, 0, kind);
    put_text(arena, place, 0, text)
}

/// Stores the number of a value's kind, and puts its data.
fn put_kind_data(arena: &mut Arena, place: Place, kind: u16, bytes: &[u8]) -> Result<()>
    requires { IsNew 2 1 arena.old place }
    ensures frame { OnOk result (LeavesStruct place arena.old arena.new) }
    ensures written { OnOk result (built_at arena.new place
        ≡ with_pointer_tree (number_put 2 0 kind (blank 2 1)) 0 (Numbers 1 bytes.now)) }
    ensures kept { AreBytes bytes.now }
    ensures fits { OnOk result (IsDataLength bytes.now) }
    ensures cause { IfErr result (λ e. IsPartWriteRefusal ⊤ (IsDataLength bytes.now) e.kind) }
{
    arena.set_number::<u16>(place, 0, kind);
    put_data(arena, place, 0, bytes)
}

/// A bit as a number.
pub(crate) fn bit_number(bit: bool) -> u8
    ensures { result ≡ bit_number bit }
{
    if bit { 1 } else { 0 }
}

/// Puts a signed number of one byte. Never refused.
fn put_int8(arena: &mut Arena, place: Place, number: i8) -> Result<()>
    requires { IsNew 2 1 arena.old place }
    ensures frame { LeavesStruct place arena.old arena.new }
    ensures written { built_at arena.new place ≡ value_tree (IntValue 1 number) }
    ensures kept { IsSigned 1 number }
    ensures done { IsOk result }
{
    put_kind::<i8>(arena, place, 2, 8, number)
}

/// Puts a signed number of two bytes. Never refused.
fn put_int16(arena: &mut Arena, place: Place, number: i16) -> Result<()>
    requires { IsNew 2 1 arena.old place }
    ensures frame { LeavesStruct place arena.old arena.new }
    ensures written { built_at arena.new place ≡ value_tree (IntValue 2 number) }
    ensures kept { IsSigned 2 number }
    ensures done { IsOk result }
{
    put_kind::<i16>(arena, place, 3, 4, number)
}

/// Puts a signed number of four bytes. Never refused.
fn put_int32(arena: &mut Arena, place: Place, number: i32) -> Result<()>
    requires { IsNew 2 1 arena.old place }
    ensures frame { LeavesStruct place arena.old arena.new }
    ensures written { built_at arena.new place ≡ value_tree (IntValue 4 number) }
    ensures kept { IsSigned 4 number }
    ensures done { IsOk result }
{
    put_kind::<i32>(arena, place, 4, 2, number)
}

/// Puts a signed number of eight bytes. Never refused.
fn put_int64(arena: &mut Arena, place: Place, number: i64) -> Result<()>
    requires { IsNew 2 1 arena.old place }
    ensures frame { LeavesStruct place arena.old arena.new }
    ensures written { built_at arena.new place ≡ value_tree (IntValue 8 number) }
    ensures kept { IsSigned 8 number }
    ensures done { IsOk result }
{
    put_kind::<i64>(arena, place, 5, 1, number)
}

/// Whether the words of an untyped value are one zero word, a null.
fn is_null(words: &[u8]) -> bool
    ensures null { IsTrue result → words.now ≡ zero_word }
    ensures other { IsFalse result → words.now ≢ zero_word }
{
    matches!(words, [0, 0, 0, 0, 0, 0, 0, 0])
}

/// Puts the words of a list. A list without words would be read as a null.
///
/// Refused with `UnknownKind` where there are none, with `SizePastFormat` for 2^29 bytes or more, and else with
/// `OutOfMemory`.
fn put_list_words(arena: &mut Arena, place: Place, words: &[u8]) -> Result<()>
    requires { IsNew 2 1 arena.old place }
    ensures frame { OnOk result (LeavesStruct place arena.old arena.new) }
    ensures written { OnOk result (built_at arena.new place
        ≡ with_pointer_tree (number_put 2 0 14 (blank 2 1)) 0 (Numbers 1 words.now)) }
    ensures kept { OnOk result ((words.now ≢ []) × AreBytes words.now) }
    ensures fits { OnOk result (IsDataLength words.now) }
    ensures cause { IfErr result (λ e. IsPartWriteRefusal (words.now ≢ []) (IsDataLength words.now) e.kind) }
{
    if words.is_empty() {
        return Err(Error::from(ErrorKind::UnknownKind));
    }
    put_kind_data(arena, place, 14, words)
}

/// Puts an untyped value: a null is a list without words.
///
/// Refused with `UnknownKind` for every other value, and with `OutOfMemory`.
fn put_untyped(arena: &mut Arena, place: Place, words: &[u8]) -> Result<()>
    requires { IsNew 2 1 arena.old place }
    ensures frame { OnOk result (LeavesStruct place arena.old arena.new) }
    ensures written { OnOk result (built_at arena.new place
        ≡ with_pointer_tree (number_put 2 0 14 (blank 2 1)) 0 (Numbers 1 [])) }
    ensures kept { OnOk result (words.now ≡ zero_word) }
    ensures cause { IfErr result (λ e. IsPartWriteRefusal (words.now ≡ zero_word) ⊤ e.kind) }
{
    if !is_null(words) {
        return Err(Error::from(ErrorKind::UnknownKind));
    }
    put_kind_data(arena, place, 14, &[])
}

/// Puts a value.
fn put_value_record(arena: &mut Arena, place: Place, value: &ValueRecord) -> Result<()>
    requires { IsNew 2 1 arena.old place }
    ensures frame { OnOk result (LeavesStruct place arena.old arena.new) }
    ensures written { OnOk result (built_at arena.new place ≡ value_tree (seen_value value.now)) }
    ensures kept { OnOk result (ValueKept (seen_value value.now)) }
    ensures fits { OnOk result (ValueHasForm (seen_value value.now)) }
    ensures cause { IfErr result (λ e. IsPartWriteRefusal (HasForm (seen_value value.now))
        (ValueHasForm (seen_value value.now)) e.kind) }
{
    match value {
        // the kind of nothing is 0
        ValueRecord::Void => Ok(()),
        ValueRecord::Bool(bit) => put_kind::<u8>(arena, place, 1, 8, bit_number(*bit)),
        ValueRecord::Int8(number) => put_int8(arena, place, *number),
        ValueRecord::Int16(number) => put_int16(arena, place, *number),
        ValueRecord::Int32(number) => put_int32(arena, place, *number),
        ValueRecord::Int64(number) => put_int64(arena, place, *number),
        ValueRecord::UInt8(number) => put_kind::<u8>(arena, place, 6, 8, *number),
        ValueRecord::UInt16(number) => put_kind::<u16>(arena, place, 7, 4, *number),
        ValueRecord::UInt32(number) => put_kind::<u32>(arena, place, 8, 2, *number),
        ValueRecord::UInt64(number) => put_kind::<u64>(arena, place, 9, 1, *number),
        ValueRecord::Enum(number) => put_kind::<u16>(arena, place, 10, 4, *number),
        ValueRecord::Text(bytes) => put_kind_text(arena, place, 11, bytes.as_slice()),
        ValueRecord::Data(bytes) => put_kind_data(arena, place, 12, bytes.as_slice()),
        ValueRecord::Struct(words) => put_kind_data(arena, place, 13, words.as_slice()),
        ValueRecord::List(words) => put_list_words(arena, place, words.as_slice()),
        ValueRecord::AnyPointer(words) => put_untyped(arena, place, words.as_slice()),
    }
}

impl Part for ValueRecord {
    ghost Seen = { Value };

    ghost seen = { seen_value };

    ghost data_words = { 2 };

    ghost pointers = { 1 };

    ghost tree = { value_tree };

    ghost kept = { ValueKept };

    ghost has_kinds = { HasForm };

    ghost fits = { ValueHasForm };

    fn size() -> StructSize {
        StructSize {
            data_words: 2,
            pointers: 1,
        }
    }

    fn put(&self, arena: &mut Arena, place: Place) -> Result<()> {
        put_value_record(arena, place, self)
    }
}

impl Part for AnnotationRecord {
    ghost Seen = { Annotation };

    ghost seen = { seen_annotation };

    ghost data_words = { 1 };

    ghost pointers = { 1 };

    ghost tree = { annotation_tree };

    ghost kept = { AnnotationKept };

    ghost has_kinds = { AnnotationHasKind };

    ghost fits = { AnnotationFits };

    fn size() -> StructSize {
        StructSize {
            data_words: 1,
            pointers: 1,
        }
    }

    fn put(&self, arena: &mut Arena, place: Place) -> Result<()> {
        arena.set_number::<u64>(place, 0, self.id);
        put_part(arena, place, 0, &self.value)
    }
}
