//! Types, as their records are written.
ghost use Rattle.std.specs.Prelude.{◌≡◌, ◌≤◌, ◌<◌, ◌*◌, ◌^◌, ⊤, All, List, length, map, IfErr, IfOk, OnOk};
ghost use Rattle.capnp_device.specs.declared.error.ErrorKind.TheVariants.{SizePastFormat};
ghost use Rattle.capnp_wire.specs.Tree.{Pointers};
ghost use Rattle.capnp_wire.specs.Edits.{with_pointer_tree};
ghost use Rattle.capnp_wire.specs.Elements.{HasPointer, with_pointer_element};
ghost use Rattle.capnp_wire.specs.Locate.{words_past_format};
ghost use Rattle.capnp_arena.specs.Frame.{LeavesPointer, LeavesStruct};
ghost use Rattle.capnp_arena.specs.Built.{IsBuilt, built_at};
ghost use Rattle.capnp_arena.specs.Forest.{Forest, tree};
ghost use Rattle.capnp_arena.specs.Segment.{segment};
ghost use Rattle.capnp_arena.specs.Shape.{word_count};
ghost use Rattle.capnp_schema.specs.Types.{SchemaType, seen_type, seen_variant};
ghost use Rattle.capnp_set_writer.specs.Kept.{TypeKept};
ghost use Rattle.capnp_set_writer.specs.Limits.{TypeFits, TypeListsFit, TypesFit};
ghost use Rattle.capnp_set_writer.specs.Trees.{base_number, list_count, named_number, type_lists_tree, type_tree, types_tree};
ghost use Rattle.capnp_set_writer.specs.Steps.Writes.{IsBare, IsPartWriteRefusal, filled_trees};

use crate::rows::{Part, count_of, put_list};
use capnp_arena::arena::{Arena, Place};
use capnp_arena::structs::pointer_at;
use capnp_base::introspect::{Type, TypeVariant};
use capnp_wire::error::{Error, ErrorKind, Result};
use capnp_wire::size::{ElementSize, StructSize};

/// The number of a type that is no list.
fn base_number(inner: TypeVariant) -> u16
    requires { IsBare inner }
    ensures { result ≡ base_number (seen_variant inner) }
{
    match inner {
        TypeVariant::Void => 0,
        TypeVariant::Bool => 1,
        TypeVariant::Int8 => 2,
        TypeVariant::Int16 => 3,
        TypeVariant::Int32 => 4,
        TypeVariant::Int64 => 5,
        TypeVariant::UInt8 => 6,
        TypeVariant::UInt16 => 7,
        TypeVariant::UInt32 => 8,
        TypeVariant::UInt64 => 9,
        TypeVariant::Text => 12,
        TypeVariant::Data => 13,
        TypeVariant::Enum(_) => 15,
        TypeVariant::Struct(_) => 16,
        TypeVariant::AnyPointer => 18,
        TypeVariant::List(_) => unreachable!(),
    }
}

/// The brand or enum that a type that is no list names, 0 where it names none.
fn named_number(inner: TypeVariant) -> u32
    requires { IsBare inner }
    ensures is { result ≡ named_number (seen_variant inner) }
    ensures bound { named_number (seen_variant inner) < 2 ^ 32 }
{
    match inner {
        TypeVariant::Struct(schema) => schema.number,
        TypeVariant::Enum(schema) => schema.number,
        TypeVariant::Void
        | TypeVariant::Bool
        | TypeVariant::Int8
        | TypeVariant::Int16
        | TypeVariant::Int32
        | TypeVariant::Int64
        | TypeVariant::UInt8
        | TypeVariant::UInt16
        | TypeVariant::UInt32
        | TypeVariant::UInt64
        | TypeVariant::Text
        | TypeVariant::Data
        | TypeVariant::AnyPointer => 0,
        TypeVariant::List(_) => unreachable!(),
    }
}

/// The lists around a type.
///
/// Refused with `SizePastFormat` for more than 65,535, which a record of a type can't say.
fn count_lists(of: Type) -> Result<u16>
    ensures count { IfOk result (λ count. count ≡ list_count (seen_type of)) }
    ensures few { OnOk result (list_count (seen_type of) < 2 ^ 16) }
    ensures past { IfErr result (λ e. 2 ^ 16 ≤ list_count (seen_type of)) }
    ensures refused { IfErr result (λ e. e.kind ≡ SizePastFormat) }
{
    let mut rest = of;
    for count in 0..65_536_u32 {
        match rest.which() {
            TypeVariant::List(element) => rest = element,
            _ => return Ok(count as u16),
        }
    }
    Err(Error::from(ErrorKind::SizePastFormat))
}

impl Part for Type {
    ghost Seen = { SchemaType };

    ghost seen = { seen_type };

    ghost data_words = { 1 };

    ghost pointers = { 0 };

    ghost tree = { type_tree };

    ghost kept = { TypeKept };

    ghost has_kinds = { λ t. ⊤ };

    ghost fits = { TypeFits };

    fn size() -> StructSize {
        StructSize {
            data_words: 1,
            pointers: 0,
        }
    }

    fn put(&self, arena: &mut Arena, place: Place) -> Result<()> {
        let lists = count_lists(*self)?;
        let inner = self.innermost();
        arena.set_number::<u16>(place, 0, base_number(inner));
        arena.set_number::<u16>(place, 1, lists);
        arena.set_number::<u32>(place, 1, named_number(inner));
        Ok(())
    }
}

/// Makes an element of a list of pointers lead to a list of types.
///
/// Refused as `put_list`.
fn put_row(arena: &mut Arena, at: usize, index: u32, types: &[Type]) -> Result<()>
    requires forest { Forest (segment arena.old) at }
    requires there { HasPointer (tree (segment arena.old) at) index }
    ensures frame { OnOk result (LeavesPointer at arena.old arena.new) }
    ensures written { OnOk result (tree (segment arena.new) at
        ≡ with_pointer_element index (types_tree (map seen_type types.now)) (tree (segment arena.old) at)) }
    ensures kept { OnOk result (All TypeKept (map seen_type types.now)) }
    ensures fits { OnOk result (TypesFit (map seen_type types.now)) }
    ensures cause { IfErr result (λ e. IsPartWriteRefusal ⊤ (TypesFit (map seen_type types.now)) e.kind) }
{
    let pointer = arena.get_pointer_element(at, index);
    put_list(arena, pointer, types)
}

/// Fills a new list of pointers, each with a list of types.
fn fill_rows(arena: &mut Arena, at: usize, rows: &[Vec<Type>]) -> Result<()>
    requires forest { Forest (segment arena.old) at }
    requires new { tree (segment arena.old) at
        ≡ Pointers (filled_trees (map types_tree (map (λ row. map seen_type row.items) rows.now)) 0) }
    requires few { length rows.now < words_past_format }
    ensures frame { OnOk result (LeavesPointer at arena.old arena.new) }
    ensures written { OnOk result (tree (segment arena.new) at
        ≡ type_lists_tree (map (λ row. map seen_type row.items) rows.now)) }
    ensures kept { OnOk result (All (All TypeKept) (map (λ row. map seen_type row.items) rows.now)) }
    ensures fits { OnOk result (All TypesFit (map (λ row. map seen_type row.items) rows.now)) }
    ensures cause { IfErr result (λ e. IsPartWriteRefusal ⊤
        (All TypesFit (map (λ row. map seen_type row.items) rows.now)) e.kind) }
{
    for index in 0..rows.len() {
        put_row(arena, at, index as u32, rows[index].as_slice())?;
    }
    Ok(())
}

/// Makes a pointer lead to a list of lists of types.
///
/// Refused with `SizePastFormat` where there are 2^29 lists or more, and as `put_list`.
fn put_rows(arena: &mut Arena, at: usize, rows: &[Vec<Type>]) -> Result<()>
    requires inside { at < word_count (segment arena.old) }
    ensures frame { OnOk result (LeavesPointer at arena.old arena.new) }
    ensures written { OnOk result (tree (segment arena.new) at
        ≡ type_lists_tree (map (λ row. map seen_type row.items) rows.now)) }
    ensures kept { OnOk result (All (All TypeKept) (map (λ row. map seen_type row.items) rows.now)) }
    ensures fits { OnOk result (TypeListsFit (map (λ row. map seen_type row.items) rows.now)) }
    ensures cause { IfErr result (λ e. IsPartWriteRefusal ⊤
        (TypeListsFit (map (λ row. map seen_type row.items) rows.now)) e.kind) }
{
    let count = count_of(rows.len())?;
    arena.init_list(at, ElementSize::Pointer, count)?;
    fill_rows(arena, at, rows)
}

/// Puts a list of lists of types at a pointer of a struct.
///
/// Refused as `put_rows`.
pub(crate) fn put_type_lists(
    arena: &mut Arena,
    place: Place,
    index: u16,
    rows: &[Vec<Type>],
) -> Result<()>
    requires planted { IsBuilt arena.old place }
    requires inside { index < place.pointers }
    ensures frame { OnOk result (LeavesStruct place arena.old arena.new) }
    ensures written { OnOk result (built_at arena.new place ≡
        with_pointer_tree (built_at arena.old place) index
        (type_lists_tree (map (λ row. map seen_type row.items) rows.now))) }
    ensures kept { OnOk result (All (All TypeKept) (map (λ row. map seen_type row.items) rows.now)) }
    ensures fits { OnOk result (TypeListsFit (map (λ row. map seen_type row.items) rows.now)) }
    ensures cause { IfErr result (λ e. IsPartWriteRefusal ⊤
        (TypeListsFit (map (λ row. map seen_type row.items) rows.now)) e.kind) }
{
    let at = pointer_at(arena, place, index);
    put_rows(arena, at, rows)
}
