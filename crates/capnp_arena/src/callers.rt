//! Callers of the arena: two hops, or an element of a list, and what the pointer at the top leads to then.
ghost use Rattle.std.specs.Prelude.{IfErr, OnErr, OnOk, length, replicate, ◌*◌, ◌+◌, ◌<◌, ◌≡◌, ◌≤◌};
ghost use Rattle.capnp_device.specs.declared.error.ErrorKind.TheVariants.{OutOfMemory};
ghost use Rattle.capnp_wire.specs.Standing.{struct_of};
ghost use Rattle.capnp_wire.specs.Words.{first_fault_of_all};
ghost use Rattle.capnp_wire.specs.Edits.{IsCopyRefusal, fitted_struct, with_bytes, with_number, with_pointer_tree, zero_struct};
ghost use Rattle.capnp_wire.specs.Elements.{with_struct_element};
ghost use Rattle.capnp_wire.specs.Place.{struct_tree};
ghost use Rattle.capnp_arena.specs.Segment.{segment};
ghost use Rattle.capnp_arena.specs.Shape.{CompositeIn, StructIn, shape_at};
ghost use Rattle.capnp_arena.specs.Forest.{Changes, Forest, struct_from, tree};

use crate::arena::{Arena, Place};
use crate::lists::StructsPlace;
use capnp_device::error::Result;
use capnp_wire::StructReader;
use capnp_wire::primitive::PrimitiveElement;
use capnp_wire::size::StructSize;

/// Makes a pointer of the struct that the pointer at a word leads to one to a new struct, and stores a number in that.
///
/// Refused with `OutOfMemory`; then nothing has changed.
///
/// # Conditions
///
/// The pointer at the word leads to a tree of this message, no two of whose parts share a word (`Forest`). `place` is
/// that of the struct that this pointer leads to, and `index` is below the number of its pointers. The number lies
/// inside the data section of a struct of that size.
pub fn init_and_set<T: PrimitiveElement>(
    arena: &mut Arena,
    at: usize,
    place: Place,
    index: u16,
    size: StructSize,
    offset: u32,
    value: T,
) -> Result<()>
    requires forest { Forest (segment arena.old) at }
    requires there { shape_at (segment arena.old) at ≡ StructIn place.start place.data_words place.pointers }
    requires pointer { index < place.pointers }
    requires inside { (offset + 1) * T.width ≤ 8 * size.data_words }
    ensures forest { OnOk result (Forest (segment arena.new) at) }
    ensures there { OnOk result (shape_at (segment arena.new) at
        ≡ StructIn place.start place.data_words place.pointers) }
    ensures changes { OnOk result (Changes at (segment arena.old) (segment arena.new)) }
    ensures tree { OnOk result (tree (segment arena.new) at
        ≡ struct_tree (with_pointer_tree (struct_from
        (segment arena.old) place.start place.data_words place.pointers) index
        (struct_tree (with_bytes (zero_struct size)
        (with_number T.width offset (T.to_number value) (replicate (8 * size.data_words) 0)))))) }
    ensures kind { IfErr result (λ e. e.kind ≡ OutOfMemory) }
    ensures refused { OnErr result (segment arena.new ≡ segment arena.old) }
{
    let pointer = place.start + place.data_words as usize + index as usize;
    let made = arena.init_struct(pointer, size)?;
    arena.set_number(made, offset, value);
    Ok(())
}

/// Stores a number in a struct of the list that the pointer at a word leads to. No memory is taken.
///
/// # Conditions
///
/// The pointer at the word leads to a tree of this message, no two of whose parts share a word (`Forest`). `list` is
/// the list of structs that this pointer leads to, and `index` is below the number of its elements. The number lies
/// inside the data section of each.
pub fn set_element_number<T: PrimitiveElement>(
    arena: &mut Arena,
    at: usize,
    list: StructsPlace,
    index: u32,
    offset: u32,
    value: T,
)
    requires forest { Forest (segment arena.old) at }
    requires there { shape_at (segment arena.old) at ≡ CompositeIn list.tag list.count list.data_words list.pointers }
    requires element { index < list.count }
    requires inside { (offset + 1) * T.width ≤ 8 * list.data_words }
    ensures forest { Forest (segment arena.new) at }
    ensures there { shape_at (segment arena.new) at ≡ CompositeIn list.tag list.count list.data_words list.pointers }
    ensures changes { Changes at (segment arena.old) (segment arena.new) }
    ensures tree { tree (segment arena.new) at ≡ with_struct_element index
        (with_bytes (struct_from (segment arena.old)
        (list.tag + 1 + index * (list.data_words + list.pointers)) list.data_words list.pointers)
        (with_number T.width offset (T.to_number value)
        (struct_from (segment arena.old) (list.tag + 1 + index *
        (list.data_words + list.pointers)) list.data_words list.pointers).bytes))
        (tree (segment arena.old) at) }
    ensures long { length (segment arena.new) ≡ length (segment arena.old) }
{
    let step = list.data_words as usize + list.pointers as usize;
    let place = Place {
        start: list.tag + 1 + index as usize * step,
        data_words: list.data_words,
        pointers: list.pointers,
    };
    arena.set_number(place, offset, value);
}

/// Replaces what the struct that the pointer at a word leads to holds by what fits of another one.
///
/// Refused as `copy_content_from`; then nothing has changed.
///
/// # Conditions
///
/// The pointer at the word leads to a tree of this message, no two of whose parts share a word (`Forest`). `place` is
/// that of the struct that this pointer leads to.
pub fn refill(arena: &mut Arena, at: usize, place: Place, source: &StructReader<'_>) -> Result<()>
    requires forest { Forest (segment arena.old) at }
    requires there { shape_at (segment arena.old) at ≡ StructIn place.start place.data_words place.pointers }
    ensures forest { OnOk result (Forest (segment arena.new) at) }
    ensures there { OnOk result (shape_at (segment arena.new) at
        ≡ StructIn place.start place.data_words place.pointers) }
    ensures changes { OnOk result (Changes at (segment arena.old) (segment arena.new)) }
    ensures tree { OnOk result (tree (segment arena.new) at
        ≡ struct_tree (fitted_struct (8 * place.data_words) place.pointers (struct_of source.now))) }
    ensures cause { IfErr result (λ e. IsCopyRefusal e (first_fault_of_all (struct_of source.now).pointers)) }
    ensures refused { OnErr result (segment arena.new ≡ segment arena.old) }
{
    arena.copy_content_from(place, source)?;
    Ok(())
}
