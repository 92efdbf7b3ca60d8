//! Lists of parts of a set, each part written as a struct of its own.
ghost use Rattle.std.specs.Prelude.{◌≡◌, ◌≤◌, ◌<◌, ◌+◌, ◌*◌, All, length, map, IfErr, IfOk, OnOk};
ghost use Rattle.capnp_device.specs.declared.error.ErrorKind.TheVariants.{SizePastFormat};
ghost use Rattle.capnp_wire.specs.Tree.{Composite};
ghost use Rattle.capnp_wire.specs.Edits.{with_pointer_tree};
ghost use Rattle.capnp_wire.specs.Elements.{HasStruct, with_struct_element};
ghost use Rattle.capnp_wire.specs.Locate.{words_past_format};
ghost use Rattle.capnp_wire.specs.Place.{struct_tree};
ghost use Rattle.capnp_wire.specs.Reading.{element_struct};
ghost use Rattle.capnp_arena.specs.Frame.{LeavesPointer, LeavesStruct};
ghost use Rattle.capnp_arena.specs.Built.{IsBuilt, built_at};
ghost use Rattle.capnp_arena.specs.Forest.{Forest, tree};
ghost use Rattle.capnp_arena.specs.Segment.{segment};
ghost use Rattle.capnp_arena.specs.Shape.{word_count};
ghost use Rattle.capnp_set_writer.specs.Limits.{ListFits};
ghost use Rattle.capnp_set_writer.specs.Trees.{struct_list_tree};
ghost use Rattle.capnp_set_writer.specs.Steps.Writes.{IsNew, IsPartWriteRefusal, blank, filled_rows};

use capnp_arena::arena::{Arena, Place};
use capnp_arena::structs::pointer_at;
use capnp_wire::error::{Error, ErrorKind, Result};
use capnp_wire::size::StructSize;

/// A part of a set that is written as a struct.
pub(crate) trait Part {
    // What it is to definitions, the sections and the tree of its struct, and what the written form keeps of it.
    ghost use Rattle.std.specs.Prelude.{ℕ};
    ghost use Rattle.capnp_wire.specs.Tree.{StructTree};

    ghost Seen: { Type 0 };

    ghost seen: { Self → Seen };

    ghost data_words: { ℕ };

    ghost pointers: { ℕ };

    ghost tree: { Seen → StructTree };

    ghost kept: { Seen → Type 0 };

    // The form has a kind for each of its values, and its texts, data and lists fit the format.
    ghost has_kinds: { Seen → Type 0 };

    ghost fits: { Seen → Type 0 };

    /// The size of its struct.
    fn size() -> StructSize
        ensures data_words { result.data_words ≡ data_words }
        ensures pointers { result.pointers ≡ pointers };

    /// Fills a new struct of that size.
    ///
    /// Refused with `UnknownKind` for a value that the form has no kind for, with `SizePastFormat` where a text, data
    /// or list is too long for the format or a type has more than 65,535 lists around it, and else with `OutOfMemory`.
    fn put(&self, arena: &mut Arena, place: Place) -> Result<()>
        requires { IsNew data_words pointers arena.old place }
        ensures frame { OnOk result (LeavesStruct place arena.old arena.new) }
        ensures written { OnOk result (built_at arena.new place ≡ tree (seen self.now)) }
        ensures kept { OnOk result (kept (seen self.now)) }
        ensures fits { OnOk result (fits (seen self.now)) }
        ensures cause { IfErr result (λ e. IsPartWriteRefusal (has_kinds (seen self.now)) (fits (seen self.now)) e.kind) };
}

/// Makes a pointer lead to a struct that a part is written as.
///
/// Refused as `Part::put`.
fn put_struct<T: Part>(arena: &mut Arena, at: usize, part: &T) -> Result<()>
    requires inside { at < word_count (segment arena.old) }
    ensures frame { OnOk result (LeavesPointer at arena.old arena.new) }
    ensures written { OnOk result (tree (segment arena.new) at ≡ struct_tree (T.tree (T.seen part.now))) }
    ensures kept { OnOk result (T.kept (T.seen part.now)) }
    ensures fits { OnOk result (T.fits (T.seen part.now)) }
    ensures cause { IfErr result (λ e. IsPartWriteRefusal (T.has_kinds (T.seen part.now))
        (T.fits (T.seen part.now)) e.kind) }
{
    let place = arena.init_struct(at, T::size())?;
    part.put(arena, place)
}

/// Puts a part at a pointer of a struct.
///
/// Refused as `Part::put`.
pub(crate) fn put_part<T: Part>(arena: &mut Arena, place: Place, index: u16, part: &T) -> Result<()>
    requires planted { IsBuilt arena.old place }
    requires inside { index < place.pointers }
    ensures frame { OnOk result (LeavesStruct place arena.old arena.new) }
    ensures written { OnOk result (built_at arena.new place ≡
        with_pointer_tree (built_at arena.old place) index (struct_tree (T.tree (T.seen part.now)))) }
    ensures kept { OnOk result (T.kept (T.seen part.now)) }
    ensures fits { OnOk result (T.fits (T.seen part.now)) }
    ensures cause { IfErr result (λ e. IsPartWriteRefusal (T.has_kinds (T.seen part.now))
        (T.fits (T.seen part.now)) e.kind) }
{
    let at = pointer_at(arena, place, index);
    put_struct(arena, at, part)
}

/// Fills an element of a list.
fn put_element<T: Part>(arena: &mut Arena, at: usize, index: u32, part: &T) -> Result<()>
    requires forest { Forest (segment arena.old) at }
    requires there { HasStruct (tree (segment arena.old) at) index }
    requires blank { element_struct (tree (segment arena.old) at) index ≡ blank T.data_words T.pointers }
    ensures frame { OnOk result (LeavesPointer at arena.old arena.new) }
    ensures written { OnOk result (tree (segment arena.new) at
        ≡ with_struct_element index (T.tree (T.seen part.now)) (tree (segment arena.old) at)) }
    ensures kept { OnOk result (T.kept (T.seen part.now)) }
    ensures fits { OnOk result (T.fits (T.seen part.now)) }
    ensures cause { IfErr result (λ e. IsPartWriteRefusal (T.has_kinds (T.seen part.now))
        (T.fits (T.seen part.now)) e.kind) }
{
    let place = arena.get_struct_at(at, index);
    part.put(arena, place)
}

/// Fills a new list, an element for each part.
fn fill_list<T: Part>(arena: &mut Arena, at: usize, parts: &[T]) -> Result<()>
    requires forest { Forest (segment arena.old) at }
    requires new { tree (segment arena.old) at ≡
        Composite T.data_words T.pointers (filled_rows (blank T.data_words T.pointers)
        (map T.tree (map T.seen parts.now)) 0) }
    requires few { length parts.now < words_past_format }
    ensures frame { OnOk result (LeavesPointer at arena.old arena.new) }
    ensures written { OnOk result (tree (segment arena.new) at
        ≡ struct_list_tree T.data_words T.pointers (map T.tree (map T.seen parts.now))) }
    ensures kept { OnOk result (All T.kept (map T.seen parts.now)) }
    ensures fits { OnOk result (All T.fits (map T.seen parts.now)) }
    ensures cause { IfErr result (λ e. IsPartWriteRefusal (All T.has_kinds (map T.seen parts.now))
        (All T.fits (map T.seen parts.now)) e.kind) }
{
    for index in 0..parts.len() {
        put_element(arena, at, index as u32, &parts[index])?;
    }
    Ok(())
}

/// The number of parts in a list.
///
/// Refused with `SizePastFormat` for 2^29 or more, which no list has.
pub(crate) fn count_of(parts: usize) -> Result<u32>
    ensures count { OnOk result (parts < words_past_format) }
    ensures is { IfOk result (λ count. count ≡ parts) }
    ensures past { IfErr result (λ e. words_past_format ≤ parts) }
    ensures cause { IfErr result (λ e. e.kind ≡ SizePastFormat) }
{
    if parts >= 1 << 29 {
        return Err(Error::from(ErrorKind::SizePastFormat));
    }
    Ok(parts as u32)
}

/// Makes a pointer lead to a list of structs, one for each part. A list without parts is there as well.
///
/// Refused with `SizePastFormat` where there are 2^29 parts or more, or where they take 2^29 words or more, and as
/// `Part::put`.
pub(crate) fn put_list<T: Part>(arena: &mut Arena, at: usize, parts: &[T]) -> Result<()>
    requires inside { at < word_count (segment arena.old) }
    ensures frame { OnOk result (LeavesPointer at arena.old arena.new) }
    ensures written { OnOk result (tree (segment arena.new) at
        ≡ struct_list_tree T.data_words T.pointers (map T.tree (map T.seen parts.now))) }
    ensures kept { OnOk result (All T.kept (map T.seen parts.now)) }
    ensures fits { OnOk result (ListFits (T.data_words + T.pointers) T.fits (map T.seen parts.now)) }
    ensures cause { IfErr result (λ e. IsPartWriteRefusal (All T.has_kinds (map T.seen parts.now))
        (ListFits (T.data_words + T.pointers) T.fits (map T.seen parts.now)) e.kind) }
{
    let count = count_of(parts.len())?;
    arena.init_struct_list(at, count, T::size())?;
    fill_list(arena, at, parts)
}

/// Puts a list of parts at a pointer of a struct.
///
/// Refused as `put_list`.
pub(crate) fn put_parts<T: Part>(
    arena: &mut Arena,
    place: Place,
    index: u16,
    parts: &[T],
) -> Result<()>
    requires planted { IsBuilt arena.old place }
    requires inside { index < place.pointers }
    ensures frame { OnOk result (LeavesStruct place arena.old arena.new) }
    ensures written { OnOk result (built_at arena.new place ≡
        with_pointer_tree (built_at arena.old place) index
        (struct_list_tree T.data_words T.pointers (map T.tree (map T.seen parts.now)))) }
    ensures kept { OnOk result (All T.kept (map T.seen parts.now)) }
    ensures fits { OnOk result (ListFits (T.data_words + T.pointers) T.fits (map T.seen parts.now)) }
    ensures cause { IfErr result (λ e. IsPartWriteRefusal (All T.has_kinds (map T.seen parts.now))
        (ListFits (T.data_words + T.pointers) T.fits (map T.seen parts.now)) e.kind) }
{
    let at = pointer_at(arena, place, index);
    put_list(arena, at, parts)
}
