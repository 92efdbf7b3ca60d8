//! What stands at a pointer of a message: copied there and read, got with a default, and cleared.
ghost use Rattle.std.specs.Prelude.{Err, IfErr, IfOk, IsFalse, Ok, OnErr, OnOk, ◌<◌, ◌≡◌, ◌≢◌, length};
ghost use Rattle.capnp_device.specs.declared.error.ErrorKind.TheVariants.{OutOfMemory};
ghost use Rattle.capnp_wire.specs.Depth.{IsBelow, memory_depth};
ghost use Rattle.capnp_wire.specs.Edits.{is_struct, rounded_struct};
ghost use Rattle.capnp_wire.specs.Place.{struct_tree};
ghost use Rattle.capnp_wire.specs.Reading.{as_list, as_text, is_list, list_length};
ghost use Rattle.capnp_wire.specs.Standing.{list_of, struct_of, tree_of};
ghost use Rattle.capnp_arena.specs.Handles.{IsBuiltPointer, built_pointer_tree};
ghost use Rattle.capnp_arena.specs.Segment.{segment};
ghost use Rattle.capnp_arena.specs.Shape.{word_count};

use capnp_arena::handle_callers::set_text_at;
use capnp_arena::handles::PointerBuilder;
use capnp_wire::error::Result;
use capnp_wire::size::ElementSize;
use capnp_wire::{ListReader, PointerReader, StructReader};
use std::alloc::Global;

/// Replaces what stands at a pointer by a copy, and answers whether that is a struct. Refused as `copy_from`.
///
/// # Conditions
///
/// The pointer's word lies inside the message's segment.
pub fn copy_and_look(pointer: PointerBuilder<'_>, source: PointerReader<'_>) -> Result<bool>
    requires { pointer.at < word_count (segment pointer.arena.now) }
    ensures { IfOk result (λ yes. yes ≡ is_struct (tree_of source.entry)) }
{
    let mut pointer = pointer;
    pointer.copy_from(source)?;
    Ok(pointer.is_struct())
}

/// Replaces what stands at a pointer by a copy of a struct, and reads that. Refused as `set_struct`.
///
/// # Conditions
///
/// The pointer's word lies inside the message's segment.
pub fn copy_struct<'a>(
    pointer: PointerBuilder<'a>,
    source: &StructReader<'_>,
) -> Result<PointerReader<'a>>
    requires { pointer.at < word_count (segment pointer.arena.now) }
    ensures { IsBelow memory_depth (struct_tree (rounded_struct (struct_of source.now)))
        → IfOk result (λ reader. tree_of reader ≡ struct_tree (rounded_struct (struct_of source.now))) }
{
    let mut pointer = pointer;
    pointer.set_struct(source)?;
    Ok(pointer.into_reader())
}

/// Replaces what stands at a pointer by a copy of a list, and reads that. Refused as `set_list`.
///
/// # Conditions
///
/// The pointer's word lies inside the message's segment.
pub fn copy_list<'a>(
    pointer: PointerBuilder<'a>,
    source: &ListReader<'_>,
) -> Result<PointerReader<'a>>
    requires { pointer.at < word_count (segment pointer.arena.now) }
    ensures { IsBelow memory_depth (list_of source.now) → IfOk result (λ reader. tree_of reader ≡ list_of source.now) }
{
    let mut pointer = pointer;
    pointer.set_list(source)?;
    Ok(pointer.into_reader())
}

/// Replaces what stands at a pointer by data, and counts its bytes. Refused as `set_data`.
///
/// # Conditions
///
/// The pointer's word lies inside the message's segment.
pub fn count_data(pointer: PointerBuilder<'_>, bytes: &[u8]) -> Result<usize>
    requires { pointer.at < word_count (segment pointer.arena.now) }
    ensures { IfOk result (λ n. n ≡ length bytes.now) }
{
    let mut pointer = pointer;
    pointer.set_data(bytes)?;
    Ok(pointer.get_data()?.len())
}

/// A copy of the text at a pointer. Refused as `get_text`, and with `OutOfMemory`.
///
/// # Conditions
///
/// A tree of the message stands at the pointer (`IsBuiltPointer`).
pub fn copy_of_text(alloc: Global, pointer: &PointerBuilder<'_>) -> Result<Vec<u8>>
    requires { IsBuiltPointer pointer.now }
    ensures text { IfOk result (λ v. as_text (built_pointer_tree pointer.now) ≡ Ok v.items) }
    ensures refused { IfErr result (λ e. e.kind ≢ OutOfMemory → as_text (built_pointer_tree pointer.now) ≡ Err e.kind) }
{
    let bytes = pointer.get_text()?;
    Ok(Vec::from_slice(alloc, bytes)?)
}

/// Makes a pointer null that leads to a list. Whether it led to one.
///
/// # Conditions
///
/// A tree of the message stands at the pointer (`IsBuiltPointer`), whose word lies inside the message's segment.
pub fn drop_list(pointer: &mut PointerBuilder<'_>) -> bool
    requires forest { IsBuiltPointer pointer.old }
    requires inside { pointer.old.at < word_count (segment pointer.old.arena.now) }
    ensures same { pointer.new.arena.ghost_name ≡ pointer.old.arena.ghost_name }
    ensures at { pointer.new.at ≡ pointer.old.at }
    ensures forest { IsBuiltPointer pointer.new }
    ensures was { result ≡ is_list (built_pointer_tree pointer.old) }
    ensures none { IsFalse (is_list (built_pointer_tree pointer.new)) }
{
    let is_list = pointer.is_list();
    if is_list {
        pointer.clear();
    }
    is_list
}

/// How many elements the list at a pointer has, as one of numbers of two bytes. Refused as `get_list`.
///
/// # Conditions
///
/// A tree of the message stands at the pointer (`IsBuiltPointer`).
pub fn count_numbers(pointer: PointerBuilder<'_>) -> Result<u32>
    requires { IsBuiltPointer pointer }
    ensures count { IfOk result (λ n. n ≡ list_length (built_pointer_tree pointer.entry)) }
    ensures refused { IfErr result (λ e. as_list ElementSize.TwoBytes (built_pointer_tree pointer.entry) 1 ≡ Err e.kind) }
{
    let list = pointer.get_list(ElementSize::TwoBytes)?;
    Ok(list.len())
}

/// Replaces what stands at a pointer by a text, through the same pointer lent for a shorter time.
///
/// Refused as `set_text`; then nothing has changed.
///
/// # Conditions
///
/// The pointer's word lies inside the message's segment.
pub fn put_text_lent(pointer: &mut PointerBuilder<'_>, text: &[u8]) -> Result<()>
    requires { pointer.old.at < word_count (segment pointer.old.arena.now) }
    ensures same { pointer.new.arena.ghost_name ≡ pointer.old.arena.ghost_name }
    ensures at { pointer.new.at ≡ pointer.old.at }
    ensures forest { OnOk result (IsBuiltPointer pointer.new) }
    ensures tree { OnOk result (as_text (built_pointer_tree pointer.new) ≡ Ok text.now) }
    ensures refused { OnErr result (segment pointer.new.arena.now ≡ segment pointer.old.arena.now) }
{
    set_text_at(pointer.reborrow(), text)
}
