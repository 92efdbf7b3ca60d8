//! A list of which some elements are taken out, with others in their place.
ghost use Rattle.std.specs.Prelude.{IfErr, IfOk, None, OnOk, Some, ◌+◌, ◌≡◌, ◌≢◌, ◌≤◌};
ghost use Rattle.capnp_device.specs.declared.error.ErrorKind.TheVariants.{OutOfMemory};
ghost use Rattle.capnp_wire.specs.ElementSizes.{element_size_of};
ghost use Rattle.capnp_wire.specs.Reading.{list_length};
ghost use Rattle.capnp_wire.specs.Standing.{list_of};
ghost use Rattle.capnp_wire.specs.StructLists.{grown_size};
ghost use Rattle.capnp_arena.specs.Made.{size_number};
ghost use Rattle.capnp_arena.specs.Message.{IsMessage, message_tree};
ghost use Rattle.capnp_arena.specs.Segment.{segment};
ghost use Rattle.capnp_arena.specs.Shape.{word_count};
ghost use Rattle.std.specs.Prelude.{◌<◌};
ghost use Rattle.capnp_splices.specs.Picks.{splice_seen};
ghost use Rattle.capnp_splices.specs.Splices.{common_size, made_refusal, splice_refusal, spliced_as, spliced_list};
ghost use Rattle.capnp_splices.specs.Steps.Pointers.{ArePointers};

use crate::pick::Splice;
use crate::rows::{splice_bits, splice_numbers, splice_pointers, splice_structs, splice_voids};
use capnp_arena::arena::Arena;
use capnp_wire::ListReader;
use capnp_wire::error::{Error, ErrorKind, Result};
use capnp_wire::parts::found::Found;
use capnp_wire::size::{ElementSize, StructSize};
use std::alloc::Global;

/// The number of an element size in the encoding ("Lists").
fn get_number(size: ElementSize) -> u8
    ensures { result ≡ size_number size }
{
    match size {
        ElementSize::Void => 0,
        ElementSize::Bit => 1,
        ElementSize::Byte => 2,
        ElementSize::TwoBytes => 3,
        ElementSize::FourBytes => 4,
        ElementSize::EightBytes => 5,
        ElementSize::Pointer => 6,
        ElementSize::InlineComposite => 7,
    }
}

/// The size of elements that are of these two: the one that is asked where both are of it, and else structs.
fn get_common_size(asked: ElementSize, a: ElementSize, b: ElementSize) -> ElementSize
    ensures { result ≡ common_size asked a b }
{
    let number = get_number(asked);
    if get_number(a) == number && get_number(b) == number {
        asked
    } else {
        ElementSize::InlineComposite
    }
}

/// At least a size, and what an element of a list takes as a struct.
fn grow(size: StructSize, list: ListReader<'_>) -> StructSize
    ensures { result ≡ grown_size size (list_of list.entry) }
{
    match list.found() {
        Found::Numbers(_, _) => StructSize {
            data_words: size.data_words.max(1),
            pointers: size.pointers,
        },
        Found::Pointers(_) => StructSize {
            data_words: size.data_words,
            pointers: size.pointers.max(1),
        },
        Found::Composite(own, _) => StructSize {
            data_words: size.data_words.max(own.data_words),
            pointers: size.pointers.max(own.pointers),
        },
        Found::Null | Found::Bad(_) | Found::Struct(_) | Found::Voids(_) | Found::Bits(_, _) =>
            size,
    }
}

/// Makes the root of a message the spliced list, of elements of a size that both lists have, or of structs.
fn splice_as(
    arena: &mut Arena,
    splice: Splice<'_>,
    kind: ElementSize,
    size: StructSize,
) -> Result<()>
    requires inside { 0 < word_count (segment arena.old) }
    requires within { splice.at + splice.removed ≤ list_length (list_of splice.old) }
    requires pointers { ArePointers kind (splice_seen splice) }
    ensures message { OnOk result (IsMessage arena.new) }
    ensures tree { OnOk result (message_tree arena.new ≡ spliced_as kind size (splice_seen splice.entry)) }
    ensures sound { OnOk result (made_refusal (spliced_as kind size (splice_seen splice.entry)) ≡ None) }
    ensures cause { IfErr result (λ e. e.kind ≢ OutOfMemory
        → made_refusal (spliced_as kind size (splice_seen splice.entry)) ≡ Some e.kind) }
{
    match kind {
        ElementSize::Void => splice_voids(arena, splice),
        ElementSize::Bit => splice_bits(arena, splice),
        ElementSize::Byte => splice_numbers::<u8>(arena, splice, ElementSize::Byte),
        ElementSize::TwoBytes => splice_numbers::<u16>(arena, splice, ElementSize::TwoBytes),
        ElementSize::FourBytes => splice_numbers::<u32>(arena, splice, ElementSize::FourBytes),
        ElementSize::EightBytes => splice_numbers::<u64>(arena, splice, ElementSize::EightBytes),
        ElementSize::Pointer => splice_pointers(arena, splice),
        ElementSize::InlineComposite => {
            let size = grow(grow(size, splice.old), splice.added);
            splice_structs(arena, splice, size)
        }
    }
}

/// A message whose root is the list that is left of the first one when elements are taken out of it, with those of the
/// second in their place. Elements are carried whole, with what no schema knows of: structs have the largest size of
/// those in both lists and of the one that is given, with zeros and nulls after what they had. Elements that both lists
/// have of the size that is asked stay so; else all become structs, as those of a newer schema's list are.
///
/// Refused with `WrongElementSize` where structs are made and a list is of bits; with `SizePastFormat` for 2^29 elements
/// or more, or where structs would take 2^29 words or more; with `BadPointer`, `TooDeep` or `CapabilityPointer` where a
/// pointer that is carried can't be followed, by the first of these in preorder; and with `OutOfMemory`.
///
/// # Conditions
///
/// The elements that are taken out lie within the first list.
pub fn splice_lists(
    alloc: Global,
    splice: Splice<'_>,
    asked: ElementSize,
    size: StructSize,
) -> Result<Arena>
    requires { splice.at + splice.removed ≤ list_length (list_of splice.old) }
    ensures message { IfOk result IsMessage }
    ensures tree { IfOk result (λ m. message_tree m ≡ spliced_list asked size (splice_seen splice.entry)) }
    ensures sound { OnOk result (splice_refusal asked size (splice_seen splice.entry) ≡ None) }
    ensures cause { IfErr result (λ e. e.kind ≢ OutOfMemory
        → splice_refusal asked size (splice_seen splice.entry) ≡ Some e.kind) }
{
    let old = splice.old.get_element_size();
    let added = splice.added.get_element_size();
    let kind = get_common_size(asked, old, added);
    if get_number(kind) == 7 && (get_number(old) == 1 || get_number(added) == 1) {
        return Err(Error::from(ErrorKind::WrongElementSize));
    }
    let mut made = Arena::new(alloc)?;
    splice_as(&mut made, splice, kind, size)?;
    Ok(made)
}
