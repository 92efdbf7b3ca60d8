//! Texts at untyped pointers: read beside a string, and built of letters or of a string.
ghost use Rattle.std.specs.Prelude.{[], Err, IfErr, IfOk, IsFalse, IsTrue, Ok, length, replicate, ◌++◌, ◌+◌, ◌-◌, ◌<◌, ◌≡◌, ◌≤◌, ◌↔◌};
ghost use Rattle.std.specs.Cmp.Lexicographic.{slice_cmp};
ghost use Rattle.std.specs.Ordering.{nat_cmp};
ghost use Rattle.std.specs.declared.cmp.Ordering.TheVariants.{Less};
ghost use Rattle.capnp_wire.specs.Edits.{IsRoomRefusal};
ghost use Rattle.capnp_wire.specs.Locate.{words_past_format};
ghost use Rattle.capnp_wire.specs.Reading.{as_text};
ghost use Rattle.capnp_wire.specs.Standing.{tree_of};
ghost use Rattle.capnp_arena.specs.Segment.{segment};
ghost use Rattle.capnp_arena.specs.Shape.{word_count};
ghost use Rattle.capnp_base.specs.AnyPointer.{pointer_of};
ghost use Rattle.capnp_builders.specs.Blobs.{IsBuiltText, bytes_in, text_behind, text_bytes, text_word};
ghost use Rattle.capnp_builders.specs.Pointers.{IsUntypedPointer, arena_behind, untyped_tree, untyped_word};

use capnp_builders::{any_pointer, text};
use capnp_wire::error::Result;
use std::cmp::Ordering;

/// Whether an untyped pointer leads to the text of a string. Refused as the read of a text.
pub fn leads_to_text(pointer: &any_pointer::Reader<'_>, string: &str) -> Result<bool>
    ensures is { IfOk result (λ yes. IsTrue yes ↔ (as_text (tree_of (pointer_of pointer.now)) ≡ Ok string.now)) }
    ensures refused { IfErr result (λ e. as_text (tree_of (pointer_of pointer.now)) ≡ Err e.kind) }
{
    let text = pointer.get_as::<text::Reader<'_>>()?;
    Ok(text.eq_str(string))
}

/// Whether a text comes before a string in the order of their bytes.
pub fn comes_before(text: &text::Reader<'_>, string: &str) -> bool
    ensures { IsTrue result ↔ (slice_cmp nat_cmp text.now.0.now string.now ≡ Less) }
{
    match text.cmp_str(string) {
        Ordering::Less => true,
        Ordering::Equal => false,
        Ordering::Greater => false,
    }
}

/// Replaces what stands at a pointer by a text of so many times one letter.
///
/// Refused with `SizePastFormat` for 2^29 - 1 letters or more, and else with `OutOfMemory`.
///
/// # Conditions
///
/// The pointer's word lies inside the message's segment. `letter` is below 128.
pub fn new_row_of_letters<'a>(
    pointer: any_pointer::Builder<'a>,
    count: u32,
    letter: u8,
) -> Result<text::Reader<'a>>
    requires inside { untyped_word pointer < word_count (segment (arena_behind pointer).now) }
    requires ascii { letter < 128 }
    ensures row { IfOk result (λ text. text.0.now ≡ replicate count letter) }
    ensures refused { IfErr result (λ e. IsRoomRefusal e (words_past_format ≤ count + 1)) }
{
    let mut text = pointer.initn_as::<text::Builder<'a>>(count)?;
    while text.room() > 0 {
        text.push_ascii(letter);
    }
    Ok(text.into_reader())
}

/// Makes each byte of the text at a pointer zero. Refused as the read of a text.
///
/// # Conditions
///
/// A tree of the message stands at the pointer (`IsUntypedPointer`).
pub fn wipe_text<'a>(pointer: any_pointer::Builder<'a>) -> Result<text::Reader<'a>>
    requires { IsUntypedPointer pointer }
    ensures zeros { IfOk result (λ text. text.0.now
        ≡ replicate (length (bytes_in (as_text (untyped_tree pointer.entry)))) 0) }
    ensures refused { IfErr result (λ e. as_text (untyped_tree pointer.entry) ≡ Err e.kind) }
{
    let mut text = pointer.get_as::<text::Builder<'a>>()?;
    text.clear();
    Ok(text.into_reader())
}

/// Replaces what stands at a pointer by a text of no bytes. Refused with `OutOfMemory`.
///
/// # Conditions
///
/// The pointer's word lies inside the message's segment.
pub fn new_empty_text<'a>(pointer: any_pointer::Builder<'a>) -> Result<text::Reader<'a>>
    requires { untyped_word pointer < word_count (segment (arena_behind pointer).now) }
    ensures empty { IfOk result (λ text. text.0.now ≡ []) }
    ensures refused { IfErr result (λ e. IsRoomRefusal e (words_past_format ≤ 1)) }
{
    let text = pointer.init_as::<text::Builder<'a>>()?;
    Ok(text.into_reader())
}

/// Sets a pointer to a string, and reads it as a text: this is that string.
///
/// Refused as the set, with `SizePastFormat` for 2^29 - 1 bytes or more, and else with `OutOfMemory`.
///
/// # Conditions
///
/// The pointer's word lies inside the message's segment.
pub fn set_and_read<'a>(pointer: any_pointer::Builder<'a>, string: &str) -> Result<text::Reader<'a>>
    requires { untyped_word pointer < word_count (segment (arena_behind pointer).now) }
    ensures same { IfOk result (λ text. text.0.now ≡ string.now) }
    ensures refused { IfErr result (λ e. IsRoomRefusal e (words_past_format ≤ length string.now + 1)) }
{
    let mut pointer = pointer;
    pointer.set_as::<text::Owned, &str>(string)?;
    let text = pointer.get_as::<text::Builder<'a>>()?;
    Ok(text.into_reader())
}

/// Writes a string over the start of a text, and zeros behind it, where the text is as long at least. Whether it is.
///
/// # Conditions
///
/// A text of the message, or a null, stands at the pointer (`IsBuiltText`).
pub fn write_over(text: &mut text::Builder<'_>, string: &str) -> bool
    requires { IsBuiltText text.old }
    ensures same { (text_behind text.new).ghost_name ≡ (text_behind text.old).ghost_name }
    ensures at { text_word text.new ≡ text_word text.old }
    ensures there { IsBuiltText text.new }
    ensures written { IsTrue result → text_bytes text.new
        ≡ string.now ++ replicate (length (text_bytes text.old) - length string.now) 0 }
    ensures short { IsFalse result → length (text_bytes text.old) < length string.now }
    ensures kept { IsFalse result → text_bytes text.new ≡ text_bytes text.old }
{
    if text.len() < string.len() {
        return false;
    }
    text.clear();
    text.push_str(string);
    true
}
