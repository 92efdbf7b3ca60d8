//! Untyped pointers of a message, measured, cleared and written behind; and defaults in the place of nulls.
ghost use Rattle.std.specs.Prelude.{Err, IfErr, IfOk, IsOk, OnOk, length, slice_set, ◌<◌, ◌≡◌};
ghost use Rattle.capnp_wire.specs.Depth.{IsBelow, memory_depth};
ghost use Rattle.capnp_wire.specs.Reading.{as_data, as_text};
ghost use Rattle.capnp_wire.specs.Standing.{tree_of};
ghost use Rattle.capnp_wire.specs.Tree.{Null};
ghost use Rattle.capnp_wire.specs.Words.{words_of};
ghost use Rattle.capnp_arena.specs.Message.{IsMessage, message_tree};
ghost use Rattle.capnp_arena.specs.Segment.{segment};
ghost use Rattle.capnp_arena.specs.Shape.{word_count};
ghost use Rattle.capnp_base.specs.AnyPointer.{pointer_of};
ghost use Rattle.capnp_base.specs.Traits.{tree_or};
ghost use Rattle.capnp_builders.specs.Blobs.{bytes_in};
ghost use Rattle.capnp_builders.specs.Pointers.{IsUntypedPointer, arena_behind, untyped_tree, untyped_word};

use capnp_arena::handles::PointerBuilder;
use capnp_arena::message::Builder;
use capnp_builders::traits::set_and_get;
use capnp_builders::{any_pointer, data, text};
use capnp_wire::PointerReader;
use capnp_wire::error::Result;

/// The words of all that a pointer leads to. Refused as `target_size`.
///
/// # Conditions
///
/// A tree of the message stands at the pointer (`IsUntypedPointer`).
pub fn words_behind(pointer: &any_pointer::Builder<'_>) -> Result<u64>
    requires { IsUntypedPointer pointer.now }
    ensures words { IfOk result (λ n. n ≡ words_of (untyped_tree pointer.now)) }
    ensures succeeds { IsBelow memory_depth (untyped_tree pointer.now) → IsOk result }
{
    if pointer.is_null() {
        return Ok(0);
    }
    Ok(pointer.target_size()?.word_count)
}

/// Makes a pointer null, and reads it.
///
/// # Conditions
///
/// The pointer's word lies inside the message's segment.
pub fn read_cleared<'a>(pointer: any_pointer::Builder<'a>) -> any_pointer::Reader<'a>
    requires { untyped_word pointer < word_count (segment (arena_behind pointer).now) }
    ensures { tree_of (pointer_of result) ≡ Null }
{
    let mut pointer = pointer;
    pointer.clear();
    pointer.into_reader()
}

/// Writes the first byte of the data at a pointer, where there is one. Refused as the read of data.
///
/// # Conditions
///
/// A tree of the message stands at the pointer (`IsUntypedPointer`).
pub fn with_first_byte<'a>(pointer: any_pointer::Builder<'a>, byte: u8) -> Result<&'a [u8]>
    requires { IsUntypedPointer pointer }
    ensures data { IfOk result (λ bytes. bytes.now ≡ slice_set (bytes_in (as_data (untyped_tree pointer.entry))) 0 byte) }
    ensures refused { IfErr result (λ e. as_data (untyped_tree pointer.entry) ≡ Err e.kind) }
{
    let mut bytes = pointer.get_as::<data::Builder<'a>>()?;
    if !bytes.is_empty() {
        bytes.set(0, byte);
    }
    Ok(bytes.into_reader())
}

/// Sets a pointer to a string, and gets that.
///
/// # Conditions
///
/// The pointer's word lies inside the message's segment.
pub fn set_and_get_string<'a>(pointer: PointerBuilder<'a>, string: &str) -> Result<text::Reader<'a>>
    requires { pointer.at < word_count (segment pointer.arena.now) }
    ensures { IfOk result (λ text. text.0.now ≡ string.now) }
{
    set_and_get::<text::Owned, &str>(pointer, string)
}

/// How many bytes the text at a message's root has, of which a null becomes a copy of the default first. Refused as
/// `text::copy_default`, and as the read of a text.
///
/// # Conditions
///
/// A tree stands at the message's root (`IsMessage`).
pub fn count_text_or_default(
    message: &mut Builder,
    default: Option<PointerReader<'_>>,
) -> Result<usize>
    requires { IsMessage message.old }
    ensures message { OnOk result (IsMessage message.new) }
    ensures tree { OnOk result (message_tree message.new ≡ tree_or (message_tree message.old) default.entry) }
    ensures count { IfOk result (λ n. n
        ≡ length (bytes_in (as_text (tree_or (message_tree message.old) default.entry)))) }
{
    text::copy_default(message.root(), default)?;
    Ok(message.get_text(0)?.len())
}

/// The same of data.
///
/// # Conditions
///
/// A tree stands at the message's root (`IsMessage`).
pub fn count_data_or_default(
    message: &mut Builder,
    default: Option<PointerReader<'_>>,
) -> Result<usize>
    requires { IsMessage message.old }
    ensures message { OnOk result (IsMessage message.new) }
    ensures tree { OnOk result (message_tree message.new ≡ tree_or (message_tree message.old) default.entry) }
    ensures count { IfOk result (λ n. n
        ≡ length (bytes_in (as_data (tree_or (message_tree message.old) default.entry)))) }
{
    data::copy_default(message.root(), default)?;
    Ok(message.get_data(0)?.len())
}
