//! What a pointer that is built can be set to.
ghost use Rattle.std.specs.Prelude.{◌+◌, ◌<◌, ◌≡◌, ◌≤◌, IfErr, None, OnErr, OnOk, false, length};
ghost use Rattle.capnp_device.specs.declared.error.Error.{Error};
ghost use Rattle.capnp_wire.specs.Edits.{IsRoomRefusal};
ghost use Rattle.capnp_wire.specs.Locate.{words_past_format};
ghost use Rattle.capnp_wire.specs.Tree.{Numbers, Tree};
ghost use Rattle.capnp_wire.specs.WellFormed.{IsWellFormed};
ghost use Rattle.capnp_wire.specs.Words.{first_fault};
ghost use Rattle.capnp_arena.specs.Frame.{LeavesPointer};
ghost use Rattle.capnp_arena.specs.Forest.{tree};
ghost use Rattle.capnp_arena.specs.Segment.{segment};
ghost use Rattle.capnp_arena.specs.Shape.{word_count};
ghost use Rattle.capnp_base.specs.Text.{text_tree};

use capnp_arena::arena::Arena;
use capnp_arena::handles::PointerBuilder;
use capnp_base::{any_pointer, data, text};
use capnp_wire::error::Result;

/// What a pointer to an `R` can be set to.
pub trait SetterInput<R> {
    // The tree that the pointer has once it is set.
    ghost set_tree: { Self → Tree };

    // Why it is not set.
    ghost set_refusal: { Self → Error → Type 0 };

    /// Sets the pointer. A refusal changes nothing.
    ///
    /// # Conditions
    ///
    /// The pointer's word lies inside the message's segment. `canonicalize` is false.
    fn set_pointer_builder(
        builder: PointerBuilder<'_>,
        input: Self,
        canonicalize: bool,
    ) -> Result<()>
        requires inside { builder.at < word_count (segment builder.arena.now) }
        requires as_it_stands { canonicalize ≡ false }
        ensures frame { OnOk result (LeavesPointer builder.entry.at builder.entry.arena.now builder.exit.0.now) }
        ensures tree { OnOk result (tree (segment builder.exit.0.now) builder.entry.at ≡ set_tree input) }
        ensures formed { OnOk result (IsWellFormed (set_tree input)) }
        ensures sound { OnOk result (first_fault (set_tree input) ≡ None) }
        ensures refused { OnErr result (segment builder.exit.0.now ≡ segment builder.entry.arena.now) }
        ensures cause { IfErr result (set_refusal input) };
}

/// Makes a pointer lead to a text of these bytes.
fn set_text(arena: &mut Arena, at: usize, bytes: &[u8]) -> Result<()>
    requires { at < word_count (segment arena.old) }
    ensures frame { OnOk result (LeavesPointer at arena.old arena.new) }
    ensures tree { OnOk result (tree (segment arena.new) at ≡ text_tree bytes.now) }
    ensures formed { OnOk result (IsWellFormed (text_tree bytes.now)) }
    ensures refused { OnErr result (segment arena.new ≡ segment arena.old) }
    ensures cause { IfErr result (λ error. IsRoomRefusal error (words_past_format ≤ length bytes.now + 1)) }
{
    arena.set_text(at, bytes)
}

impl<'a> SetterInput<text::Owned> for text::Reader<'a> {
    ghost set_tree = { λ input. text_tree input.0.now };

    ghost set_refusal = { λ input error. IsRoomRefusal error (words_past_format ≤ length input.0.now + 1) };

    fn set_pointer_builder(
        builder: PointerBuilder<'_>,
        input: text::Reader<'a>,
        _canonicalize: bool,
    ) -> Result<()> {
        let PointerBuilder { arena, at } = builder;
        set_text(arena, at, input.as_bytes())
    }
}

impl<'a> SetterInput<text::Owned> for &'a str {
    ghost set_tree = { λ input. text_tree input.now };

    ghost set_refusal = { λ input error. IsRoomRefusal error (words_past_format ≤ length input.now + 1) };

    fn set_pointer_builder(
        builder: PointerBuilder<'_>,
        input: &'a str,
        _canonicalize: bool,
    ) -> Result<()> {
        let PointerBuilder { arena, at } = builder;
        set_text(arena, at, input.as_bytes())
    }
}

impl<'a> SetterInput<data::Owned> for &'a [u8] {
    ghost set_tree = { λ input. Numbers 1 input.now };

    ghost set_refusal = { λ input error. IsRoomRefusal error (words_past_format ≤ length input.now) };

    fn set_pointer_builder(
        builder: PointerBuilder<'_>,
        input: &'a [u8],
        _canonicalize: bool,
    ) -> Result<()> {
        let PointerBuilder { arena, at } = builder;
        arena.set_data(at, input)
    }
}
