//! What handles of what is built have in common, and what a pointer can be set to.
//!
//! A clause speaks of the tree that a pointer leads to. Each trait has ghost members that say what its calls answer in
//! these terms, so that generic code knows it too.
ghost use Rattle.std.specs.Prelude.{ℕ, IfErr, IfOk, IsOkAnd, IsSome, Option, Result, ◌<◌, ◌≡◌};
ghost use Rattle.std.specs.Borrow.{MutBor, sem};
ghost use Rattle.capnp_device.specs.declared.error.Error.{Error};
ghost use Rattle.capnp_wire.specs.Depth.{IsBelow, memory_depth};
ghost use Rattle.capnp_wire.specs.Tree.{Tree};
ghost use Rattle.capnp_wire.specs.declared.pointer_reader.PointerReader.{PointerReader};
ghost use Rattle.capnp_base.specs.Traits.{tree_or};
ghost use Rattle.capnp_arena.specs.Frame.{LeavesPointer};
ghost use Rattle.capnp_arena.specs.Forest.{Forest, tree};
ghost use Rattle.capnp_arena.specs.Segment.{segment};
ghost use Rattle.capnp_arena.specs.Shape.{word_count};
ghost use Rattle.capnp_arena.specs.declared.arena.Arena.{Arena};
ghost use Rattle.capnp_builders.specs.Steps.Rests.{Rests};

use capnp_arena::handles::{PointerBuilder, StructBuilder};
use capnp_base::introspect::Introspect;
pub use capnp_base::traits::{FromPointerReader, HasStructSize, IntoInternalStructReader};
pub use capnp_slots::setter::SetterInput;
use capnp_wire::error::Result;
use capnp_wire::{PointerReader, StructReader};

/// What is built at a pointer. What was handed out is stated as it stands at the return, with the message behind it:
/// what the message is left as is known by its reference (`same`), and where the call is refused by `rests`.
pub trait FromPointerBuilder<'a>: Sized {
    // The message behind what is handed out.
    ghost behind: { Self → MutBor Arena };

    // The word of its pointer.
    ghost word: { Self → ℕ };

    // The tree of a pointer that was started anew with so many elements.
    ghost started: { ℕ → Tree };

    // What is handed out of it.
    ghost starts: { ℕ → Self → Type 0 };

    // Why it is not started anew.
    ghost new_refusal: { ℕ → Error → Type 0 };

    // What is handed out of a pointer with this tree.
    ghost stands: { Tree → Self → Type 0 };

    // Why nothing is handed out of a pointer with this tree.
    ghost refuses: { Tree → Option PointerReader → Error → Type 0 };

    // Whether a default can be copied into a null.
    ghost has_defaults: { Type 0 } = { Unit {0} };

    /// Starts the pointer anew with so many elements, all zero or null. A refusal changes nothing.
    ///
    /// # Conditions
    ///
    /// The pointer's word lies inside the message's segment.
    fn init_pointer(builder: PointerBuilder<'a>, length: u32) -> Result<Self>
        requires inside { builder.at < word_count (segment builder.arena.now) }
        ensures* rests { sem 𝓛 (Rests builder.entry.arena behind result) }
        ensures same { IfOk result (λ b. (behind b).ghost_name ≡ builder.entry.arena.ghost_name) }
        ensures at { IfOk result (λ b. word b ≡ builder.entry.at) }
        ensures frame { IfOk result (λ b. LeavesPointer builder.entry.at builder.entry.arena.now (behind b).now) }
        ensures tree { IfOk result (λ b. tree (segment (behind b).now) builder.entry.at ≡ started length) }
        ensures now { IfOk result (starts length) }
        ensures refused { IfErr result (new_refusal length) };

    /// Hands out what stands at the pointer. Where the pointer is null and a default is given, the default is copied
    /// there first; a null without one stays null, and a refusal changes nothing.
    ///
    /// # Conditions
    ///
    /// A tree of the message stands at the pointer (`Forest`). A default is given only where the type has some
    /// (`has_defaults`).
    fn get_from_pointer(
        builder: PointerBuilder<'a>,
        default: Option<PointerReader<'a>>,
    ) -> Result<Self>
        requires forest { Forest (segment builder.arena.now) builder.at }
        requires default { IsSome default → has_defaults }
        ensures* rests { sem 𝓛 (Rests builder.entry.arena behind result) }
        ensures same { IfOk result (λ b. (behind b).ghost_name ≡ builder.entry.arena.ghost_name) }
        ensures at { IfOk result (λ b. word b ≡ builder.entry.at) }
        ensures frame { IfOk result (λ b. LeavesPointer builder.entry.at builder.entry.arena.now (behind b).now) }
        ensures tree { IfOk result (λ b. tree (segment (behind b).now) builder.entry.at
            ≡ tree_or (tree (segment builder.entry.arena.now) builder.entry.at) default.entry) }
        ensures now { IfOk result (stands (tree_or
            (tree (segment builder.entry.arena.now) builder.entry.at) default.entry)) }
        ensures refused { IfErr result (refuses (tree
            (segment builder.entry.arena.now) builder.entry.at) default.entry) };
}

/// A type of values behind pointers, by its handles.
pub trait Owned<'a>: Introspect {
    type Reader: FromPointerReader<'a> + SetterInput<Self>;

    type Builder: FromPointerBuilder<'a>;

    // Whether two values that were read are the same.
    ghost same: { Self.Reader → Self.Reader → Type 0 };

    // What is set is what is read.
    ghost set_is_read: { (x : Self.Reader) (levels : ℕ) (r : Result Self.Reader Error)
        → Self.Reader.reads (Self.Reader.set_tree x) levels r → IsOkAnd r (same x) };
}

/// Sets a pointer, and reads it again: what is set is what is read. Where the pointer's tree is the one that a reader
/// would be set as, as it is for that reader itself, the answer is the same as that reader; a tree has to end within
/// 129 levels, past which it is read cut off.
///
/// Refused as the set is. The pointer is then as it was, which the set's clause says and tests show of this call: it
/// has no such clause of its own, since its answer borrows from the pointer.
///
/// # Conditions
///
/// The pointer's word lies inside the message's segment.
pub fn set_and_get<'a, O: Owned<'a>, S: SetterInput<O>>(
    builder: PointerBuilder<'a>,
    input: S,
) -> Result<O::Reader>
    requires inside { builder.at < word_count (segment builder.arena.now) }
    ensures same { IfOk result (λ y. (x : O.Reader) → IsBelow memory_depth (S.set_tree input)
        → S.set_tree input ≡ O.Reader.set_tree x → O.same x y) }
    ensures refused { IfErr result (λ error. (x : O.Reader) → IsBelow memory_depth (S.set_tree input)
        → S.set_tree input ≡ O.Reader.set_tree x → S.set_refusal input error) }
{
    let PointerBuilder { arena, at } = builder;
    S::set_pointer_builder(PointerBuilder { arena, at }, input, false)?;
    O::Reader::get_from_pointer(&arena.into_pointer_reader(at), None)
}

/// A struct type, by its handles.
pub trait OwnedStruct<'a>: Introspect {
    type Reader: From<StructReader<'a>> + SetterInput<Self> + IntoInternalStructReader<'a>;

    type Builder: From<StructBuilder<'a>> + HasStructSize;
}
