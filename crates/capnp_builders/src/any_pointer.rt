//! Untyped pointers as they are built: what stands there is asked with a type.
ghost use Rattle.std.specs.Prelude.{None, IfErr, IfOk, IsOk, OnErr, OnOk, ◌<◌, ◌≡◌};
ghost use Rattle.std.specs.Borrow.{sem};
ghost use Rattle.capnp_device.specs.declared.error.ErrorKind.TheVariants.{OutOfMemory};
ghost use Rattle.capnp_wire.specs.Depth.{IsBelow, memory_depth, message_levels};
ghost use Rattle.capnp_wire.specs.Reading.{is_null_tree};
ghost use Rattle.capnp_wire.specs.Standing.{levels_of, tree_of};
ghost use Rattle.capnp_wire.specs.Total.{IsSize};
ghost use Rattle.capnp_wire.specs.Tree.{Null};
ghost use Rattle.capnp_wire.specs.WellFormed.{IsWellFormed};
ghost use Rattle.capnp_wire.specs.Words.{first_fault, words_of};
ghost use Rattle.capnp_base.specs.AnyPointer.{pointer_of};
ghost use Rattle.capnp_base.specs.ReadBack.{pointer_read_back};
ghost use Rattle.capnp_arena.specs.Frame.{LeavesPointer};
ghost use Rattle.capnp_arena.specs.Forest.{Changes, tree};
ghost use Rattle.capnp_arena.specs.Same.{IsCutOf};
ghost use Rattle.capnp_arena.specs.Segment.{segment};
ghost use Rattle.capnp_arena.specs.Shape.{word_count};
ghost use Rattle.capnp_builders.specs.Pointers.{IsUntypedPointer, arena_behind, untyped_tree, untyped_word};
ghost use Rattle.capnp_builders.specs.Steps.Pointers.{LendsPointer};

use crate::traits::{self, FromPointerBuilder, SetterInput};
use capnp_arena::arena::Arena;
use capnp_arena::handles::PointerBuilder;
pub use capnp_base::any_pointer::{Owned, Reader};
use capnp_wire::PointerReader;
use capnp_wire::error::Result;
use capnp_wire::size::MessageSize;

impl<'a> traits::Owned<'a> for Owned {
    type Reader = Reader<'a>;

    type Builder = Builder<'a>;

    ghost same = { λ x y. tree_of (pointer_of y) ≡ tree_of (pointer_of x) };

    ghost set_is_read = { pointer_read_back };
}

/// A pointer that is built, of whatever type.
#[derive(Drop)]
pub struct Builder<'a> {
    pub arena: &'a mut Arena,
    /// The pointer's word.
    pub at: usize,
}

impl<'a> Builder<'a> {
    /// An untyped pointer that stands on a pointer's builder.
    pub fn new(builder: PointerBuilder<'a>) -> Builder<'a>
        ensures behind { arena_behind result ≡ builder.entry.arena }
        ensures at { untyped_word result ≡ builder.entry.at }
    {
        let PointerBuilder { arena, at } = builder;
        Builder { arena, at }
    }

    /// The handle of the pointer.
    pub fn into_pointer(self) -> PointerBuilder<'a>
        ensures behind { result.arena ≡ arena_behind self.entry }
        ensures at { result.at ≡ untyped_word self.entry }
    {
        let Builder { arena, at } = self;
        PointerBuilder { arena, at }
    }

    /// This pointer for a shorter time. What is left there is what this builder has then.
    pub fn reborrow(&mut self) -> Builder<'_>
        ensures* lends { sem 𝓛 (LendsPointer self.entry (arena_behind result)) }
        ensures now { (arena_behind result).now ≡ (arena_behind self.old).now }
        ensures at { untyped_word result ≡ untyped_word self.old }
    {
        let at = self.at;
        let arena = &mut *self.arena;
        Builder { arena, at }
    }

    /// Whether the pointer is null.
    ///
    /// # Conditions
    ///
    /// A tree of the message stands at the pointer (`IsUntypedPointer`).
    pub fn is_null(&self) -> bool
        requires { IsUntypedPointer self.now }
        ensures { result ≡ is_null_tree (untyped_tree self.now) }
    {
        self.arena.is_null(self.at)
    }

    /// The size of all that the pointer leads to, without the pointer itself: 0 words for a null. There are no
    /// capabilities. Takes no memory.
    ///
    /// Refused with `OutOfMemory` exactly where the pointer leads more than 129 levels down.
    ///
    /// # Conditions
    ///
    /// A tree of the message stands at the pointer (`IsUntypedPointer`).
    pub fn target_size(&self) -> Result<MessageSize>
        requires { IsUntypedPointer self.now }
        ensures size { IfOk result (λ size. IsSize size None (words_of (untyped_tree self.now))) }
        ensures succeeds { IsBelow memory_depth (untyped_tree self.now) → IsOk result }
        ensures cause { IfErr result (λ e. (e.kind ≡ OutOfMemory)
            × (IsBelow memory_depth (untyped_tree self.now) → ⊥)) }
    {
        self.arena.target_size(self.at)
    }

    /// What stands at the pointer, built as a `T`, without a default. Refused as `T`'s get.
    ///
    /// # Conditions
    ///
    /// A tree of the message stands at the pointer (`IsUntypedPointer`).
    pub fn get_as<T: FromPointerBuilder<'a>>(self) -> Result<T>
        requires { IsUntypedPointer self }
        ensures same { IfOk result (λ b. (T.behind b).ghost_name ≡ (arena_behind self.entry).ghost_name) }
        ensures at { IfOk result (λ b. T.word b ≡ untyped_word self.entry) }
        ensures frame { IfOk result (λ b. LeavesPointer (untyped_word self.entry) (arena_behind self.entry).now
            (T.behind b).now) }
        ensures tree { IfOk result (λ b. tree (segment (T.behind b).now) (untyped_word self.entry)
            ≡ untyped_tree self.entry) }
        ensures now { IfOk result (T.stands (untyped_tree self.entry)) }
        ensures refused { IfErr result (T.refuses (untyped_tree self.entry) None) }
    {
        T::get_from_pointer(self.into_pointer(), None)
    }

    /// Starts the pointer anew as a `T` of no elements. Refused as `T`'s start.
    ///
    /// # Conditions
    ///
    /// The pointer's word lies inside the message's segment.
    pub fn init_as<T: FromPointerBuilder<'a>>(self) -> Result<T>
        requires { untyped_word self < word_count (segment (arena_behind self).now) }
        ensures same { IfOk result (λ b. (T.behind b).ghost_name ≡ (arena_behind self.entry).ghost_name) }
        ensures at { IfOk result (λ b. T.word b ≡ untyped_word self.entry) }
        ensures frame { IfOk result (λ b. LeavesPointer (untyped_word self.entry) (arena_behind self.entry).now
            (T.behind b).now) }
        ensures tree { IfOk result (λ b. tree (segment (T.behind b).now) (untyped_word self.entry) ≡ T.started 0) }
        ensures now { IfOk result (T.starts 0) }
        ensures refused { IfErr result (T.new_refusal 0) }
    {
        T::init_pointer(self.into_pointer(), 0)
    }

    /// Starts the pointer anew as a `T` of so many elements. Refused as `T`'s start.
    ///
    /// # Conditions
    ///
    /// The pointer's word lies inside the message's segment.
    pub fn initn_as<T: FromPointerBuilder<'a>>(self, size: u32) -> Result<T>
        requires { untyped_word self < word_count (segment (arena_behind self).now) }
        ensures same { IfOk result (λ b. (T.behind b).ghost_name ≡ (arena_behind self.entry).ghost_name) }
        ensures at { IfOk result (λ b. T.word b ≡ untyped_word self.entry) }
        ensures frame { IfOk result (λ b. LeavesPointer (untyped_word self.entry) (arena_behind self.entry).now
            (T.behind b).now) }
        ensures tree { IfOk result (λ b. tree (segment (T.behind b).now) (untyped_word self.entry) ≡ T.started size) }
        ensures now { IfOk result (T.starts size) }
        ensures refused { IfErr result (T.new_refusal size) }
    {
        T::init_pointer(self.into_pointer(), size)
    }

    /// Sets the pointer. A refusal changes nothing. Refused as the set of `T`.
    ///
    /// # Conditions
    ///
    /// The pointer's word lies inside the message's segment.
    pub fn set_as<R, T: SetterInput<R>>(&mut self, value: T) -> Result<()>
        requires { untyped_word self.old < word_count (segment (arena_behind self.old).now) }
        ensures same { (arena_behind self.new).ghost_name ≡ (arena_behind self.old).ghost_name }
        ensures at { untyped_word self.new ≡ untyped_word self.old }
        ensures forest { OnOk result (IsUntypedPointer self.new) }
        ensures stays { IsUntypedPointer self.old → IsUntypedPointer self.new }
        ensures tree { OnOk result (untyped_tree self.new ≡ T.set_tree value) }
        ensures changes { OnOk result (Changes (untyped_word self.old) (segment (arena_behind self.old).now)
            (segment (arena_behind self.new).now)) }
        ensures well_formed { OnOk result (IsWellFormed (untyped_tree self.new)) }
        ensures sound { OnOk result (first_fault (untyped_tree self.new) ≡ None) }
        ensures refused { OnErr result (segment (arena_behind self.new).now ≡ segment (arena_behind self.old).now) }
        ensures cause { IfErr result (T.set_refusal value) }
    {
        let at = self.at;
        let arena = &mut *self.arena;
        T::set_pointer_builder(PointerBuilder { arena, at }, value, false)?;
        Ok(())
    }

    /// Makes the pointer null.
    ///
    /// # Conditions
    ///
    /// The pointer's word lies inside the message's segment.
    pub fn clear(&mut self)
        requires { untyped_word self.old < word_count (segment (arena_behind self.old).now) }
        ensures same { (arena_behind self.new).ghost_name ≡ (arena_behind self.old).ghost_name }
        ensures at { untyped_word self.new ≡ untyped_word self.old }
        ensures forest { IsUntypedPointer self.new }
        ensures tree { untyped_tree self.new ≡ Null }
        ensures changes { Changes (untyped_word self.old) (segment (arena_behind self.old).now)
            (segment (arena_behind self.new).now) }
    {
        self.arena.clear(self.at);
    }

    /// A reader of the pointer for as long as the builder would be there, with 64 levels. Its tree is cut off past
    /// 129 levels, which only walks of a whole tree can see.
    ///
    /// # Conditions
    ///
    /// A tree of the message stands at the pointer (`IsUntypedPointer`).
    pub fn into_reader(self) -> Reader<'a>
        requires { IsUntypedPointer self }
        ensures cut { IsCutOf (tree_of (pointer_of result)) (untyped_tree self.entry) }
        ensures tree { IsBelow memory_depth (untyped_tree self.entry) → tree_of (pointer_of result) ≡ untyped_tree self.entry }
        ensures levels { levels_of (pointer_of result) ≡ message_levels }
    {
        let Builder { arena, at } = self;
        Reader::new(arena.get_pointer_reader(at))
    }
}

impl<'a> FromPointerBuilder<'a> for Builder<'a> {
    ghost behind = { arena_behind };

    ghost word = { untyped_word };

    ghost started = { λ _. Null };

    ghost starts = { λ _ builder. IsUntypedPointer builder × (untyped_tree builder ≡ Null) };

    ghost new_refusal = { λ _ _. ⊥ };

    ghost stands = { λ tree builder. IsUntypedPointer builder × (untyped_tree builder ≡ tree) };

    ghost refuses = { λ _ _ _. ⊥ };

    ghost has_defaults = { ⊥ };

    // The builder stands on the same pointer.
    fn init_pointer(builder: PointerBuilder<'a>, _length: u32) -> Result<Builder<'a>> {
        let PointerBuilder { arena, at } = builder;
        arena.clear(at);
        Ok(Builder { arena, at })
    }

    fn get_from_pointer(
        builder: PointerBuilder<'a>,
        _default: Option<PointerReader<'a>>,
    ) -> Result<Builder<'a>> {
        let PointerBuilder { arena, at } = builder;
        Ok(Builder { arena, at })
    }
}
