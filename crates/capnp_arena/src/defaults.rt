//! Pointers of which a null is filled from a default.
//!
//! The default is copied in the place of the null first. What was made of it is taken back where it is refused after
//! that.

use crate::arena::{Arena, Place};
use crate::list_reads::ListTarget;
use crate::spell::put_word;
use capnp_device::error::{Error, ErrorKind, Result};
use capnp_wire::PointerReader;
use capnp_wire::fault::refuse;
use capnp_wire::laws::pointer_is_well_formed;
use capnp_wire::parts::due::{refuse_as_list, refuse_as_struct, refuse_as_structs};
use capnp_wire::parts::pointer::look;
use capnp_wire::size::{ElementSize, StructSize};

impl Arena {
    ghost use Rattle.std.specs.Prelude.{IfErr, IfOk, IsOk, None, OnErr, OnOk, false, true, take, ◌+◌, ◌*◌, ◌/◌, ◌<◌, ◌≡◌, ◌≢◌, ◌≤◌};
    ghost use Rattle.capnp_wire.specs.Defaults.{default_tree, filled_list_refusal, filled_struct, filled_struct_refusal, filled_structs, filled_structs_refusal, list_default_refusal, list_refusal, or_default, struct_default_refusal, structs_default_refusal, takes_default};
    ghost use Rattle.capnp_wire.specs.Steps.Defaults.{taken_default};
    ghost use Rattle.capnp_wire.specs.Edits.{HoldsStruct, IsDueRefusal, extended_struct, struct_in};
    ghost use Rattle.capnp_wire.specs.Elements.{or_empty};
    ghost use Rattle.capnp_wire.specs.Reading.{is_null_tree};
    ghost use Rattle.capnp_wire.specs.Standing.{tree_of};
    ghost use Rattle.capnp_wire.specs.StructLists.{HoldsStructs, struct_list};
    ghost use Rattle.capnp_arena.specs.Listed.{list_shape, listed_tree};
    ghost use Rattle.capnp_wire.specs.Encoding.{spelled_number};
    ghost use Rattle.capnp_wire.specs.Steps.Filling.{bytes_with};
    ghost use Rattle.capnp_wire.specs.Place.{struct_tree};
    ghost use Rattle.capnp_arena.specs.Forest.{Changes, Forest, tree};
    ghost use Rattle.capnp_arena.specs.Segment.{segment};
    ghost use Rattle.capnp_arena.specs.Shape.{StructIn, shape_at, word_count};

    /// Takes back what was made at the pointer at a word, which was null when there were so many words.
    fn restore(&mut self, at: usize, words: usize)
        requires { (at < words) × (words ≤ word_count (segment self.old)) }
        ensures { segment self.new ≡ bytes_with (8 * at) (spelled_number 8 0) (take (8 * words) (segment self.old)) }
    {
        self.cut(words);
        put_word(&mut self.bytes, 8 * at, 0);
    }

    /// The default that is copied: where it is not null itself, and the pointer at a word is null.
    #[inline(always)]
    fn take_default<'d>(
        &self,
        at: usize,
        default: Option<PointerReader<'d>>,
    ) -> Option<PointerReader<'d>>
        requires { Forest (segment self.now) at }
        ensures { result ≡ taken_default default.entry (tree (segment self.now) at) }
    {
        let reader = default?;
        if self.is_null(at) && !reader.is_null() {
            Some(reader)
        } else {
            None
        }
    }

    /// Makes the pointer at a word, which is null, one to a copy of a default as a struct of at least a size.
    ///
    /// Refused with `WrongPointerKind` for a list, and else as `copy_from`; then nothing has changed.
    fn put_struct(
        &mut self,
        at: usize,
        size: StructSize,
        default: PointerReader<'_>,
    ) -> Result<Place>
        requires forest { Forest (segment self.old) at }
        requires null { is_null_tree (tree (segment self.old) at) ≡ true }
        ensures forest { IfOk result (λ _. Forest (segment self.new) at) }
        ensures place { IfOk result (λ p. shape_at (segment self.new) at ≡ StructIn p.start p.data_words p.pointers) }
        ensures tree { IfOk result (λ _. tree (segment self.new) at
            ≡ struct_tree (extended_struct size (struct_in (tree_of default.entry)))) }
        ensures changes { IfOk result (λ _. Changes at (segment self.old) (segment self.new)) }
        ensures within { OnOk result (struct_default_refusal (tree_of default.entry) ≡ None) }
        ensures cause { IfErr result (λ e. IsDueRefusal e (struct_default_refusal (tree_of default.entry))) }
        ensures refused { OnErr result (segment self.new ≡ segment self.old) }
    {
        if let Some(kind) = refuse_as_struct(look(default.pointer())) {
            return Err(Error::from(kind));
        }
        if let Some(fault) = default.first_fault() {
            return Err(refuse(fault));
        }
        let words = self.count_words();
        self.copy_from(at, default)?;
        match self.get_struct(at, size) {
            Ok(place) => Ok(place),
            Err(refused) => {
                self.restore(at, words);
                Err(refused)
            }
        }
    }

    /// The struct that the pointer at a word leads to, with at least a size: a null becomes a copy of the default
    /// first, where there is one, or else a struct of that size, all zero and null. What is smaller becomes a larger
    /// one at the end, with zeros and nulls after what it had.
    ///
    /// Refused with `WrongPointerKind` for a list, which of a null the default may be; of a null also with
    /// `BadPointer`, `TooDeep` or `CapabilityPointer` where a pointer in the default can't be followed, by the first of
    /// these in preorder; and else with `OutOfMemory`. Then nothing has changed. A struct that is large enough takes no
    /// memory and is never refused.
    ///
    /// # Conditions
    ///
    /// The pointer at the word leads to a tree of this message, no two of whose parts share a word (`Forest`).
    pub fn get_struct_or_default(
        &mut self,
        at: usize,
        size: StructSize,
        default: Option<PointerReader<'_>>,
    ) -> Result<Place>
        requires forest { Forest (segment self.old) at }
        ensures forest { IfOk result (λ _. Forest (segment self.new) at) }
        ensures place { IfOk result (λ p. shape_at (segment self.new) at ≡ StructIn p.start p.data_words p.pointers) }
        ensures tree { IfOk result (λ _. tree (segment self.new) at
            ≡ struct_tree (filled_struct (default_tree default.entry) size (tree (segment self.old) at))) }
        ensures changes { IfOk result (λ _. Changes at (segment self.old) (segment self.new)) }
        ensures within { OnOk result (filled_struct_refusal (default_tree default.entry) (tree (segment self.old) at)
            ≡ None) }
        ensures cause { IfErr result (λ e. IsDueRefusal e
            (filled_struct_refusal (default_tree default.entry) (tree (segment self.old) at))) }
        ensures refused { OnErr result (segment self.new ≡ segment self.old) }
        ensures succeeds { HoldsStruct size (tree (segment self.old) at) → IsOk result }
        ensures stays { HoldsStruct size (tree (segment self.old) at) → segment self.new ≡ segment self.old }
    {
        match self.take_default(at, default) {
            Some(reader) => self.put_struct(at, size, reader),
            None => self.get_struct(at, size),
        }
    }

    /// The list that the pointer at a word leads to, as `get_list`.
    fn enter_list(&self, at: usize, size: ElementSize) -> Result<ListTarget>
        requires forest { Forest (segment self.now) at }
        requires simple { size ≢ ElementSize.InlineComposite }
        ensures place { IfOk result (λ l. list_shape l ≡ shape_at (segment self.now) at) }
        ensures reads { IfOk result (λ l. listed_tree (tree (segment self.now) at) l
            ≡ or_empty size (tree (segment self.now) at)) }
        ensures within { OnOk result (list_refusal size (tree (segment self.now) at) ≡ None) }
        ensures cause { IfErr result (λ e. IsDueRefusal e (list_refusal size (tree (segment self.now) at))) }
        ensures succeeds { list_refusal size (tree (segment self.now) at) ≡ None → IsOk result }
    {
        self.get_list(at, size)
    }

    /// Makes the pointer at a word, which is null, one to a copy of a default that is not, as a list of elements of a
    /// size.
    ///
    /// Refused with `WrongPointerKind` for a struct, with `WrongElementSize` for a list that is not read so, and else
    /// as `copy_from`; then nothing has changed.
    fn put_list(
        &mut self,
        at: usize,
        size: ElementSize,
        default: PointerReader<'_>,
    ) -> Result<ListTarget>
        requires inside { at < word_count (segment self.old) }
        requires simple { size ≢ ElementSize.InlineComposite }
        ensures forest { IfOk result (λ _. Forest (segment self.new) at) }
        ensures place { IfOk result (λ l. list_shape l ≡ shape_at (segment self.new) at) }
        ensures tree { IfOk result (λ _. tree (segment self.new) at ≡ tree_of default.entry) }
        ensures reads { IfOk result (λ l. listed_tree (tree (segment self.new) at) l
            ≡ or_empty size (tree_of default.entry)) }
        ensures changes { IfOk result (λ _. Changes at (segment self.old) (segment self.new)) }
        ensures within { OnOk result (list_default_refusal size (tree_of default.entry) ≡ None) }
        ensures cause { IfErr result (λ e. IsDueRefusal e (list_default_refusal size (tree_of default.entry))) }
        ensures refused { OnErr result (segment self.new ≡ segment self.old) }
    {
        if let Some(kind) = refuse_as_list(size, look(default.pointer())) {
            return Err(Error::from(kind));
        }
        if let Some(fault) = default.first_fault() {
            return Err(refuse(fault));
        }
        self.copy_from(at, default)?;
        let Ok(list) = self.enter_list(at, size) else {
            unreachable!()
        };
        Ok(list)
    }

    /// The list that the pointer at a word leads to, as one of elements of a size: a null becomes a copy of the default
    /// first, where there is one, or else is a list without elements, and stays null.
    ///
    /// Refused with `WrongPointerKind` for a struct, and with `WrongElementSize` for a list that is not read so, which
    /// of a null the default may be; of a null also with `BadPointer`, `TooDeep` or `CapabilityPointer` where a pointer
    /// in the default can't be followed, by the first of these in preorder; and else with `OutOfMemory`. Then nothing
    /// has changed. Where no default is copied no memory is taken.
    ///
    /// # Conditions
    ///
    /// The pointer at the word leads to a tree of this message, no two of whose parts share a word (`Forest`). `size`
    /// is not `InlineComposite`.
    pub fn get_list_or_default(
        &mut self,
        at: usize,
        size: ElementSize,
        default: Option<PointerReader<'_>>,
    ) -> Result<ListTarget>
        requires forest { Forest (segment self.old) at }
        requires simple { size ≢ ElementSize.InlineComposite }
        ensures forest { IfOk result (λ _. Forest (segment self.new) at) }
        ensures place { IfOk result (λ l. list_shape l ≡ shape_at (segment self.new) at) }
        ensures tree { IfOk result (λ _. tree (segment self.new) at
            ≡ or_default (default_tree default.entry) (tree (segment self.old) at)) }
        ensures reads { IfOk result (λ l. listed_tree (tree (segment self.new) at) l
            ≡ or_empty size (or_default (default_tree default.entry) (tree (segment self.old) at))) }
        ensures changes { IfOk result (λ _. Changes at (segment self.old) (segment self.new)) }
        ensures within { OnOk result (filled_list_refusal (default_tree default.entry) size
            (tree (segment self.old) at) ≡ None) }
        ensures cause { IfErr result (λ e. IsDueRefusal e
            (filled_list_refusal (default_tree default.entry) size (tree (segment self.old) at))) }
        ensures refused { OnErr result (segment self.new ≡ segment self.old) }
        ensures succeeds { takes_default (default_tree default.entry) (tree (segment self.old) at) ≡ false →
            filled_list_refusal (default_tree default.entry) size (tree (segment self.old) at) ≡ None → IsOk result }
        ensures stays { takes_default (default_tree default.entry) (tree (segment self.old) at) ≡ false
            → segment self.new ≡ segment self.old }
    {
        match self.take_default(at, default) {
            Some(reader) => self.put_list(at, size, reader),
            None => self.enter_list(at, size),
        }
    }

    /// Makes the pointer at a word, which is null, one to a copy of a default that is not, as a list of structs of at
    /// least a size.
    ///
    /// Refused with `WrongPointerKind` for a struct, with `WrongElementSize` for a list of bits, with `SizePastFormat`
    /// where the structs would take 2^29 words or more, and else as `copy_from`; then nothing has changed.
    fn put_structs(
        &mut self,
        at: usize,
        size: StructSize,
        default: PointerReader<'_>,
    ) -> Result<ListTarget>
        requires forest { Forest (segment self.old) at }
        requires null { is_null_tree (tree (segment self.old) at) ≡ true }
        ensures forest { IfOk result (λ _. Forest (segment self.new) at) }
        ensures place { IfOk result (λ l. list_shape l ≡ shape_at (segment self.new) at) }
        ensures tree { IfOk result (λ _. tree (segment self.new) at ≡ struct_list size (tree_of default.entry)) }
        ensures reads { IfOk result (λ l. listed_tree (tree (segment self.new) at) l
            ≡ or_empty ElementSize.InlineComposite (struct_list size (tree_of default.entry))) }
        ensures changes { IfOk result (λ _. Changes at (segment self.old) (segment self.new)) }
        ensures within { OnOk result (structs_default_refusal size (tree_of default.entry) ≡ None) }
        ensures cause { IfErr result (λ e. IsDueRefusal e (structs_default_refusal size (tree_of default.entry))) }
        ensures refused { OnErr result (segment self.new ≡ segment self.old) }
    {
        pointer_is_well_formed(&default);
        if let Some(kind) = refuse_as_structs(size, look(default.pointer())) {
            return Err(Error::from(kind));
        }
        if let Some(fault) = default.first_fault() {
            return Err(refuse(fault));
        }
        let words = self.count_words();
        self.copy_from(at, default)?;
        match self.get_struct_list(at, size) {
            Ok(list) => Ok(list),
            Err(refused) => {
                self.restore(at, words);
                Err(refused)
            }
        }
    }

    /// The list that the pointer at a word leads to, as one of structs of at least a size: a null becomes a copy of the
    /// default first, where there is one, or else is a list without elements, and stays null. A list becomes one of
    /// structs as by `get_struct_list`.
    ///
    /// Refused with `WrongPointerKind` for a struct, with `WrongElementSize` for a list of bits, and with
    /// `SizePastFormat` where the structs would take 2^29 words or more, which of a null the default may be; of a null
    /// also with `BadPointer`, `TooDeep` or `CapabilityPointer` where a pointer in the default can't be followed, by
    /// the first of these in preorder; and else with `OutOfMemory`. Then nothing has changed. A null without a default,
    /// and a list of structs that have at least the size, take no memory and are never refused.
    ///
    /// # Conditions
    ///
    /// The pointer at the word leads to a tree of this message, no two of whose parts share a word (`Forest`).
    #[inline(always)]
    pub fn get_struct_list_or_default(
        &mut self,
        at: usize,
        size: StructSize,
        default: Option<PointerReader<'_>>,
    ) -> Result<ListTarget>
        requires forest { Forest (segment self.old) at }
        ensures forest { IfOk result (λ _. Forest (segment self.new) at) }
        ensures place { IfOk result (λ l. list_shape l ≡ shape_at (segment self.new) at) }
        ensures tree { IfOk result (λ _. tree (segment self.new) at
            ≡ filled_structs (default_tree default.entry) size (tree (segment self.old) at)) }
        ensures reads { IfOk result (λ l. listed_tree (tree (segment self.new) at) l ≡
            or_empty ElementSize.InlineComposite (filled_structs (default_tree default.entry) size
            (tree (segment self.old) at))) }
        ensures changes { IfOk result (λ _. Changes at (segment self.old) (segment self.new)) }
        ensures within { OnOk result (filled_structs_refusal (default_tree default.entry) size
            (tree (segment self.old) at) ≡ None) }
        ensures cause { IfErr result (λ e. IsDueRefusal e
            (filled_structs_refusal (default_tree default.entry) size (tree (segment self.old) at))) }
        ensures refused { OnErr result (segment self.new ≡ segment self.old) }
        ensures succeeds { takes_default (default_tree default.entry) (tree (segment self.old) at) ≡ false
            → HoldsStructs size (tree (segment self.old) at) → IsOk result }
        ensures stays { takes_default (default_tree default.entry) (tree (segment self.old) at) ≡ false
            → HoldsStructs size (tree (segment self.old) at) → segment self.new ≡ segment self.old }
    {
        match self.take_default(at, default) {
            Some(reader) => self.put_structs(at, size, reader),
            None => self.get_struct_list(at, size),
        }
    }
}
