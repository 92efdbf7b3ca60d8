//! What a struct of the segment holds, replaced by what another one does: the struct keeps its place and its size.
ghost use Rattle.std.specs.Prelude.{IfErr, None, OnErr, OnOk, replicate, take, ◌*◌, ◌++◌, ◌+◌, ◌-◌, ◌/◌, ◌≡◌, ◌≤◌, length};
ghost use Rattle.capnp_wire.specs.Edits.{IsCopyRefusal, fitted_struct};
ghost use Rattle.capnp_wire.specs.Steps.Filling.{bytes_with, with_encoded_element, with_pointers};
ghost use Rattle.capnp_wire.specs.Found.{parts_tree, pointer_trees};
ghost use Rattle.capnp_wire.specs.Standing.{struct_of};
ghost use Rattle.capnp_wire.specs.WellFormed.{AreWellFormed, IsWellFormedStruct};
ghost use Rattle.capnp_wire.specs.Words.{first_fault_of_all};
ghost use Rattle.capnp_arena.specs.Steps.Copies.{Spares, fitted_row};
ghost use Rattle.capnp_arena.specs.Forest.{PartChanges, Planted, struct_from};
ghost use Rattle.capnp_arena.specs.Segment.{segment};
ghost use Rattle.capnp_arena.specs.Shape.{StructIn, word_count};

use crate::append::get_part;
use crate::arena::{Arena, Place};
use crate::copy::fill_pointer;
use crate::spell::put_bytes;
use capnp_device::error::{Error, ErrorKind, Result};
use capnp_wire::StructReader;
use capnp_wire::laws::struct_is_well_formed;
use capnp_wire::parts::found::StructParts;
use capnp_wire::parts::pointers::{count_pointers, get_pointer};
use capnp_wire::parts::row::Pointers;

/// Zeros in the place of as many bytes from an index on.
#[inline(always)]
fn put_zeros(out: &mut Vec<u8>, at: usize, count: usize)
    requires { at + count ≤ length out.old.items }
    ensures put { out.new.items ≡ bytes_with at (replicate count 0) out.old.items }
    ensures long { length out.new.items ≡ length out.old.items }
{
    out[at..at + count].fill(0);
}

/// The bytes from an index on replaced by what fits of others, with zeros after that.
fn put_fitted(out: &mut Vec<u8>, at: usize, count: usize, bytes: &[u8])
    requires { at + count ≤ length out.old.items }
    ensures put { out.new.items ≡ bytes_with at (take count bytes.now ++ replicate
        (count - length bytes.now) 0) out.old.items }
    ensures long { length out.new.items ≡ length out.old.items }
{
    if count <= bytes.len() {
        put_bytes(out, at, &bytes[..count]);
        return;
    }
    put_bytes(out, at, bytes);
    put_zeros(out, at + bytes.len(), count - bytes.len());
}

/// Puts the first so many pointers of a row into the words from one on, and nulls where there are fewer, and appends
/// what they lead to.
fn fill_fitted(arena: &mut Arena, at: usize, pointers: Pointers<'_>, count: usize) -> Result<()>
    requires held { AreWellFormed (pointer_trees pointers) }
    requires inside { at + count ≤ word_count (segment arena.old) }
    ensures copy { OnOk result (segment arena.new
        ≡ with_pointers (8 * at) (fitted_row count (pointer_trees pointers.entry)) (segment arena.old)) }
    ensures sound { OnOk result (first_fault_of_all (fitted_row count (pointer_trees pointers.entry)) ≡ None) }
    ensures cause { IfErr result (λ e. IsCopyRefusal e
        (first_fault_of_all (fitted_row count (pointer_trees pointers.entry)))) }
    ensures kept { Spares at count (segment arena.old) (segment arena.new) }
{
    for i in 0..count {
        fill_pointer(arena, at + i, get_pointer(pointers, i))?;
    }
    Ok(())
}

/// Whether each pointer in a struct can be followed.
///
/// Refused with the reason of the first that can't, and with `OutOfMemory` where there are more words than are counted.
fn find_fault(source: &StructReader<'_>) -> Result<()>
    ensures sound { OnOk result (first_fault_of_all (struct_of source.now).pointers ≡ None) }
    ensures cause { IfErr result (λ e. IsCopyRefusal e (first_fault_of_all (struct_of source.now).pointers)) }
{
    match source.total_size() {
        Ok(_) => Ok(()),
        Err(refused) => match refused.kind {
            ErrorKind::TooLarge => Err(Error::from(ErrorKind::OutOfMemory)),
            _ => Err(refused),
        },
    }
}

impl Arena {
    /// Replaces what a struct holds by what fits of another one. Its bytes are kept beside the segment until that is
    /// done.
    fn fill_content(&mut self, place: Place, parts: StructParts<'_>) -> Result<()>
        requires inside { place.start + (place.data_words + place.pointers) ≤ word_count (segment self.old) }
        requires held { IsWellFormedStruct (parts_tree parts) }
        ensures copy { OnOk result (segment self.new
            ≡ with_encoded_element (8 * place.start)
            (fitted_struct (8 * place.data_words) place.pointers (parts_tree parts.entry)) (segment self.old)) }
        ensures sound { OnOk result (first_fault_of_all (fitted_row place.pointers (parts_tree parts.entry).pointers)
            ≡ None) }
        ensures cause { IfErr result (λ e. IsCopyRefusal e
            (first_fault_of_all (fitted_row place.pointers (parts_tree parts.entry).pointers))) }
        ensures refused { OnErr result (segment self.new ≡ segment self.old) }
    {
        let end = self.count_words();
        let data_words = place.data_words as usize;
        let pointers = place.pointers as usize;
        let size = 8 * (data_words + pointers);
        let kept = Vec::from_slice(
            *self.bytes.allocator(),
            get_part(self.bytes.as_slice(), place.start, size),
        )?;
        put_fitted(&mut self.bytes, 8 * place.start, 8 * data_words, parts.data);
        if let Err(refused) = fill_fitted(
            self,
            place.start + data_words,
            parts.pointers,
            pointers,
        ) {
            self.cut(end);
            put_bytes(&mut self.bytes, 8 * place.start, kept.as_slice());
            return Err(refused);
        }
        Ok(())
    }

    /// Replaces what a struct holds by what fits of another one, with zeros and nulls after that: the struct keeps its
    /// size.
    ///
    /// Refused with `BadPointer`, `TooDeep` or `CapabilityPointer` where a pointer in the source can't be followed, by
    /// the first of these in preorder, also where it would not fit, and with `OutOfMemory`; then nothing has changed.
    ///
    /// # Conditions
    ///
    /// The place is that of a struct of this message (`Planted`).
    pub fn copy_content_from(&mut self, place: Place, source: &StructReader<'_>) -> Result<()>
        requires planted { Planted (segment self.old) (StructIn place.start place.data_words place.pointers) }
        ensures planted { OnOk result (Planted (segment self.new)
            (StructIn place.start place.data_words place.pointers)) }
        ensures changes { OnOk result (PartChanges (StructIn place.start place.data_words place.pointers)
            (segment self.old) (segment self.new)) }
        ensures tree { OnOk result (struct_from (segment self.new) place.start place.data_words place.pointers ≡
            fitted_struct (8 * place.data_words) place.pointers (struct_of source.now)) }
        ensures sound { OnOk result (first_fault_of_all (struct_of source.now).pointers ≡ None) }
        ensures cause { IfErr result (λ e. IsCopyRefusal e (first_fault_of_all (struct_of source.now).pointers)) }
        ensures refused { OnErr result (segment self.new ≡ segment self.old) }
    {
        struct_is_well_formed(source);
        let parts = source.parts();
        if count_pointers(parts.pointers) > place.pointers as usize {
            find_fault(source)?;
        }
        self.fill_content(place, parts)?;
        Ok(())
    }
}
