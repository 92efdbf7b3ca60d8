//! One element, put into the list that stands at a message's root.
ghost use Rattle.std.specs.Prelude.{IfErr, None, OnErr, OnOk, length, ◌*◌, ◌≡◌};
ghost use Rattle.capnp_wire.specs.Edits.{IsCopyRefusal, fitted_struct};
ghost use Rattle.capnp_wire.specs.Elements.{HasBit, HasNumber, HasPointer, HasStruct, with_bit_element, with_number_element, with_pointer_element, with_struct_element};
ghost use Rattle.capnp_wire.specs.Reading.{element_struct};
ghost use Rattle.capnp_wire.specs.Standing.{struct_of, tree_of};
ghost use Rattle.capnp_wire.specs.Tree.{tree_count};
ghost use Rattle.capnp_wire.specs.Words.{first_fault, first_fault_of_all};
ghost use Rattle.capnp_arena.specs.Message.{IsMessage, message_tree};

use capnp_arena::arena::Arena;
use capnp_wire::error::Result;
use capnp_wire::primitive::PrimitiveElement;
use capnp_wire::{PointerReader, StructReader};

/// Makes the pointer of an element lead to a copy of what a reader stands on.
///
/// Refused with `BadPointer`, `TooDeep` or `CapabilityPointer` where a pointer in that can't be followed, by the first of
/// these in preorder, and with `OutOfMemory`.
///
/// # Conditions
///
/// A list stands at the message's root that has a pointer at `index` (`HasPointer`).
pub fn put_pointer(arena: &mut Arena, index: u32, source: PointerReader<'_>) -> Result<()>
    requires message { IsMessage arena.old }
    requires pointer { HasPointer (message_tree arena.old) index }
    ensures message { OnOk result (IsMessage arena.new) }
    ensures tree { OnOk result (message_tree arena.new
        ≡ with_pointer_element index (tree_of source.entry) (message_tree arena.old)) }
    ensures sound { OnOk result (first_fault (tree_of source.entry) ≡ None) }
    ensures cause { IfErr result (λ e. IsCopyRefusal e (first_fault (tree_of source.entry))) }
{
    let at = arena.get_pointer_element(0, index);
    arena.copy_from(at, source)?;
    Ok(())
}

/// Copies what fits of a struct into an element; the rest of that is zero and null.
///
/// Refused as `put_pointer`, also where what can't be followed would not fit.
///
/// # Conditions
///
/// A list stands at the message's root that has a struct at `index` (`HasStruct`).
pub fn put_struct(arena: &mut Arena, index: u32, source: &StructReader<'_>) -> Result<()>
    requires message { IsMessage arena.old }
    requires there { HasStruct (message_tree arena.old) index }
    ensures message { OnOk result (IsMessage arena.new) }
    ensures tree { OnOk result (message_tree arena.new
        ≡ with_struct_element index (fitted_struct (length (element_struct (message_tree arena.old) index).bytes)
        (tree_count (element_struct (message_tree arena.old) index).pointers) (struct_of source.now))
        (message_tree arena.old)) }
    ensures sound { OnOk result (first_fault_of_all (struct_of source.now).pointers ≡ None) }
    ensures cause { IfErr result (λ e. IsCopyRefusal e (first_fault_of_all (struct_of source.now).pointers)) }
{
    let place = arena.get_struct_at(0, index);
    arena.copy_content_from(place, source)?;
    Ok(())
}

/// Stores a bit in an element. No memory is taken.
///
/// # Conditions
///
/// A list stands at the message's root that has a bit at `index` (`HasBit`).
pub fn put_bit(arena: &mut Arena, index: u32, value: bool)
    requires message { IsMessage arena.old }
    requires bit { HasBit (message_tree arena.old) index }
    ensures message { IsMessage arena.new }
    ensures tree { message_tree arena.new ≡ with_bit_element index value (message_tree arena.old) }
{
    arena.set_bool_element(0, index, value);
}

/// Stores a number in an element. No memory is taken.
///
/// # Conditions
///
/// A list stands at the message's root that has a number of that width at `index` (`HasNumber`).
pub fn put_number<T: PrimitiveElement>(arena: &mut Arena, index: u32, value: T)
    requires message { IsMessage arena.old }
    requires number { HasNumber T.width (message_tree arena.old) index }
    ensures message { IsMessage arena.new }
    ensures tree { message_tree arena.new
        ≡ with_number_element T.width index (T.to_number value) (message_tree arena.old) }
{
    arena.set_data_element(0, index, value);
}
