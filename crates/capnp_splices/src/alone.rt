//! A list of one struct.
ghost use Rattle.std.specs.Prelude.{IfErr, IfOk, None, OnOk, ◌≡◌};
ghost use Rattle.capnp_wire.specs.Edits.{IsCopyRefusal};
ghost use Rattle.capnp_wire.specs.Standing.{struct_of};
ghost use Rattle.capnp_wire.specs.Words.{first_fault_of_all};
ghost use Rattle.capnp_arena.specs.Message.{IsMessage, message_tree};
ghost use Rattle.capnp_splices.specs.Alone.{struct_alone, whole_size};

use crate::put::put_struct;
use capnp_arena::arena::Arena;
use capnp_wire::StructReader;
use capnp_wire::error::Result;
use capnp_wire::laws::struct_is_well_formed;
use capnp_wire::size::StructSize;
use std::alloc::Global;

/// At least a size, and all that a struct has.
fn size_for(source: &StructReader<'_>, least: StructSize) -> StructSize
    ensures { result ≡ whole_size least (struct_of source.now) }
{
    struct_is_well_formed(source);
    let data_words = (source.get_data_section().len() + 7) / 8;
    StructSize {
        data_words: least.data_words.max(data_words as u16),
        pointers: least.pointers.max(source.get_pointer_count()),
    }
}

/// A message whose root is a list of one struct, a copy with all that it has, of at least a size.
///
/// Refused with `BadPointer`, `TooDeep` or `CapabilityPointer` where a pointer in it can't be followed, by the first of
/// these in preorder, and with `OutOfMemory`.
pub fn list_struct(alloc: Global, source: &StructReader<'_>, least: StructSize) -> Result<Arena>
    ensures message { IfOk result IsMessage }
    ensures tree { IfOk result (λ m. message_tree m ≡ struct_alone least (struct_of source.now)) }
    ensures sound { OnOk result (first_fault_of_all (struct_of source.now).pointers ≡ None) }
    ensures cause { IfErr result (λ e. IsCopyRefusal e (first_fault_of_all (struct_of source.now).pointers)) }
{
    let size = size_for(source, least);
    let mut made = Arena::new(alloc)?;
    made.init_struct_list(0, 1, size)?;
    put_struct(&mut made, 0, source)?;
    Ok(made)
}
