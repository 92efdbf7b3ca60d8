//! Texts and data that are put into a struct that is built.
ghost use Rattle.std.specs.Prelude.{◌≡◌, ◌<◌, ⊤, IfErr, OnOk};
ghost use Rattle.capnp_wire.specs.Tree.{Numbers};
ghost use Rattle.capnp_wire.specs.Edits.{with_pointer_tree};
ghost use Rattle.capnp_wire.specs.WellFormed.{AreBytes};
ghost use Rattle.capnp_arena.specs.Frame.{LeavesStruct};
ghost use Rattle.capnp_arena.specs.Built.{IsBuilt, built_at};
ghost use Rattle.capnp_base.specs.Text.{text_tree};
ghost use Rattle.capnp_set_writer.specs.Kept.{IsWrittenName};
ghost use Rattle.capnp_set_writer.specs.Limits.{IsDataLength, IsTextLength};
ghost use Rattle.capnp_set_writer.specs.Steps.Writes.{IsPartWriteRefusal};

use capnp_arena::arena::{Arena, Place};
use capnp_arena::structs::pointer_at;
use capnp_wire::error::Result;

/// Puts a text at a pointer.
///
/// Refused with `SizePastFormat` where it has 2^29 - 1 bytes or more, and else with `OutOfMemory`.
pub(crate) fn put_text(arena: &mut Arena, place: Place, index: u16, text: &[u8]) -> Result<()>
    requires planted { IsBuilt arena.old place }
    requires inside { index < place.pointers }
    ensures frame { OnOk result (LeavesStruct place arena.old arena.new) }
    ensures written { OnOk result (built_at arena.new place
        ≡ with_pointer_tree (built_at arena.old place) index (text_tree text.now)) }
    ensures bytes { AreBytes text.now }
    ensures fits { OnOk result (IsTextLength text.now) }
    ensures cause { IfErr result (λ e. IsPartWriteRefusal ⊤ (IsTextLength text.now) e.kind) }
{
    let at = pointer_at(arena, place, index);
    arena.set_text(at, text)
}

/// Puts data at a pointer.
///
/// Refused with `SizePastFormat` for 2^29 bytes or more, and else with `OutOfMemory`.
pub(crate) fn put_data(arena: &mut Arena, place: Place, index: u16, bytes: &[u8]) -> Result<()>
    requires planted { IsBuilt arena.old place }
    requires inside { index < place.pointers }
    ensures frame { OnOk result (LeavesStruct place arena.old arena.new) }
    ensures written { OnOk result (built_at arena.new place
        ≡ with_pointer_tree (built_at arena.old place) index (Numbers 1 bytes.now)) }
    ensures bytes { AreBytes bytes.now }
    ensures fits { OnOk result (IsDataLength bytes.now) }
    ensures cause { IfErr result (λ e. IsPartWriteRefusal ⊤ (IsDataLength bytes.now) e.kind) }
{
    let at = pointer_at(arena, place, index);
    arena.set_data(at, bytes)
}

/// Puts a name at a pointer, as a text. A name is UTF-8.
///
/// Refused as `put_text`.
pub(crate) fn put_name(arena: &mut Arena, place: Place, index: u16, name: &str) -> Result<()>
    requires planted { IsBuilt arena.old place }
    requires inside { index < place.pointers }
    ensures frame { OnOk result (LeavesStruct place arena.old arena.new) }
    ensures written { OnOk result (built_at arena.new place
        ≡ with_pointer_tree (built_at arena.old place) index (text_tree name.now)) }
    ensures name { IsWrittenName name.now }
    ensures fits { OnOk result (IsTextLength name.now) }
    ensures cause { IfErr result (λ e. IsPartWriteRefusal ⊤ (IsTextLength name.now) e.kind) }
{
    put_text(arena, place, index, name.as_bytes())
}
