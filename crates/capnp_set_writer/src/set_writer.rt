//! Sets of schemas as messages.
ghost use Rattle.std.specs.Prelude.{◌≡◌, ◌<◌, IfErr, IfOk, OnOk};
ghost use Rattle.capnp_device.specs.declared.error.ErrorKind.TheVariants.{SizePastFormat, UnknownKind};
ghost use Rattle.capnp_wire.specs.Locate.{words_past_format};
ghost use Rattle.capnp_wire.specs.Place.{struct_tree};
ghost use Rattle.capnp_arena.specs.Frame.{LeavesStruct};
ghost use Rattle.capnp_arena.specs.Built.{built_at};
ghost use Rattle.capnp_arena.specs.Forest.{Forest, tree};
ghost use Rattle.capnp_arena.specs.Segment.{segment};
ghost use Rattle.capnp_arena.specs.Shape.{word_count};
ghost use Rattle.capnp_schema.specs.Accepted.{IsAccepted};
ghost use Rattle.capnp_schema.specs.Entries.{lists_seen};
ghost use Rattle.capnp_set_writer.specs.Steps.Kept.{SetKept};
ghost use Rattle.capnp_set_writer.specs.Limits.{HasFormless, IsPastFormat, SetFits, SetHasKinds, set_message_words};
ghost use Rattle.capnp_set_writer.specs.Message.{IsReadAsSet, set_message};
ghost use Rattle.capnp_set_writer.specs.Trees.{set_tree};
ghost use Rattle.capnp_set_writer.specs.Writes.{IsWriteRefusal};
ghost use Rattle.capnp_set_writer.specs.Steps.Writes.{IsNew, IsPartWriteRefusal};

use crate::rows::put_parts;
use capnp_arena::arena::{Arena, Place};
use capnp_schema::set::SchemaSet;
use capnp_wire::error::Result;
use capnp_wire::size::StructSize;
use std::alloc::Global;

/// The size of the root, a record of a set.
const ROOT: StructSize = StructSize {
    data_words: 0,
    pointers: 3,
};

/// Puts the three lists of a set.
fn put_lists(arena: &mut Arena, place: Place, schemas: &SchemaSet) -> Result<()>
    requires { IsNew 0 3 arena.old place }
    ensures frame { OnOk result (LeavesStruct place arena.old arena.new) }
    ensures written { OnOk result (built_at arena.new place ≡ set_tree (lists_seen schemas.now)) }
    ensures kept { OnOk result (SetKept (lists_seen schemas.now)) }
    ensures accepted { IsAccepted (lists_seen schemas.now) }
    ensures fits { OnOk result (SetFits (lists_seen schemas.now)) }
    ensures cause { IfErr result (λ e. IsPartWriteRefusal (SetHasKinds (lists_seen schemas.now))
        (SetFits (lists_seen schemas.now)) e.kind) }
{
    put_parts(arena, place, 0, schemas.nodes())?;
    put_parts(arena, place, 1, schemas.brands())?;
    put_parts(arena, place, 2, schemas.enums())
}

/// Makes the root pointer lead to the record of a set.
fn put_root(arena: &mut Arena, schemas: &SchemaSet) -> Result<()>
    requires inside { 0 < word_count (segment arena.old) }
    ensures forest { OnOk result (Forest (segment arena.new) 0) }
    ensures written { OnOk result (tree (segment arena.new) 0 ≡ struct_tree (set_tree (lists_seen schemas.now))) }
    ensures kept { OnOk result (SetKept (lists_seen schemas.now)) }
    ensures accepted { OnOk result (IsAccepted (lists_seen schemas.now)) }
    ensures fits { OnOk result (SetFits (lists_seen schemas.now)) }
    ensures cause { IfErr result (λ e. IsPartWriteRefusal (SetHasKinds (lists_seen schemas.now))
        (SetFits (lists_seen schemas.now)) e.kind) }
{
    let root = arena.init_struct(0, ROOT)?;
    put_lists(arena, root, schemas)
}

/// The message of a set of schemas: a stream of one segment, whose root is the record of the set, and no more bytes.
/// They, whatever follows them, are read as the set's own lists (`capnp_sets::read_set`). Every list, text and struct of
/// a record is there, also where it is empty.
///
/// Refused with `UnknownKind` where a value is untyped and isn't one zero word, or is a list without words, for which
/// the form has no kind; with `SizePastFormat` where a type has more than 65,535 lists around it, or a text, data or
/// list is too long for the format; and else with `OutOfMemory`, also where the message would be 2^29 words or more.
pub fn write_set(alloc: Global, schemas: &SchemaSet) -> Result<Vec<u8>>
    ensures written { IfOk result (λ bytes. bytes.items ≡ set_message (lists_seen schemas.now)) }
    ensures read { IfOk result (λ bytes. IsReadAsSet (lists_seen schemas.now) bytes.items) }
    ensures kinds { OnOk result (SetHasKinds (lists_seen schemas.now)) }
    ensures fits { OnOk result (SetFits (lists_seen schemas.now)) }
    ensures small { OnOk result (set_message_words (lists_seen schemas.now) < words_past_format) }
    ensures cause { IfErr result (λ e. IsWriteRefusal e.kind) }
    ensures unknown { IfErr result (λ e. e.kind ≡ UnknownKind → HasFormless (lists_seen schemas.now)) }
    ensures past { IfErr result (λ e. e.kind ≡ SizePastFormat → IsPastFormat (lists_seen schemas.now)) }
{
    let mut arena = Arena::new(alloc)?;
    put_root(&mut arena, schemas)?;
    arena.write_message()
}
