//! Fields and nodes, as their records are written.
ghost use Rattle.std.specs.Prelude.{◌≡◌, IfErr, OnOk};
ghost use Rattle.capnp_arena.specs.Frame.{LeavesStruct};
ghost use Rattle.capnp_arena.specs.Built.{built_at};
ghost use Rattle.capnp_schema.specs.Schema.{Field, Node, seen_field, seen_kind, seen_node};
ghost use Rattle.capnp_set_writer.specs.Kept.{AreSectionsKept, FieldKept, KindKept, NodeKept};
ghost use Rattle.capnp_set_writer.specs.Limits.{DefaultHasForm, DefaultHasKind, FieldHasForm, FieldHasKinds, NodeHasForm, NodeHasKinds};
ghost use Rattle.capnp_set_writer.specs.Trees.{field_tree, node_tree};
ghost use Rattle.capnp_set_writer.specs.Steps.Writes.{HasSections, IsPartWriteRefusal, kind_written, sections_written};

use crate::rows::{Part, put_part, put_parts};
use crate::values::bit_number;
use crate::writes::put_name;
use capnp_arena::arena::{Arena, Place};
use capnp_schema::record::{FieldKind, FieldRecord, NO_DISCRIMINANT, NodeRecord};
use capnp_wire::error::Result;
use capnp_wire::size::StructSize;

/// Puts what a field is: a slot with its offset and its default, or the node of a group.
///
/// Refused as the default.
fn put_kind(arena: &mut Arena, place: Place, kind: &FieldKind) -> Result<()>
    requires { HasSections 1 3 arena.old place }
    ensures frame { OnOk result (LeavesStruct place arena.old arena.new) }
    ensures written { OnOk result (built_at arena.new place ≡ kind_written (seen_kind kind.now) (built_at arena.old place)) }
    ensures kept { OnOk result (KindKept (seen_kind kind.now)) }
    ensures fits { OnOk result (DefaultHasForm (seen_kind kind.now)) }
    ensures cause { IfErr result (λ e. IsPartWriteRefusal (DefaultHasKind (seen_kind kind.now))
        (DefaultHasForm (seen_kind kind.now)) e.kind) }
{
    match kind {
        FieldKind::Slot { offset, default } => {
            arena.set_number::<u16>(place, 1, 0);
            arena.set_number::<u32>(place, 1, *offset);
            put_part(arena, place, 2, default)
        }
        FieldKind::Group { node } => {
            arena.set_number::<u16>(place, 1, 1);
            arena.set_number::<u32>(place, 1, *node);
            Ok(())
        }
    }
}

impl Part for FieldRecord {
    ghost Seen = { Field };

    ghost seen = { seen_field };

    ghost data_words = { 1 };

    ghost pointers = { 3 };

    ghost tree = { field_tree };

    ghost kept = { FieldKept };

    ghost has_kinds = { FieldHasKinds };

    ghost fits = { FieldHasForm };

    fn size() -> StructSize {
        StructSize {
            data_words: 1,
            pointers: 3,
        }
    }

    fn put(&self, arena: &mut Arena, place: Place) -> Result<()> {
        arena.set_number::<u16>(place, 0, self.discriminant_value ^ NO_DISCRIMINANT);
        put_name(arena, place, 0, self.name.as_str())?;
        put_parts(arena, place, 1, self.annotations.as_slice())?;
        put_kind(arena, place, &self.kind)
    }
}

/// Puts the numbers of a node.
fn put_sections(arena: &mut Arena, place: Place, node: &NodeRecord)
    requires { HasSections 3 3 arena.old place }
    ensures frame { LeavesStruct place arena.old arena.new }
    ensures written { built_at arena.new place ≡ sections_written (seen_node node.now) (built_at arena.old place) }
    ensures kept { AreSectionsKept (seen_node node.now) }
{
    arena.set_number::<u64>(place, 0, node.id);
    arena.set_number::<u16>(place, 4, node.body.data_word_count);
    arena.set_number::<u16>(place, 5, node.body.pointer_count);
    arena.set_number::<u16>(place, 6, node.body.discriminant_count);
    arena.set_number::<u8>(place, 14, bit_number(node.body.is_group));
    arena.set_number::<u32>(place, 4, node.body.discriminant_offset);
}

impl Part for NodeRecord {
    ghost Seen = { Node };

    ghost seen = { seen_node };

    ghost data_words = { 3 };

    ghost pointers = { 3 };

    ghost tree = { node_tree };

    ghost kept = { NodeKept };

    ghost has_kinds = { NodeHasKinds };

    ghost fits = { NodeHasForm };

    fn size() -> StructSize {
        StructSize {
            data_words: 3,
            pointers: 3,
        }
    }

    fn put(&self, arena: &mut Arena, place: Place) -> Result<()> {
        put_sections(arena, place, self);
        put_name(arena, place, 0, self.display_name.as_str())?;
        put_parts(arena, place, 1, self.annotations.as_slice())?;
        put_parts(arena, place, 2, self.body.fields.as_slice())
    }
}
