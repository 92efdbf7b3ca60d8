//! Nodes, brands and enums whose numbers have moved up.
ghost use Rattle.std.specs.Prelude.{◌≡◌, IfErr, IfOk};
ghost use Rattle.capnp_schema.specs.Schema.{Brand, Enum, Field, Node, seen_brand, seen_enum, seen_field, seen_kind, seen_node};
ghost use Rattle.capnp_joined_sets.specs.Joined.{moved_brand, moved_enum, moved_field, moved_kind, moved_node};
ghost use Rattle.capnp_joined_sets.specs.Refusals.{BrandFits, EnumFits, FieldFits, GroupFits, IsMoveRefusal, NodeFits};
ghost use Rattle.capnp_joined_sets.specs.declared.moves.Moves.{Moves};

use crate::annotations::{copy_annotations, copy_enumerants, copy_value};
use crate::moves::{Moved, Moves, all_moved, moved_number};
use crate::types::moved_annotation_types;
use capnp_schema::record::{
    BrandRecord, EnumRecord, FieldKind, FieldRecord, NodeRecord, StructRecord,
};
use capnp_wire::error::Result;
use std::alloc::Global;

/// What a field is, with the number of its group's node moved.
fn moved_kind(alloc: Global, kind: &FieldKind, moves: Moves) -> Result<FieldKind>
    ensures moved { IfOk result (λ copy. seen_kind copy ≡ moved_kind moves (seen_kind kind.now)) }
    ensures refused { IfErr result (IsMoveRefusal (GroupFits (moved_kind moves (seen_kind kind.now)))) }
{
    match kind {
        FieldKind::Slot { offset, default } => {
            let default = copy_value(alloc, default)?;
            Ok(FieldKind::Slot {
                offset: *offset,
                default,
            })
        }
        FieldKind::Group { node } => {
            let node = moved_number(*node, moves.nodes)?;
            Ok(FieldKind::Group { node })
        }
    }
}

impl Moved for FieldRecord {
    ghost Seen = { Field };

    ghost seen = { seen_field };

    ghost moved = { moved_field };

    ghost fits = { FieldFits };

    fn copy_moved(&self, alloc: Global, moves: Moves) -> Result<FieldRecord> {
        let kind = moved_kind(alloc, &self.kind, moves)?;
        Ok(FieldRecord {
            name: String::from_str(alloc, &self.name)?,
            discriminant_value: self.discriminant_value,
            annotations: copy_annotations(alloc, &self.annotations)?,
            kind,
        })
    }
}

impl Moved for NodeRecord {
    ghost Seen = { Node };

    ghost seen = { seen_node };

    ghost moved = { moved_node };

    ghost fits = { NodeFits };

    fn copy_moved(&self, alloc: Global, moves: Moves) -> Result<NodeRecord> {
        let fields = all_moved(alloc, &self.body.fields, moves)?;
        Ok(NodeRecord {
            id: self.id,
            display_name: String::from_str(alloc, &self.display_name)?,
            annotations: copy_annotations(alloc, &self.annotations)?,
            body: StructRecord {
                data_word_count: self.body.data_word_count,
                pointer_count: self.body.pointer_count,
                is_group: self.body.is_group,
                discriminant_count: self.body.discriminant_count,
                discriminant_offset: self.body.discriminant_offset,
                fields,
            },
        })
    }
}

impl Moved for BrandRecord {
    ghost Seen = { Brand };

    ghost seen = { seen_brand };

    ghost moved = { moved_brand };

    ghost fits = { BrandFits };

    fn copy_moved(&self, alloc: Global, moves: Moves) -> Result<BrandRecord> {
        let node = moved_number(self.node, moves.nodes)?;
        let field_types = all_moved(alloc, &self.field_types, moves)?;
        let annotation_types = moved_annotation_types(alloc, &self.annotation_types, moves)?;
        Ok(BrandRecord {
            node,
            field_types,
            annotation_types,
        })
    }
}

impl Moved for EnumRecord {
    ghost Seen = { Enum };

    ghost seen = { seen_enum };

    ghost moved = { moved_enum };

    ghost fits = { EnumFits };

    fn copy_moved(&self, alloc: Global, moves: Moves) -> Result<EnumRecord> {
        let annotation_types = moved_annotation_types(alloc, &self.annotation_types, moves)?;
        Ok(EnumRecord {
            id: self.id,
            display_name: String::from_str(alloc, &self.display_name)?,
            annotations: copy_annotations(alloc, &self.annotations)?,
            enumerants: copy_enumerants(alloc, &self.enumerants)?,
            annotation_types,
        })
    }
}
