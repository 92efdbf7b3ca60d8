//! Entries whose numbers move where they stand: those of a set that is joined to another one without a copy.
ghost use Rattle.std.specs.Prelude.{◌≡◌, All, IfErr, OnOk, map};
ghost use Rattle.capnp_schema.specs.Schema.{seen_kind, seen_types};
ghost use Rattle.capnp_joined_sets.specs.Joined.{moved_annotation_types, moved_kind};
ghost use Rattle.capnp_joined_sets.specs.Refusals.{AnnotationTypesFit, GroupFits, IsMoveRefusal};
ghost use Rattle.capnp_joined_sets.specs.declared.moves.Moves.{Moves};

use crate::moves::{Moved, Moves, moved_number};
use crate::types::moved_type;
use capnp_base::introspect::Type;
use capnp_schema::record::{
    AnnotationTypes, BrandRecord, EnumRecord, FieldKind, FieldRecord, NodeRecord,
};
use capnp_wire::error::Result;

/// What is moved where it stands.
pub(crate) trait MovedInPlace: Moved {
    fn move_on(&mut self, moves: Moves) -> Result<()>
        ensures moved { OnOk result (Self.seen self.new ≡ Self.moved moves (Self.seen self.old)) }
        ensures refused { IfErr result (IsMoveRefusal (Self.fits (Self.moved moves (Self.seen self.old)))) };
}

/// Moves each entry.
pub(crate) fn move_all<T: MovedInPlace + Drop>(entries: &mut [T], moves: Moves) -> Result<()>
    ensures moved { OnOk result (map T.seen entries.new ≡ map (T.moved moves) (map T.seen entries.old)) }
    ensures refused { IfErr result (IsMoveRefusal (All T.fits (map (T.moved moves) (map T.seen entries.old)))) }
{
    for entry in entries.iter_mut() {
        entry.move_on(moves)?;
    }
    Ok(())
}

impl MovedInPlace for Type {
    fn move_on(&mut self, moves: Moves) -> Result<()> {
        *self = moved_type(*self, moves)?;
        Ok(())
    }
}

/// The types of the annotations of a field or an enumerant.
impl MovedInPlace for Vec<Type> {
    fn move_on(&mut self, moves: Moves) -> Result<()> {
        move_all(self, moves)
    }
}

/// Moves the types of annotations.
fn move_annotation_types(types: &mut AnnotationTypes, moves: Moves) -> Result<()>
    ensures moved { OnOk result (seen_types types.new ≡ moved_annotation_types moves (seen_types types.old)) }
    ensures refused { IfErr result (IsMoveRefusal (AnnotationTypesFit (moved_annotation_types moves (seen_types types.old)))) }
{
    move_all(&mut types.own, moves)?;
    move_all(&mut types.children, moves)
}

/// Moves the number of a group's node.
fn move_kind(kind: &mut FieldKind, moves: Moves) -> Result<()>
    ensures moved { OnOk result (seen_kind kind.new ≡ moved_kind moves (seen_kind kind.old)) }
    ensures refused { IfErr result (IsMoveRefusal (GroupFits (moved_kind moves (seen_kind kind.old)))) }
{
    match kind {
        FieldKind::Slot { .. } => Ok(()),
        FieldKind::Group { node } => {
            *node = moved_number(*node, moves.nodes)?;
            Ok(())
        }
    }
}

impl MovedInPlace for FieldRecord {
    fn move_on(&mut self, moves: Moves) -> Result<()> {
        move_kind(&mut self.kind, moves)
    }
}

impl MovedInPlace for NodeRecord {
    fn move_on(&mut self, moves: Moves) -> Result<()> {
        move_all(&mut self.body.fields, moves)
    }
}

impl MovedInPlace for BrandRecord {
    fn move_on(&mut self, moves: Moves) -> Result<()> {
        self.node = moved_number(self.node, moves.nodes)?;
        move_all(&mut self.field_types, moves)?;
        move_annotation_types(&mut self.annotation_types, moves)
    }
}

impl MovedInPlace for EnumRecord {
    fn move_on(&mut self, moves: Moves) -> Result<()> {
        move_annotation_types(&mut self.annotation_types, moves)
    }
}
