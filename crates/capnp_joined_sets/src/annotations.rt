//! Copies of what has no numbers of entries: values, annotations and enumerants.
ghost use Rattle.std.specs.Prelude.{◌≡◌, ⊤, IfErr, IfOk, map};
ghost use Rattle.capnp_device.specs.declared.error.ErrorKind.TheVariants.{OutOfMemory};
ghost use Rattle.capnp_schema.specs.Schema.{Annotation, Enumerant, Value, seen_annotation, seen_annotations, seen_enumerant, seen_value};
ghost use Rattle.capnp_joined_sets.specs.declared.moves.Moves.{Moves};

use crate::moves::{Moved, Moves, NO_MOVES, all_moved};
use capnp_schema::record::{AnnotationRecord, EnumerantRecord, ValueRecord};
use capnp_wire::error::Result;
use std::alloc::Global;

/// A copy of a value.
pub(crate) fn copy_value(alloc: Global, value: &ValueRecord) -> Result<ValueRecord>
    ensures copied { IfOk result (λ copy. seen_value copy ≡ seen_value value.now) }
    ensures refused { IfErr result (λ e. e.kind ≡ OutOfMemory) }
{
    Ok(match value {
        ValueRecord::Void => ValueRecord::Void,
        ValueRecord::Bool(x) => ValueRecord::Bool(*x),
        ValueRecord::Int8(x) => ValueRecord::Int8(*x),
        ValueRecord::Int16(x) => ValueRecord::Int16(*x),
        ValueRecord::Int32(x) => ValueRecord::Int32(*x),
        ValueRecord::Int64(x) => ValueRecord::Int64(*x),
        ValueRecord::UInt8(x) => ValueRecord::UInt8(*x),
        ValueRecord::UInt16(x) => ValueRecord::UInt16(*x),
        ValueRecord::UInt32(x) => ValueRecord::UInt32(*x),
        ValueRecord::UInt64(x) => ValueRecord::UInt64(*x),
        ValueRecord::Enum(x) => ValueRecord::Enum(*x),
        ValueRecord::Text(bytes) => ValueRecord::Text(bytes.as_slice().to_vec(alloc)?),
        ValueRecord::Data(bytes) => ValueRecord::Data(bytes.as_slice().to_vec(alloc)?),
        ValueRecord::Struct(words) => ValueRecord::Struct(words.as_slice().to_vec(alloc)?),
        ValueRecord::List(words) => ValueRecord::List(words.as_slice().to_vec(alloc)?),
        ValueRecord::AnyPointer(words) => ValueRecord::AnyPointer(words.as_slice().to_vec(alloc)?),
    })
}

impl Moved for AnnotationRecord {
    ghost Seen = { Annotation };

    ghost seen = { seen_annotation };

    ghost moved = { λ by a. a };

    ghost fits = { λ a. ⊤ };

    fn copy_moved(&self, alloc: Global, moves: Moves) -> Result<AnnotationRecord> {
        let _unused = moves;
        Ok(AnnotationRecord {
            id: self.id,
            value: copy_value(alloc, &self.value)?,
        })
    }
}

/// A copy of annotations.
#[tactic(auto, using(crate::proofs::Copies::same_entries))]
pub(crate) fn copy_annotations(
    alloc: Global,
    annotations: &[AnnotationRecord],
) -> Result<Vec<AnnotationRecord>>
    ensures copied { IfOk result (λ copy. seen_annotations copy.items ≡ seen_annotations annotations.now) }
    ensures refused { IfErr result (λ e. e.kind ≡ OutOfMemory) }
{
    all_moved(alloc, annotations, NO_MOVES)
}

impl Moved for EnumerantRecord {
    ghost Seen = { Enumerant };

    ghost seen = { seen_enumerant };

    ghost moved = { λ by e. e };

    ghost fits = { λ e. ⊤ };

    fn copy_moved(&self, alloc: Global, moves: Moves) -> Result<EnumerantRecord> {
        let _unused = moves;
        Ok(EnumerantRecord {
            name: String::from_str(alloc, &self.name)?,
            annotations: copy_annotations(alloc, &self.annotations)?,
        })
    }
}

/// A copy of enumerants.
#[tactic(auto, using(crate::proofs::Copies::same_entries))]
pub(crate) fn copy_enumerants(
    alloc: Global,
    enumerants: &[EnumerantRecord],
) -> Result<Vec<EnumerantRecord>>
    ensures copied { IfOk result (λ copy. map seen_enumerant copy.items ≡ map seen_enumerant enumerants.now) }
    ensures refused { IfErr result (λ e. e.kind ≡ OutOfMemory) }
{
    all_moved(alloc, enumerants, NO_MOVES)
}
