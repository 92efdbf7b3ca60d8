//! Annotations as text.
ghost use Rattle.std.specs.Prelude.{◌≡◌, ◌++◌, IfErr, OnOk, string_bytes};
ghost use Rattle.capnp_device.specs.declared.error.ErrorKind.TheVariants.{OutOfMemory};
ghost use Rattle.capnp_schema.specs.Annotated.{annotations_of};
ghost use Rattle.capnp_schema.specs.AnnotationLists.{annotation_in, annotation_set, annotations_in, annotations_set};
ghost use Rattle.capnp_schema.specs.Schema.{seen_annotations, seen_value};
ghost use Rattle.capnp_dynamic_readers.specs.Pieces.{IsAppended};
ghost use Rattle.capnp_structs.specs.Limits.{HasRefusedAmong, IsRefused, IsStopped};
ghost use Rattle.capnp_structs.specs.Values.{annotation_head, annotation_text, annotations_text};
ghost use Rattle.capnp_structs.specs.declared.values.Numbers.TheVariants.{Integers};

use crate::limits::check_length;
use crate::values::{Numbers, put_value};
use capnp_schema::record::{AnnotationRecord, ValueRecord};
use capnp_schema::schema::{Annotation, AnnotationList};
use capnp_wire::error::Result;

/// Appends what stands before an annotation's value.
fn put_id(out: &mut String, id: u64) -> Result<()>
    ensures put { OnOk result (string_bytes out.new ≡ string_bytes out.old ++ annotation_head id) }
    ensures memory { IfErr result (λ e. e.kind ≡ OutOfMemory) }
{
    Ok(write!(out, " $@0x{id:x} = ")?)
}

/// Appends an annotation, which has this value.
fn put_annotation(
    out: &mut String,
    limit: u64,
    annotation: Annotation<'_>,
    stored: &ValueRecord,
) -> Result<()>
    requires stored { seen_value stored.now ≡ (annotation_in annotation).annotation.value }
    ensures put { OnOk result (IsAppended (string_bytes out.old)
        (annotation_text (annotation_set annotation.entry) (annotation_in annotation.entry)) (string_bytes out.new)) }
    ensures stopped { IfErr result (λ e. IsStopped limit (string_bytes out.old)
        (annotation_text (annotation_set annotation.entry) (annotation_in annotation.entry))
        (IsRefused Integers (annotation_set annotation.entry) (annotation_in annotation.entry).type
        (annotation_in annotation.entry).annotation.value) e.kind) }
{
    put_id(out, annotation.get_id())?;
    let schemas = annotation.get_set();
    put_value(
        out,
        limit,
        Numbers::Integers,
        schemas,
        annotation.get_type(),
        stored,
    )
}

/// Appends the annotations of one place, which have these records.
pub(crate) fn put_annotations(
    out: &mut String,
    limit: u64,
    annotations: AnnotationList<'_>,
    records: &[AnnotationRecord],
) -> Result<()>
    requires recorded { annotations_of (annotations_in annotations) ≡ seen_annotations records.now }
    ensures put { OnOk result (IsAppended (string_bytes out.old)
        (annotations_text (annotations_set annotations.entry) (annotations_in annotations.entry))
        (string_bytes out.new)) }
    ensures stopped { IfErr result (λ e. IsStopped limit (string_bytes out.old)
        (annotations_text (annotations_set annotations.entry) (annotations_in annotations.entry))
        (HasRefusedAmong (annotations_set annotations.entry) (annotations_in annotations.entry)) e.kind) }
{
    for index in 0..annotations.len() {
        put_annotation(
            out,
            limit,
            annotations.get(index),
            &records[index as usize].value,
        )?;
        check_length(out, limit)?;
    }
    Ok(())
}
