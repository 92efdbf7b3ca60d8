//! Annotations by their ids.
ghost use Rattle.std.specs.Prelude.{◌≡◌};
ghost use Rattle.capnp_schema.specs.Schema.{seen_annotations, seen_value};
ghost use Rattle.capnp_json_fields.specs.Marks.{is_annotated};
ghost use Rattle.capnp_json_fields.specs.Names.{last_text, text_or};

use capnp_schema::record::{AnnotationRecord, ValueRecord};

/// Whether one of these annotations has the id.
pub(crate) fn is_annotated(annotations: &[AnnotationRecord], id: u64) -> bool
    ensures { result ≡ is_annotated id (seen_annotations annotations.now) }
{
    for annotation in annotations {
        if annotation.id == id {
            return true;
        }
    }
    false
}

/// The text of a value, and another text where it is no text.
fn text_or<'a>(name: &'a [u8], value: &'a ValueRecord) -> &'a [u8]
    ensures { result.now ≡ text_or name.now (seen_value value.now) }
{
    match value {
        ValueRecord::Text(bytes) => bytes,
        _ => name,
    }
}

/// The text of the last annotation of an id that has a text, and else the name.
pub(crate) fn last_text<'a>(
    name: &'a [u8],
    annotations: &'a [AnnotationRecord],
    id: u64,
) -> &'a [u8]
    ensures { result.now ≡ last_text id name.now (seen_annotations annotations.now) }
{
    let mut last = name;
    for annotation in annotations {
        if annotation.id == id {
            last = text_or(last, &annotation.value);
        }
    }
    last
}
