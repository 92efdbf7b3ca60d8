//! The name of a field or enumerant in JSON, and whether an annotation gives it.
ghost use Rattle.std.specs.Prelude.{◌≡◌, ◌==◌, ◌&&◌, bytes_eq, not};
ghost use Rattle.capnp_schema.specs.Schema.{seen_annotations, seen_enumerant, seen_field, seen_value};
ghost use Rattle.capnp_json_fields.specs.Marks.{is_annotated};
ghost use Rattle.capnp_json_fields.specs.Names.{last_text, name_id, text_or};
ghost use Rattle.capnp_json_names.specs.Labels.{enumerant_label, field_label};
ghost use Rattle.capnp_json_names.specs.Steps.Labels.{label_seen};

use capnp_json_fields::names::NAME_ID;
use capnp_schema::record::{AnnotationRecord, EnumerantRecord, FieldRecord, ValueRecord};

/// A name in JSON, and whether an annotation `name` is there.
#[derive(Clone, Copy)]
pub(crate) struct Label<'s> {
    pub name: &'s [u8],
    pub is_given: bool,
}

/// Whether one of these annotations is `name`.
fn is_given(annotations: &[AnnotationRecord]) -> bool
    ensures { result ≡ is_annotated name_id (seen_annotations annotations.now) }
{
    for annotation in annotations {
        if annotation.id == NAME_ID {
            return true;
        }
    }
    false
}

/// The text of a value, and the name where it is none.
fn text_or<'s>(name: &'s [u8], value: &'s ValueRecord) -> &'s [u8]
    ensures { result.now ≡ text_or name.now (seen_value value.now) }
{
    match value {
        ValueRecord::Text(bytes) => bytes,
        _ => name,
    }
}

/// The text of the last annotation `name` that has a text, and else the own name.
fn given_name<'s>(name: &'s [u8], annotations: &'s [AnnotationRecord]) -> &'s [u8]
    ensures { result.now ≡ last_text name_id name.now (seen_annotations annotations.now) }
{
    let mut last = name;
    for annotation in annotations {
        if annotation.id == NAME_ID {
            last = text_or(last, &annotation.value);
        }
    }
    last
}

/// That of a field.
pub(crate) fn field_label(field: &FieldRecord) -> Label<'_>
    ensures { label_seen result ≡ field_label (seen_field field.now) }
{
    Label {
        name: given_name(field.name.as_bytes(), &field.annotations),
        is_given: is_given(&field.annotations),
    }
}

/// That of an enumerant.
pub(crate) fn enumerant_label(enumerant: &EnumerantRecord) -> Label<'_>
    ensures { label_seen result ≡ enumerant_label (seen_enumerant enumerant.now) }
{
    Label {
        name: given_name(enumerant.name.as_bytes(), &enumerant.annotations),
        is_given: is_given(&enumerant.annotations),
    }
}

/// Whether what stands at an index has the name, and another index than that one.
pub(crate) fn is_other(label: Label<'_>, at: usize, index: usize, name: &[u8]) -> bool
    ensures { result ≡ (not (at == index) && bytes_eq (label_seen label.entry).name name.now) }
{
    at != index && label.name == name
}
