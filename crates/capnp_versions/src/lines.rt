//! Differences as lines.
ghost use Rattle.std.specs.Prelude.{[], ◌≡◌, ◌++◌, IfErr, IfOk, None, OnOk, Some, map, string_bytes};
ghost use Rattle.capnp_device.specs.declared.error.ErrorKind.TheVariants.{OutOfMemory};
ghost use Rattle.capnp_dynamic_readers.specs.Pieces.{IsAppended};
ghost use Rattle.capnp_records.specs.Text.{after, said_text};
ghost use Rattle.capnp_schema.specs.Entries.{lists_seen};
ghost use Rattle.capnp_schema.specs.FieldLists.{field_schema, typed_of};
ghost use Rattle.capnp_schema.specs.Schema.{seen_field};
ghost use Rattle.capnp_schema.specs.StructHandles.{number_of, set_of};
ghost use Rattle.capnp_structs.specs.Sides.{field_side};
ghost use Rattle.capnp_versions.specs.Lines.{behind_word, cause_words, difference_line, difference_words, differences_text, field_word, side_of};

use capnp_differences::{Cause, Difference};
use capnp_schema::record::FieldRecord;
use capnp_schema::schema::{Field, StructSchema};
use capnp_schema::set::SchemaSet;
use capnp_structs::sides::put_field_side;
use capnp_wire::error::Result;
use std::alloc::Global;

/// What a cause says.
fn cause_words(cause: Cause) -> &'static str
    ensures { result.now ≡ cause_words cause }
{
    match cause {
        Cause::FieldGone => "is gone",
        Cause::KindChanged => "became a group, or is none any more",
        Cause::PlaceChanged => "stands elsewhere",
        Cause::DefaultChanged => "has another default",
        Cause::DiscriminantChanged => "has another discriminant value",
        Cause::LeftUnion => "left the union",
        Cause::EnteredUnion => "entered the union",
        Cause::TypeChanged => "has another type",
        Cause::ElementsBecameStructs => "has structs for elements of another kind",
        Cause::FewerEnumerants => "has an enum with fewer names",
        Cause::UnionGone => "has no union any more",
        Cause::FewerMembers => "has a union of fewer members",
        Cause::UnionMoved => "has its union's discriminant elsewhere",
    }
}

/// Appends the name of a field behind a point, if it is there. Refused with `OutOfMemory` alone.
pub(crate) fn put_field(text: &mut String, fields: &[FieldRecord], field: Option<u16>) -> Result<()>
    ensures put { OnOk result (string_bytes text.new ≡ string_bytes text.old ++ field_word (map seen_field fields.now) field) }
    ensures memory { IfErr result (λ e. e.kind ≡ OutOfMemory) }
{
    let Some(index) = field else {
        return Ok(());
    };
    let Some(record) = fields.get(index as usize) else {
        return Ok(());
    };
    text.push_str(".")?;
    text.push_str(record.name.as_str())?;
    Ok(())
}

/// Appends the union of a struct behind a word, where it has one. Refused with `OutOfMemory` alone.
fn put_union_side(text: &mut String, word: &str, schema: StructSchema<'_>) -> Result<()>
    ensures put { OnOk result (IsAppended (string_bytes text.old)
        (behind_word word.now (side_of (set_of schema.entry) (number_of schema.entry) None)) (string_bytes text.new)) }
    ensures memory { IfErr result (λ e. e.kind ≡ OutOfMemory) }
{
    let Some(bit) = schema.get_discriminant() else {
        return Ok(());
    };
    let members = schema.get_proto().body.discriminant_count;
    Ok(write!(text, "{word}{members} members, tag at data bit {bit}")?)
}

/// Appends what a field is behind a word. Refused with `OutOfMemory` alone.
fn put_known_field(text: &mut String, word: &str, field: Field<'_>) -> Result<()>
    ensures put { OnOk result (IsAppended (string_bytes text.old)
        (after (said_text word.now) (field_side (set_of (field_schema field.entry)) (number_of (field_schema field.entry))
        (typed_of field.entry))) (string_bytes text.new)) }
    ensures memory { IfErr result (λ e. e.kind ≡ OutOfMemory) }
{
    text.push_str(word)?;
    put_field_side(text, field)
}

/// Appends what a field is behind a word, where the struct has it. Refused with `OutOfMemory` alone.
fn put_field_at(text: &mut String, word: &str, schema: StructSchema<'_>, index: u16) -> Result<()>
    ensures put { OnOk result (IsAppended (string_bytes text.old)
        (behind_word word.now (side_of (set_of schema.entry) (number_of schema.entry) (Some index))) (string_bytes text.new)) }
    ensures memory { IfErr result (λ e. e.kind ≡ OutOfMemory) }
{
    let fields = schema.get_fields()?;
    if index >= fields.len() {
        return Ok(());
    }
    put_known_field(text, word, fields.get(index))
}

/// Appends what a difference is of behind a word, where a struct has it: a field, or its union. Refused with `OutOfMemory`
/// alone.
fn put_side(
    text: &mut String,
    word: &str,
    schema: StructSchema<'_>,
    field: Option<u16>,
) -> Result<()>
    ensures put { OnOk result (IsAppended (string_bytes text.old)
        (behind_word word.now (side_of (set_of schema.entry) (number_of schema.entry) field)) (string_bytes text.new)) }
    ensures memory { IfErr result (λ e. e.kind ≡ OutOfMemory) }
{
    match field {
        None => put_union_side(text, word, schema),
        Some(index) => put_field_at(text, word, schema, index),
    }
}

/// Appends what differs. Refused with `OutOfMemory` alone.
fn put_words(text: &mut String, schemas: &SchemaSet, difference: Difference) -> Result<()>
    ensures put { OnOk result (string_bytes text.new
        ≡ string_bytes text.old ++ difference_words (lists_seen schemas.now) difference) }
    ensures memory { IfErr result (λ e. e.kind ≡ OutOfMemory) }
{
    let record = schemas.struct_schema(difference.pair.older).get_proto();
    text.push_str(record.display_name.as_str())?;
    put_field(text, record.body.fields.as_slice(), difference.field)?;
    text.push_str(" ")?;
    text.push_str(cause_words(difference.cause))?;
    Ok(())
}

/// Appends the line of a difference. Refused with `OutOfMemory` alone.
fn put_difference(text: &mut String, schemas: &SchemaSet, difference: Difference) -> Result<()>
    ensures put { OnOk result (IsAppended (string_bytes text.old) (difference_line (lists_seen schemas.now) difference)
        (string_bytes text.new)) }
    ensures memory { IfErr result (λ e. e.kind ≡ OutOfMemory) }
{
    let older = schemas.struct_schema(difference.pair.older);
    let newer = schemas.struct_schema(difference.pair.newer);
    put_words(text, schemas, difference)?;
    put_side(text, ": was ", older, difference.field)?;
    put_side(text, "; is ", newer, difference.field)?;
    text.push_str("\n")?;
    Ok(())
}

/// The lines of differences. Refused with `OutOfMemory` alone.
pub(crate) fn get_lines(
    alloc: Global,
    schemas: &SchemaSet,
    differences: &[Difference],
) -> Result<String>
    ensures lines { IfOk result (λ text. IsAppended [] (differences_text (lists_seen schemas.now) differences.now)
        (string_bytes text)) }
    ensures memory { IfErr result (λ e. e.kind ≡ OutOfMemory) }
{
    let mut text = String::new(alloc);
    for difference in differences {
        put_difference(&mut text, schemas, *difference)?;
    }
    Ok(text)
}
