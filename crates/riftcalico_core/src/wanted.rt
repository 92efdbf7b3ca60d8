//! The words that stand for values of a type, as a note where the word that is given is none of them.
ghost use Rattle.std.specs.Prelude.{◌≡◌, ◌++◌, IfErr, IfOk, OnOk, map, string_bytes};
ghost use Rattle.std.specs.Option.{option_map};
ghost use Rattle.capnp_device.specs.declared.error.ErrorKind.TheVariants.{OutOfMemory};
ghost use Rattle.capnp_schema.specs.Entries.{lists_seen};
ghost use Rattle.capnp_schema.specs.Schema.{enum_at, seen_enumerant};
ghost use Rattle.capnp_schema.specs.StructHandles.{IsStruct, number_of, set_of};
ghost use Rattle.capnp_schema.specs.Types.{seen_type, seen_variant};
ghost use Rattle.capnp_words.specs.Seen.{call_text_seen};
ghost use Rattle.riftcalico_core.specs.Jobs.{wanted_of};
ghost use Rattle.riftcalico_core.specs.Wanted.{names_listed, unsigned_words, wanted_note, wanted_words};

use crate::calls::{find_given_type, steps_of};
use capnp_base::introspect::{Type, TypeVariant};
use capnp_queries::floats::has_floats_at;
use capnp_schema::record::EnumerantRecord;
use capnp_schema::schema::StructSchema;
use capnp_schema::set::SchemaSet;
use capnp_wire::error::Result;
use capnp_words::call::CallWord;
use std::alloc::Global;

/// Appends the names of enumerants, each before a comma. Refused with `OutOfMemory` alone.
fn put_names(note: &mut String, enumerants: &[EnumerantRecord]) -> Result<()>
    ensures put { OnOk result (string_bytes note.new
        ≡ string_bytes note.old ++ names_listed (map seen_enumerant enumerants.now)) }
    ensures memory { IfErr result (λ e. e.kind ≡ OutOfMemory) }
{
    for enumerant in enumerants {
        note.push_str(enumerant.name.as_str())?;
        note.push_str(", ")?;
    }
    Ok(())
}

/// Appends the names of an enum, each before a comma. Refused with `OutOfMemory` alone.
fn put_enum_names(note: &mut String, schemas: &SchemaSet, number: u32) -> Result<()>
    ensures put { OnOk result (string_bytes note.new
        ≡ string_bytes note.old ++ names_listed (enum_at (lists_seen schemas.now) number).enumerants) }
    ensures memory { IfErr result (λ e. e.kind ≡ OutOfMemory) }
{
    let record = schemas.enum_schema(number).get_proto();
    put_names(note, record.enumerants.as_slice())
}

/// Appends the words for numbers of 32 bits, which are floats or not. Refused with `OutOfMemory` alone.
fn put_narrow(note: &mut String, floats: bool) -> Result<()>
    ensures put { OnOk result (string_bytes note.new ≡ string_bytes note.old ++ unsigned_words floats 4) }
    ensures memory { IfErr result (λ e. e.kind ≡ OutOfMemory) }
{
    if floats {
        return Ok(note.push_str("a number, inf, -inf or nan")?);
    }
    Ok(note.push_str("0 to 4294967295")?)
}

/// Appends the words for numbers of 64 bits, which are floats or not. Refused with `OutOfMemory` alone.
fn put_wide(note: &mut String, floats: bool) -> Result<()>
    ensures put { OnOk result (string_bytes note.new ≡ string_bytes note.old ++ unsigned_words floats 8) }
    ensures memory { IfErr result (λ e. e.kind ≡ OutOfMemory) }
{
    if floats {
        return Ok(note.push_str("a number, inf, -inf or nan")?);
    }
    Ok(note.push_str("0 to 18446744073709551615")?)
}

/// Appends the words for values of a type, whose numbers are floats or not. Refused with `OutOfMemory` alone.
fn put_wanted(note: &mut String, schemas: &SchemaSet, floats: bool, kind: TypeVariant) -> Result<()>
    ensures put { OnOk result (string_bytes note.new
        ≡ string_bytes note.old ++ wanted_words (lists_seen schemas.now) floats (seen_variant kind)) }
    ensures memory { IfErr result (λ e. e.kind ≡ OutOfMemory) }
{
    match kind {
        TypeVariant::Void => Ok(note.push_str("()")?),
        TypeVariant::Bool => Ok(note.push_str("true or false")?),
        TypeVariant::Int8 => Ok(note.push_str("-128 to 127")?),
        TypeVariant::Int16 => Ok(note.push_str("-32768 to 32767")?),
        TypeVariant::Int32 => Ok(note.push_str("-2147483648 to 2147483647")?),
        TypeVariant::Int64 => { Ok(note.push_str("-9223372036854775808 to 9223372036854775807")?) }
        TypeVariant::UInt8 => Ok(note.push_str("0 to 255")?),
        TypeVariant::UInt16 => Ok(note.push_str("0 to 65535")?),
        TypeVariant::UInt32 => put_narrow(note, floats),
        TypeVariant::UInt64 => put_wide(note, floats),
        TypeVariant::Enum(raw) => {
            put_enum_names(note, schemas, raw.number)?;
            Ok(note.push_str("0 to 65535")?)
        }
        TypeVariant::Text => Ok(note.push_str("a text, in quotes or as it stands")?),
        TypeVariant::Data => Ok(note.push_str("0x\"00ff\"")?),
        TypeVariant::Struct(_) => Ok(note.push_str("(name = value, ..) or a JSON object")?),
        TypeVariant::List(_) => Ok(note.push_str("[value, ..] or a JSON array")?),
        TypeVariant::AnyPointer => Ok(note.push_str("no word")?),
    }
}

/// The note of a type, if there is one. Refused with `OutOfMemory` alone.
#[tactic(auto, using(capnp_schema::specs::Facts::Layers::seen_which))]
fn get_note(
    alloc: Global,
    schemas: &SchemaSet,
    floats: bool,
    target: Option<Type>,
) -> Result<String>
    ensures note { IfOk result (λ note. string_bytes note
        ≡ wanted_note (lists_seen schemas.now) floats (option_map seen_type target)) }
    ensures memory { IfErr result (λ e. e.kind ≡ OutOfMemory) }
{
    let mut note = String::new(alloc);
    if let Some(target) = target {
        note.push_str("; wanted: ")?;
        put_wanted(&mut note, schemas, floats, target.which())?;
    }
    Ok(note)
}

/// What the value of a call or an edit has to be, by its path under a struct. Refused with `OutOfMemory` alone.
pub(crate) fn get_wanted(alloc: Global, schema: StructSchema<'_>, call: &CallWord) -> Result<String>
    requires { IsStruct schema }
    ensures note { IfOk result (λ note. string_bytes note
        ≡ wanted_of (set_of schema.entry) (number_of schema.entry) (call_text_seen call.now)) }
    ensures memory { IfErr result (λ e. e.kind ≡ OutOfMemory) }
{
    let steps = steps_of(alloc, &call.path)?;
    let floats = has_floats_at(schema, steps.as_slice());
    get_note(
        alloc,
        schema.get_set(),
        floats,
        find_given_type(schema, call),
    )
}
