//! Enumerants of a set, by the numbers that stand for them.
ghost use Rattle.std.specs.Prelude.{MatchOption, length, ◌+◌, ◌≡◌, ◌≤◌, ◌⊎◌};
ghost use Rattle.capnp_schema.specs.Annotated.{enumerant_at};
ghost use Rattle.capnp_schema.specs.Entries.{lists_seen};
ghost use Rattle.capnp_schema.specs.Enumerants.{IsEnumerantOf, containing_enum, enumerant_in, ordinal_of};
ghost use Rattle.capnp_schema.specs.Enums.{enum_in};
ghost use Rattle.capnp_schema.specs.Schema.{enum_at};

use capnp_schema::schema::{EnumSchema, Enumerant};
use capnp_schema::set::SchemaSet;

/// The enumerant of an enum that a number stands for in a message. None for a number past the last one.
fn enumerant_at_ordinal<'s>(schema: EnumSchema<'s>, ordinal: u16) -> Option<Enumerant<'s>>
    ensures { MatchOption result (length (enum_in schema.entry).enumerants ≤ ordinal) (IsEnumerantOf schema.entry ordinal) }
{
    let Ok(list) = schema.get_enumerants() else {
        unreachable!()
    };
    if ordinal >= list.len() {
        return None;
    }
    Some(list.get(ordinal))
}

/// The enumerant that a number stands for, of the enum that an enum type names by its number in the set. None where the
/// set has no such enum, or the enum no such enumerant.
pub fn enumerant_of<'s>(schemas: &'s SchemaSet, number: u32, ordinal: u16) -> Option<Enumerant<'s>>
    ensures { MatchOption result
        ((length (lists_seen schemas.now).enums ≤ number)
        ⊎ (length (enum_at (lists_seen schemas.now) number).enumerants ≤ ordinal))
        (λ x. enumerant_in x ≡ enumerant_at (lists_seen schemas.now) number ordinal) }
{
    let schema = schemas.get_enum(number)?;
    enumerant_at_ordinal(schema, ordinal)
}

/// The enumerant after another one in its enum. None after the last one.
pub fn next_enumerant<'s>(enumerant: Enumerant<'s>) -> Option<Enumerant<'s>>
    ensures { MatchOption result
        (length (enum_in (containing_enum enumerant.entry)).enumerants ≤ ordinal_of enumerant.entry + 1)
        (IsEnumerantOf (containing_enum enumerant.entry) (ordinal_of enumerant.entry + 1)) }
{
    let Ok(list) = enumerant.get_containing_enum().get_enumerants() else {
        unreachable!()
    };
    let ordinal = enumerant.get_ordinal();
    if u32::from(ordinal) + 1 >= u32::from(list.len()) {
        return None;
    }
    Some(list.get(ordinal + 1))
}
