//! The names of fields and enumerants in JSON, and what has a name.
ghost use Rattle.std.specs.Prelude.{◌≡◌};
ghost use Rattle.capnp_schema.specs.Enumerants.{enumerant_in};
ghost use Rattle.capnp_schema.specs.Enums.{enum_in};
ghost use Rattle.capnp_schema.specs.FieldLists.{IsFound, typed_of};
ghost use Rattle.capnp_schema.specs.StructHandles.{struct_records};
ghost use Rattle.capnp_json_fields.specs.Names.{enumerant_name, enumerant_of_name, field_name, field_of_name};

use crate::annotations::last_text;
use capnp_schema::schema::{EnumSchema, Enumerant, Field, StructSchema};

/// The annotation `name` of json.capnp.
pub const NAME_ID: u64 = 0xfa5b_1fd6_1c2e_7c3d;

/// The name of a field in JSON: the text of its last annotation `name` that has a text, and else its own name.
pub fn json_name<'s>(field: Field<'s>) -> &'s [u8]
    ensures { result.now ≡ field_name (typed_of field.entry).field }
{
    let proto = field.get_proto();
    last_text(proto.name.as_bytes(), &proto.annotations, NAME_ID)
}

/// The name of an enumerant in JSON, by the same rule.
pub fn json_enumerant_name<'s>(enumerant: Enumerant<'s>) -> &'s [u8]
    ensures { result.now ≡ enumerant_name (enumerant_in enumerant.entry) }
{
    let proto = enumerant.get_proto();
    last_text(proto.name.as_bytes(), &proto.annotations, NAME_ID)
}

/// The first field of a struct or group that has this name in JSON.
pub fn find_field<'s>(schema: StructSchema<'s>, name: &[u8]) -> Option<Field<'s>>
    ensures { IsFound schema.entry (field_of_name (struct_records schema.entry) name.now) result }
{
    let Ok(fields) = schema.get_fields() else {
        unreachable!()
    };
    for index in 0..fields.len() {
        let field = fields.get(index);
        if json_name(field) == name {
            return Some(field);
        }
    }
    None
}

/// The ordinal of the first enumerant of an enum that has this name in JSON.
pub fn find_enumerant(schema: EnumSchema<'_>, name: &[u8]) -> Option<u16>
    ensures { result ≡ enumerant_of_name (enum_in schema.entry) name.now }
{
    let Ok(enumerants) = schema.get_enumerants() else {
        unreachable!()
    };
    for ordinal in 0..enumerants.len() {
        if json_enumerant_name(enumerants.get(ordinal)) == name {
            return Some(ordinal);
        }
    }
    None
}
