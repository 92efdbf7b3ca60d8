//! The type at the end of a path.
ghost use Rattle.std.specs.Prelude.{◌≡◌, IfSome};
ghost use Rattle.std.specs.Option.{option_map, option_and_then};
ghost use Rattle.capnp_schema.specs.Accepted.{NamesEntries};
ghost use Rattle.capnp_schema.specs.Entries.{lists_seen};
ghost use Rattle.capnp_schema.specs.Query.{field_named};
ghost use Rattle.capnp_schema.specs.StructHandles.{IsStruct, generic_of, number_of, set_of, struct_records};
ghost use Rattle.capnp_schema.specs.Types.{seen_type, seen_variant, StructType};
ghost use Rattle.capnp_words.specs.Seen.{path_text_seen, step_text_seen};
ghost use Rattle.capnp_words.specs.Targets.{field_type, type_along, type_behind};

use crate::path::{Path, PathStep};
use capnp_base::introspect::{Type, TypeVariant};
use capnp_schema::schema::StructSchema;
use capnp_schema::set::SchemaSet;

/// The type of the field of an index. None past the last.
pub fn find_field_type(schema: StructSchema<'_>, index: u16) -> Option<Type>
    ensures { option_map seen_type result ≡ field_type (set_of schema.entry) (number_of schema.entry) index }
{
    let fields = schema.get_fields().ok()?;
    if index < fields.len() {
        return Some(fields.get(index).get_type());
    }
    None
}

/// The type of the field of a name. None where there is no such field.
pub fn find_named_type(schema: StructSchema<'_>, name: &str) -> Option<Type>
    ensures { option_map seen_type result ≡ option_and_then (field_type (set_of schema.entry) (number_of schema.entry))
        (field_named (struct_records schema.entry) name.now) }
{
    let field = schema.find_field_by_name(name).ok()??;
    Some(field.get_type())
}

/// The type of what a step names at a type of the set. None where it fits nothing there.
fn find_type_behind(schemas: &SchemaSet, kind: TypeVariant, step: &PathStep) -> Option<Type>
    ensures { option_map seen_type result ≡ type_behind (lists_seen schemas.now) (seen_variant kind) (step_text_seen step.now) }
{
    match kind {
        TypeVariant::Struct(raw) => match step {
            PathStep::Named(name) => find_named_type(
                schemas.struct_schema(raw.number),
                name.as_str(),
            ),
            PathStep::Field(index) => find_field_type(schemas.struct_schema(raw.number), *index),
            PathStep::Element(_) => None,
        },
        TypeVariant::List(element) => match step {
            PathStep::Element(_) => Some(element),
            PathStep::Named(_) | PathStep::Field(_) => None,
        },
        _ => None,
    }
}

/// The type at the end of a path from a struct, by the schema alone: a struct or group has fields, by name and by
/// number, and a list has elements, however many there are in a message. None where a step fits nothing. At the end of
/// the empty path is the struct's own type. The struct or enum that a type names, or that its lists hold, is there in the
/// set, where the schema is one of an accepted set (`IsStruct`).
#[tactic(auto, using(capnp_schema::specs::Facts::Layers::seen_which))]
pub fn target_type(schema: StructSchema<'_>, path: &Path) -> Option<Type>
    ensures is { option_map seen_type result ≡ type_along (set_of schema.entry)
        (StructType (number_of schema.entry) (generic_of schema.entry)) (path_text_seen path.now) }
    ensures named { IsStruct schema.entry → IfSome result (λ t. NamesEntries (set_of schema.entry) (seen_type t)) }
{
    let mut target = Type::from(TypeVariant::Struct(schema.into()));
    for step in &path.steps {
        target = find_type_behind(schema.get_set(), target.which(), step)?;
    }
    Some(target)
}
