//! Whether the numbers at the end of a path are floats, and how its data is written in JSON.
ghost use Rattle.std.specs.Prelude.{◌≡◌};
ghost use Rattle.std.specs.Option.{option_map};
ghost use Rattle.capnp_call.specs.Seen.{path_seen, step_seen};
ghost use Rattle.capnp_queries.specs.Floats.{floats_at, floats_behind, form_at, named_field, stand_of, step_on};
ghost use Rattle.capnp_queries.specs.Steps.Stands.{stand_seen};
ghost use Rattle.capnp_schema.specs.Entries.{lists_seen};
ghost use Rattle.capnp_schema.specs.FieldLists.{typed_of};
ghost use Rattle.capnp_schema.specs.StructHandles.{IsStruct, generic_of, number_of, set_of};
ghost use Rattle.capnp_schema.specs.Types.{StructType};

use capnp_base::introspect::{Type, TypeVariant};
use capnp_call::calls::Step;
use capnp_json::forms::{Form, form_of, plain};
use capnp_schema::schema::{Field, StructSchema};
use capnp_schema::set::SchemaSet;

/// What a path leads to by the schema alone: its type, and how it is written.
#[derive(Clone, Copy)]
pub(crate) struct Standing {
    of: Type,
    form: Form,
}

/// The field that a step names; none where there is none.
fn find_named<'s>(schema: StructSchema<'s>, step: Step<'_>) -> Option<Field<'s>>
    ensures { option_map typed_of result ≡ named_field (set_of schema.entry)
        (StructType (number_of schema.entry) (generic_of schema.entry)) (step_seen step.entry) }
{
    match step {
        Step::Field(index) => {
            let fields = schema.get_fields().ok()?;
            if index < fields.len() {
                return Some(fields.get(index));
            }
            None
        }
        Step::Named(name) => schema.find_field_by_name(name).ok()?,
        Step::Element(_) => None,
    }
}

/// What a step leads to from there.
#[tactic(auto, using(capnp_schema::specs::Facts::Layers::seen_which))]
fn step_on(schemas: &SchemaSet, now: Standing, step: Step<'_>) -> Standing
    ensures { stand_seen result ≡ step_on (lists_seen schemas.now) (stand_seen now) (step_seen step.entry) }
{
    match now.of.which() {
        TypeVariant::Struct(raw) => match find_named(schemas.struct_schema(raw.number), step) {
            Some(field) => Standing {
                of: field.get_type(),
                form: form_of(field),
            },
            None => now,
        },
        TypeVariant::List(element) => Standing {
            of: element,
            form: now.form,
        },
        _ => now,
    }
}

/// What a path from a struct leads to.
fn stand_at(schema: StructSchema<'_>, path: &[Step<'_>]) -> Standing
    requires { IsStruct schema }
    ensures { stand_seen result ≡ stand_of (set_of schema.entry) (number_of schema.entry) (path_seen path.now) }
{
    let mut now = Standing {
        of: Type::from(TypeVariant::Struct(schema.into())),
        form: plain(),
    };
    for step in path {
        now = step_on(schema.get_set(), now, *step);
    }
    now
}

/// How JSON writes what a path from a struct leads to, by the schema alone: as `capnp_json::forms::form_of` has it of the last field
/// that the path names, and elements as their list.
///
/// # Conditions
///
/// The schema is one of an accepted set (`IsStruct`).
pub fn get_form_at(schema: StructSchema<'_>, path: &[Step<'_>]) -> Form
    requires { IsStruct schema }
    ensures { result ≡ form_at (set_of schema.entry) (number_of schema.entry) (path_seen path.now) }
{
    stand_at(schema, path).form
}

/// Whether the numbers at the end of a path from a struct are floats, by the schema alone: as
/// `capnp_json_fields::fields::is_float` has it of the last field that the path names, and in lists of that field's.
///
/// # Conditions
///
/// The schema is one of an accepted set (`IsStruct`).
pub fn has_floats_at(schema: StructSchema<'_>, path: &[Step<'_>]) -> bool
    requires { IsStruct schema }
    ensures { result ≡ floats_at (set_of schema.entry) (number_of schema.entry) (path_seen path.now) }
{
    stand_at(schema, path).form.floats
}

/// Whether the numbers at a path with a step more behind it are floats.
///
/// # Conditions
///
/// The schema is one of an accepted set (`IsStruct`).
pub fn has_floats_behind(schema: StructSchema<'_>, path: &[Step<'_>], last: Step<'_>) -> bool
    requires { IsStruct schema }
    ensures { result
        ≡ floats_behind (set_of schema.entry) (number_of schema.entry) (path_seen path.now) (step_seen last.entry) }
{
    let now = stand_at(schema, path);
    step_on(schema.get_set(), now, last).form.floats
}
