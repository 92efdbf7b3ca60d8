//! The field that a path names last, and how deep in its lists the path ends.
ghost use Rattle.std.specs.Prelude.{None, Option, Some, suc, ℕ, ◌≡◌, ◌<◌, IfSome};
ghost use Rattle.std.specs.Option.{option_map};
ghost use Rattle.capnp_schema.specs.Entries.{lists_seen};
ghost use Rattle.capnp_schema.specs.FieldLists.{IsFound};
ghost use Rattle.capnp_schema.specs.Schema.{Schemas};
ghost use Rattle.capnp_schema.specs.StructHandles.{generic_of, number_of, set_of};
ghost use Rattle.capnp_schema.specs.Types.{ListType, SchemaType, StructType, seen_type, seen_variant};
ghost use Rattle.capnp_words.specs.Seen.{path_text_seen, step_text_seen};
ghost use Rattle.capnp_words.specs.Targets.{type_along, type_behind};
ghost use Rattle.riftcalico_core.specs.LastFields.{Spot as SpotSaid, index_at, spot_along, spot_behind, spot_within};
ghost use Rattle.riftcalico_core.specs.SpotsSeen.{IsSpotOf, spot_seen};
ghost use Rattle.riftcalico_core.specs.Steps.Spots.{IsSpotAt, most_depth};

use capnp_base::introspect::{Type, TypeVariant};
use capnp_schema::schema::{Field, StructSchema};
use capnp_schema::set::SchemaSet;
use capnp_words::path::{Path, PathStep};

/// A field, and how many lists of it, one within another, a path goes into from there.
#[derive(Clone, Copy)]
pub struct Spot<'s> {
    pub field: Field<'s>,
    pub depth: usize,
}

/// What steps lead to: its type, and where it stands.
#[derive(Clone, Copy)]
struct Reached<'s> {
    of: Type,
    spot: Option<Spot<'s>>,
}

/// An element of the list at a spot.
pub(crate) fn go_within(spot: Option<Spot<'_>>) -> Option<Spot<'_>>
    requires few { IfSome spot (λ p. p.depth < most_depth) }
    ensures is { option_map spot_seen result ≡ option_map spot_within (option_map spot_seen spot.entry) }
    ensures few { (n : ℕ) → IfSome spot.entry (λ p. p.depth < n) → IfSome result (λ p. p.depth < suc n) }
    ensures typed { (set : Schemas) → (e : SchemaType) → IfSome spot.entry (IsSpotOf set (ListType e))
        → IfSome result (IsSpotOf set e) }
{
    match spot {
        Some(spot) => Some(Spot {
            field: spot.field,
            depth: spot.depth + 1,
        }),
        None => None,
    }
}

/// The field of a struct that a step names.
fn find_step_field<'s>(schema: StructSchema<'s>, step: &PathStep) -> Option<Field<'s>>
    ensures { IsFound schema.entry (index_at (set_of schema.entry) (number_of schema.entry) (step_text_seen step.now)) result }
{
    match step {
        PathStep::Named(name) => schema.find_field_by_name(name.as_str()).ok()?,
        PathStep::Field(index) => {
            let fields = schema.get_fields().ok()?;
            if *index < fields.len() {
                return Some(fields.get(*index));
            }
            None
        }
        PathStep::Element(_) => None,
    }
}

/// What a step names at a struct of a set.
fn reach_field<'s>(schema: StructSchema<'s>, step: &PathStep) -> Option<Reached<'s>>
    ensures is { option_map (λ r. seen_type r.of) result ≡ type_behind (set_of schema.entry)
        (StructType (number_of schema.entry) (generic_of schema.entry)) (step_text_seen step.now) }
    ensures spot { (o : Option SpotSaid) → IfSome result (λ r. option_map spot_seen r.spot ≡ spot_behind (set_of schema.entry) o
        (StructType (number_of schema.entry) (generic_of schema.entry)) (step_text_seen step.now)) }
    ensures typed { IfSome result (λ r. IfSome r.spot (IsSpotOf (set_of schema.entry) (seen_type r.of))) }
    ensures few { (n : ℕ) → IfSome result (λ r. IfSome r.spot (λ p. p.depth < suc n)) }
{
    let field = find_step_field(schema, step)?;
    Some(Reached {
        of: field.get_type(),
        spot: Some(Spot { field, depth: 0 }),
    })
}

/// What a step names at a list of elements of a type, at a spot.
fn reach_element<'s>(element: Type, spot: Option<Spot<'s>>, step: &PathStep) -> Option<Reached<'s>>
    requires few { IfSome spot (λ p. p.depth < most_depth) }
    ensures is { (set : Schemas) → option_map (λ r. seen_type r.of) result
        ≡ type_behind set (ListType (seen_type element)) (step_text_seen step.now) }
    ensures spot { (set : Schemas) → IfSome result (λ r. option_map spot_seen r.spot ≡ spot_behind set
        (option_map spot_seen spot.entry) (ListType (seen_type element)) (step_text_seen step.now)) }
    ensures typed { (set : Schemas) → IfSome spot.entry (IsSpotOf set (ListType (seen_type element)))
        → IfSome result (λ r. IfSome r.spot (IsSpotOf set (seen_type r.of))) }
    ensures few { (n : ℕ) → IfSome spot.entry (λ p. p.depth < n) → IfSome result (λ r. IfSome r.spot (λ p. p.depth < suc n)) }
{
    match step {
        PathStep::Element(_) => Some(Reached {
            of: element,
            spot: go_within(spot),
        }),
        PathStep::Named(_) | PathStep::Field(_) => None,
    }
}

/// What a step names at a type of a set, at a spot.
fn reach_behind<'s>(
    schemas: &'s SchemaSet,
    kind: TypeVariant,
    spot: Option<Spot<'s>>,
    step: &PathStep,
) -> Option<Reached<'s>>
    requires few { IfSome spot (λ p. p.depth < most_depth) }
    ensures is { option_map (λ r. seen_type r.of) result
        ≡ type_behind (lists_seen schemas.now) (seen_variant kind) (step_text_seen step.now) }
    ensures spot { IfSome result (λ r. option_map spot_seen r.spot ≡ spot_behind (lists_seen schemas.now)
        (option_map spot_seen spot.entry) (seen_variant kind) (step_text_seen step.now)) }
    ensures typed { IfSome spot.entry (IsSpotOf (lists_seen schemas.now) (seen_variant kind))
        → IfSome result (λ r. IfSome r.spot (IsSpotOf (lists_seen schemas.now) (seen_type r.of))) }
    ensures few { (n : ℕ) → IfSome spot.entry (λ p. p.depth < n) → IfSome result (λ r. IfSome r.spot (λ p. p.depth < suc n)) }
{
    match kind {
        TypeVariant::Struct(raw) => reach_field(schemas.struct_schema(raw.number), step),
        TypeVariant::List(element) => reach_element(element, spot, step),
        _ => None,
    }
}

/// The field that a path from a struct names last, and how deep in its lists the path ends, by the schema alone. None where the
/// path is empty, and where it leads to nothing.
#[tactic(auto, using(capnp_schema::specs::Facts::Layers::seen_which))]
pub(crate) fn find_spot<'s>(schema: StructSchema<'s>, path: &Path) -> Option<Spot<'s>>
    ensures is { option_map spot_seen result ≡ spot_along (set_of schema.entry)
        (StructType (number_of schema.entry) (generic_of schema.entry)) (path_text_seen path.now) }
    ensures typed { IfSome result (IsSpotAt (set_of schema.entry) (type_along (set_of schema.entry)
        (StructType (number_of schema.entry) (generic_of schema.entry)) (path_text_seen path.now))) }
    ensures few { IfSome result (λ p. p.depth < most_depth) }
{
    let mut now = Reached {
        of: Type::from(TypeVariant::Struct(schema.into())),
        spot: None,
    };
    let count = path.steps.len();
    for index in 0..count {
        now = reach_behind(
            schema.get_set(),
            now.of.which(),
            now.spot,
            &path.steps[index],
        )?;
    }
    now.spot
}
