//! What a program asks of schemas by names and numbers.
ghost use Rattle.std.specs.Prelude.{◌≡◌, IfErr, IfOk, IfSome, None, Some};
ghost use Rattle.std.specs.Option.{option_map};
ghost use Rattle.capnp_device.specs.declared.error.ErrorKind.TheVariants.{FieldNotFound};
ghost use Rattle.capnp_schema.specs.FieldLists.{field_schema};
ghost use Rattle.capnp_schema.specs.Plan.{plan_of};
ghost use Rattle.capnp_schema.specs.Query.{field_named};
ghost use Rattle.capnp_schema.specs.StructHandles.{IsStruct, number_of, set_of, struct_field, struct_records};

use capnp_base::introspect::TypeVariant;
use capnp_schema::laws::types_go_by_layers;
use capnp_schema::plan::SlotPlan;
use capnp_schema::schema::{Field, StructSchema};
use capnp_wire::error::Result;

/// Where the field of a name stands in its struct. Refused with `FieldNotFound` where no field has the name.
pub fn plan_of_named(schema: StructSchema<'_>, name: &str) -> Result<SlotPlan>
    ensures plan { IfOk result (λ plan. option_map
        (λ i. plan_of (set_of schema.entry) (number_of schema.entry) (struct_field schema.entry i))
        (field_named (struct_records schema.entry) name.now) ≡ Some plan) }
    ensures refused { IfErr result (λ e. (e.kind ≡ FieldNotFound)
        × (field_named (struct_records schema.entry) name.now ≡ None)) }
{
    Ok(schema.get_field_by_name(name)?.plan())
}

/// The schema of the structs that a field's lists hold, where its type is a list of structs.
pub fn element_struct<'s>(field: &Field<'s>) -> Option<StructSchema<'s>>
    ensures { IfSome result (λ s. IsStruct s × (set_of s ≡ set_of (field_schema field.now))) }
{
    types_go_by_layers();
    let TypeVariant::List(element) = field.get_type().which() else {
        return None;
    };
    let TypeVariant::Struct(raw) = element.which() else {
        return None;
    };
    let schemas = field.get_containing_struct().get_set();
    Some(schemas.struct_schema(raw.number))
}
