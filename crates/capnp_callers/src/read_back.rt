//! What is read after writes, known by the contracts of builders, of readers and of the laws between them.
ghost use Rattle.std.specs.Prelude.{◌≡◌, IfOk};
ghost use Rattle.capnp_schema.specs.FieldLists.{typed_of};
ghost use Rattle.capnp_slots.specs.Fields.{IsSlot};
ghost use Rattle.capnp_slots.specs.ReadBack.{HasKind, IsWithoutParts};
ghost use Rattle.capnp_dynamic.specs.Built.{IsReady, built_schema};
ghost use Rattle.capnp_dynamic_readers.specs.Reads.{BelongsTo};
ghost use Rattle.capnp_dynamic_readers.specs.Seen.{value_seen};
ghost use Rattle.capnp_slots.specs.SetValues.{source_of};

use capnp_dynamic::dynamic_struct;
use capnp_dynamic::dynamic_value::Reader as Value;
use capnp_dynamic::laws::sets_are_got;
use capnp_schema::schema::Field;
use capnp_wire::error::Result;

/// Sets a slot, and answers what a reader of the struct gets of it: of a number, truth value, enum, text or data in a
/// slot of its kind, this value. Refused as the set.
///
/// # Conditions
///
/// The field belongs to the builder's schema (`BelongsTo`), and is a slot (`IsSlot`). The struct has at least its
/// schema's sections, and stands at its place (`IsReady`).
pub fn set_and_get<'a>(
    builder: dynamic_struct::Builder<'a>,
    field: Field<'a>,
    value: Value<'_>,
) -> Result<Value<'a>>
    requires belongs { BelongsTo field (built_schema builder) }
    requires ready { IsReady builder }
    requires slot { IsSlot field }
    ensures { IsWithoutParts (source_of value.entry) → HasKind (typed_of field.entry).type
        → IfOk result (λ got. value_seen got ≡ value_seen value.entry) }
{
    sets_are_got(field, value);
    let mut builder = builder;
    builder.set(field, value)?;
    builder.into_reader().get(field)
}
