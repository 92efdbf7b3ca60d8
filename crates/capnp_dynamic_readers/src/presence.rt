//! What of a struct is there, by plans: the active member of its union, and what stands at a field's place.
ghost use Rattle.std.specs.Prelude.{◌≡◌};
ghost use Rattle.capnp_wire.specs.Standing.{struct_of};
ghost use Rattle.capnp_dynamic_readers.specs.Planned.{IsActiveMember, place_there};

use capnp_schema::loaded::load_pair;
use capnp_schema::plan::Place;
use capnp_schema::schema::{Field, StructSchema};
use capnp_wire::StructReader;

/// The member whose discriminant value stands in a struct under a schema; none without a union or for an unknown
/// number.
#[inline(always)]
pub fn active_member<'s>(schema: StructSchema<'s>, reader: &StructReader<'_>) -> Option<Field<'s>>
    ensures { IsActiveMember schema.entry (struct_of reader.now) result }
{
    let Some(first) = schema.get_discriminant() else {
        return None;
    };
    let Ok(member) = schema.get_field_by_discriminant(load_pair(reader, first)) else {
        unreachable!()
    };
    member
}

/// Whether what stands at a place is no null pointer.
#[inline(always)]
pub fn is_there(reader: &StructReader<'_>, place: Place) -> bool
    ensures { result ≡ place_there (struct_of reader.now) place }
{
    match place {
        Place::Nothing => true,
        Place::Bits {
            start: _,
            width: _,
            mask: _,
        } => true,
        Place::Pointer(index) => !reader.get_pointer_field(index).is_null(),
        Place::Group(_) => true,
    }
}
