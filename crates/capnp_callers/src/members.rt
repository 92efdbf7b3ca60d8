//! Fields of a struct by their places in its union and beside it, and a group that is a member.
ghost use Rattle.std.specs.Prelude.{IfErr, IfOk, IsTrue, MatchOption, length, slice_index, ◌≡◌, ◌≤◌, ◌↔◌};
ghost use Rattle.capnp_device.specs.declared.error.ErrorKind.TheVariants.{OutOfMemory};
ghost use Rattle.capnp_schema.specs.FieldLists.{IsFieldOf, IsFound};
ghost use Rattle.capnp_schema.specs.Making.{as_member, non_union_field};
ghost use Rattle.capnp_schema.specs.Query.{member_of, non_union_fields};
ghost use Rattle.capnp_schema.specs.Schema.{Group, seen_field};
ghost use Rattle.capnp_schema.specs.StructHandles.{struct_records};

use capnp_base::introspect::{RawBrandedStructSchema, Type, TypeVariant};
use capnp_schema::record::FieldRecord;
use capnp_schema::schema::{Field, StructSchema};
use capnp_wire::error::Result;
use std::alloc::Global;

/// The member of a struct's union that a discriminant value stands for. None where no member has the value.
pub fn member_at<'s>(schema: StructSchema<'s>, value: u16) -> Result<Option<Field<'s>>>
    ensures { IfOk result (IsFound schema.entry (member_of (struct_records schema.entry) value)) }
{
    let members = schema.get_union_fields()?;
    if value >= members.len() {
        return Ok(None);
    }
    Ok(Some(members.get(value)))
}

/// The field that is no member of its struct's union, and before which `skipped` others are none. None where there are
/// not so many.
pub fn non_union_after<'s>(schema: StructSchema<'s>, skipped: usize) -> Result<Option<Field<'s>>>
    ensures { IfOk result (λ found. MatchOption found
        (length (non_union_fields (struct_records schema.entry)) ≤ skipped)
        (IsFieldOf schema.entry (slice_index (non_union_fields (struct_records schema.entry)) skipped))) }
{
    let mut fields = schema.get_non_union_fields()?.iter();
    Ok(fields.nth_item(skipped))
}

/// Whether two brands are of one generic struct, with the same or with other type parameters.
pub fn are_of_one_struct(one: RawBrandedStructSchema, other: RawBrandedStructSchema) -> bool
    ensures { IsTrue result ↔ (one.generic ≡ other.generic) }
{
    Type::from(TypeVariant::Struct(one)).loose_equals(Type::from(TypeVariant::Struct(other)))
}

/// A group, by the number of its node, that is the member of its struct's union for a discriminant value. Refused with
/// `OutOfMemory` alone.
pub fn group_member(alloc: Global, name: &str, node: u32, value: u16) -> Result<FieldRecord>
    ensures made { IfOk result (λ f. seen_field f ≡ as_member (non_union_field name.now (Group node)) value) }
    ensures refused { IfErr result (λ e. e.kind ≡ OutOfMemory) }
{
    let group = FieldRecord::group(alloc, name, node)?;
    Ok(group.as_member(value))
}
