//! Dynamic structs by the handles of struct types, once it is known that the types are theirs.
ghost use Rattle.std.specs.Prelude.{IfSome};
ghost use Rattle.capnp_dynamic.specs.Built.{handle_of};
ghost use Rattle.capnp_dynamic.specs.BuiltKinds.{IsBuiltStructAnd};
ghost use Rattle.capnp_dynamic_readers.specs.Handles.{reader_of};
ghost use Rattle.capnp_dynamic_readers.specs.Kinds.{IsStructAnd};

use capnp_base::introspect::{Introspect, RawBrandedStructSchema, TypeVariant};
use capnp_base::traits::OwnedStruct as ReadStruct;
use capnp_builders::traits::OwnedStruct as BuiltStruct;
use capnp_dynamic::dynamic_value;
use capnp_schema::laws::types_go_by_layers;

/// The struct that a value is, by the handle of a struct type. None where the value is no struct of the type.
pub fn read_as_type<'a, T: ReadStruct<'a>>(value: dynamic_value::Reader<'a>) -> Option<T::Reader>
    ensures { IfSome result (λ handle. IsStructAnd value.entry (λ s. T.Reader.from_gives (reader_of s) handle)) }
{
    types_go_by_layers();
    let dynamic_value::Reader::Struct(reader) = value else {
        return None;
    };
    let TypeVariant::Struct(own) = T::introspect().which() else {
        return None;
    };
    let raw = RawBrandedStructSchema::from(reader.get_schema());
    if raw.number != own.number || raw.generic != own.generic {
        return None;
    }
    Some(value.downcast_struct::<T>())
}

/// The struct that a value is which is built, by the handle of a struct type. None where the value is no struct of the
/// type.
pub fn build_as_type<'a, T: BuiltStruct<'a>>(
    value: dynamic_value::Builder<'a>,
) -> Option<T::Builder>
    ensures { IfSome result (λ handle. IsBuiltStructAnd value.entry (λ s. T.Builder.from_gives (handle_of s) handle)) }
{
    types_go_by_layers();
    let dynamic_value::Builder::Struct(built) = value else {
        return None;
    };
    let TypeVariant::Struct(own) = T::introspect().which() else {
        return None;
    };
    let raw = RawBrandedStructSchema::from(built.get_schema());
    if raw.number != own.number || raw.generic != own.generic {
        return None;
    }
    Some(dynamic_value::Builder::Struct(built).downcast_struct::<T>())
}
