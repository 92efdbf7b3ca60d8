//! Fields that are started anew by their names, and taken as what they are known to be.
ghost use Rattle.std.specs.Prelude.{IfErr, IfOk, IsErrAnd, None, ◌≡◌};
ghost use Rattle.capnp_device.specs.declared.error.ErrorKind.TheVariants.{FieldNotFound, TypeMismatch};
ghost use Rattle.capnp_schema.specs.Query.{field_named};
ghost use Rattle.capnp_schema.specs.StructHandles.{struct_records};
ghost use Rattle.capnp_schema.specs.declared.schema.fields.Field.{Field};
ghost use Rattle.capnp_dynamic.specs.Built.{IsListReady, IsReady, built_schema, built_struct, place_of, struct_behind};
ghost use Rattle.capnp_dynamic.specs.BuiltValues.{CanBeRead};
ghost use Rattle.capnp_dynamic.specs.Handed.{HandsInit, HandsInitn};
ghost use Rattle.capnp_dynamic.specs.Names.{IsNamed};
ghost use Rattle.capnp_dynamic.specs.Owners.{IsSizedOf, IsStartedOf};
ghost use Rattle.capnp_dynamic.specs.declared.dynamic_value.build.Builder.TheVariants as built;

use capnp_dynamic::{dynamic_list, dynamic_struct, dynamic_value};
use capnp_wire::error::{Error, Result};

/// The struct that a value is. Refused with `TypeMismatch` for every other value.
fn struct_of<'a>(part: dynamic_value::Builder<'a>) -> Result<dynamic_struct::Builder<'a>>
    requires { CanBeRead part }
    ensures is { IfOk result (λ s. built.Struct s ≡ part.entry) }
    ensures ready { IfOk result IsReady }
    ensures refused { IfErr result (λ e. e.kind ≡ TypeMismatch) }
{
    match part {
        dynamic_value::Builder::Struct(inner) => Ok(inner),
        _ => Err(Error::type_mismatch()),
    }
}

/// The list that a value is. Refused with `TypeMismatch` for every other value.
fn list_of<'a>(part: dynamic_value::Builder<'a>) -> Result<dynamic_list::Builder<'a>>
    requires { CanBeRead part }
    ensures is { IfOk result (λ l. built.List l ≡ part.entry) }
    ensures ready { IfOk result IsListReady }
    ensures refused { IfErr result (λ e. e.kind ≡ TypeMismatch) }
{
    match part {
        dynamic_value::Builder::List(list) => Ok(list),
        _ => Err(Error::type_mismatch()),
    }
}

/// Starts the struct or group anew that the field of a name has.
///
/// Refused as the `init` of the field of that name, and with `TypeMismatch` where that hands out a value of another
/// kind, which is then there.
///
/// # Conditions
///
/// The struct has at least its schema's sections, and stands at its place (`IsReady`).
pub fn start_struct_in<'a>(
    builder: dynamic_struct::Builder<'a>,
    name: &str,
) -> Result<dynamic_struct::Builder<'a>>
    requires { IsReady builder }
    ensures stands { (f : Field) → IsNamed (built_schema builder.entry) name.now f
        → IfOk result (λ s. HandsInit f (built_struct builder.entry) (built.Struct s)) }
    ensures ready { IfOk result IsReady }
    ensures owner { (f : Field) → IsNamed (built_schema builder.entry) name.now f
        → IfOk result (λ s. IsStartedOf (struct_behind builder.entry) (place_of builder.entry) f (built.Struct s)) }
    ensures none { field_named (struct_records (built_schema builder.entry)) name.now ≡ None
        → IsErrAnd result (λ e. e.kind ≡ FieldNotFound) }
{
    let part = builder.init_named(name)?;
    struct_of(part)
}

/// Starts the list anew that the field of a name has, with so many elements.
///
/// Refused as the `initn` of the field of that name, and with `TypeMismatch` where that hands out a text or data, which
/// is then there.
///
/// # Conditions
///
/// The struct has at least its schema's sections, and stands at its place (`IsReady`).
pub fn start_list_in<'a>(
    builder: dynamic_struct::Builder<'a>,
    name: &str,
    count: u32,
) -> Result<dynamic_list::Builder<'a>>
    requires { IsReady builder }
    ensures stands { (f : Field) → IsNamed (built_schema builder.entry) name.now f
        → IfOk result (λ l. HandsInitn f count (built.List l)) }
    ensures ready { IfOk result IsListReady }
    ensures owner { (f : Field) → IsNamed (built_schema builder.entry) name.now f
        → IfOk result (λ l. IsSizedOf (struct_behind builder.entry) (place_of builder.entry) f count (built.List l)) }
    ensures none { field_named (struct_records (built_schema builder.entry)) name.now ≡ None
        → IsErrAnd result (λ e. e.kind ≡ FieldNotFound) }
{
    let part = builder.initn_named(name, count)?;
    list_of(part)
}
