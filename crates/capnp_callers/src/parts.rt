//! Parts of parts of a struct that is built.
ghost use Rattle.std.specs.Prelude.{IfOk, IsErrAnd, None, ◌≡◌};
ghost use Rattle.capnp_device.specs.declared.error.ErrorKind.TheVariants.{FieldNotFound};
ghost use Rattle.capnp_schema.specs.Query.{field_named};
ghost use Rattle.capnp_schema.specs.StructHandles.{struct_records};
ghost use Rattle.capnp_schema.specs.declared.schema.fields.Field.{Field};
ghost use Rattle.capnp_dynamic.specs.Built.{IsListReady, IsReady, built_schema, built_struct};
ghost use Rattle.capnp_dynamic.specs.Names.{IsNamed};
ghost use Rattle.capnp_dynamic.specs.declared.dynamic_value.build.Builder.TheVariants as built;
ghost use Rattle.capnp_callers.specs.Parts.{IsInListOf, IsInPart};

use capnp_dynamic::parts::build::{list_at, list_in, struct_at, struct_in};
use capnp_dynamic::{dynamic_list, dynamic_struct};
use capnp_wire::error::Result;

/// The struct or group of a name in the struct or group of another name. Refused as `struct_in` of the first name that
/// is refused.
///
/// # Conditions
///
/// The struct has at least its schema's sections, and stands at its place (`IsReady`).
pub fn struct_in_struct<'a>(
    builder: dynamic_struct::Builder<'a>,
    outer: &str,
    inner: &str,
) -> Result<dynamic_struct::Builder<'a>>
    requires { IsReady builder }
    ensures stands { (f : Field) → IsNamed (built_schema builder.entry) outer.now f
        → IfOk result (λ s. IsInPart f (built_struct builder.entry) inner.now (built.Struct s)) }
    ensures ready { IfOk result IsReady }
    ensures none { field_named (struct_records (built_schema builder.entry)) outer.now ≡ None
        → IsErrAnd result (λ e. e.kind ≡ FieldNotFound) }
{
    let part = struct_in(builder, outer)?;
    struct_in(part, inner)
}

/// The struct at an index of the list of a name. Refused as `list_in`, and then as `struct_at`.
///
/// # Conditions
///
/// The struct has at least its schema's sections, and stands at its place (`IsReady`).
pub fn struct_in_list<'a>(
    builder: dynamic_struct::Builder<'a>,
    name: &str,
    index: u32,
) -> Result<dynamic_struct::Builder<'a>>
    requires { IsReady builder }
    ensures stands { (f : Field) → IsNamed (built_schema builder.entry) name.now f
        → IfOk result (λ s. IsInListOf f (built_struct builder.entry) index (built.Struct s)) }
    ensures ready { IfOk result IsReady }
    ensures none { field_named (struct_records (built_schema builder.entry)) name.now ≡ None
        → IsErrAnd result (λ e. e.kind ≡ FieldNotFound) }
{
    let list = list_in(builder, name)?;
    struct_at(list, index)
}

/// The list at an index of the list of lists of a name. Refused as `list_in`, and then as `list_at`.
///
/// # Conditions
///
/// The struct has at least its schema's sections, and stands at its place (`IsReady`).
pub fn list_in_list<'a>(
    builder: dynamic_struct::Builder<'a>,
    name: &str,
    index: u32,
) -> Result<dynamic_list::Builder<'a>>
    requires { IsReady builder }
    ensures stands { (f : Field) → IsNamed (built_schema builder.entry) name.now f
        → IfOk result (λ l. IsInListOf f (built_struct builder.entry) index (built.List l)) }
    ensures ready { IfOk result IsListReady }
    ensures none { field_named (struct_records (built_schema builder.entry)) name.now ≡ None
        → IsErrAnd result (λ e. e.kind ≡ FieldNotFound) }
{
    let list = list_in(builder, name)?;
    list_at(list, index)
}
