//! Values that hold others, as far as their brackets tell.
ghost use Rattle.std.specs.Prelude.{ℕ, Bool, ◌≡◌, ◌-◌, length, IfErr, IfOk};
ghost use Rattle.capnp_device.specs.declared.error.ErrorKind.TheVariants.{OutOfMemory};
ghost use Rattle.capnp_schema.specs.Types.{ListType, SchemaType, StructType};
ghost use Rattle.capnp_json_text.specs.Values.{json_at};
ghost use Rattle.capnp_json_fields.specs.declared.fields.DataForm.{DataForm};
ghost use Rattle.capnp_from_json.specs.Leaves.{Part};
ghost use Rattle.capnp_from_json.specs.LeafReads.{under};
ghost use Rattle.capnp_from_json.specs.Records.{Rules, root_of_json, value_of_json};
ghost use Rattle.capnp_from_json.specs.Held.{IsShorter, list_held, root_held, struct_held};

use crate::looks::{Look, look_at};
use capnp_device::error::Result;
use capnp_json_text::items::first_item;
use capnp_json_text::kinds::Bracket;
use capnp_json_text::rest::skip_blanks;
use std::alloc::Global;

/// What stands where an array or an object is asked.
#[derive(Clone, Copy)]
pub enum Held<'a> {
    Null,
    /// What it holds, from the first element or name on.
    Items(Option<&'a [u8]>),
    /// A value of another kind.
    Other,
}

/// What stands where an object is asked.
///
/// Refused with `OutOfMemory` alone.
pub fn held_object(alloc: Global, bytes: &[u8]) -> Result<Held<'_>>
    ensures read { (rules : Rules) (whole levels b g : ℕ) (part : Part) (is_float : Bool) (form : DataForm) →
        IfOk result (λ h. value_of_json rules (json_at whole bytes.now) levels (under (StructType b g) part is_float form)
        ≡ struct_held rules whole (whole - length bytes.now) levels part b h) }
    ensures root { (rules : Rules) (whole b : ℕ) → IfOk result (λ h. root_of_json rules b (json_at whole bytes.now)
        ≡ root_held rules whole (whole - length bytes.now) b h) }
    ensures shorter { IfOk result (λ h. IsShorter h bytes.now) }
    ensures memory { IfErr result (λ e. e.kind ≡ OutOfMemory) }
{
    match look_at(alloc, bytes)? {
        Look::Null => Ok(Held::Null),
        Look::Truth(_truth) => Ok(Held::Other),
        Look::Number(_token) => Ok(Held::Other),
        Look::Text(_content) => Ok(Held::Other),
        Look::Array(_behind) => Ok(Held::Other),
        Look::Object(behind) => Ok(Held::Items(first_item(Bracket::Curly, skip_blanks(behind)))),
    }
}

/// What stands where an array is asked.
///
/// Refused with `OutOfMemory` alone.
pub fn held_array(alloc: Global, bytes: &[u8]) -> Result<Held<'_>>
    ensures read { (rules : Rules) (whole levels : ℕ) (element : SchemaType) (part : Part) (is_float : Bool) (form : DataForm) →
        IfOk result (λ h. value_of_json rules (json_at whole bytes.now) levels (under (ListType element) part is_float form)
        ≡ list_held rules whole (whole - length bytes.now) levels (under (ListType element) part is_float form) element h) }
    ensures shorter { IfOk result (λ h. IsShorter h bytes.now) }
    ensures memory { IfErr result (λ e. e.kind ≡ OutOfMemory) }
{
    match look_at(alloc, bytes)? {
        Look::Null => Ok(Held::Null),
        Look::Truth(_truth) => Ok(Held::Other),
        Look::Number(_token) => Ok(Held::Other),
        Look::Text(_content) => Ok(Held::Other),
        Look::Array(behind) => Ok(Held::Items(first_item(Bracket::Square, skip_blanks(behind)))),
        Look::Object(_behind) => Ok(Held::Other),
    }
}
