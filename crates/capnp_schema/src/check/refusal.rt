//! Refusals that name a broken rule.
ghost use Rattle.std.specs.Prelude.{◌≡◌};
ghost use Rattle.capnp_device.specs.declared.error.ErrorKind.TheVariants.{Schema};

use capnp_device::error::{Error, ErrorKind, SchemaTable};

/// The field of a refusal that means a whole record.
pub(crate) const WHOLE: u16 = 65535;

/// A rule is broken by the record of that number, at that field.
pub(crate) fn refusal(rule: u32, table: SchemaTable, entry: usize, field: u16) -> Error
    ensures { result.kind ≡ Schema table field rule entry }
{
    Error {
        kind: ErrorKind::Schema {
            rule,
            table,
            entry,
            field,
        },
    }
}
