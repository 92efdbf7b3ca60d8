//! Whether two kinds of refusals are one, with their fields.
ghost use Rattle.std.specs.Prelude.{false, true, ◌≡◌, ◌≢◌};
ghost use Rattle.capnp_device.specs.declared.error.ErrorKind.TheVariants.{Schema};
ghost use Rattle.riftcalico_core.specs.Steps.Kinds.{is_rule};

use capnp_wire::error::{ErrorKind, SchemaTable};

/// Whether a kind is that of a broken rule of schemas.
fn is_rule(kind: ErrorKind) -> bool
    ensures { result ≡ is_rule kind }
{
    match kind {
        ErrorKind::Schema { .. } => true,
        _ => false,
    }
}

/// Whether a kind is that of this rule, broken at this place.
fn is_rule_at(kind: ErrorKind, at: SchemaTable, index: u16, number: u32, place: usize) -> bool
    ensures same { result ≡ true → kind ≡ Schema at index number place }
    ensures other { result ≡ false → kind ≢ Schema at index number place }
{
    match kind {
        ErrorKind::Schema {
            table,
            field,
            rule,
            entry,
        } => table == at && field == index && rule == number && entry == place,
        _ => false,
    }
}

/// Whether two kinds are one.
pub(crate) fn is_same_kind(one: ErrorKind, other: ErrorKind) -> bool
    ensures same { result ≡ true → one ≡ other }
    ensures other { result ≡ false → one ≢ other }
{
    match one {
        ErrorKind::Schema {
            table,
            field,
            rule,
            entry,
        } => is_rule_at(other, table, field, rule, entry),
        _ => !is_rule(other) && one.number() == other.number(),
    }
}
