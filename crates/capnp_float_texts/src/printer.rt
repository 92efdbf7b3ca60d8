//! The text of a value with its floats.
ghost use Rattle.std.specs.Prelude.{◌+◌, ◌≡◌, ◌≢◌, ◌≤◌, Err, IfErr, OnErr, OnOk, length, string_bytes};
ghost use Rattle.capnp_device.specs.declared.error.ErrorKind.TheVariants.{OutOfMemory, TooLarge};
ghost use Rattle.capnp_dynamic_readers.specs.Pieces.{IsAppended, IsLonger};
ghost use Rattle.capnp_float_texts.specs.Printed.{printed_float_text};

use crate::style::Floats;
use capnp_dynamic_readers::dynamic_value::Reader as Value;
use capnp_dynamic_readers::walk::append_within;
use capnp_wire::error::Result;

/// Appends the text of a value, as `capnp_dynamic_readers::printer::print_within`, but that numbers which are floats are
/// shown as these: those of the fields for which `capnp_json_fields::fields::is_float` holds, also in lists; and those of
/// the value itself where `floats` says so, as where it was read under such a field. A float is its shortest decimal, as
/// `0.1`, `1e06` or `5e-324`, or `inf`, `-inf`, `nan`, as `capnp_floats::text::put_float` has it.
///
/// The text has at most `limit` bytes. Refused with the number of the first value in the text's order that can't be
/// read, with `TooDeep` where no level of 64 is left, with `TooLarge` where the text is longer, and with `OutOfMemory`;
/// where the text is refused behind the limit, either may be answered. The string is then as it was.
pub fn print_floats_within(
    value: Value<'_>,
    floats: bool,
    out: &mut String,
    indented: bool,
    limit: u64,
) -> Result<()>
    ensures printed { OnOk result (IsAppended (string_bytes out.old) (printed_float_text floats indented value.entry)
        (string_bytes out.new)) }
    ensures within { OnOk result (length (string_bytes out.new) ≤ length (string_bytes out.old) + limit) }
    ensures refused { IfErr result (λ e. e.kind ≢ OutOfMemory → e.kind ≢ TooLarge
        → printed_float_text floats indented value.entry ≡ Err e.kind) }
    ensures too_long { IfErr result (λ e. e.kind ≡ TooLarge
        → IsLonger limit (printed_float_text floats indented value.entry)) }
    ensures unchanged { OnErr result (string_bytes out.new ≡ string_bytes out.old) }
{
    append_within(value, Floats { marked: floats }, out, indented, limit)
}
