//! The walk of a print, which is one for all styles of texts and all places that take them.
ghost use Rattle.std.specs.Prelude.{[], ◌+◌, ◌≡◌, ◌≢◌, ◌≤◌, Err, IfErr, None, OnErr, OnOk, Some, cond, length, string_bytes};
ghost use Rattle.capnp_device.specs.declared.error.ErrorKind.TheVariants.{OutOfMemory, TooLarge};
ghost use Rattle.capnp_dynamic_readers.specs.Pieces.{IsAppended, IsLonger, Within};
ghost use Rattle.capnp_dynamic_readers.specs.Steps.Pieces.{IsPut, IsStopped};

mod groups;
mod leaves;
pub mod output;
mod parts;
pub(crate) mod pieces;
pub mod style;
mod values;

use crate::dynamic_value::Reader as Value;
use crate::walk::output::{Made, Out, Stop};
use crate::walk::pieces::layout;
use crate::walk::style::Style;
use crate::walk::values::{print_record, print_value};
use capnp_wire::error::{Error, Result};

/// The levels that a print goes down.
const PRINT_LEVELS: u32 = 64;

/// Appends the text of a value in a style, as `printer::print_within` does in the plain one: on one line or on lines, and
/// no longer than `limit` bytes.
///
/// Refused with the number of the first value in the text's order that can't be read, with `TooDeep` where no level of 64
/// is left, with `TooLarge` where the text is longer, and with `OutOfMemory`; where the text is refused behind the limit,
/// either may be answered. The string is then as it was.
pub fn append_within<S: Style<Made>>(
    value: Value<'_>,
    style: S,
    out: &mut String,
    indented: bool,
    limit: u64,
) -> Result<()>
    ensures printed { OnOk result (IsAppended (string_bytes out.old)
        ((S.texts style).root (cond indented (Some 0) None) value.entry) (string_bytes out.new)) }
    ensures within { OnOk result (length (string_bytes out.new) ≤ length (string_bytes out.old) + limit) }
    ensures refused { IfErr result (λ e. e.kind ≢ OutOfMemory → e.kind ≢ TooLarge
        → (S.texts style).root (cond indented (Some 0) None) value.entry ≡ Err e.kind) }
    ensures too_long { IfErr result (λ e. e.kind ≡ TooLarge
        → IsLonger limit ((S.texts style).root (cond indented (Some 0) None) value.entry)) }
    ensures unchanged { OnErr result (string_bytes out.new ≡ string_bytes out.old) }
{
    match append_text(value, style, out, indented, limit) {
        Ok(()) => Ok(()),
        Err(stop) => Err(Error::from(stop)),
    }
}

/// Appends the text of a value in a style, where it has at most so many bytes.
pub(crate) fn append_text<S: Style<Made>>(
    value: Value<'_>,
    style: S,
    out: &mut String,
    indented: bool,
    limit: u64,
) -> std::result::Result<(), Stop>
    ensures printed { OnOk result (IsAppended (string_bytes out.old)
        ((S.texts style).root (cond indented (Some 0) None) value.entry) (string_bytes out.new)) }
    ensures within { OnOk result (length (string_bytes out.new) ≤ length (string_bytes out.old) + limit) }
    ensures stopped { IfErr result (IsStopped (Within limit []) ((S.texts style).root (cond indented (Some 0) None) value.entry)) }
    ensures unchanged { OnErr result (string_bytes out.new ≡ string_bytes out.old) }
{
    let mut made = Made::new(*out.allocator(), limit);
    match print_root_value(value, style, layout(indented), &mut made) {
        Ok(()) => made.append_to(out),
        Err(stop) => Err(stop),
    }
}

/// Appends the text of a value that stands alone. A group takes no level, here as elsewhere.
pub(crate) fn print_root_value<O: Out, S: Style<O>>(
    value: Value<'_>,
    style: S,
    at: Option<u64>,
    out: &mut O,
) -> std::result::Result<(), Stop>
    ensures put { OnOk result (IsPut (O.text out.old) ((S.texts style).root at value.entry) (O.text out.new)) }
    ensures stopped { IfErr result (IsStopped (O.text out.old) ((S.texts style).root at value.entry)) }
{
    if let Value::Struct(reader) = value {
        if reader.get_schema().get_proto().body.is_group {
            return print_record(reader, style, PRINT_LEVELS, at, out);
        }
    }
    print_value(value, style, PRINT_LEVELS, at, out)
}
