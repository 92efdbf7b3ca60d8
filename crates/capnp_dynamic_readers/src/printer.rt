//! The text of a value.
ghost use Rattle.std.specs.Prelude.{◌+◌, ◌≡◌, ◌≢◌, ◌≤◌, Err, IfErr, OnErr, OnOk, length, string_bytes};
ghost use Rattle.capnp_device.specs.declared.error.ErrorKind.TheVariants.{OutOfMemory, TooLarge};
ghost use Rattle.capnp_dynamic_readers.specs.Pieces.{IsAppended, IsLonger};
ghost use Rattle.capnp_dynamic_readers.specs.Shown.{printed_text};

use crate::dynamic_value;
use crate::dynamic_value::Reader as Value;
use crate::walk::output::Stop;
use crate::walk::pieces::layout;
use crate::walk::style::Plain;
use crate::walk::{append_text, append_within, print_root_value};
use capnp_wire::error::{Error, ErrorKind, Result};
use std::fmt;

/// Appends the text of a value, on one line or on lines indented by two spaces for each bracket around them.
///
/// A struct is `(name = value, ..)`: the fields that are there by index, and the active member before the first
/// non-union field of greater index, a member of discriminant value 0 where it is there and every other one always. A
/// list is `[value, ..]`, a text is quoted, data is in hexadecimal, an enum is its enumerant's name or its number, and
/// an untyped pointer is `<opaque pointer>`.
///
/// A struct or list takes a level of 64, a group none. Refused with the number of the first value in the text's order
/// that can't be read, with `TooDeep` where no level is left, and with `OutOfMemory`; the string is then as it was.
///
/// # Example
///
/// ```rust
/// let seen = pair.narrow(dynamic_struct::Reader::new(root, newer));
/// print(Value::Struct(seen), out, false)
/// ```
pub fn print(value: dynamic_value::Reader<'_>, out: &mut String, indented: bool) -> Result<()>
    ensures printed { OnOk result (IsAppended (string_bytes out.old) (printed_text indented value.entry)
        (string_bytes out.new)) }
    ensures refused { IfErr result (λ e. e.kind ≢ OutOfMemory → printed_text indented value.entry ≡ Err e.kind) }
    ensures unchanged { OnErr result (string_bytes out.new ≡ string_bytes out.old) }
{
    match append_text(value, Plain, out, indented, u64::MAX) {
        Ok(()) => Ok(()),
        Err(Stop::Refused(error)) => Err(error),
        Err(_) => Err(Error::from(ErrorKind::OutOfMemory)),
    }
}

/// As `print`, of a text that has at most `limit` bytes. Since pointers of a message may share targets, a message of a
/// few hundred bytes can have a text without end: a print with a limit takes time and memory in proportion to the limit,
/// to the fields of a struct and to the longest text or data in it.
///
/// Refused with `TooLarge` where the text is longer, and before that as `print`: where the text is refused behind the
/// limit, either may be answered. The string is then as it was.
///
/// # Example
///
/// ```rust
/// let seen = pair.narrow(dynamic_struct::Reader::new(root, newer));
/// print_within(Value::Struct(seen), out, false, 1000)
/// ```
pub fn print_within(
    value: dynamic_value::Reader<'_>,
    out: &mut String,
    indented: bool,
    limit: u64,
) -> Result<()>
    ensures printed { OnOk result (IsAppended (string_bytes out.old) (printed_text indented value.entry)
        (string_bytes out.new)) }
    ensures within { OnOk result (length (string_bytes out.new) ≤ length (string_bytes out.old) + limit) }
    ensures refused { IfErr result (λ e. e.kind ≢ OutOfMemory → e.kind ≢ TooLarge
        → printed_text indented value.entry ≡ Err e.kind) }
    ensures too_long { IfErr result (λ e. e.kind ≡ TooLarge → IsLonger limit (printed_text indented value.entry)) }
    ensures unchanged { OnErr result (string_bytes out.new ≡ string_bytes out.old) }
{
    append_within(value, Plain, out, indented, limit)
}

/// Writes the text of a value to a formatter: on lines by `{:#?}`, and else on one line. A refusal comes after a
/// beginning of the text. It takes no memory.
pub(crate) fn print_debug<W: fmt::Write>(
    value: Value<'_>,
    f: &mut fmt::Formatter<W>,
) -> fmt::Result {
    match print_root_value(value, Plain, layout(f.alternate()), f) {
        Ok(()) => Ok(()),
        Err(_) => Err(fmt::Error),
    }
}
