//! The text of a value that is no struct and no list.
ghost use Rattle.std.specs.Prelude.{[], ◌≡◌, ◌<◌, ◌∷◌, flat_map, IfErr, OnOk};
ghost use Rattle.std.specs.Char.{digit_char};
ghost use Rattle.capnp_records.specs.Text.{data_text, decimals, quoted_text, said_text};
ghost use Rattle.capnp_dynamic_readers.specs.Steps.Leaf.{IsLeaf, enumerant_text, two_digits};
ghost use Rattle.capnp_dynamic_readers.specs.Steps.Pieces.{IsPut, IsStopped};
ghost use Rattle.capnp_dynamic_readers.specs.Steps.Styled.{leaf_in};

use crate::dynamic_value::{Enum, Reader};
use crate::walk::output::{Out, Stop};
use crate::walk::style::Style;

/// Appends bytes in decimal, with a comma and a space between them.
fn put_decimals<O: Out>(bytes: &[u8], out: &mut O) -> Result<(), Stop>
    ensures put { OnOk result (IsPut (O.text out.old) (said_text (decimals bytes.now)) (O.text out.new)) }
    ensures stopped { IfErr result (IsStopped (O.text out.old) (said_text (decimals bytes.now))) }
{
    if bytes.is_empty() {
        return Ok(());
    }
    out.put_unsigned(u64::from(bytes[0]))?;
    for i in 1..bytes.len() {
        out.put(", ")?;
        out.put_unsigned(u64::from(bytes[i]))?;
    }
    Ok(())
}

/// Appends a text in quotes, or the bytes of one that is no UTF-8.
fn put_text<O: Out>(bytes: &[u8], out: &mut O) -> Result<(), Stop>
    ensures put { OnOk result (IsPut (O.text out.old) (quoted_text bytes.now) (O.text out.new)) }
    ensures stopped { IfErr result (IsStopped (O.text out.old) (quoted_text bytes.now)) }
{
    if let Ok(string) = std::str::from_utf8(bytes) {
        return out.put_debug(string);
    }
    out.put("<invalid utf-8: [")?;
    put_decimals(bytes, out)?;
    out.put("]>")
}

/// A digit below 16, in lower case.
fn digit(value: u8) -> &'static str
    requires { value < 16 }
    ensures { result.now ≡ digit_char value ∷ [] }
{
    match value {
        0 => "0",
        1 => "1",
        2 => "2",
        3 => "3",
        4 => "4",
        5 => "5",
        6 => "6",
        7 => "7",
        8 => "8",
        9 => "9",
        10 => "a",
        11 => "b",
        12 => "c",
        13 => "d",
        14 => "e",
        _ => "f",
    }
}

/// Appends bytes, each by two digits.
fn put_digits<O: Out>(bytes: &[u8], out: &mut O) -> Result<(), Stop>
    ensures put { OnOk result (IsPut (O.text out.old) (said_text (flat_map two_digits bytes.now)) (O.text out.new)) }
    ensures stopped { IfErr result (IsStopped (O.text out.old) (said_text (flat_map two_digits bytes.now))) }
{
    for i in 0..bytes.len() {
        let byte = bytes[i];
        out.put(digit(byte / 16))?;
        out.put(digit(byte % 16))?;
    }
    Ok(())
}

/// Appends data in hexadecimal.
fn put_data<O: Out>(bytes: &[u8], out: &mut O) -> Result<(), Stop>
    ensures put { OnOk result (IsPut (O.text out.old) (said_text (data_text bytes.now)) (O.text out.new)) }
    ensures stopped { IfErr result (IsStopped (O.text out.old) (said_text (data_text bytes.now))) }
{
    out.put("0x\"")?;
    put_digits(bytes, out)?;
    out.put("\"")
}

/// Appends an enum by its enumerant's name, and past the enumerants by its number.
fn put_enum<O: Out>(value: Enum<'_>, out: &mut O) -> Result<(), Stop>
    ensures put { OnOk result (IsPut (O.text out.old) (said_text (enumerant_text value.entry)) (O.text out.new)) }
    ensures stopped { IfErr result (IsStopped (O.text out.old) (said_text (enumerant_text value.entry))) }
{
    match value.get_enumerant() {
        Ok(Some(enumerant)) => out.put(enumerant.get_proto().name.as_str()),
        Ok(None) => out.put_unsigned(u64::from(value.get_value())),
        Err(_) => unreachable!(),
    }
}

/// Appends the text of a value that is no struct and no list.
pub(super) fn put_leaf<O: Out, S: Style<O>>(
    value: Reader<'_>,
    style: S,
    out: &mut O,
) -> Result<(), Stop>
    requires { IsLeaf value }
    ensures put { OnOk result (IsPut (O.text out.old) (leaf_in (S.texts style) value.entry) (O.text out.new)) }
    ensures stopped { IfErr result (IsStopped (O.text out.old) (leaf_in (S.texts style) value.entry)) }
{
    match value {
        Reader::Void => out.put("()"),
        Reader::Bool(true) => out.put("true"),
        Reader::Bool(false) => out.put("false"),
        Reader::Int8(number) => out.put_signed(i64::from(number)),
        Reader::Int16(number) => out.put_signed(i64::from(number)),
        Reader::Int32(number) => out.put_signed(i64::from(number)),
        Reader::Int64(number) => out.put_signed(number),
        Reader::UInt8(number) => out.put_unsigned(u64::from(number)),
        Reader::UInt16(number) => out.put_unsigned(u64::from(number)),
        Reader::UInt32(number) => style.put_narrow(number, out),
        Reader::UInt64(number) => style.put_wide(number, out),
        Reader::Enum(inner) => put_enum(inner, out),
        Reader::Text(text) => put_text(text.as_bytes(), out),
        Reader::Data(bytes) => put_data(bytes, out),
        Reader::AnyPointer(_) => out.put("<opaque pointer>"),
        Reader::Struct(_) | Reader::List(_) => unreachable!(),
    }
}
