//! The names of a set's structs.
ghost use Rattle.std.specs.Prelude.{◌≡◌, ◌≢◌, ◌≤◌, ◌<◌, ◌+◌, ◌++◌, IfErr, IfOk, OnOk, Some, length, string_bytes};
ghost use Rattle.std.specs.Option.{is_none};
ghost use Rattle.capnp_device.specs.declared.error.ErrorKind.TheVariants.{OutOfMemory, TooLarge};
ghost use Rattle.capnp_schema.specs.Entries.{lists_seen};
ghost use Rattle.capnp_structs.specs.Names.{number_line, struct_line, structs_text};
ghost use Rattle.capnp_structs.specs.Steps.Names.{AreNamesBelow, IsNameMet, brand_met};

use crate::limits::check_length;
use capnp_schema::set::SchemaSet;
use capnp_wire::error::{Error, ErrorKind, Result};
use std::alloc::Global;
use std::collections::HashMap;

/// Whether a name was not met before. It is that of a brand from now on.
fn is_first<'s>(met: &mut HashMap<&'s str, u32>, name: &'s str, brand: u32) -> Result<bool>
    ensures first { IfOk result (λ r. r ≡ is_none (brand_met met.old name.now)) }
    ensures met { OnOk result (IsNameMet brand name.now met.old met.new) }
    ensures memory { IfErr result (λ e. e.kind ≡ OutOfMemory) }
{
    if met.contains_key(name) {
        return Ok(false);
    }
    met.insert(name, brand)?;
    Ok(true)
}

/// Appends the line of a struct, where its name was not met before.
fn put_struct<'s>(
    lines: &mut String,
    schemas: &'s SchemaSet,
    met: &mut HashMap<&'s str, u32>,
    brand: u32,
) -> Result<()>
    requires inside { brand < length (lists_seen schemas.now).brands }
    requires met { AreNamesBelow (lists_seen schemas.now) brand met.old }
    ensures put { OnOk result (string_bytes lines.new
        ≡ string_bytes lines.old ++ number_line (lists_seen schemas.now) (Some brand)) }
    ensures met { OnOk result (AreNamesBelow (lists_seen schemas.now) (brand + 1) met.new) }
    ensures memory { IfErr result (λ e. e.kind ≡ OutOfMemory) }
{
    let node = schemas.struct_schema(brand).get_proto();
    if node.body.is_group {
        return Ok(());
    }
    let name = node.display_name.as_str();
    if !is_first(met, name, brand)? {
        return Ok(());
    }
    lines.push_str(name)?;
    lines.push_str("\n")?;
    Ok(())
}

/// Appends the line of the struct at an index of the brands; none past 32 bits.
fn put_at<'s>(
    lines: &mut String,
    schemas: &'s SchemaSet,
    met: &mut HashMap<&'s str, u32>,
    index: usize,
) -> Result<()>
    requires inside { index < length (lists_seen schemas.now).brands }
    requires met { AreNamesBelow (lists_seen schemas.now) index met.old }
    ensures put { OnOk result (string_bytes lines.new
        ≡ string_bytes lines.old ++ struct_line (lists_seen schemas.now) index) }
    ensures met { OnOk result (AreNamesBelow (lists_seen schemas.now) (index + 1) met.new) }
    ensures memory { IfErr result (λ e. e.kind ≡ OutOfMemory) }
{
    match u32::try_from(index) {
        Ok(brand) => put_struct(lines, schemas, met, brand),
        Err(_) => Ok(()),
    }
}

/// The structs of a set that a name finds, one a line: the display name of each. Groups have no line, and of brands of
/// one name the first alone has one. Refused with `OutOfMemory` alone.
pub fn get_structs(alloc: Global, schemas: &SchemaSet) -> Result<String>
    ensures text { IfOk result (λ text. string_bytes text ≡ structs_text (lists_seen schemas.now)) }
    ensures memory { IfErr result (λ e. e.kind ≡ OutOfMemory) }
{
    match get_structs_within(alloc, schemas, u64::MAX) {
        Ok(lines) => Ok(lines),
        Err(_) => Err(Error::from(ErrorKind::OutOfMemory)),
    }
}

/// As `get_structs`, of a text that has at most `limit` bytes: the text has never more than one name behind them. Refused
/// with `TooLarge` where it is longer, and with `OutOfMemory`.
pub fn get_structs_within(alloc: Global, schemas: &SchemaSet, limit: u64) -> Result<String>
    ensures text { IfOk result (λ text. string_bytes text ≡ structs_text (lists_seen schemas.now)) }
    ensures within { IfOk result (λ text. length (string_bytes text) ≤ limit) }
    ensures too_long { IfErr result (λ e. e.kind ≢ OutOfMemory
        → (e.kind ≡ TooLarge) × (limit < length (structs_text (lists_seen schemas.now)))) }
{
    let mut lines = String::new(alloc);
    // Looking each name up among all brands would take time with the square of their number.
    let mut met = HashMap::new(alloc);
    for index in 0..schemas.brands().len() {
        put_at(&mut lines, schemas, &mut met, index)?;
        check_length(&lines, limit)?;
    }
    Ok(lines)
}
