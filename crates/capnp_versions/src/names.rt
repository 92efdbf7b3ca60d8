//! Structs of a set that are found by their display names.
ghost use Rattle.std.specs.Prelude.{◌≡◌, ◌<◌, ◌≤◌, ◌+◌, ◌^◌, IfErr, IfOk, IfSome, OnOk, length};
ghost use Rattle.capnp_device.specs.declared.error.ErrorKind.TheVariants.{OutOfMemory};
ghost use Rattle.capnp_schema.specs.ByName.{brand_asked};
ghost use Rattle.capnp_schema.specs.Entries.{lists_seen};
ghost use Rattle.capnp_structs.specs.Steps.Names.{AreNamesBelow, IsNameMet, brand_met};
ghost use Rattle.capnp_versions.specs.Steps.Index.{AreAllNames};
ghost use Rattle.capnp_versions.specs.Shared.{first_at, name_at, same_number};

use capnp_schema::set::SchemaSet;
use capnp_wire::error::Result;
use std::alloc::Global;
use std::collections::HashMap;

/// The display name of a brand.
pub(crate) fn name_at(schemas: &SchemaSet, number: u32) -> &str
    ensures { result.now ≡ name_at (lists_seen schemas.now) number }
{
    schemas
        .struct_schema(number)
        .get_proto()
        .display_name
        .as_str()
}

/// Puts a name into the index, unless it is there. Refused with `OutOfMemory` alone.
fn meet<'s>(index: &mut HashMap<&'s str, u32>, name: &'s str, brand: u32) -> Result<()>
    ensures met { OnOk result (IsNameMet brand name.now index.old index.new) }
    ensures memory { IfErr result (λ e. e.kind ≡ OutOfMemory) }
{
    if index.contains_key(name) {
        return Ok(());
    }
    index.insert(name, brand)?;
    Ok(())
}

/// Puts the name of one more brand into the index, unless it is a group. Refused with `OutOfMemory` alone.
fn meet_struct<'s>(
    index: &mut HashMap<&'s str, u32>,
    schemas: &'s SchemaSet,
    brand: u32,
) -> Result<()>
    requires inside { brand < length (lists_seen schemas.now).brands }
    requires met { AreNamesBelow (lists_seen schemas.now) brand index.old }
    ensures met { OnOk result (AreNamesBelow (lists_seen schemas.now) (brand + 1) index.new) }
    ensures memory { IfErr result (λ e. e.kind ≡ OutOfMemory) }
{
    let node = schemas.struct_schema(brand).get_proto();
    if node.body.is_group {
        return Ok(());
    }
    meet(index, node.display_name.as_str(), brand)?;
    Ok(())
}

/// How many brands have a number of 32 bits.
fn numbered_brands(schemas: &SchemaSet) -> u64
    ensures inside { result ≤ length (lists_seen schemas.now).brands }
    ensures few { result ≤ 2 ^ 32 }
    ensures all { result < 2 ^ 32 → result ≡ length (lists_seen schemas.now).brands }
{
    let count = schemas.brands().len() as u64;
    if count > 4_294_967_296 {
        return 4_294_967_296;
    }
    count
}

/// The structs of a set by their display names, of each name the first. Refused with `OutOfMemory` alone.
pub(crate) fn index_names<'s>(
    alloc: Global,
    schemas: &'s SchemaSet,
) -> Result<HashMap<&'s str, u32>>
    ensures names { IfOk result (AreAllNames (lists_seen schemas.now)) }
    ensures memory { IfErr result (λ e. e.kind ≡ OutOfMemory) }
{
    let mut index = HashMap::new(alloc);
    let count = numbered_brands(schemas);
    for brand in 0..count {
        meet_struct(&mut index, schemas, brand as u32)?;
    }
    Ok(index)
}

/// The number at a name of the index.
fn number_at(index: &HashMap<&str, u32>, name: &str) -> Option<u32>
    ensures { result ≡ brand_met index.now name.now }
{
    index.get(name).copied()
}

/// The number of the struct of a display name, where the set has one.
pub(crate) fn number_named(
    schemas: &SchemaSet,
    index: &HashMap<&str, u32>,
    name: &str,
) -> Option<u32>
    requires { AreAllNames (lists_seen schemas.now) index.now }
    ensures found { result ≡ brand_asked (lists_seen schemas.now) name.now }
    ensures inside { IfSome result (λ n. n < length (lists_seen schemas.now).brands) }
{
    let _unused = schemas;
    number_at(index, name)
}

/// A number, where it is the one that was found.
fn same_number(found: Option<u32>, number: u32) -> Option<u32>
    ensures { result ≡ same_number found number }
{
    match found {
        Some(other) => {
            if other == number {
                return Some(number);
            }
            None
        }
        None => None,
    }
}

/// A brand by its number, where it is the struct that is found by its display name.
pub(crate) fn first_at(schemas: &SchemaSet, index: &HashMap<&str, u32>, brand: usize) -> Option<u32>
    requires { AreAllNames (lists_seen schemas.now) index.now }
    ensures first { result ≡ first_at (lists_seen schemas.now) brand }
    ensures inside { IfSome result (λ n. n < length (lists_seen schemas.now).brands) }
{
    let Ok(number) = u32::try_from(brand) else {
        return None;
    };
    same_number(
        number_named(schemas, index, name_at(schemas, number)),
        number,
    )
}
