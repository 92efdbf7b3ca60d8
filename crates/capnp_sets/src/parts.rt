//! The meta set, the active members of its structs, and names.
ghost use Rattle.std.specs.Prelude.{◌≡◌, ◌≢◌, Ok, IfErr, IfOk, string_bytes, []};
ghost use Rattle.capnp_device.specs.declared.error.ErrorKind.TheVariants.{OutOfMemory};
ghost use Rattle.capnp_schema.specs.Meta.{meta};
ghost use Rattle.capnp_schema.specs.Schema.{TextValue};
ghost use Rattle.capnp_schema.specs.Types.{TextType};
ghost use Rattle.capnp_records.specs.Part.{which_of};
ghost use Rattle.capnp_sets.specs.Causes.{HasCause};
ghost use Rattle.capnp_sets.specs.Steps.Handles.{IsMetaFieldActive, IsMetaSlot, meta_record_in};
ghost use Rattle.capnp_sets.specs.Parts.{meta_read_at, name, name_meant};

use capnp_base::text;
use capnp_known::known_set::KnownSet;
use capnp_known::members::member_at;
use capnp_known::pointers::text_at;
use capnp_wire::StructReader;
use capnp_wire::error::{Error, ErrorKind, Result};
use std::alloc::Global;

/// The meta set, as one that is known.
pub(crate) struct MetaSet;

impl KnownSet for MetaSet {
    ghost set = { meta };
}

/// The brands of the meta set.
pub(crate) const SET: u32 = 0;

pub(crate) const NODE: u32 = 1;

pub(crate) const FIELD: u32 = 2;

pub(crate) const SLOT: u32 = 3;

pub(crate) const ANNOTATION: u32 = 4;

pub(crate) const VALUE: u32 = 5;

pub(crate) const BRAND: u32 = 6;

pub(crate) const TYPE: u32 = 7;

pub(crate) const ENUM: u32 = 8;

pub(crate) const ENUMERANT: u32 = 9;

/// The active member of a field's record: that of index 3, a slot, that of index 4, a group's node, or none, where the
/// number is unknown.
#[inline(always)]
pub(crate) fn field_member(reader: &StructReader<'_>) -> Option<u16>
    ensures { result ≡ which_of (meta_record_in 2 reader.now) }
{
    member_at::<MetaSet>(reader, FIELD, 16, 3, 2)
}

/// The index of the active member of a value's record, none where its number is unknown.
#[inline(always)]
pub(crate) fn value_member(reader: &StructReader<'_>) -> Option<u16>
    ensures { result ≡ which_of (meta_record_in 5 reader.now) }
{
    member_at::<MetaSet>(reader, VALUE, 0, 0, 15)
}

/// A copy of a name's bytes. Refused with `NameNotUtf8` where they are no UTF-8.
#[inline(always)]
fn owned(alloc: Global, bytes: &[u8]) -> Result<String>
    ensures read { IfOk result (λ x. name_meant bytes.now ≡ Ok (string_bytes x)) }
    ensures refused { IfErr result (λ e. e.kind ≢ OutOfMemory → HasCause (name_meant bytes.now) e.kind) }
{
    match text::Reader(bytes).to_str() {
        Ok(text) => Ok(String::from_str(alloc, text)?),
        Err(_) => Err(Error {
            kind: ErrorKind::NameNotUtf8,
        }),
    }
}

/// A name. Refused with `NameNotUtf8` where its bytes are no UTF-8.
#[inline(always)]
pub(crate) fn name_at(
    alloc: Global,
    reader: &StructReader<'_>,
    brand: u32,
    index: u16,
    place: u16,
) -> Result<String>
    requires field { IsMetaSlot brand index TextType place (TextValue []) }
    requires active { IsMetaFieldActive brand index reader.now }
    ensures read { IfOk result (λ x. name (meta_read_at brand index (meta_record_in brand reader.now)) ≡ Ok (string_bytes x)) }
    ensures refused { IfErr result (λ e. e.kind ≢ OutOfMemory
        → HasCause (name (meta_read_at brand index (meta_record_in brand reader.now))) e.kind) }
{
    let bytes = text_at::<MetaSet>(reader, brand, index, place)?;
    owned(alloc, bytes)
}
