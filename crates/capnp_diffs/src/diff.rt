//! The changes that make one struct into another.
ghost use Rattle.std.specs.Prelude.{◌≡◌, IfErr, IfOk};
ghost use Rattle.capnp_wire.specs.Standing.{struct_of};
ghost use Rattle.capnp_schema.specs.StructHandles.{IsStruct, number_of, set_of};
ghost use Rattle.capnp_records.specs.Reading.{reads};
ghost use Rattle.capnp_dynamic_readers.specs.Handles.{reader_of, schema_of};
ghost use Rattle.capnp_diffs.specs.Changes.{IsRecordTold, record_changes};
ghost use Rattle.capnp_diffs.specs.Found.{AreReady, changes_seen};
ghost use Rattle.capnp_diffs.specs.Refusals.{IsRefusal, pair_of};

use crate::change::Change;
use crate::records::find_in_record;
use capnp_dynamic_readers::dynamic_struct;
use capnp_wire::error::Result;
use std::alloc::Global;

/// The changes that make an old struct into a new one of the same schema: their calls (`as_calls`), made in order on a
/// copy of the old one, leave a struct that reads as the new one, with the same record at every depth. There is none
/// where the two records are equal.
///
/// A struct, group or list of structs that stands on both sides is gone into, a list where its length is the same. Any
/// other field that differs is put whole, and one that became null is cleared. A member that becomes active is put, or
/// made anew if it is a group.
///
/// Refused only for a cause that is there (`IsRefusal`): with the number of a part that stands on both sides or becomes
/// active, and can't be read; with `FieldNotFound` where the new struct has a discriminant that names no member and the
/// old one has another; with `CannotSetAnyPointerFieldToAPrimitiveValue` where an untyped pointer of the new one is
/// another, and no null; as `PointerReader::total_size` of what is put whole; with `TooDeep` where no level is left, or
/// behind 64 groups on the way to a part; with `OutOfMemory`. Of several causes any may be named.
pub fn find_changes<'a>(
    alloc: Global,
    old: dynamic_struct::Reader<'a>,
    new: dynamic_struct::Reader<'a>,
) -> Result<Vec<Change<'a>>>
    requires schema { schema_of old ≡ schema_of new }
    requires stands { IsStruct (schema_of new) }
    ensures found { IfOk result (λ changes. changes_seen changes.items ≡ record_changes (set_of (schema_of new.entry)) (number_of (schema_of new.entry))
        (reads (set_of (schema_of new.entry)) (struct_of (reader_of old.entry)) (number_of (schema_of new.entry))) (reads (set_of (schema_of new.entry)) (struct_of (reader_of new.entry)) (number_of (schema_of new.entry)))) }
    ensures told { IfOk result (λ changes. IsRecordTold (set_of (schema_of new.entry)) (number_of (schema_of new.entry))
        (reads (set_of (schema_of new.entry)) (struct_of (reader_of old.entry)) (number_of (schema_of new.entry))) (reads (set_of (schema_of new.entry)) (struct_of (reader_of new.entry)) (number_of (schema_of new.entry)))) }
    ensures ready { IfOk result (λ changes. AreReady (set_of (schema_of new.entry)) changes.items) }
    ensures refused { IfErr result (λ e. IsRefusal (pair_of old.entry new.entry) e.kind) }
{
    let mut path = Vec::new(alloc);
    let mut changes = Vec::new(alloc);
    find_in_record(
        alloc,
        new.get_schema(),
        old.get_sections(),
        new.get_sections(),
        0,
        &mut path,
        &mut changes,
    )?;
    Ok(changes)
}
