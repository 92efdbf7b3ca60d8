//! The tables of names of two sets, one behind the other: names have no numbers, so the tables stay what they are.
ghost use Rattle.std.specs.Prelude.{◌≡◌, ◌++◌, IfErr, IfOk, OnOk, map, vec_items};
ghost use Rattle.capnp_device.specs.declared.error.ErrorKind.TheVariants.{OutOfMemory};
ghost use Rattle.capnp_schema.specs.Entries.{lists_seen};
ghost use Rattle.capnp_schema.specs.Tables.{AreNameTables};
ghost use Rattle.capnp_joined_sets.specs.Joined.{joined};

use capnp_schema::set::SchemaSet;
use capnp_wire::error::Result;
use std::alloc::Global;

/// Puts a copy of each table behind what is there. Refused with `OutOfMemory` alone.
fn add_copies(out: &mut Vec<Vec<u16>>, alloc: Global, tables: &[Vec<u16>]) -> Result<()>
    ensures added { OnOk result (map vec_items out.new.items ≡ map vec_items out.old.items ++ map vec_items tables.now) }
    ensures refused { IfErr result (λ e. e.kind ≡ OutOfMemory) }
{
    for table in tables {
        let copy = table.as_slice().to_vec(alloc)?;
        out.push(copy)?;
    }
    Ok(())
}

/// Copies of two lists of tables, one behind the other. Refused with `OutOfMemory` alone.
fn copy_both(alloc: Global, older: &[Vec<u16>], newer: &[Vec<u16>]) -> Result<Vec<Vec<u16>>>
    ensures copied { IfOk result (λ out. map vec_items out.items ≡ map vec_items older.now ++ map vec_items newer.now) }
    ensures refused { IfErr result (λ e. e.kind ≡ OutOfMemory) }
{
    let mut out = Vec::with_capacity(alloc, older.len().saturating_add(newer.len()))?;
    add_copies(&mut out, alloc, older)?;
    add_copies(&mut out, alloc, newer)?;
    Ok(out)
}

/// The tables of names of both sets. Refused with `OutOfMemory` alone.
pub(crate) fn join_names(
    alloc: Global,
    older: &SchemaSet,
    newer: &SchemaSet,
) -> Result<Vec<Vec<u16>>>
    ensures tables { IfOk result (λ out. AreNameTables (joined (lists_seen older.now) (lists_seen newer.now)) out.items) }
    ensures refused { IfErr result (λ e. e.kind ≡ OutOfMemory) }
{
    copy_both(alloc, older.name_tables(), newer.name_tables())
}
