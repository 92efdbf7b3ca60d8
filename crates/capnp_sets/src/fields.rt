//! Nodes and fields, as their records say them.
ghost use Rattle.std.specs.Prelude.{◌≡◌, ◌≢◌, Ok, IfErr, IfOk};
ghost use Rattle.capnp_device.specs.declared.error.ErrorKind.TheVariants.{OutOfMemory};
ghost use Rattle.capnp_schema.specs.Schema.{Field, Node, seen_field, seen_kind, seen_node};
ghost use Rattle.capnp_records.specs.Part.{which_of};
ghost use Rattle.capnp_sets.specs.Causes.{HasCause};
ghost use Rattle.capnp_sets.specs.Fields.{field_of, kind_by, node_meant, slot_of};
ghost use Rattle.capnp_sets.specs.Steps.Handles.{meta_record_in};

use crate::parts::{FIELD, MetaSet, NODE, SLOT, field_member, name_at};
use crate::rows::{Context, FromRecord, list_read};
use crate::values::value_at;
use capnp_known::numbers::{bool_at, u16_at, u32_at, u64_at};
use capnp_schema::record::{AnnotationRecord, FieldKind, FieldRecord, NodeRecord, StructRecord};
use capnp_wire::StructReader;
use capnp_wire::error::{Error, ErrorKind, Result};
use std::alloc::Global;

/// A slot of a record of a slot.
#[inline(always)]
#[tactic(auto, unfolding(crate::specs::Fields::slot_of))]
fn read_slot(alloc: Global, reader: &StructReader<'_>) -> Result<FieldKind>
    ensures read { IfOk result (λ k. slot_of (meta_record_in 3 reader.now) ≡ Ok (seen_kind k)) }
    ensures refused { IfErr result (λ e. e.kind ≢ OutOfMemory → HasCause (slot_of (meta_record_in 3 reader.now)) e.kind) }
{
    let offset = u32_at::<MetaSet>(reader, SLOT, 0, 1);
    let default = value_at(alloc, reader, SLOT, 1, 2)?;
    Ok(FieldKind::Slot { offset, default })
}

/// A slot, or the node of a group. A slot's record is the same struct as its field's.
#[inline(always)]
#[tactic(auto, unfolding(crate::specs::Fields::kind_by))]
fn read_kind(alloc: Global, reader: &StructReader<'_>) -> Result<FieldKind>
    ensures read { IfOk result (λ k. kind_by (which_of (meta_record_in 2 reader.now)) (meta_record_in 2 reader.now)
        ≡ Ok (seen_kind k)) }
    ensures refused { IfErr result (λ e. e.kind ≢ OutOfMemory
        → HasCause (kind_by (which_of (meta_record_in 2 reader.now)) (meta_record_in 2 reader.now)) e.kind) }
{
    let Some(member) = field_member(reader) else {
        return Err(Error {
            kind: ErrorKind::UnknownKind,
        });
    };
    if member == 3 {
        return read_slot(alloc, reader);
    }
    if member == 4 {
        let node = u32_at::<MetaSet>(reader, FIELD, 4, 1);
        return Ok(FieldKind::Group { node });
    }
    Err(Error {
        kind: ErrorKind::UnknownKind,
    })
}

/// A field of a record of one.
#[inline(always)]
#[tactic(auto, unfolding(crate::specs::Fields::field_of))]
fn read_field(context: &Context<'_>, reader: &StructReader<'_>) -> Result<FieldRecord>
    ensures read { IfOk result (λ f. field_of (meta_record_in 2 reader.now) ≡ Ok (seen_field f)) }
    ensures refused { IfErr result (λ e. e.kind ≢ OutOfMemory → HasCause (field_of (meta_record_in 2 reader.now)) e.kind) }
{
    let discriminant_value = u16_at::<MetaSet>(reader, FIELD, 0, 0, 65_535);
    let name = name_at(context.alloc, reader, FIELD, 1, 0)?;
    let annotations = list_read::<AnnotationRecord>(context, reader, FIELD, 2, 1)?;
    let kind = read_kind(context.alloc, reader)?;
    Ok(FieldRecord {
        name,
        discriminant_value,
        annotations,
        kind,
    })
}

impl FromRecord for FieldRecord {
    ghost Seen = { Field };

    ghost seen = { seen_field };

    ghost brand = { 2 };

    ghost of_record = { λ _ r. field_of r };

    #[inline(always)]
    fn from_record(context: &Context<'_>, reader: &StructReader<'_>) -> Result<FieldRecord> {
        read_field(context, reader)
    }
}

/// A node of a record of one.
#[tactic(auto, unfolding(crate::specs::Fields::node_meant))]
fn read_node(context: &Context<'_>, reader: &StructReader<'_>) -> Result<NodeRecord>
    ensures read { IfOk result (λ n. node_meant (meta_record_in 1 reader.now) ≡ Ok (seen_node n)) }
    ensures refused { IfErr result (λ e. e.kind ≢ OutOfMemory → HasCause (node_meant (meta_record_in 1 reader.now)) e.kind) }
{
    let id = u64_at::<MetaSet>(reader, NODE, 0, 0);
    let data_word_count = u16_at::<MetaSet>(reader, NODE, 1, 4, 0);
    let pointer_count = u16_at::<MetaSet>(reader, NODE, 2, 5, 0);
    let discriminant_count = u16_at::<MetaSet>(reader, NODE, 3, 6, 0);
    let is_group = bool_at::<MetaSet>(reader, NODE, 4, 112);
    let discriminant_offset = u32_at::<MetaSet>(reader, NODE, 5, 4);
    let display_name = name_at(context.alloc, reader, NODE, 6, 0)?;
    let annotations = list_read::<AnnotationRecord>(context, reader, NODE, 7, 1)?;
    let fields = list_read::<FieldRecord>(context, reader, NODE, 8, 2)?;
    Ok(NodeRecord {
        id,
        display_name,
        annotations,
        body: StructRecord {
            data_word_count,
            pointer_count,
            is_group,
            discriminant_count,
            discriminant_offset,
            fields,
        },
    })
}

impl FromRecord for NodeRecord {
    ghost Seen = { Node };

    ghost seen = { seen_node };

    ghost brand = { 1 };

    ghost of_record = { λ _ r. node_meant r };

    fn from_record(context: &Context<'_>, reader: &StructReader<'_>) -> Result<NodeRecord> {
        read_node(context, reader)
    }
}
