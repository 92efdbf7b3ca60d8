//! Lists of parts of a set, each part read into a record of its own.
ghost use Rattle.std.specs.Prelude.{ℕ, ◌≡◌, ◌≢◌, Ok, IfErr, IfOk, map};
ghost use Rattle.capnp_device.specs.declared.error.ErrorKind.TheVariants.{OutOfMemory};
ghost use Rattle.capnp_schema.specs.Builtin.{zero_word};
ghost use Rattle.capnp_schema.specs.Meta.{meta_structs, meta_struct};
ghost use Rattle.capnp_schema.specs.Schema.{ListValue};
ghost use Rattle.capnp_records.specs.Record.{Record, Values};
ghost use Rattle.capnp_sets.specs.Causes.{HasCause, SetRead};
ghost use Rattle.capnp_sets.specs.Steps.Handles.{IsMetaFieldActive, IsMetaSlot, list_in, meta_record_in, values_in};
ghost use Rattle.capnp_sets.specs.Parts.{meta_read_at, structs};

use crate::parts::MetaSet;
use capnp_known::pointers::{is_null_list_at, list_at};
use capnp_wire::error::Result;
use capnp_wire::size::ElementSize;
use capnp_wire::{ListReader, StructReader};
use std::alloc::Global;

/// As many elements of a list have room from the start; a list of structs of size zero may count many more than its
/// message has words.
pub(crate) const MOST_ROOM: u32 = 65_536;

/// What the parts of a set are read with: memory, and the records of brands, which say the nodes of struct types.
#[derive(Clone, Copy)]
pub(crate) struct Context<'a> {
    pub(crate) alloc: Global,
    pub(crate) brands: ListReader<'a>,
}

/// What a struct of a set is read into.
pub(crate) trait FromRecord: Sized {
    // What it is to definitions, the brand of the struct, and what its record stands for where a set has these brands.
    ghost Seen: { Type 0 };

    ghost seen: { Self → Seen };

    ghost brand: { ℕ };

    ghost of_record: { Values → Record → SetRead Seen };

    fn from_record(context: &Context<'_>, reader: &StructReader<'_>) -> Result<Self>
        ensures read { IfOk result (λ made. of_record (values_in context.now.brands) (meta_record_in brand reader.now)
            ≡ Ok (seen made)) }
        ensures refused { IfErr result (λ e. e.kind ≢ OutOfMemory
            → HasCause (of_record (values_in context.now.brands) (meta_record_in brand reader.now)) e.kind) };
}

/// One of each struct of a list.
pub(crate) fn all_read<T: FromRecord + Drop>(
    context: &Context<'_>,
    elements: &ListReader<'_>,
) -> Result<Vec<T>>
    ensures read { IfOk result (λ v. structs T.brand (T.of_record (values_in context.now.brands))
        (list_in (meta_struct T.brand) elements.now) ≡ Ok (map T.seen v.items)) }
    ensures refused { IfErr result (λ e. e.kind ≢ OutOfMemory →
        HasCause (structs T.brand (T.of_record (values_in context.now.brands))
        (list_in (meta_struct T.brand) elements.now)) e.kind) }
{
    let count = elements.len();
    let mut out = Vec::with_capacity(context.alloc, count.min(MOST_ROOM) as usize)?;
    for index in 0..count {
        let element = elements.get_struct_element(index)?;
        let made = T::from_record(context, &element)?;
        out.push(made)?;
    }
    Ok(out)
}

/// One of each struct of the list that a field has.
#[inline(always)]
pub(crate) fn list_read<T: FromRecord + Drop>(
    context: &Context<'_>,
    reader: &StructReader<'_>,
    brand: u32,
    index: u16,
    place: u16,
) -> Result<Vec<T>>
    requires field { IsMetaSlot brand index (meta_structs T.brand) place (ListValue zero_word) }
    requires active { IsMetaFieldActive brand index reader.now }
    ensures read { IfOk result (λ v. structs T.brand (T.of_record (values_in context.now.brands))
        (meta_read_at brand index (meta_record_in brand reader.now)) ≡ Ok (map T.seen v.items)) }
    ensures refused { IfErr result (λ e. e.kind ≢ OutOfMemory →
        HasCause (structs T.brand (T.of_record (values_in context.now.brands))
        (meta_read_at brand index (meta_record_in brand reader.now))) e.kind) }
{
    if is_null_list_at::<MetaSet>(reader, brand, index, place) {
        return Ok(Vec::new(context.alloc));
    }
    let elements = list_at::<MetaSet>(reader, brand, index, place, ElementSize::InlineComposite)?;
    all_read(context, &elements)
}
