//! Brands and enums, as their records say them.
ghost use Rattle.std.specs.Prelude.{◌≡◌, ◌≢◌, Ok, IfErr, IfOk};
ghost use Rattle.capnp_device.specs.declared.error.ErrorKind.TheVariants.{OutOfMemory};
ghost use Rattle.capnp_schema.specs.Schema.{Brand, Enum, Enumerant, seen_brand, seen_enum, seen_enumerant};
ghost use Rattle.capnp_sets.specs.Causes.{HasCause};
ghost use Rattle.capnp_sets.specs.Steps.Handles.{meta_record_in, values_in};
ghost use Rattle.capnp_sets.specs.Lists.{brand_of, enum_meant, enumerant_of};

use crate::parts::{BRAND, ENUM, ENUMERANT, MetaSet, name_at};
use crate::rows::{Context, FromRecord, list_read};
use crate::types::type_lists_at;
use capnp_base::introspect::Type;
use capnp_known::numbers::{u32_at, u64_at};
use capnp_schema::record::{
    AnnotationRecord, AnnotationTypes, BrandRecord, EnumRecord, EnumerantRecord,
};
use capnp_wire::StructReader;
use capnp_wire::error::Result;

/// A brand of a record of one.
#[tactic(auto, unfolding(crate::specs::Lists::brand_of))]
fn read_brand(context: &Context<'_>, reader: &StructReader<'_>) -> Result<BrandRecord>
    ensures read { IfOk result (λ b. brand_of (values_in context.now.brands) (meta_record_in 6 reader.now)
        ≡ Ok (seen_brand b)) }
    ensures refused { IfErr result (λ e. e.kind ≢ OutOfMemory
        → HasCause (brand_of (values_in context.now.brands) (meta_record_in 6 reader.now)) e.kind) }
{
    let node = u32_at::<MetaSet>(reader, BRAND, 0, 0);
    let field_types = list_read::<Type>(context, reader, BRAND, 1, 0)?;
    let own = list_read::<Type>(context, reader, BRAND, 2, 1)?;
    let children = type_lists_at(context, reader, BRAND, 3, 2)?;
    Ok(BrandRecord {
        node,
        field_types,
        annotation_types: AnnotationTypes { own, children },
    })
}

impl FromRecord for BrandRecord {
    ghost Seen = { Brand };

    ghost seen = { seen_brand };

    ghost brand = { 6 };

    ghost of_record = { λ brands r. brand_of brands r };

    fn from_record(context: &Context<'_>, reader: &StructReader<'_>) -> Result<BrandRecord> {
        read_brand(context, reader)
    }
}

/// An enumerant of a record of one.
#[tactic(auto, unfolding(crate::specs::Lists::enumerant_of))]
fn read_enumerant(context: &Context<'_>, reader: &StructReader<'_>) -> Result<EnumerantRecord>
    ensures read { IfOk result (λ e. enumerant_of (meta_record_in 9 reader.now) ≡ Ok (seen_enumerant e)) }
    ensures refused { IfErr result (λ e. e.kind ≢ OutOfMemory
        → HasCause (enumerant_of (meta_record_in 9 reader.now)) e.kind) }
{
    let name = name_at(context.alloc, reader, ENUMERANT, 0, 0)?;
    let annotations = list_read::<AnnotationRecord>(context, reader, ENUMERANT, 1, 1)?;
    Ok(EnumerantRecord { name, annotations })
}

impl FromRecord for EnumerantRecord {
    ghost Seen = { Enumerant };

    ghost seen = { seen_enumerant };

    ghost brand = { 9 };

    ghost of_record = { λ _ r. enumerant_of r };

    fn from_record(context: &Context<'_>, reader: &StructReader<'_>) -> Result<EnumerantRecord> {
        read_enumerant(context, reader)
    }
}

/// An enum of a record of one.
#[tactic(auto, unfolding(crate::specs::Lists::enum_meant))]
fn read_enum(context: &Context<'_>, reader: &StructReader<'_>) -> Result<EnumRecord>
    ensures read { IfOk result (λ e. enum_meant (values_in context.now.brands) (meta_record_in 8 reader.now)
        ≡ Ok (seen_enum e)) }
    ensures refused { IfErr result (λ e. e.kind ≢ OutOfMemory
        → HasCause (enum_meant (values_in context.now.brands) (meta_record_in 8 reader.now)) e.kind) }
{
    let id = u64_at::<MetaSet>(reader, ENUM, 0, 0);
    let display_name = name_at(context.alloc, reader, ENUM, 1, 0)?;
    let annotations = list_read::<AnnotationRecord>(context, reader, ENUM, 2, 1)?;
    let enumerants = list_read::<EnumerantRecord>(context, reader, ENUM, 3, 2)?;
    let own = list_read::<Type>(context, reader, ENUM, 4, 3)?;
    let children = type_lists_at(context, reader, ENUM, 5, 4)?;
    Ok(EnumRecord {
        id,
        display_name,
        annotations,
        enumerants,
        annotation_types: AnnotationTypes { own, children },
    })
}

impl FromRecord for EnumRecord {
    ghost Seen = { Enum };

    ghost seen = { seen_enum };

    ghost brand = { 8 };

    ghost of_record = { λ brands r. enum_meant brands r };

    fn from_record(context: &Context<'_>, reader: &StructReader<'_>) -> Result<EnumRecord> {
        read_enum(context, reader)
    }
}
