//! Sets of schemas that are checked: many structs, one struct of many fields, and a chain of groups. A set takes its
//! records over, so they are made anew for each check.

use capnp_base::introspect::{RawBrandedStructSchema, Type, TypeVariant};
use capnp_schema::record::{
    AnnotationTypes, BrandRecord, FieldKind, FieldRecord, NodeRecord, StructRecord, ValueRecord,
};
use capnp_schema::set::SchemaSet;
use capnp_wire::error::Result;
use capnp_wire::size::StructSize;
use std::alloc::Global;

const STRUCTS: u32 = 1_000;

const MOST_FIELDS: u32 = 60_000;

const GROUPS: u32 = 20_000;

/// A set that is checked.
#[derive(Clone, Copy)]
enum Shape {
    /// So many structs of 30 fields of ten types.
    Many,
    /// One struct of so many fields.
    Wide,
    /// A struct in which so many groups stand, each in the one before.
    Chain,
}

/// The slots of a round: where each stands in the first round, how far from there in the next, and its type.
static TEN: [(u32, u32, TypeVariant); 10] = [
    (0, 1, TypeVariant::Bool),
    (1, 1, TypeVariant::UInt8),
    (2, 1, TypeVariant::Int16),
    (4, 1, TypeVariant::UInt32),
    (6, 1, TypeVariant::Int64),
    (0, 2, TypeVariant::Text),
    (5, 1, TypeVariant::UInt16),
    (9, 1, TypeVariant::UInt64),
    (1, 2, TypeVariant::Data),
    (0, 0, TypeVariant::Void),
];

/// Zero, or nothing, as a value of one of these types.
fn zero_of(alloc: Global, field_type: TypeVariant) -> ValueRecord {
    match field_type {
        TypeVariant::Bool => ValueRecord::Bool(false),
        TypeVariant::UInt8 => ValueRecord::UInt8(0),
        TypeVariant::Int16 => ValueRecord::Int16(0),
        TypeVariant::UInt32 => ValueRecord::UInt32(0),
        TypeVariant::Int64 => ValueRecord::Int64(0),
        TypeVariant::Text => ValueRecord::Text(Vec::new(alloc)),
        TypeVariant::UInt16 => ValueRecord::UInt16(0),
        TypeVariant::UInt64 => ValueRecord::UInt64(0),
        TypeVariant::Data => ValueRecord::Data(Vec::new(alloc)),
        _ => ValueRecord::Void,
    }
}

/// The lists of a set without enums.
#[derive(Drop)]
struct Records {
    nodes: Vec<NodeRecord>,
    brands: Vec<BrandRecord>,
}

/// The fields of a struct, and their types.
#[derive(Drop)]
struct Fields {
    records: Vec<FieldRecord>,
    types: Vec<Type>,
}

impl Fields {
    /// No fields, with room for so many.
    fn new(alloc: Global, count: usize) -> Result<Fields> {
        Ok(Fields {
            records: Vec::with_capacity(alloc, count)?,
            types: Vec::with_capacity(alloc, count)?,
        })
    }

    /// Adds a non-union field, whose name has its number.
    fn push(&mut self, kind: FieldKind, field_type: TypeVariant) -> Result<()> {
        let alloc = *self.records.allocator();
        let number = self.records.len();
        self.records.push(FieldRecord {
            name: format!(in alloc; "field{number}")?,
            discriminant_value: 65_535,
            annotations: Vec::new(alloc),
            kind,
        })?;
        self.types.push(Type::from(field_type))?;
        Ok(())
    }

    /// Adds a slot.
    fn push_slot(
        &mut self,
        offset: u32,
        field_type: TypeVariant,
        default: ValueRecord,
    ) -> Result<()> {
        self.push(FieldKind::Slot { offset, default }, field_type)
    }

    /// Adds slots of ten types, which stand behind those of the rounds before.
    fn push_ten(&mut self, round: u32) -> Result<()> {
        let alloc = *self.records.allocator();
        for (first, step, field_type) in &TEN {
            let offset = first.wrapping_add(step.wrapping_mul(round));
            self.push_slot(offset, *field_type, zero_of(alloc, *field_type))?;
        }
        Ok(())
    }
}

/// No types of annotations, for a struct of so many fields.
fn no_types(alloc: Global, count: usize) -> Result<AnnotationTypes> {
    let mut children = Vec::new(alloc);
    for _ in 0..count {
        children.push(Vec::new(alloc))?;
    }
    Ok(AnnotationTypes {
        own: Vec::new(alloc),
        children,
    })
}

/// Adds the struct of a number, a group where it is not the first of a chain, with its only brand.
fn add(
    records: &mut Records,
    number: u32,
    is_group: bool,
    size: StructSize,
    fields: Fields,
) -> Result<()> {
    let alloc = *records.nodes.allocator();
    let Fields {
        records: fields,
        types: field_types,
    } = fields;
    let annotation_types = no_types(alloc, field_types.len())?;
    records.nodes.push(NodeRecord {
        id: number as u64,
        display_name: String::from_str(alloc, "S")?,
        annotations: Vec::new(alloc),
        body: StructRecord {
            data_word_count: size.data_words,
            pointer_count: size.pointers,
            is_group,
            discriminant_count: 0,
            discriminant_offset: 0,
            fields,
        },
    })?;
    records.brands.push(BrandRecord {
        node: number,
        field_types,
        annotation_types,
    })?;
    Ok(())
}

fn add_many(alloc: Global, records: &mut Records) -> Result<()> {
    let size = StructSize {
        data_words: 12,
        pointers: 6,
    };
    for number in 0..STRUCTS {
        let mut fields = Fields::new(alloc, 30)?;
        for round in 0..3u32 {
            fields.push_ten(round)?;
        }
        add(records, number, false, size, fields)?;
    }
    Ok(())
}

fn add_wide(alloc: Global, records: &mut Records) -> Result<()> {
    let size = StructSize {
        data_words: 15_000,
        pointers: 0,
    };
    let mut fields = Fields::new(alloc, MOST_FIELDS as usize)?;
    for offset in 0..MOST_FIELDS {
        fields.push_slot(offset, TypeVariant::UInt16, ValueRecord::UInt16(0))?;
    }
    add(records, 0, false, size, fields)
}

fn add_chain(alloc: Global, records: &mut Records) -> Result<()> {
    let size = StructSize {
        data_words: 1,
        pointers: 0,
    };
    for number in 0..GROUPS {
        let next = number + 1;
        let mut fields = Fields::new(alloc, 1)?;
        if next < GROUPS {
            let of_group = TypeVariant::Struct(RawBrandedStructSchema {
                number: next,
                generic: next,
            });
            fields.push(FieldKind::Group { node: next }, of_group)?;
        } else {
            fields.push_slot(0, TypeVariant::UInt16, ValueRecord::UInt16(0))?;
        }
        add(records, number, number > 0, size, fields)?;
    }
    Ok(())
}

/// Checks a set so many times, and adds the numbers of its nodes.
fn check(alloc: Global, shape: Shape, rounds: u64) -> Result<u64> {
    let mut sum: u64 = 0;
    for _ in 0..rounds {
        let mut records = Records {
            nodes: Vec::new(alloc),
            brands: Vec::new(alloc),
        };
        match shape {
            Shape::Many => add_many(alloc, &mut records)?,
            Shape::Wide => add_wide(alloc, &mut records)?,
            Shape::Chain => add_chain(alloc, &mut records)?,
        }
        let Records { nodes, brands } = records;
        let schemas = SchemaSet::new(alloc, nodes, brands, Vec::new(alloc))?;
        sum = sum.wrapping_add(schemas.nodes().len() as u64);
    }
    Ok(sum)
}

#[unsafe(no_mangle)]
pub extern "C" fn bench_check_many(alloc: Global, _message: &[u8], rounds: u64) -> u64 {
    check(alloc, Shape::Many, rounds).unwrap_or(0)
}

#[unsafe(no_mangle)]
pub extern "C" fn bench_check_wide(alloc: Global, _message: &[u8], rounds: u64) -> u64 {
    check(alloc, Shape::Wide, rounds).unwrap_or(0)
}

#[unsafe(no_mangle)]
pub extern "C" fn bench_check_chain(alloc: Global, _message: &[u8], rounds: u64) -> u64 {
    check(alloc, Shape::Chain, rounds).unwrap_or(0)
}
