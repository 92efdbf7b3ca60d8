//! Records without annotations, in few words: for a set that is written in a program.
ghost use Rattle.std.specs.Prelude.{[], ◌≡◌, map, IfErr, IfOk, replicate};
ghost use Rattle.capnp_device.specs.declared.error.ErrorKind.TheVariants.{OutOfMemory};
ghost use Rattle.capnp_schema.specs.Making.{as_group, as_member, unannotated_brand, non_union_field, node_without_union, with_union};
ghost use Rattle.capnp_schema.specs.Schema.{Group, Slot, seen_brand, seen_field, seen_node, seen_value};
ghost use Rattle.capnp_schema.specs.Types.{seen_type};

use crate::record::{
    AnnotationTypes, BrandRecord, FieldKind, FieldRecord, NO_DISCRIMINANT, NodeRecord,
    StructRecord, ValueRecord,
};
use capnp_base::introspect::Type;
use capnp_wire::error::Result;
use std::alloc::{AllocError, Global};

/// As many lists of types, without any.
pub(crate) fn no_types(
    alloc: Global,
    count: usize,
) -> std::result::Result<Vec<Vec<Type>>, AllocError>
    ensures { IfOk result (λ lists. map (λ types. map seen_type types.items) lists.items ≡ replicate count []) }
{
    let mut lists = Vec::new(alloc);
    for _ in 0..count {
        lists.push(Vec::new(alloc))?;
    }
    Ok(lists)
}

impl FieldRecord {
    /// A slot that is no member of a union. The offset counts units of the slot's own width in the data section, or
    /// pointers. Refused with `OutOfMemory` alone.
    pub fn slot(alloc: Global, name: &str, offset: u32, default: ValueRecord) -> Result<FieldRecord>
        ensures made { IfOk result (λ f. seen_field f ≡ non_union_field name.now (Slot offset (seen_value default))) }
        ensures refused { IfErr result (λ e. e.kind ≡ OutOfMemory) }
    {
        let name = String::from_str(alloc, name)?;
        Ok(FieldRecord {
            name,
            discriminant_value: NO_DISCRIMINANT,
            annotations: Vec::new(alloc),
            kind: FieldKind::Slot { offset, default },
        })
    }

    /// A group, by the number of its node, that is no member of a union. Refused with `OutOfMemory` alone.
    pub fn group(alloc: Global, name: &str, node: u32) -> Result<FieldRecord>
        ensures made { IfOk result (λ f. seen_field f ≡ non_union_field name.now (Group node)) }
        ensures refused { IfErr result (λ e. e.kind ≡ OutOfMemory) }
    {
        let name = String::from_str(alloc, name)?;
        Ok(FieldRecord {
            name,
            discriminant_value: NO_DISCRIMINANT,
            annotations: Vec::new(alloc),
            kind: FieldKind::Group { node },
        })
    }

    /// This field as the member of its struct's union for which the discriminant is the value.
    pub fn as_member(mut self, discriminant_value: u16) -> FieldRecord
        ensures { seen_field result ≡ as_member (seen_field self) discriminant_value }
    {
        self.discriminant_value = discriminant_value;
        self
    }
}

impl NodeRecord {
    /// A struct without a union: its id, its display name, the words of its data section, its pointers and its fields.
    /// Refused with `OutOfMemory` alone.
    pub fn structure(
        alloc: Global,
        id: u64,
        display_name: &str,
        data_word_count: u16,
        pointer_count: u16,
        fields: Vec<FieldRecord>,
    ) -> Result<NodeRecord>
        ensures made { IfOk result (λ n. seen_node n
            ≡ node_without_union id display_name.now data_word_count pointer_count (map seen_field fields.items)) }
        ensures refused { IfErr result (λ e. e.kind ≡ OutOfMemory) }
    {
        let display_name = String::from_str(alloc, display_name)?;
        Ok(NodeRecord {
            id,
            display_name,
            annotations: Vec::new(alloc),
            body: StructRecord {
                data_word_count,
                pointer_count,
                is_group: false,
                discriminant_count: 0,
                discriminant_offset: 0,
                fields,
            },
        })
    }

    /// This node as a group, which has the sections of the struct that it is in.
    pub fn as_group(mut self) -> NodeRecord
        ensures { seen_node result ≡ as_group (seen_node self) }
    {
        self.body.is_group = true;
        self
    }

    /// This node with an unnamed union of so many members, whose discriminant stands at the offset, which counts 16
    /// bits each.
    pub fn with_union(mut self, discriminant_count: u16, discriminant_offset: u32) -> NodeRecord
        ensures { seen_node result ≡ with_union (seen_node self) discriminant_count discriminant_offset }
    {
        self.body.discriminant_count = discriminant_count;
        self.body.discriminant_offset = discriminant_offset;
        self
    }
}

impl BrandRecord {
    /// A node, by its number, with the type of each field by index. Refused with `OutOfMemory` alone.
    pub fn new(alloc: Global, node: u32, field_types: Vec<Type>) -> Result<BrandRecord>
        ensures made { IfOk result (λ b. seen_brand b ≡ unannotated_brand node (map seen_type field_types.items)) }
        ensures refused { IfErr result (λ e. e.kind ≡ OutOfMemory) }
    {
        let children = no_types(alloc, field_types.len())?;
        Ok(BrandRecord {
            node,
            field_types,
            annotation_types: AnnotationTypes {
                own: Vec::new(alloc),
                children,
            },
        })
    }
}
