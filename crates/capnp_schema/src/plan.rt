//! Slot plans: where a field stands in its struct, worked out once.
ghost use Rattle.std.specs.Prelude.{◌≡◌, ◌+◌, ◌*◌, ◌≤◌, ◌<◌, true};
ghost use Rattle.capnp_schema.specs.Types.{seen_type, is_pointer, width};
ghost use Rattle.capnp_schema.specs.Schema.{seen_field, seen_kind, seen_node, seen_value, is_member, Slot};
ghost use Rattle.capnp_schema.specs.Accepted.{LiesInside};
ghost use Rattle.capnp_schema.specs.SlotValue.{default_bits};
ghost use Rattle.capnp_schema.specs.Plan.{LiesInNode, PlansStand, member_plan, plan_place, plan_in};

pub(crate) mod table;

use crate::layers::{is_pointer, struct_number, width};
use crate::record::{FieldKind, FieldRecord, NodeRecord, ValueRecord};
use capnp_base::introspect::Type;

/// Where a field stands: its place, and for a member of a union its discriminant.
#[derive(Clone, Copy, Debug, PartialEq, Eq)]
pub struct SlotPlan {
    pub place: Place,
    /// Of a member: the first of the discriminant's 16 bits in the data section, and the value that stands there while
    /// the member is active. None for a non-union field.
    pub member: Option<(u32, u16)>,
}

/// The place of a field in its struct's sections.
#[derive(Clone, Copy, Debug, PartialEq, Eq)]
pub enum Place {
    /// A slot that takes no room.
    Nothing,
    /// A slot of the data section: its first bit, how many bits it has, and the bits of its default without sign. What
    /// is stored is the value with the bits changed where the mask's are 1.
    Bits { start: u32, width: u8, mask: u64 },
    /// A slot of the pointer section.
    Pointer(u16),
    /// A group, by its brand.
    Group(u32),
}

/// The plan of a field that isn't there: that of a slot without room.
pub(crate) const NO_PLAN: SlotPlan = SlotPlan {
    place: Place::Nothing,
    member: None,
};

/// The plan of a field, by its node's record, its own, and its type in a brand.
pub(crate) fn plan_field(node: &NodeRecord, field: &FieldRecord, field_type: &Type) -> SlotPlan
    requires { LiesInNode (seen_node node.now)
        (record { field = seen_field field.now; type = seen_type field_type.now }) }
    ensures { result ≡ plan_in (seen_node node.now)
        (record { field = seen_field field.now; type = seen_type field_type.now }) }
{
    SlotPlan {
        place: place_of(&field.kind, field_type, node),
        member: member_of(node, field),
    }
}

/// Where a field of a kind and type stands in a node's sections.
#[tactic(auto, using(crate::specs::Facts::Layers::seen_which))]
fn place_of(kind: &FieldKind, field_type: &Type, node: &NodeRecord) -> Place
    requires { LiesInside (seen_node node.now) (seen_kind kind.now) (seen_type field_type.now) }
    ensures { result ≡ plan_place (seen_kind kind.now) (seen_type field_type.now) }
{
    match kind {
        FieldKind::Slot { offset, default } => {
            // Sections of at most 65,535 words and pointers: the numbers of what lies inside them fit.
            let _data_words = node.body.data_word_count;
            let _pointers = node.body.pointer_count;
            slot_place(*offset, default, field_type)
        }
        FieldKind::Group { node: _ } => Place::Group(struct_number(field_type.which())),
    }
}

/// Where a slot stands, by its offset in units of its own width.
#[tactic(auto, using(crate::specs::Facts::Layers::seen_which))]
fn slot_place(offset: u32, default: &ValueRecord, field_type: &Type) -> Place
    requires bits { (offset + 1) * width (seen_type field_type.now) ≤ 64 * 65535 }
    requires pointer { is_pointer (seen_type field_type.now) ≡ true → offset < 65535 }
    ensures { result ≡ plan_place (Slot offset (seen_value default.now)) (seen_type field_type.now) }
{
    let variant = field_type.which();
    if is_pointer(variant) {
        return Place::Pointer(offset as u16);
    }
    let bits = width(variant);
    if bits == 0 {
        return Place::Nothing;
    }
    Place::Bits {
        start: offset * bits as u32,
        width: bits,
        mask: default_bits(default),
    }
}

/// The bits of a default, in two's complement of its own width.
fn default_bits(default: &ValueRecord) -> u64
    ensures { result ≡ default_bits (seen_value default.now) }
{
    match default {
        ValueRecord::Bool(value) => *value as u64,
        ValueRecord::Int8(value) => value.cast_unsigned() as u64,
        ValueRecord::Int16(value) => value.cast_unsigned() as u64,
        ValueRecord::Int32(value) => value.cast_unsigned() as u64,
        ValueRecord::Int64(value) => value.cast_unsigned(),
        ValueRecord::UInt8(value) => *value as u64,
        ValueRecord::UInt16(value) => *value as u64,
        ValueRecord::UInt32(value) => *value as u64,
        ValueRecord::UInt64(value) => *value,
        ValueRecord::Enum(value) => *value as u64,
        _ => 0,
    }
}

/// A member's discriminant.
fn member_of(node: &NodeRecord, field: &FieldRecord) -> Option<(u32, u16)>
    requires { is_member (seen_field field.now) ≡ true
        → 16 * (node.now.body.discriminant_offset + 1) ≤ 64 * node.now.body.data_word_count }
    ensures { result ≡ member_plan (is_member (seen_field field.now)) (seen_node node.now) (seen_field field.now) }
{
    if !field.is_member() {
        return None;
    }
    // A data section of at most 65,535 words: the number of a bit inside it fits.
    let _data_words = node.body.data_word_count;
    Some((node.body.discriminant_offset * 16, field.discriminant_value))
}

/// The plan of each field of an accepted set occupies what the field's footprint occupies and holds the number of the
/// field's slot; of a member it occupies the discriminant. It lies inside each struct that has the sections of the
/// field's brand, and a data slot has 1, 8, 16, 32 or 64 bits, starts at a multiple of these, and has a mask of no
/// more. Its numbers fit.
#[tactic(auto, using(crate::proofs::Plans::plans_stand))]
pub fn plans_stand()
    ensures { PlansStand }
{}
