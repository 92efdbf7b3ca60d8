//! Writes by a field's plan.
ghost use Rattle.std.specs.Prelude.{◌≡◌, ◌≤◌, ◌<◌, ◌+◌, ◌*◌, ◌^◌, IfSome, IsTrue, bit_xor, length};
ghost use Rattle.capnp_arena.specs.Frame.{LeavesStruct};
ghost use Rattle.capnp_arena.specs.Built.{IsBuilt, built_at};
ghost use Rattle.capnp_wire.specs.Edits.{with_bytes};
ghost use Rattle.capnp_wire.specs.Tree.{tree_count};
ghost use Rattle.capnp_schema.specs.Plan.{IsSlotPlace, PlanFits, is_slot_width};
ghost use Rattle.capnp_schema.specs.SlotBits.{with_bits};
ghost use Rattle.capnp_records.specs.Writes.Slots.{Bits};
ghost use Rattle.capnp_wire.specs.Standing.{struct_of};
ghost use Rattle.capnp_slots.specs.Steps.Planned.{place_bits, HoldsNumber, place_cleared, place_mask, place_written, plan_written};
ghost use Rattle.capnp_slots.specs.Fields.{IsFieldPlan, IsSlot};
ghost use Rattle.capnp_slots.specs.Steps.Fields.{IsSlotPlan};
ghost use Rattle.capnp_slots.specs.Planned.{member_switched};

use capnp_arena::arena::{Arena, Place as StructPlace};
use capnp_arena::structs::{pointer_at, set_bool_field, set_data_field};
use capnp_records::laws::slot_is_written;
use capnp_schema::laws::numbers_fit;
use capnp_schema::loaded::load_bits;
use capnp_schema::plan::{Place, SlotPlan, plans_stand};
use capnp_schema::schema::Field;
use capnp_wire::StructReader;

/// The plan of a field, as far as its union goes.
#[inline(always)]
pub(crate) fn field_plan(field: Field<'_>) -> SlotPlan
    ensures { IsFieldPlan field.entry result }
{
    let schema = field.get_containing_struct();
    numbers_fit(schema.get_set());
    plans_stand();
    field.plan()
}

/// The plan of a field that is a slot.
#[inline(always)]
pub(crate) fn slot_plan(field: Field<'_>) -> SlotPlan
    requires { IsSlot field }
    ensures { IsSlotPlan field.entry result }
{
    let schema = field.get_containing_struct();
    numbers_fit(schema.get_set());
    plans_stand();
    slot_is_written();
    field.plan()
}

/// Switches the union to a plan's member.
#[inline(always)]
pub(crate) fn switch_member(arena: &mut Arena, place: StructPlace, member: Option<(u32, u16)>)
    requires planted { IsBuilt arena.old place }
    requires inside { IfSome member (λ m. m.0 + 16 ≤ 8 * length (built_at arena.old place).bytes) }
    ensures frame { LeavesStruct place arena.old arena.new }
    ensures switched { built_at arena.new place ≡ member_switched member (built_at arena.old place) }
    ensures data_size { length (built_at arena.new place).bytes ≡ length (built_at arena.old place).bytes }
    ensures pointers { (built_at arena.new place).pointers ≡ (built_at arena.old place).pointers }
{
    if let Some((first, number)) = member {
        set_data_field::<u16>(arena, place, first / 16, number);
    }
}

/// Stores bits at a place of the data section.
#[inline(always)]
fn store_bits(arena: &mut Arena, place: StructPlace, start: u32, width: u8, bits: u64)
    requires planted { IsBuilt arena.old place }
    requires width { IsTrue (is_slot_width width) }
    requires inside { start + width ≤ 8 * length (built_at arena.old place).bytes }
    requires fits { bits < 2 ^ width }
    ensures frame { LeavesStruct place arena.old arena.new }
    ensures written { built_at arena.new place ≡ with_bytes (built_at arena.old place)
        (with_bits start width bits (built_at arena.old place).bytes) }
{
    match width {
        1 => set_bool_field(arena, place, start, bits == 1),
        8 => set_data_field::<u8>(arena, place, start / 8, bits as u8),
        16 => set_data_field::<u16>(arena, place, start / 16, bits as u16),
        32 => set_data_field::<u32>(arena, place, start / 32, bits as u32),
        64 => set_data_field::<u64>(arena, place, start / 64, bits),
        _ => unreachable!(),
    }
}

/// Switches the union to a plan's member, and stores a number at the plan's place, XORed with the place's default.
#[tactic(auto, using(std::proofs::lemmas::Nat::xor_lt))]
#[inline(always)]
pub(crate) fn store_number(arena: &mut Arena, place: StructPlace, plan: SlotPlan, number: u64)
    requires planted { IsBuilt arena.old place }
    requires slot { IsSlotPlace plan.place }
    requires inside { PlanFits plan (built_at arena.old place) }
    requires fits { HoldsNumber plan.place number }
    ensures frame { LeavesStruct place arena.old arena.new }
    ensures written { built_at arena.new place ≡ plan_written plan (Bits (bit_xor number (place_mask plan.place)))
        (built_at arena.old place) }
{
    switch_member(arena, place, plan.member);
    match plan.place {
        Place::Nothing => {}
        Place::Bits { start, width, mask } => store_bits(arena, place, start, width, number ^ mask),
        Place::Pointer(_) => {}
        Place::Group(_) => {}
    }
}

/// Makes a pointer null.
fn clear_pointer(arena: &mut Arena, place: StructPlace, index: u16)
    requires planted { IsBuilt arena.old place }
    requires inside { index < tree_count (built_at arena.old place).pointers }
    ensures frame { LeavesStruct place arena.old arena.new }
    ensures written { built_at arena.new place ≡ place_written (Place.Pointer index) (place_cleared (Place.Pointer index))
        (built_at arena.old place) }
{
    let at = pointer_at(arena, place, index);
    arena.clear(at);
}

/// Switches the union to a plan's member, and clears the plan's place: zero bits, or null.
#[inline(always)]
pub(crate) fn clear_plan(arena: &mut Arena, place: StructPlace, plan: SlotPlan)
    requires planted { IsBuilt arena.old place }
    requires slot { IsSlotPlace plan.place }
    requires inside { PlanFits plan (built_at arena.old place) }
    ensures frame { LeavesStruct place arena.old arena.new }
    ensures written { built_at arena.new place ≡ plan_written plan (place_cleared plan.place) (built_at arena.old place) }
{
    let member = plan.member;
    switch_member(arena, place, member);
    match plan.place {
        Place::Nothing => {}
        Place::Bits {
            start,
            width,
            mask: _,
        } => store_bits(arena, place, start, width, 0),
        Place::Pointer(index) => clear_pointer(arena, place, index),
        Place::Group(_) => {}
    }
}

/// Switches the union to a plan's member, and stores the bits that a struct that is read has at the plan's place.
pub(crate) fn copy_bits(
    arena: &mut Arena,
    place: StructPlace,
    plan: SlotPlan,
    source: &StructReader<'_>,
)
    requires planted { IsBuilt arena.old place }
    requires slot { IsSlotPlace plan.place }
    requires inside { PlanFits plan (built_at arena.old place) }
    ensures frame { LeavesStruct place arena.old arena.new }
    ensures written { built_at arena.new place ≡ plan_written plan
        (Bits (place_bits plan.place (struct_of source.now).bytes)) (built_at arena.old place) }
{
    let discriminant = plan.member;
    switch_member(arena, place, discriminant);
    match plan.place {
        Place::Nothing => {}
        Place::Bits {
            start,
            width,
            mask: _mask,
        } => store_bits(arena, place, start, width, load_bits(source, start, width)),
        Place::Pointer(_) => {}
        Place::Group(_) => {}
    }
}
