//! What stands behind a pointer; nothing where it is null.
ghost use Rattle.std.specs.Prelude.{ℕ, ◌≡◌, ◌≤◌, ◌+◌, IfErr, IfOk, IfSome};
ghost use Rattle.capnp_wire.specs.Reading.{element_levels, element_pointer};
ghost use Rattle.capnp_wire.specs.Standing.{levels_of, list_levels, list_of, struct_levels, tree_of};
ghost use Rattle.capnp_schema.specs.Schema.{Schemas};
ghost use Rattle.capnp_schema.specs.Types.{DataType, ListType, SchemaType, StructType, TextType, element_size};
ghost use Rattle.capnp_records.specs.Reading.{value_of};
ghost use Rattle.capnp_records.specs.Record.{Endless};
ghost use Rattle.capnp_diffs.specs.Refusals.{IsUnread};
ghost use Rattle.capnp_diffs.specs.Steps.Leaves.{data_value, list_value, struct_value, text_value};
ghost use Rattle.capnp_diffs.specs.Steps.Refusing.{IsCutOff, IsListThere, IsStructThere};

use capnp_wire::error::Result;
use capnp_wire::size::ElementSize;
use capnp_wire::{ListReader, PointerReader, StructReader};

/// The bytes of a text.
#[tactic(auto, using(crate::proofs::Behind::null_missing, crate::proofs::Behind::text_there))]
pub(crate) fn text_there<'a>(pointer: &PointerReader<'a>) -> Result<Option<&'a [u8]>>
    ensures value { IfOk result (λ o. (set : Schemas) → value_of set (tree_of pointer.now) Endless TextType ≡ text_value o) }
    ensures unread { IfErr result (λ e. IsUnread TextType (tree_of pointer.now) (levels_of pointer.now) e.kind) }
{
    if pointer.is_null() {
        return Ok(None);
    }
    Ok(Some(pointer.get_text()?))
}

/// The bytes of data.
#[tactic(auto, using(crate::proofs::Behind::null_missing, crate::proofs::Behind::data_there))]
pub(crate) fn data_there<'a>(pointer: &PointerReader<'a>) -> Result<Option<&'a [u8]>>
    ensures value { IfOk result (λ o. (set : Schemas) → value_of set (tree_of pointer.now) Endless DataType ≡ data_value o) }
    ensures unread { IfErr result (λ e. IsUnread DataType (tree_of pointer.now) (levels_of pointer.now) e.kind) }
{
    if pointer.is_null() {
        return Ok(None);
    }
    Ok(Some(pointer.get_data()?))
}

/// A struct.
#[tactic(auto, using(crate::proofs::Behind::null_missing, crate::proofs::Behind::struct_there))]
pub(crate) fn struct_there<'a>(pointer: &PointerReader<'a>) -> Result<Option<StructReader<'a>>>
    ensures value { IfOk result (λ o. (set : Schemas) (b g : ℕ)
        → value_of set (tree_of pointer.now) Endless (StructType b g) ≡ struct_value set b o) }
    ensures levels { IfOk result (λ o. IfSome o (λ s. struct_levels s + 1 ≡ levels_of pointer.now)) }
    ensures there { IfOk result (IsStructThere (tree_of pointer.now) (levels_of pointer.now)) }
    ensures unread { IfErr result (λ e. (b g : ℕ) → IsUnread (StructType b g) (tree_of pointer.now) (levels_of pointer.now) e.kind) }
{
    if pointer.is_null() {
        return Ok(None);
    }
    Ok(Some(pointer.get_struct()?))
}

/// A list.
#[tactic(auto, using(crate::proofs::Behind::null_missing, crate::proofs::Behind::list_there, crate::proofs::Behind::list_same))]
pub(crate) fn list_there<'a>(
    pointer: &PointerReader<'a>,
    size: ElementSize,
) -> Result<Option<ListReader<'a>>>
    ensures value { IfOk result (λ o. (set : Schemas) (e : SchemaType) → element_size e ≡ size
        → value_of set (tree_of pointer.now) Endless (ListType e) ≡ list_value set e o) }
    ensures same { IfOk result (λ o. IfSome o (λ l. list_of l ≡ tree_of pointer.now)) }
    ensures levels { IfOk result (λ o. IfSome o (λ l. list_levels l + 1 ≡ levels_of pointer.now)) }
    ensures there { IfOk result (IsListThere size (tree_of pointer.now) (levels_of pointer.now)) }
    ensures unread { IfErr result (λ e. (t : SchemaType) → element_size t ≡ size
        → IsUnread (ListType t) (tree_of pointer.now) (levels_of pointer.now) e.kind) }
{
    if pointer.is_null() {
        return Ok(None);
    }
    Ok(Some(pointer.get_list(size)?))
}

/// The pointer of an element. Refused with `TooDeep` where it is no null and no level is left for the struct that it is
/// entered through.
pub(crate) fn element_there<'a>(list: &ListReader<'a>, index: u32) -> Result<PointerReader<'a>>
    ensures tree { IfOk result (λ p. tree_of p ≡ element_pointer (list_of list.now) index 1) }
    ensures levels { IfOk result (λ p. levels_of p ≤ list_levels list.now) }
    ensures here { IfOk result (λ p. (tree_of p ≡ element_pointer (list_of list.now) index (list_levels list.now))
        × (levels_of p ≡ element_levels (list_of list.now) (list_levels list.now))) }
    ensures cut { IfErr result (λ e. IsCutOff (list_of list.now) (list_levels list.now) index e.kind) }
{
    let pointer = list.get_pointer_element(index);
    if pointer.is_null() {
        return Ok(pointer);
    }
    match list.get_element_size() {
        ElementSize::InlineComposite => {
            list.get_struct_element(index)?;
            Ok(pointer)
        }
        _ => Ok(pointer),
    }
}
