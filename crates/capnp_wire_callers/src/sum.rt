//! The sum of a list's elements.
ghost use Rattle.std.specs.Prelude.{◌≡◌};
ghost use Rattle.capnp_wire.specs.Standing.{levels_of, tree_of};
ghost use Rattle.capnp_wire_callers.specs.Path.{number_read};
ghost use Rattle.capnp_wire_callers.specs.Sum.{list_sum};

use capnp_wire::PointerReader;
use capnp_wire::error::Result;
use capnp_wire::size::ElementSize;

/// The sum of the list of 32 bit numbers that the pointer leads to; of a list of structs, of the numbers at their
/// starts. Refused as `get_list`.
pub fn sum_of_list(pointer: PointerReader<'_>) -> Result<u64>
    ensures { number_read result ≡ list_sum (tree_of pointer.entry) (levels_of pointer.entry) }
{
    let list = pointer.get_list(ElementSize::FourBytes)?;
    let mut total = 0u64;
    for index in 0..list.len() {
        total += list.get_data_element::<u32>(index) as u64;
    }
    Ok(total)
}
