//! Bits of a data section that is read, as they are stored.
ghost use Rattle.std.specs.Prelude.{◌≡◌, ◌<◌, ◌*◌, ◌%◌, ◌^◌, IsTrue};
ghost use Rattle.capnp_wire.specs.Standing.{struct_of};
ghost use Rattle.capnp_schema.specs.Plan.{is_slot_width};
ghost use Rattle.capnp_schema.specs.SlotValue.{bits_at};

use capnp_wire::StructReader;
use capnp_wire::laws::struct_is_well_formed;

/// The bit at `start`.
#[tactic(auto, using(crate::proofs::LoadedBits::load_1))]
fn load_bit(reader: &StructReader<'_>, start: u32) -> u64
    ensures { result ≡ bits_at (struct_of reader.now).bytes start 1 }
{
    reader.get_bool_field(start) as u64
}

/// The byte at `start`.
#[tactic(auto, using(crate::proofs::LoadedBits::load_8))]
fn load_byte(reader: &StructReader<'_>, start: u32) -> u64
    requires { start % 8 ≡ 0 }
    ensures { result ≡ bits_at (struct_of reader.now).bytes start 8 }
{
    struct_is_well_formed(reader);
    reader.get_data_field::<u8>(start / 8) as u64
}

/// The number of two bytes at `start`; zero past the end of the section.
///
/// # Conditions
///
/// `start` is a multiple of 16.
#[inline(always)]
#[tactic(auto, using(crate::proofs::LoadedBits::load_16))]
pub fn load_pair(reader: &StructReader<'_>, start: u32) -> u16
    requires { start % 16 ≡ 0 }
    ensures { result ≡ bits_at (struct_of reader.now).bytes start 16 }
{
    struct_is_well_formed(reader);
    reader.get_data_field::<u16>(start / 16)
}

/// The number of four bytes at `start`.
#[tactic(auto, using(crate::proofs::LoadedBits::load_32))]
fn load_half(reader: &StructReader<'_>, start: u32) -> u64
    requires { start % 32 ≡ 0 }
    ensures { result ≡ bits_at (struct_of reader.now).bytes start 32 }
{
    struct_is_well_formed(reader);
    reader.get_data_field::<u32>(start / 32) as u64
}

/// The number of eight bytes at `start`.
#[tactic(auto, using(crate::proofs::LoadedBits::load_64))]
fn load_word(reader: &StructReader<'_>, start: u32) -> u64
    requires { start % 64 ≡ 0 }
    ensures { result ≡ bits_at (struct_of reader.now).bytes start 64 }
{
    struct_is_well_formed(reader);
    reader.get_data_field::<u64>(start / 64)
}

/// The bits of a slot's width at `start`; zeros past the end of the section.
///
/// # Conditions
///
/// `width` is that of a slot (`is_slot_width`), and `start` is a multiple of it.
#[tactic(auto, using(crate::proofs::LoadedBits::load_bounded))]
pub fn load_bits(reader: &StructReader<'_>, start: u32, width: u8) -> u64
    requires width { IsTrue (is_slot_width width) }
    requires aligned { start % width ≡ 0 }
    ensures fits { result < 2 ^ width }
    ensures is { result ≡ bits_at (struct_of reader.now).bytes start width }
{
    match width {
        1 => load_bit(reader, start),
        8 => load_byte(reader, start),
        16 => load_pair(reader, start) as u64,
        32 => load_half(reader, start),
        64 => load_word(reader, start),
        _ => unreachable!(),
    }
}
