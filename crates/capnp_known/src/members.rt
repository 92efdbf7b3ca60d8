//! The active members of structs whose members stand one after another, with discriminant values from 0 on.
ghost use Rattle.std.specs.Prelude.{◌≡◌, ◌<◌, ◌+◌, ◌%◌};
ghost use Rattle.capnp_records.specs.Part.{which_of};
ghost use Rattle.capnp_known.specs.Known.{record_in};
ghost use Rattle.capnp_known.specs.Members.{HasMembers};

use crate::known_set::KnownSet;
use capnp_schema::loaded::load_pair;
use capnp_wire::StructReader;

/// The index of the active member of a struct with `count` members, from index `first` on; none where the number at the
/// discriminant's place is unknown. The place is told in bits.
///
/// # Conditions
///
/// The brand's node has these members and no others, and its discriminant there (`HasMembers`).
#[inline(always)]
pub fn member_at<S: KnownSet>(
    reader: &StructReader<'_>,
    brand: u32,
    place: u32,
    first: u16,
    count: u16,
) -> Option<u16>
    requires members { HasMembers S.set brand place first count }
    requires aligned { place % 16 ≡ 0 }
    requires fits { first + count < 65_536 }
    ensures { result ≡ which_of (record_in S.set brand reader.now) }
{
    let _brand = brand;
    let number = load_pair(reader, place);
    if number < count {
        return Some(first + number);
    }
    None
}
