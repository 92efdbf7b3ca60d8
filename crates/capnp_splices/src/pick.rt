//! Which element comes to stand where.
ghost use Rattle.std.specs.Prelude.{◌+◌, ◌<◌, ◌≡◌, ◌≤◌};
ghost use Rattle.capnp_wire.specs.Reading.{list_length};
ghost use Rattle.capnp_wire.specs.Standing.{list_of};
ghost use Rattle.capnp_splices.specs.Picks.{picked_element, splice_seen};
ghost use Rattle.capnp_splices.specs.Splices.{picked, spliced_count};

use capnp_wire::ListReader;
use capnp_wire::laws::list_is_well_formed;

/// Two lists, and where the elements of the second come into the first, in the place of so many of it.
#[derive(Clone, Copy)]
pub struct Splice<'a> {
    pub old: ListReader<'a>,
    pub added: ListReader<'a>,
    /// The index of the first element that is taken out, or in front of which the others come.
    pub at: u32,
    /// How many elements are taken out.
    pub removed: u32,
}

/// An element of a list.
#[derive(Clone, Copy)]
pub struct Picked<'a> {
    pub list: ListReader<'a>,
    pub index: u32,
}

/// How many elements there are then.
///
/// # Conditions
///
/// The elements that are taken out lie within the first list.
pub fn count_spliced(splice: Splice<'_>) -> u32
    requires { splice.at + splice.removed ≤ list_length (list_of splice.old) }
    ensures { result ≡ spliced_count (splice_seen splice.entry) }
{
    splice.old.len() - splice.removed + splice.added.len()
}

/// The element that comes to stand at an index.
///
/// # Conditions
///
/// The elements that are taken out lie within the first list, and the index is below the number of elements then.
pub fn pick<'a>(splice: Splice<'a>, index: u32) -> Picked<'a>
    requires within { splice.at + splice.removed ≤ list_length (list_of splice.old) }
    requires inside { index < spliced_count (splice_seen splice) }
    ensures { picked_element result ≡ picked (splice_seen splice.entry) index }
{
    if index < splice.at {
        return Picked {
            list: splice.old,
            index,
        };
    }
    let added = splice.added.len();
    let behind = index - splice.at;
    if behind < added {
        return Picked {
            list: splice.added,
            index: behind,
        };
    }
    list_is_well_formed(&splice.old);
    Picked {
        list: splice.old,
        index: index - added + splice.removed,
    }
}
