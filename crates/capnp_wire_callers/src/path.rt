//! What stands at the end of a path of pointers.
ghost use Rattle.std.specs.Prelude.{◌≡◌};
ghost use Rattle.capnp_wire.specs.Standing.{bytes_read, levels_of, tree_of};
ghost use Rattle.capnp_wire.specs.Stream.{message_tree_of};
ghost use Rattle.capnp_wire_callers.specs.Path.{message_number, number_read, path_number, path_text};

use capnp_wire::PointerReader;
use capnp_wire::error::Result;
use capnp_wire::message::Reader;
use std::alloc::Global;

/// The 64 bit number at `offset`, in units of 8 bytes, of the struct that a path of pointer fields leads to from
/// `root`. A null on the way is a struct of size zero, so a path that leaves what is there ends at 0.
///
/// Refused as the first `get_struct` of the path that is refused: the structs of the path, the last one too, take a
/// level each.
pub fn get_by_path(root: PointerReader<'_>, path: &[u16], offset: u32) -> Result<u64>
    ensures { number_read result ≡ path_number path.now offset (tree_of root.entry) (levels_of root.entry) }
{
    let mut reader = root;
    for index in path {
        reader = reader.get_struct()?.get_pointer_field(*index);
    }
    Ok(reader.get_struct()?.get_data_field::<u64>(offset))
}

/// The text that a path of pointer fields leads to from `root`, without the zero that ends it.
///
/// Refused as the first read of the path that is refused; the text itself takes no level.
pub fn get_text_by_path<'a>(root: PointerReader<'a>, path: &[u16]) -> Result<&'a [u8]>
    ensures { bytes_read result ≡ path_text path.now (tree_of root.entry) (levels_of root.entry) }
{
    let mut reader = root;
    for field in path {
        reader = reader.get_struct()?.get_pointer_field(*field);
    }
    reader.get_text()
}

/// What `get_by_path` reads from the root of the first message in these bytes. Refused as the message is, and then as
/// `get_by_path`.
pub fn read_by_path(alloc: Global, bytes: &[u8], path: &[u16], offset: u32) -> Result<u64>
    ensures { number_read result ≡ message_number path.now offset (message_tree_of bytes.now) }
{
    let message = Reader::new(alloc, bytes)?;
    get_by_path(message.get_root(), path, offset)
}
