//! Whole messages, as they are received.
ghost use Rattle.capnp_wire.specs.Backing.{segment_list};
ghost use Rattle.capnp_wire.specs.Depth.{message_levels};
ghost use Rattle.capnp_wire.specs.WellFormed.{AreSegments};
ghost use Rattle.capnp_wire.specs.Steps.WellFormed.{AreSegments_prop};

use crate::parts::bytes::{half_at, part};
use crate::parts::pointer::{MESSAGE_LEVELS, get_root_pointer};
use crate::parts::segments::{Segments, count_words, get_header_bytes};
use crate::pointer_reader::PointerReader;
use capnp_device::error::{Error, ErrorKind, Result};
use std::alloc::Global;

/// A message in the bytes of a stream. They are not copied.
///
/// # Example
///
/// ```rust
/// let message = Reader::new(alloc, bytes)?;
/// let root = message.get_root().get_struct()?;
/// ```
#[derive(Clone, Copy)]
pub struct Reader<'a> {
    segments: Segments<'a>,
    ghost bytes_alone: { AreSegments (segment_list segments) } by { AreSegments_prop (segment_list segments) },
}

impl<'a> Reader<'a> {
    ghost use Rattle.std.specs.Prelude.{◌≡◌};
    ghost use Rattle.capnp_wire.specs.Stream.{message_tree_of};
    ghost use Rattle.capnp_wire.specs.Standing.{levels_of, tree_of};
    ghost use Rattle.capnp_wire.specs.Message.{message_read, received_tree};

    /// Reads the table of the first message in these bytes; what follows the message is not looked at. No memory is
    /// taken, and the message's objects are looked at only when they are asked for.
    ///
    /// Refused with `Truncated` where the bytes end within the table's first number, with `TooManySegments` where that
    /// says more than 512 segments, and then with `Truncated` where they end within the table, its padding or a segment
    /// (encoding, "Serialization Over a Stream").
    #[tactic(auto, unfolding(crate::specs::Message::received_tree))]
    pub fn new(_alloc: Global, bytes: &'a [u8]) -> Result<Reader<'a>>
        ensures { message_read result ≡ message_tree_of bytes.now }
    {
        if bytes.len() < 4 {
            return Err(Error::from(ErrorKind::Truncated));
        }
        let count = half_at(bytes, 0) as usize + 1;
        if count > 512 {
            return Err(Error::from(ErrorKind::TooManySegments));
        }
        let header = get_header_bytes(count);
        if bytes.len() < header {
            return Err(Error::from(ErrorKind::Truncated));
        }
        let table = part(bytes, 4, 4 * count);
        if bytes.len() < header + 8 * count_words(table, table.len() / 4) {
            return Err(Error::from(ErrorKind::Truncated));
        }
        Ok(Reader {
            segments: Segments {
                bytes,
                is_stream: true,
            },
        })
    }

    /// The message's root pointer, with 64 levels.
    #[tactic(auto, unfolding(crate::specs::Message::received_tree))]
    pub fn get_root(&self) -> PointerReader<'a>
        ensures tree { tree_of result ≡ received_tree self.now }
        ensures levels { levels_of result ≡ message_levels }
    {
        PointerReader::new(get_root_pointer(self.segments), MESSAGE_LEVELS)
    }
}
