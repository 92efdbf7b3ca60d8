//! Texts and data, read where they stand.

use crate::append::get_part;
use crate::arena::Arena;
use crate::look::Target;
use capnp_device::error::{Error, ErrorKind, Result};
use capnp_wire::parts::elements::text_of;
use capnp_wire::parts::found::Found;

impl Arena {
    ghost use Rattle.std.specs.Prelude.{◌≡◌};
    ghost use Rattle.capnp_wire.specs.Reading.{as_data, as_text};
    ghost use Rattle.capnp_wire.specs.Standing.{bytes_read};
    ghost use Rattle.capnp_arena.specs.Forest.{Forest, tree};
    ghost use Rattle.capnp_arena.specs.Segment.{segment};

    /// The bytes of the list of bytes that the pointer at a word leads to, none for a null.
    ///
    /// Refused with `WrongPointerKind` for a struct, and with `WrongElementSize` for another list.
    ///
    /// # Conditions
    ///
    /// The pointer at the word leads to a tree of this message, no two of whose parts share a word (`Forest`).
    pub fn get_data(&self, at: usize) -> Result<&[u8]>
        requires { Forest (segment self.now) at }
        ensures { bytes_read result ≡ as_data (tree (segment self.now) at) }
    {
        match self.look(at) {
            Target::Null => Ok(&[]),
            Target::Struct { .. } => Err(Error::from(ErrorKind::WrongPointerKind)),
            Target::List {
                start,
                element_size,
                count,
            } => {
                if element_size != 2 {
                    return Err(Error::from(ErrorKind::WrongElementSize));
                }
                Ok(get_part(self.bytes.as_slice(), start, count as usize))
            }
            Target::Composite { .. } => Err(Error::from(ErrorKind::WrongElementSize)),
        }
    }

    /// The bytes of the text that the pointer at a word leads to, without the zero that ends it; none for a null.
    ///
    /// Refused as `get_data`, and with `TextNotTerminated` where the list is empty or its last byte is not zero.
    ///
    /// # Conditions
    ///
    /// The pointer at the word leads to a tree of this message, no two of whose parts share a word (`Forest`).
    pub fn get_text(&self, at: usize) -> Result<&[u8]>
        requires { Forest (segment self.now) at }
        ensures { bytes_read result ≡ as_text (tree (segment self.now) at) }
    {
        match self.look(at) {
            Target::Null => Ok(&[]),
            Target::Struct { .. } => Err(Error::from(ErrorKind::WrongPointerKind)),
            Target::List {
                start,
                element_size,
                count,
            } => {
                if element_size != 2 {
                    return Err(Error::from(ErrorKind::WrongElementSize));
                }
                let bytes = get_part(self.bytes.as_slice(), start, count as usize);
                text_of(Found::Numbers(1, bytes))
            }
            Target::Composite { .. } => Err(Error::from(ErrorKind::WrongElementSize)),
        }
    }
}
