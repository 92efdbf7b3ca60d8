//! Elements of a list, and the bytes of data and of a text, wherever they lie.
ghost use Rattle.std.specs.Prelude.{◌≡◌};
ghost use Rattle.capnp_wire.specs.Found.{found_tree};
ghost use Rattle.capnp_wire.specs.Reading.{as_data, as_text, element_bit, element_number};
ghost use Rattle.capnp_wire.specs.Standing.{bytes_read};

use crate::fault::refuse;
use crate::parts::block::get_element;
use crate::parts::bytes::get_bit;
use crate::parts::found::Found;
use crate::primitive::PrimitiveElement;
use capnp_device::error::{Error, ErrorKind, Result};

/// The bit of a list at `index`; false where the elements are no bits.
#[inline(always)]
pub fn bit_at(list: Found<'_>, index: u32) -> bool
    ensures { result ≡ element_bit (found_tree list.entry) index }
{
    match list {
        Found::Bits(bytes, count) => index < count && get_bit(bytes, index as usize),
        _ => false,
    }
}

/// The number of a list at `index`: of a struct, that at its start.
#[inline(always)]
pub fn number_at<T: PrimitiveElement>(list: Found<'_>, index: u32) -> T
    ensures { result ≡ T.of_number (element_number T.width (found_tree list.entry) index) }
{
    match list {
        Found::Numbers(_, bytes) => T::read(bytes, index),
        Found::Composite(size, elements) => T::read(
            get_element(size, elements, index as usize).data,
            0,
        ),
        _ => T::read(&[], 0),
    }
}

/// The bytes of what is read as data, none for a null.
///
/// Refused as `get_data`.
#[inline(always)]
pub fn data_of(found: Found<'_>) -> Result<&[u8]>
    ensures { bytes_read result ≡ as_data (found_tree found.entry) }
{
    match found {
        Found::Null => Ok(&[]),
        Found::Bad(fault) => Err(refuse(fault)),
        Found::Struct(_) => Err(Error::from(ErrorKind::WrongPointerKind)),
        Found::Numbers(width, bytes) => {
            if width == 1 {
                Ok(bytes)
            } else {
                Err(Error::from(ErrorKind::WrongElementSize))
            }
        }
        _ => Err(Error::from(ErrorKind::WrongElementSize)),
    }
}

/// The bytes of what is read as a text, without the zero that ends it; none for a null.
///
/// Refused as `get_text`.
#[inline(always)]
pub fn text_of(found: Found<'_>) -> Result<&[u8]>
    ensures { bytes_read result ≡ as_text (found_tree found.entry) }
{
    match found {
        Found::Null => Ok(&[]),
        Found::Bad(fault) => Err(refuse(fault)),
        Found::Struct(_) => Err(Error::from(ErrorKind::WrongPointerKind)),
        Found::Numbers(width, bytes) => {
            if width != 1 {
                return Err(Error::from(ErrorKind::WrongElementSize));
            }
            if bytes.is_empty() || bytes[bytes.len() - 1] != 0 {
                return Err(Error::from(ErrorKind::TextNotTerminated));
            }
            Ok(&bytes[..bytes.len() - 1])
        }
        _ => Err(Error::from(ErrorKind::WrongElementSize)),
    }
}
