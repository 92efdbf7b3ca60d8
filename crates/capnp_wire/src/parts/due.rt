//! What is read as a struct, or as a list of elements of a size, and why else a call that writes refuses it.
ghost use Rattle.std.specs.Prelude.{None, ◌≡◌};
ghost use Rattle.capnp_wire.specs.Defaults.{list_refusal};
ghost use Rattle.capnp_wire.specs.Edits.{struct_refusal};
ghost use Rattle.capnp_wire.specs.Elements.{reads_list};
ghost use Rattle.capnp_wire.specs.Found.{found_tree};
ghost use Rattle.capnp_wire.specs.Reading.{reads_numbers, reads_structs};
ghost use Rattle.capnp_wire.specs.StructLists.{grown_size, struct_list_refusal};
ghost use Rattle.capnp_wire.specs.WellFormed.{IsWellFormed};

use crate::fault::refuse;
use crate::parts::found::{Found, count_list};
use crate::size::{ElementSize, StructSize};
use capnp_device::error::ErrorKind;

/// Why what was found is no struct, but for what can't be followed.
pub fn refuse_as_struct(found: Found<'_>) -> Option<ErrorKind>
    ensures { result ≡ struct_refusal (found_tree found.entry) }
{
    match found {
        Found::Null => None,
        Found::Bad(_) => None,
        Found::Struct(_) => None,
        _ => Some(ErrorKind::WrongPointerKind),
    }
}

/// Whether structs of a size are read as elements of the size that is asked.
pub fn reads_structs_as(asked: ElementSize, size: StructSize) -> bool
    ensures { result ≡ reads_structs asked size.data_words size.pointers }
{
    match asked {
        ElementSize::Void => true,
        ElementSize::Bit => false,
        ElementSize::Byte => 0 < size.data_words,
        ElementSize::TwoBytes => 0 < size.data_words,
        ElementSize::FourBytes => 0 < size.data_words,
        ElementSize::EightBytes => 0 < size.data_words,
        ElementSize::Pointer => 0 < size.pointers,
        ElementSize::InlineComposite => true,
    }
}

/// Whether numbers of so many bytes are.
pub fn reads_numbers_as(asked: ElementSize, width: u8) -> bool
    ensures { result ≡ reads_numbers asked width }
{
    match asked {
        ElementSize::Void => true,
        ElementSize::Bit => false,
        ElementSize::Byte => width == 1,
        ElementSize::TwoBytes => width == 2,
        ElementSize::FourBytes => width == 4,
        ElementSize::EightBytes => width == 8,
        ElementSize::Pointer => false,
        ElementSize::InlineComposite => true,
    }
}

/// Whether a list is read as one of elements of the size that is asked.
pub fn reads_list_as(asked: ElementSize, list: Found<'_>) -> bool
    ensures { result ≡ reads_list asked (found_tree list.entry) }
{
    match list {
        Found::Null => false,
        Found::Bad(_) => false,
        Found::Struct(_) => false,
        Found::Voids(_) => matches!(asked, ElementSize::Void | ElementSize::InlineComposite),
        Found::Bits(_, _) => matches!(asked, ElementSize::Void | ElementSize::Bit),
        Found::Numbers(width, _) => reads_numbers_as(asked, width),
        Found::Pointers(_) => matches!(
            asked,
            ElementSize::Void | ElementSize::Pointer | ElementSize::InlineComposite
        ),
        Found::Composite(size, _) => reads_structs_as(asked, size),
    }
}

/// Why what was found is not read as a list of elements of a size.
pub fn refuse_as_list(size: ElementSize, found: Found<'_>) -> Option<ErrorKind>
    ensures { result ≡ list_refusal size (found_tree found.entry) }
{
    match found {
        Found::Null => None,
        Found::Bad(fault) => Some(refuse(fault).kind),
        Found::Struct(_) => Some(ErrorKind::WrongPointerKind),
        list => {
            if reads_list_as(size, list) {
                None
            } else {
                Some(ErrorKind::WrongElementSize)
            }
        }
    }
}

/// At least a size, and what an element of a list takes as a struct.
pub fn grow(size: StructSize, list: Found<'_>) -> StructSize
    ensures { result ≡ grown_size size (found_tree list.entry) }
{
    let own = match list {
        Found::Numbers(_, _) => StructSize {
            data_words: 1,
            pointers: 0,
        },
        Found::Pointers(_) => StructSize {
            data_words: 0,
            pointers: 1,
        },
        Found::Composite(own, _) => own,
        _ => StructSize {
            data_words: 0,
            pointers: 0,
        },
    };
    StructSize {
        data_words: size.data_words.max(own.data_words),
        pointers: size.pointers.max(own.pointers),
    }
}

/// Why what was found does not become a list of structs of at least a size, but for what can't be followed.
///
/// # Conditions
///
/// What was found is well-formed (`IsWellFormed`).
pub fn refuse_as_structs(size: StructSize, found: Found<'_>) -> Option<ErrorKind>
    requires { IsWellFormed (found_tree found) }
    ensures { result ≡ struct_list_refusal size (found_tree found.entry) }
{
    match found {
        Found::Null => None,
        Found::Bad(_) => None,
        Found::Struct(_) => Some(ErrorKind::WrongPointerKind),
        Found::Bits(_, _) => Some(ErrorKind::WrongElementSize),
        list => {
            let count = count_list(list) as u32;
            if grow(size, list).is_past_format(count) {
                Some(ErrorKind::SizePastFormat)
            } else {
                None
            }
        }
    }
}
