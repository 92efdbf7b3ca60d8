//! Lists whose element types are known only at run time.
ghost use Rattle.capnp_schema.specs.Entries.{lists_seen};

use crate::dynamic_value;
use crate::elements::read_element;
use crate::printer::print_debug;
use capnp_base::introspect::Type;
use capnp_base::traits::{IndexMove, ListIter};
use capnp_schema::set::SchemaSet;
use capnp_wire::ListReader;
use capnp_wire::error::Result;
use std::fmt;

/// A list that is read: its elements, their type, and the set that the type is of.
///
/// # Example
///
/// ```rust
/// for element in list {
///     match element? {
///         dynamic_value::Reader::UInt16(number) => numbers.push(number)?,
///         _ => return Err(Error::type_mismatch()),
///     }
/// }
/// ```
#[derive(Clone, Copy)]
pub struct Reader<'a> {
    pub(crate) reader: ListReader<'a>,
    pub(crate) element_type: Type,
    schemas: &'a SchemaSet,
}

impl<'a> Reader<'a> {
    ghost use Rattle.std.specs.Prelude.{IfOk, IsTrue, ◌≡◌, ◌↔◌};
    ghost use Rattle.capnp_wire.specs.Standing.{list_of};
    ghost use Rattle.capnp_wire.specs.Reading.{list_length};
    ghost use Rattle.capnp_base.specs.IndexIter.{source, to_come};
    ghost use Rattle.capnp_base.specs.Taking.{indices};
    ghost use Rattle.capnp_schema.specs.Accepted.{NamesEntries};
    ghost use Rattle.capnp_dynamic_readers.specs.Handles.{element_of, list_reader_of, list_set, type_of};
    ghost use Rattle.capnp_dynamic_readers.specs.Reads.{element_seen};
    ghost use Rattle.capnp_dynamic_readers.specs.Seen.{answered_value};
    ghost use Rattle.capnp_dynamic_readers.specs.Typed.{IsOf, IsValueUnder};

    /// A reader of a list whose elements are of a type of the set.
    pub fn new(reader: ListReader<'a>, element_type: Type, schemas: &'a SchemaSet) -> Reader<'a>
        ensures reader { list_reader_of result ≡ reader.entry }
        ensures element { type_of result ≡ element_type }
        ensures set { list_set result ≡ lists_seen schemas.now }
    {
        Reader {
            reader,
            element_type,
            schemas,
        }
    }

    /// The list's elements, without their type.
    pub fn get_elements(self) -> ListReader<'a>
        ensures { result ≡ list_reader_of self.entry }
    {
        self.reader
    }

    /// How many elements there are, below 2^29.
    pub fn len(&self) -> u32
        ensures { result ≡ list_length (list_of (list_reader_of self.now)) }
    {
        self.reader.len()
    }

    /// Whether there is no element.
    pub fn is_empty(&self) -> bool
        ensures { IsTrue result ↔ (list_length (list_of (list_reader_of self.now)) ≡ 0) }
    {
        self.len() == 0
    }

    /// The type of the elements.
    pub fn element_type(&self) -> Type
        ensures { result ≡ type_of self.now }
    {
        self.element_type
    }

    /// The element at an index. A null text, data or list is empty, a null untyped pointer stays null. Past the end
    /// elements read as zero, false, null and a struct of size zero.
    ///
    /// A struct needs a level of the list and leaves one fewer, and so does a list behind a pointer; a pointer that is
    /// read out of a struct is entered through that. Refused with `TooDeep` where no level is left, and as the reads of
    /// the element's type: with the number of a pointer that can't be followed, `WrongPointerKind`, `WrongElementSize`
    /// or `TextNotTerminated`.
    pub fn get(self, index: u32) -> Result<dynamic_value::Reader<'a>>
        ensures value { answered_value result ≡ element_seen self.entry index }
        ensures under { IfOk result (IsValueUnder (list_set self.entry) (element_of self.entry)) }
        ensures typed { NamesEntries (list_set self.entry) (element_of self.entry)
            → IfOk result (IsOf (list_set self.entry) (element_of self.entry)) }
    {
        read_element(&self.reader, self.schemas, self.element_type.which(), index)
    }

    /// The elements from the first to the last, taken from both ends.
    pub fn iter(self) -> ListIter<Reader<'a>, Result<dynamic_value::Reader<'a>>>
        ensures source { source result ≡ self.entry }
        ensures to_come { to_come result ≡ indices 0 (list_length (list_of (list_reader_of self.entry))) }
    {
        ListIter::new(self, self.len())
    }
}

impl<'a> IndexMove<u32, Result<dynamic_value::Reader<'a>>> for Reader<'a> {
    ghost use Rattle.std.specs.Prelude.{IfOk, ◌≡◌};
    ghost use Rattle.capnp_wire.specs.Standing.{list_of};
    ghost use Rattle.capnp_wire.specs.Reading.{list_length};
    ghost use Rattle.capnp_schema.specs.Accepted.{NamesEntries};
    ghost use Rattle.capnp_dynamic_readers.specs.Handles.{element_of, list_reader_of, list_set};
    ghost use Rattle.capnp_dynamic_readers.specs.Reads.{element_seen};
    ghost use Rattle.capnp_dynamic_readers.specs.Seen.{answered_value};
    ghost use Rattle.capnp_dynamic_readers.specs.Typed.{IsOf};

    ghost count = { λ l. list_length (list_of (list_reader_of l)) };

    ghost answers = { λ l i x. (answered_value x ≡ element_seen l i)
        × (NamesEntries (list_set l) (element_of l) → IfOk x (IsOf (list_set l) (element_of l))) };

    fn index_move(&self, index: u32) -> Result<dynamic_value::Reader<'a>> {
        self.get(index)
    }
}

impl<'a> IntoIterator for Reader<'a> {
    ghost use Rattle.capnp_wire.specs.Standing.{list_of};
    ghost use Rattle.capnp_wire.specs.Reading.{list_length};
    ghost use Rattle.capnp_base.specs.IndexIter.{GoesOverAll};
    ghost use Rattle.capnp_dynamic_readers.specs.Handles.{list_reader_of};

    type Item = Result<dynamic_value::Reader<'a>>;

    type IntoIter = ListIter<Reader<'a>, Result<dynamic_value::Reader<'a>>>;

    ghost into_iter_gives = { λ l items. GoesOverAll l (list_length (list_of (list_reader_of l))) items };

    fn into_iter(self) -> ListIter<Reader<'a>, Result<dynamic_value::Reader<'a>>> {
        self.iter()
    }
}

impl fmt::Debug for Reader<'_> {
    /// The printed form of the list.
    fn fmt<W: fmt::Write>(&self, f: &mut fmt::Formatter<W>) -> fmt::Result {
        print_debug(dynamic_value::Reader::List(*self), f)
    }
}
