//! Lists whose element types are known only at run time, as they are built.
ghost use Rattle.std.specs.Prelude.{◌==◌, ◌≡◌, ◌<◌, IfErr, IfOk, OnErr, OnOk};
ghost use Rattle.std.specs.Borrow.{sem};
ghost use Rattle.capnp_wire.specs.Depth.{IsBelow, memory_depth, message_levels};
ghost use Rattle.capnp_wire.specs.Locate.{words_past_format};
ghost use Rattle.capnp_wire.specs.Reading.{list_length};
ghost use Rattle.capnp_wire.specs.Standing.{list_levels, list_of};
ghost use Rattle.capnp_arena.specs.Forest.{Changes};
ghost use Rattle.capnp_arena.specs.Same.{IsCutOf};
ghost use Rattle.capnp_arena.specs.Segment.{segment};
ghost use Rattle.capnp_schema.specs.Entries.{lists_seen};
ghost use Rattle.capnp_records.specs.Given.{given_element};
ghost use Rattle.capnp_slots.specs.ElementSets.{IsElementInitRefusal, IsElementSet};
ghost use Rattle.capnp_slots.specs.SetValues.{source_of};
ghost use Rattle.capnp_slots.specs.Sources.{IsSetRefusal};
ghost use Rattle.capnp_dynamic_readers.specs.Handles.{list_reader_of, list_set, type_of};
ghost use Rattle.capnp_dynamic.specs.Built.{IsIn, IsListReady, built_element, built_elements, built_reading, built_set, built_type, list_behind, word_of};
ghost use Rattle.capnp_dynamic.specs.Steps.Built.{LendsList};
ghost use Rattle.capnp_dynamic.specs.BuiltValues.{CanBeRead};
ghost use Rattle.capnp_dynamic.specs.Handed.{HandsSized};
ghost use Rattle.capnp_dynamic.specs.Owners.{IsElementStarted};

use crate::dynamic_list::Reader;
use crate::dynamic_value;
use crate::handed::hand_out;
use crate::list_readers::read_list;
use capnp_arena::arena::Arena;
use capnp_arena::handles::PointerBuilder;
use capnp_base::introspect::Type;
use capnp_schema::set::SchemaSet;
use capnp_slots::element;
use capnp_slots::source::Source;
use capnp_wire::error::Result;

/// A list that is built: the message and the word of the list's pointer there, the type of its elements, and the set
/// that the type is of.
///
/// # Example
///
/// ```rust
/// if index >= list.len() {
///     return Err(Error::from(ErrorKind::NoSuchElement));
/// }
/// list.set(index, dynamic_value::Reader::from(number))
/// ```
#[derive(Drop)]
pub struct Builder<'a> {
    pub arena: &'a mut Arena,
    /// The word of the pointer that leads to the list.
    pub at: usize,
    pub element_type: Type,
    pub schemas: &'a SchemaSet,
}

impl<'a> Builder<'a> {
    /// A builder of a list whose elements are of a type of the set.
    pub(crate) fn new(
        builder: PointerBuilder<'a>,
        element_type: Type,
        schemas: &'a SchemaSet,
    ) -> Builder<'a>
        ensures behind { list_behind result ≡ builder.entry.arena }
        ensures at { word_of result ≡ builder.entry.at }
        ensures element { built_type result ≡ element_type }
        ensures set { built_set result ≡ lists_seen schemas.now }
    {
        let PointerBuilder { arena, at } = builder;
        Builder {
            arena,
            at,
            element_type,
            schemas,
        }
    }

    /// This list for a shorter time. What is left of it is what this builder has then.
    pub fn reborrow(&mut self) -> Builder<'_>
        ensures* lends { sem 𝓛 (LendsList self.entry result) }
        ensures element { built_type result ≡ built_type self.old }
        ensures set { built_set result ≡ built_set self.old }
        ensures at { word_of result ≡ word_of self.old }
        ensures now { (list_behind result).now ≡ (list_behind self.old).now }
    {
        let at = self.at;
        let element_type = self.element_type;
        let schemas = self.schemas;
        let arena = &mut *self.arena;
        Builder {
            arena,
            at,
            element_type,
            schemas,
        }
    }

    /// A reader of the list for as long as the builder would be there, with 64 levels. The list stays as it is; a null
    /// reads as an empty list. What it leads to is cut off past 129 levels, which only walks of a whole tree can see.
    ///
    /// # Conditions
    ///
    /// The list has elements of its type, and stands at its pointer (`IsListReady`).
    pub fn into_reader(self) -> Reader<'a>
        requires { IsListReady self }
        ensures cut { IsCutOf (list_of (list_reader_of result)) (built_reading self.entry) }
        ensures list { IsBelow memory_depth (built_elements self.entry)
            → list_of (list_reader_of result) ≡ built_reading self.entry }
        ensures levels { list_levels (list_reader_of result) ≡ message_levels }
        ensures element { type_of result ≡ built_type self.entry }
        ensures set { list_set result ≡ built_set self.entry }
    {
        let Builder {
            arena,
            at,
            element_type,
            schemas,
        } = self;
        let reader = read_list(&*arena, at, element_type.expected_element_size());
        Reader::new(reader, element_type, schemas)
    }

    /// How many elements there are, below 2^29.
    ///
    /// # Conditions
    ///
    /// The list has elements of its type, and stands at its pointer (`IsListReady`).
    pub fn len(&self) -> u32
        requires { IsListReady self.now }
        ensures length { result ≡ list_length (built_elements self.now) }
        ensures bound { result < words_past_format }
    {
        self.arena.tree_is_sound(self.at);
        self.arena.get_length(self.at)
    }

    /// Whether there is no element.
    ///
    /// # Conditions
    ///
    /// The list has elements of its type, and stands at its pointer (`IsListReady`).
    pub fn is_empty(&self) -> bool
        requires { IsListReady self.now }
        ensures { result ≡ (list_length (built_elements self.now) == 0) }
    {
        self.arena.get_length(self.at) == 0
    }

    /// The type of the elements.
    pub fn element_type(&self) -> Type
        ensures { result ≡ built_type self.now }
    {
        self.element_type
    }

    /// Sets an element: a void one takes every value, and else it takes a value, text, data or list of its kind, of
    /// which a copy is made, and a struct of its own schema, of which it keeps what fits its size, with zeros and nulls
    /// after that.
    ///
    /// Refused with `ListAnyPointerNotSupported` for an untyped element, and with `TypeMismatch` for a value of another
    /// kind and a struct of another schema; then with `BadPointer`, `TooDeep` or `CapabilityPointer` where a pointer in
    /// the value can't be followed, by the first of these in preorder, also where it would not fit; with
    /// `SizePastFormat` for a text of more than 2^29 - 2 bytes or data of more than 2^29 - 1; and with `OutOfMemory`.
    /// Then nothing has changed.
    ///
    /// # Conditions
    ///
    /// The list has elements of its type, and stands at its pointer (`IsListReady`). `index` is below the number of its
    /// elements (`IsIn`).
    #[tactic(auto, using(crate::proofs::ListElements::room_in, crate::proofs::ListElements::set_ready))]
    pub fn set(&mut self, index: u32, value: dynamic_value::Reader<'_>) -> Result<()>
        requires ready { IsListReady self.old }
        requires inside { IsIn index self.old }
        ensures same { (list_behind self.new).ghost_name ≡ (list_behind self.old).ghost_name }
        ensures element { built_type self.new ≡ built_type self.old }
        ensures lists { built_set self.new ≡ built_set self.old }
        ensures at { word_of self.new ≡ word_of self.old }
        ensures changes { OnOk result (Changes (word_of self.old) (segment (list_behind self.old).now)
            (segment (list_behind self.new).now)) }
        ensures set { OnOk result (IsElementSet (built_set self.old) (built_element self.old)
            (source_of value.entry) index (built_elements self.old)
            (built_elements self.new)) }
        ensures refused { OnErr result (segment (list_behind self.new).now ≡ segment (list_behind self.old).now) }
        ensures cause { IfErr result (λ e. IsSetRefusal
            (given_element (built_set self.old) (built_element self.old) (source_of value.entry)) e.kind) }
        ensures ready { IsListReady self.new }
    {
        let element_type = self.element_type;
        let schemas = self.schemas;
        self.arena.tree_is_sound(self.at);
        element::set(
            self.arena,
            self.at,
            schemas,
            element_type,
            index,
            Source::from(value),
        )
    }

    /// Starts an element anew with a size, and hands it out. It becomes a text or data of so many zero bytes, or a list
    /// of so many elements, all zero, false or null, or structs of their schema's sections.
    ///
    /// Refused with `ListAnyPointerNotSupported` for an untyped element and `ExpectedAListOrBlob` for another one that
    /// is no list, text or data; with `SizePastFormat` for a text of more than 2^29 - 2 bytes, data of more than 2^29 -
    /// 1, 2^29 elements or more, or structs that take 2^29 words or more; and with `OutOfMemory`. Then nothing has
    /// changed, as `element::init` says.
    ///
    /// # Conditions
    ///
    /// The list has elements of its type, and stands at its pointer (`IsListReady`). `index` is below the number of its
    /// elements (`IsIn`).
    pub fn init(self, index: u32, size: u32) -> Result<dynamic_value::Builder<'a>>
        requires ready { IsListReady self }
        requires inside { IsIn index self }
        ensures stands { IfOk result (HandsSized (built_set self.entry) (built_element self.entry) size) }
        ensures ready { IfOk result CanBeRead }
        ensures owner { IfOk result (IsElementStarted self.entry index size) }
        ensures cause { IfErr result (λ e. IsElementInitRefusal (built_set self.entry) size
            (built_element self.entry) e.kind) }
    {
        let Builder {
            arena,
            at,
            element_type,
            schemas,
        } = self;
        let variant = element_type.which();
        arena.tree_is_sound(at);
        element::init(arena, at, schemas, element_type, index, size)?;
        let at = arena.get_pointer_element(at, index);
        Ok(hand_out(PointerBuilder { arena, at }, schemas, variant, true))
    }
}
