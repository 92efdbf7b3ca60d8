//! Structs and lists that words give as JSON texts, each in a message of its own.
ghost use Rattle.std.specs.Prelude.{true, ◌&&◌, ◌≡◌, ◌≤◌, IfErr, IfOk, IsOk};
ghost use Rattle.capnp_device.specs.declared.error.ErrorKind.TheVariants.{OutOfMemory};
ghost use Rattle.capnp_wire.specs.Depth.{message_levels};
ghost use Rattle.capnp_schema.specs.Accepted.{NamesEntries};
ghost use Rattle.capnp_schema.specs.Entries.{lists_seen};
ghost use Rattle.capnp_schema.specs.Types.{seen_type, seen_variant};
ghost use Rattle.capnp_json_fields.specs.Marks.{has_float_base};
ghost use Rattle.capnp_slots.specs.SetValues.{source_of};
ghost use Rattle.capnp_json_messages.specs.Ones.{is_whole};
ghost use Rattle.capnp_json_messages.specs.Rows.{IsRow, row_set, row_type};
ghost use Rattle.riftcalico_core.specs.Steps.JsonValues.{IsRefusedAt};
ghost use Rattle.riftcalico_core.specs.JsonValues.{IsWholeRead, IsWholeUnread, begin, begins_whole, is_opening, openings, whole_source};

use capnp_arena::arena::Arena;
use capnp_base::introspect::{Type, TypeVariant};
use capnp_dynamic_readers::dynamic_value::Reader as Value;
use capnp_from_json::error::Error as TextError;
use capnp_json_messages::laws::rules_are_there;
use capnp_json_messages::one::get_one;
use capnp_json_messages::row::Row;
use capnp_json_messages::value::read_one;
use capnp_json_text::laws::values_stand_in_steps;
use capnp_json_text::rest::skip_blanks;
use capnp_schema::set::SchemaSet;
use capnp_wire::error::{Error, ErrorKind, Result};
use std::alloc::Global;
use std::marker::Model;

/// A struct or a list: the one element of a list, in a message of its own that can be read whole.
#[derive(Drop)]
pub struct WholeValue<'s> {
    list: Arena,
    schemas: &'s SchemaSet,
    element: Type,
}

impl<'s> Model for WholeValue<'s> {
    ghost use Rattle.capnp_arena.specs.declared.arena.Arena.{Arena};
    ghost use Rattle.capnp_base.specs.declared.introspect.«Type».{«Type» as TypeHandle};

    ghost Value = { Arena × TypeHandle };

    ghost use Rattle.capnp_wire.specs.Depth.{IsShallow};
    ghost use Rattle.capnp_arena.specs.Message.{IsMessage, message_tree};
    ghost use Rattle.capnp_schema.specs.Types.{seen_type};
    ghost use Rattle.capnp_json_messages.specs.Ones.{IsReadable};

    ghost view = { λ w. (w.list, w.element) };

    ghost invariant = { λ w. IsMessage w.list × IsShallow (message_tree w.list)
        × IsReadable (seen_type w.element) (message_tree w.list) };
}

impl WholeValue<'_> {
    /// The value, as a call is given it. Nothing is refused.
    pub fn as_reader(&self) -> Result<Value<'_>>
        ensures source { IfOk result (λ v. source_of v ≡ whole_source self.now) }
        ensures read { IsOk result }
    {
        get_one(&self.list, self.schemas, self.element)
    }
}

/// Whether values of a type are given as JSON texts: structs and lists.
pub fn is_whole(of: TypeVariant) -> bool
    ensures { result ≡ is_whole (seen_variant of) }
{
    matches!(of, TypeVariant::Struct(_) | TypeVariant::List(_))
}

/// Whether a byte begins an object or an array.
fn is_opening(byte: u8) -> bool
    ensures { result ≡ is_opening byte }
{
    byte == b'{' || byte == b'['
}

/// Whether an object or an array begins.
fn begins_whole(text: &[u8]) -> bool
    ensures { result ≡ begins_whole text.now }
{
    let [first, ..] = text else {
        return false;
    };
    is_opening(*first)
}

/// How many bytes may begin an object or an array.
fn count_openings(text: &[u8]) -> usize
    ensures { result ≡ openings text.now }
{
    let mut count = 0;
    for byte in text {
        if is_opening(*byte) {
            count += 1;
        }
    }
    count
}

/// Whether a type, inside its lists, is one by which floats stand.
fn has_float_base(of: Type) -> bool
    ensures { result ≡ has_float_base (seen_type of) }
{
    match of.innermost() {
        TypeVariant::UInt32 => true,
        TypeVariant::UInt64 => true,
        _ => false,
    }
}

/// What a list of one holds, whose numbers are floats where the type is one by which floats stand.
fn make_row(schemas: &SchemaSet, element: Type, is_float: bool) -> Row<'_>
    requires entries { NamesEntries (lists_seen schemas.now) (seen_type element) }
    ensures row { IsRow result }
    ensures set { row_set result ≡ lists_seen schemas.now }
    ensures element { row_type result ≡ seen_type element }
    ensures floats { result.is_float ≡ (is_float && has_float_base (seen_type element)) }
{
    let is_float = is_float && has_float_base(element);
    Row {
        schemas,
        element,
        is_float,
    }
}

/// The place of a text's first byte that can't stand there. Refused with `OutOfMemory` alone.
fn place_of(error: TextError) -> Result<usize>
    ensures place { IfOk result (IsRefusedAt error) }
    ensures memory { IfErr result (λ e. e.kind ≡ OutOfMemory) }
{
    match error {
        TextError::Refused(refusal) => Ok(refusal.place),
        TextError::OutOfMemory => Err(Error::from(ErrorKind::OutOfMemory)),
        TextError::TooLarge => Err(Error::from(ErrorKind::OutOfMemory)),
    }
}

/// The place of a text whose list is too deep. Refused with `OutOfMemory` alone, where it has too few brackets for that.
fn place_too_deep(text: &[u8], first: usize) -> Result<usize>
    ensures place { IfOk result (λ place. place ≡ first) }
    ensures many { IfOk result (λ _. message_levels ≤ openings text.now) }
    ensures memory { IfErr result (λ e. e.kind ≡ OutOfMemory) }
{
    if count_openings(text) < 64 {
        return Err(Error::from(ErrorKind::OutOfMemory));
    }
    Ok(first)
}

/// The place of the first byte behind blanks.
pub(crate) fn find_begin(text: &[u8]) -> usize
    ensures { result ≡ begin text.now }
{
    text.len().saturating_sub(skip_blanks(text).len())
}

/// The struct or list of a type that a JSON text stands for, by names that the type has, whose numbers are floats or not; or the
/// place of its first byte that can't stand there. Null is none. Refused with `OutOfMemory` alone.
///
/// # Conditions
///
/// The type is one of structs or lists (`is_whole`) that names entries of the set (`NamesEntries`).
pub fn read_whole<'s>(
    alloc: Global,
    schemas: &'s SchemaSet,
    element: Type,
    is_float: bool,
    text: &[u8],
) -> Result<std::result::Result<WholeValue<'s>, usize>>
    requires entries { NamesEntries (lists_seen schemas.now) (seen_type element) }
    requires whole { is_whole (seen_type element) ≡ true }
    ensures read { IfOk result (λ r. IfOk r (λ w. IsWholeRead (lists_seen schemas.now) is_float (seen_type element) text.now
        (whole_source w))) }
    ensures unread { IfOk result (λ r. IfErr r (IsWholeUnread (lists_seen schemas.now) is_float (seen_type element) text.now)) }
    ensures memory { IfErr result (λ e. e.kind ≡ OutOfMemory) }
{
    let begin = find_begin(text);
    if !begins_whole(skip_blanks(text)) {
        return Ok(Err(begin));
    }
    let row = make_row(schemas, element, is_float);
    let list = match read_one(alloc, row, text, true) {
        Ok(list) => list,
        Err(error) => {
            let place = place_of(error)?;
            return Ok(Err(place));
        }
    };
    if !list.is_shallow() {
        let place = place_too_deep(text, begin)?;
        return Ok(Err(place));
    }
    rules_are_there();
    values_stand_in_steps();
    list.tree_is_sound(0);
    Ok(Ok(WholeValue {
        list,
        schemas,
        element,
    }))
}
