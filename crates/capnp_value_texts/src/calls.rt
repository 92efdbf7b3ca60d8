//! The calls by which a text makes a value.
ghost use Rattle.std.specs.Prelude.{[], ◌≡◌, ◌≤◌, IfErr, IfOk, Ok, OnOk, length};
ghost use Rattle.capnp_schema.specs.Entries.{lists_seen};
ghost use Rattle.capnp_schema.specs.FieldLists.{index_of, typed_of};
ghost use Rattle.capnp_schema.specs.StructHandles.{number_of, set_of};
ghost use Rattle.capnp_schema.specs.Types.{seen_type};
ghost use Rattle.capnp_slots.specs.Fields.{field_set};
ghost use Rattle.capnp_call.specs.Seen.{step_seen};
ghost use Rattle.capnp_words.specs.Marked.{marked_value_by_word};
ghost use Rattle.capnp_words.specs.Seen.{word_value_seen, word_value_type};
ghost use Rattle.capnp_value_texts.specs.Calls.{InStruct, at_place, begun, counted, field_target as field_target_said, fields_calls, held_calls, items_calls, leaf_calls, most_parts, parts_calls, root_calls, value_calls, void_calls};
ghost use Rattle.capnp_value_texts.specs.Errors.{IsErrorOf, read_as};
ghost use Rattle.capnp_value_texts.specs.Made.{calls_made};
ghost use Rattle.capnp_value_texts.specs.Seen.{shown_view};
ghost use Rattle.capnp_value_texts.specs.Steps.Seen.{parts_view};
ghost use Rattle.capnp_value_texts.specs.Steps.Adding.{Adds, AddsRead, first_calls};
ghost use Rattle.capnp_value_texts.specs.Steps.Targets.{holder_seen, holder_set};
ghost use Rattle.capnp_value_texts.specs.TargetsSeen.{target_seen};
ghost use Rattle.capnp_value_texts.specs.declared.error.Error.TheVariants.{OutOfMemory};

use crate::error::{Error, RefusalKind, refused};
use crate::made::{Goal, Made, put_made};
use crate::parts::Name;
use crate::shown::Shown;
use crate::target::{Holder, Target, field_target, schemas_of, target_of};
use capnp_base::introspect::TypeVariant;
use capnp_call::calls::Step;
use capnp_schema::schema::{Field, StructSchema};
use capnp_schema::set::SchemaSet;
use capnp_words::marked::parse_marked_value;
use capnp_words::value::PlainValue;
use std::alloc::Global;

/// The most parts in brackets, which are the most elements of a list.
const MOST_PARTS: usize = 536_870_911;

/// The value that a leaf at a place is read as.
fn read_word<'s>(
    alloc: Global,
    schemas: &'s SchemaSet,
    target: Target<'s>,
    place: usize,
    word: &[u8],
) -> Result<PlainValue<'s>, Error>
    ensures read { IfOk result (λ v. at_place place (marked_value_by_word (lists_seen schemas.now) target.entry.floats
        (seen_type target.entry.of) word.now) ≡ Ok (word_value_seen v)) }
    ensures typed { IfOk result (λ v. word_value_type v ≡ seen_type target.entry.of) }
    ensures refused { IfErr result (IsErrorOf (at_place place (marked_value_by_word (lists_seen schemas.now)
        target.entry.floats (seen_type target.entry.of) word.now))) }
{
    let read = match parse_marked_value(alloc, schemas, target.of, target.floats, word) {
        Ok(read) => read,
        Err(_memory) => return Err(Error::OutOfMemory),
    };
    match read {
        Ok(value) => Ok(value),
        Err(inner) => Err(refused(RefusalKind::CannotStand, place.saturating_add(inner))),
    }
}

/// Adds the call of a leaf at a place.
fn make_leaf<'s>(
    alloc: Global,
    schemas: &'s SchemaSet,
    target: Target<'s>,
    place: usize,
    word: &[u8],
    path: &[Step<'s>],
    out: &mut Vec<Made<'s>>,
) -> Result<(), Error>
    ensures made { OnOk result (AddsRead path.now out.old.items out.new.items (leaf_calls (lists_seen schemas.now) place
        word.now (target_seen target.entry))) }
    ensures refused { IfErr result (IsErrorOf (leaf_calls (lists_seen schemas.now) place word.now
        (target_seen target.entry))) }
{
    match read_word(alloc, schemas, target, place, word) {
        Ok(value) => put_made(alloc, path, target.step, Goal::Put(value), out),
        Err(error) => Err(error),
    }
}

/// Adds the call of a void, which is brackets with nothing in them.
fn make_void<'s>(
    alloc: Global,
    target: Target<'s>,
    place: usize,
    count: usize,
    path: &[Step<'s>],
    out: &mut Vec<Made<'s>>,
) -> Result<(), Error>
    ensures made { OnOk result (AddsRead path.now out.old.items out.new.items (void_calls place count
        (target_seen target.entry))) }
    ensures refused { IfErr result (IsErrorOf (void_calls place count (target_seen target.entry))) }
{
    if count == 0 {
        return put_made(alloc, path, target.step, Goal::Put(PlainValue::Void), out);
    }
    Err(refused(RefusalKind::CannotStand, place))
}

/// Adds the call that begins what holds parts, where there is one.
fn begin<'s>(
    alloc: Global,
    step: Step<'s>,
    first: Option<Goal<'s>>,
    path: &[Step<'s>],
    out: &mut Vec<Made<'s>>,
) -> Result<(), Error>
    ensures made { OnOk result (Adds path.now out.old.items out.new.items (first_calls step.entry first.entry)) }
    ensures memory { IfErr result (λ e. e ≡ OutOfMemory) }
{
    match first {
        Some(goal) => put_made(alloc, path, step, goal, out),
        None => Ok(()),
    }
}

/// What begins a struct or group at a target.
fn struct_begun<'s>(target: Target<'s>) -> Option<Goal<'s>>
    ensures { first_calls target.entry.step result ≡ begun (target_seen target.entry) }
{
    if target.stands {
        None
    } else {
        Some(Goal::Init)
    }
}

/// Adds the calls of a value at a target.
#[cycle(make)]
fn make_value<'s>(
    alloc: Global,
    schemas: &'s SchemaSet,
    target: Target<'s>,
    shown: &Shown<'_>,
    path: &mut Vec<Step<'s>>,
    out: &mut Vec<Made<'s>>,
) -> Result<(), Error>
    ensures path { OnOk result (path.new.items ≡ path.old.items) }
    ensures made { OnOk result (AddsRead path.old.items out.old.items out.new.items (value_calls (lists_seen schemas.now)
        (shown_view shown.now) (target_seen target.entry))) }
    ensures refused { IfErr result (IsErrorOf (value_calls (lists_seen schemas.now) (shown_view shown.now)
        (target_seen target.entry))) }
{
    match shown {
        Shown::Leaf(place, word) => {
            make_leaf(alloc, schemas, target, *place, word, path.as_slice(), out)
        }
        Shown::Fields(place, parts) => {
            make_fields(alloc, schemas, target, *place, parts, path, out)
        }
        Shown::Items(place, parts) => make_items(alloc, schemas, target, *place, parts, path, out),
    }
}

/// Adds the calls of round brackets at a target: a struct, a group or a void.
#[cycle(make)]
#[tactic(auto, using(capnp_schema::specs::Facts::Layers::seen_which))]
fn make_fields<'s>(
    alloc: Global,
    schemas: &'s SchemaSet,
    target: Target<'s>,
    place: usize,
    parts: &Vec<(Name<'_>, Shown<'_>)>,
    path: &mut Vec<Step<'s>>,
    out: &mut Vec<Made<'s>>,
) -> Result<(), Error>
    ensures path { OnOk result (path.new.items ≡ path.old.items) }
    ensures made { OnOk result (AddsRead path.old.items out.old.items out.new.items (fields_calls place
        (length parts.now.items) (parts_calls (lists_seen schemas.now) (parts_view parts.now.items))
        (target_seen target.entry) (seen_type target.entry.of))) }
    ensures refused { IfErr result (IsErrorOf (fields_calls place (length parts.now.items)
        (parts_calls (lists_seen schemas.now) (parts_view parts.now.items)) (target_seen target.entry)
        (seen_type target.entry.of))) }
{
    match target.of.which() {
        TypeVariant::Void => make_void(alloc, target, place, parts.len(), path.as_slice(), out),
        TypeVariant::Struct(raw) => {
            let holder = Holder::Struct(schemas.struct_schema(raw.number));
            let first = struct_begun(target);
            make_held(alloc, target.step, first, holder, place, parts, path, out)
        }
        _ => Err(refused(RefusalKind::CannotStand, place)),
    }
}

/// Adds the calls of square brackets at a target: a list.
#[cycle(make)]
#[tactic(auto, using(capnp_schema::specs::Facts::Layers::seen_which))]
fn make_items<'s>(
    alloc: Global,
    schemas: &'s SchemaSet,
    target: Target<'s>,
    place: usize,
    parts: &Vec<(Name<'_>, Shown<'_>)>,
    path: &mut Vec<Step<'s>>,
    out: &mut Vec<Made<'s>>,
) -> Result<(), Error>
    ensures path { OnOk result (path.new.items ≡ path.old.items) }
    ensures made { OnOk result (AddsRead path.old.items out.old.items out.new.items (items_calls place
        (length parts.now.items) (parts_calls (lists_seen schemas.now) (parts_view parts.now.items))
        (target_seen target.entry) (seen_type target.entry.of))) }
    ensures refused { IfErr result (IsErrorOf (items_calls place (length parts.now.items)
        (parts_calls (lists_seen schemas.now) (parts_view parts.now.items)) (target_seen target.entry)
        (seen_type target.entry.of))) }
{
    match target.of.which() {
        TypeVariant::List(element) => {
            if parts.len() > MOST_PARTS {
                return Err(refused(RefusalKind::SizePastFormat, place));
            }
            let holder = Holder::List(schemas, element, target.floats);
            let first = Some(Goal::InitList(parts.len() as u32));
            make_held(alloc, target.step, first, holder, place, parts, path, out)
        }
        _ => Err(refused(RefusalKind::CannotStand, place)),
    }
}

/// Adds what begins a struct, group or list, and the calls of its parts behind a step.
#[cycle(make)]
fn make_held<'s>(
    alloc: Global,
    step: Step<'s>,
    first: Option<Goal<'s>>,
    holder: Holder<'s>,
    place: usize,
    parts: &Vec<(Name<'_>, Shown<'_>)>,
    path: &mut Vec<Step<'s>>,
    out: &mut Vec<Made<'s>>,
) -> Result<(), Error>
    ensures path { OnOk result (path.new.items ≡ path.old.items) }
    ensures made { OnOk result (AddsRead path.old.items out.old.items out.new.items (held_calls place
        (length parts.now.items) (step_seen step.entry) (first_calls step.entry first.entry)
        (parts_calls (holder_set holder.entry) (parts_view parts.now.items) (holder_seen holder.entry) 0 []))) }
    ensures refused { IfErr result (IsErrorOf (held_calls place (length parts.now.items) (step_seen step.entry)
        (first_calls step.entry first.entry)
        (parts_calls (holder_set holder.entry) (parts_view parts.now.items) (holder_seen holder.entry) 0 []))) }
{
    if parts.len() > MOST_PARTS {
        return Err(refused(RefusalKind::SizePastFormat, place));
    }
    match begin(alloc, step, first, path.as_slice(), out) {
        Ok(()) => {}
        Err(error) => return Err(error),
    }
    if path.push(step).is_err() {
        return Err(Error::OutOfMemory);
    }
    let made = make_parts(alloc, holder, parts, path, out);
    path.pop();
    made
}

/// Adds the calls of parts, one after another.
#[cycle(make)]
fn make_parts<'s>(
    alloc: Global,
    holder: Holder<'s>,
    parts: &Vec<(Name<'_>, Shown<'_>)>,
    path: &mut Vec<Step<'s>>,
    out: &mut Vec<Made<'s>>,
) -> Result<(), Error>
    requires count { length parts.now.items ≤ most_parts }
    ensures path { OnOk result (path.new.items ≡ path.old.items) }
    ensures made { OnOk result (AddsRead path.old.items out.old.items out.new.items
        (parts_calls (holder_set holder.entry) (parts_view parts.now.items) (holder_seen holder.entry) 0 [])) }
    ensures refused { IfErr result (IsErrorOf (parts_calls (holder_set holder.entry) (parts_view parts.now.items)
        (holder_seen holder.entry) 0 [])) }
{
    let schemas = schemas_of(holder);
    let mut given = Vec::new(alloc);
    for index in 0..parts.len() {
        let part = &parts[index];
        let target = match target_of(holder, index as u32, &part.0, &mut given) {
            Ok(target) => target,
            Err(error) => return Err(error),
        };
        match make_value(alloc, schemas, target, &part.1, path, out) {
            Ok(()) => {}
            Err(error) => return Err(error),
        }
    }
    Ok(())
}

/// The calls by which a text makes the value of a field, from the struct or group on that the field is of. It is one that
/// nothing was put into: a struct or group is begun and then has its fields put, a list is begun with its length.
///
/// A leaf is read as `capnp_words::marked::parse_marked_value` does it. A field is named by its own name.
///
/// Refused with `OutOfMemory`; and for the first part, in the text's order, that is refused: with `NameUnknown` and
/// `GivenTwice` at a name, with `SizePastFormat` at a bracket, and with `CannotStand` at a byte of a leaf that can't stand
/// there, at a bracket that the type doesn't take, and at what stands for an untyped pointer.
pub fn field_calls<'s>(
    alloc: Global,
    field: Field<'s>,
    shown: &Shown<'_>,
) -> Result<Vec<Made<'s>>, Error>
    ensures calls { IfOk result (λ made. value_calls (field_set field.entry) (shown_view shown.now)
        (field_target_said (typed_of field.entry) (index_of field.entry)) ≡ Ok (calls_made made.items)) }
    ensures refused { IfErr result (IsErrorOf (value_calls (field_set field.entry) (shown_view shown.now)
        (field_target_said (typed_of field.entry) (index_of field.entry)))) }
{
    let mut path = Vec::new(alloc);
    let mut made = Vec::new(alloc);
    let schemas = field.get_containing_struct().get_set();
    match make_value(
        alloc,
        schemas,
        field_target(field),
        shown,
        &mut path,
        &mut made,
    ) {
        Ok(()) => Ok(made),
        Err(error) => Err(error),
    }
}

/// The calls by which a text makes a root of a schema, one that nothing was put into: those of its fields.
///
/// Refused with `CannotStand` at what are no round brackets, and else as `field_calls`.
pub fn root_calls<'s>(
    alloc: Global,
    schema: StructSchema<'s>,
    shown: &Shown<'_>,
) -> Result<Vec<Made<'s>>, Error>
    ensures calls { IfOk result (λ made. root_calls (set_of schema.entry) (number_of schema.entry) (shown_view shown.now)
        ≡ Ok (calls_made made.items)) }
    ensures refused { IfErr result (IsErrorOf (root_calls (set_of schema.entry) (number_of schema.entry)
        (shown_view shown.now))) }
{
    match shown {
        Shown::Fields(place, parts) => root_fields(alloc, schema, *place, parts),
        Shown::Leaf(place, _) | Shown::Items(place, _) => {
            Err(refused(RefusalKind::CannotStand, *place))
        }
    }
}

/// The calls of the fields of a root.
fn root_fields<'s>(
    alloc: Global,
    schema: StructSchema<'s>,
    place: usize,
    parts: &Vec<(Name<'_>, Shown<'_>)>,
) -> Result<Vec<Made<'s>>, Error>
    ensures calls { IfOk result (λ made. counted place (length parts.now.items) (parts_calls (set_of schema.entry)
        (parts_view parts.now.items) (InStruct (number_of schema.entry)) 0 []) ≡ Ok (calls_made made.items)) }
    ensures refused { IfErr result (IsErrorOf (counted place (length parts.now.items) (parts_calls (set_of schema.entry)
        (parts_view parts.now.items) (InStruct (number_of schema.entry)) 0 []))) }
{
    if parts.len() > MOST_PARTS {
        return Err(refused(RefusalKind::SizePastFormat, place));
    }
    let mut path = Vec::new(alloc);
    let mut made = Vec::new(alloc);
    match make_parts(alloc, Holder::Struct(schema), parts, &mut path, &mut made) {
        Ok(()) => Ok(made),
        Err(error) => Err(error),
    }
}
