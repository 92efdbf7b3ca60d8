//! Calls and edits that words say, under a struct of a set.
ghost use Rattle.std.specs.Prelude.{[], ◌≡◌, ◌∷◌, ◌+◌, ◌<◌, IfErr, IfOk, IfSome, true, length, map};
ghost use Rattle.std.specs.Option.{option_map, option_and_then};
ghost use Rattle.capnp_device.specs.declared.error.ErrorKind.TheVariants.{OutOfMemory};
ghost use Rattle.capnp_schema.specs.Accepted.{NamesEntries};
ghost use Rattle.capnp_schema.specs.Entries.{lists_seen};
ghost use Rattle.capnp_schema.specs.Schema.{Schemas};
ghost use Rattle.capnp_schema.specs.StructHandles.{IsStruct, number_of, set_of};
ghost use Rattle.capnp_schema.specs.Types.{seen_type};
ghost use Rattle.capnp_records.specs.Run.{root_type};
ghost use Rattle.capnp_slots.specs.SetValues.{source_of};
ghost use Rattle.capnp_call.specs.Seen.{call_seen, op_seen, path_seen, step_seen};
ghost use Rattle.capnp_edit_calls.specs.ActsSeen.{CallAct, EditAct, act_seen};
ghost use Rattle.capnp_edit_calls.specs.ChangesSeen.{change_seen, sources_of};
ghost use Rattle.capnp_words.specs.Calls.{call_at};
ghost use Rattle.capnp_words.specs.Reads.{read_as};
ghost use Rattle.capnp_words.specs.Seen as said;
ghost use Rattle.capnp_words.specs.Targets.{type_along};
ghost use Rattle.riftcalico_core.specs.Calls.{IsCallRead, IsSourceGiven, IsSourceRead, element_of, from_of, given_spot, given_type, member_asked, plain_read, split};
ghost use Rattle.riftcalico_core.specs.CallsSeen.{all_seen, given_source, given_value_source, read_act_seen};
ghost use Rattle.capnp_json_messages.specs.Ones.{is_whole};
ghost use Rattle.riftcalico_core.specs.JsonValues.{IsWholeGiven};
ghost use Rattle.riftcalico_core.specs.LastFields.{spot_along};
ghost use Rattle.riftcalico_core.specs.ShownValues.{IsGivenBy, IsShownGiven, shown_fault};
ghost use Rattle.riftcalico_core.specs.Reads.{AreRead, each_word_read};
ghost use Rattle.riftcalico_core.specs.SpotsSeen.{IsSpotOf, spot_seen};
ghost use Rattle.riftcalico_core.specs.Steps.Spots.{IsSpotAt};

use crate::json_values::{WholeValue, is_whole, read_whole};
use crate::last_field::{Spot, find_spot, go_within};
use crate::shown_values::{ShownValue, find_shown_fault, read_shown};
use crate::words::word_at;
use capnp_base::introspect::{Type, TypeVariant};
use capnp_call::calls::{Call, Op, Step};
use capnp_dynamic_readers::dynamic_value::Reader as Value;
use capnp_edit_calls::acts::Act;
use capnp_edit_calls::change::Change;
use capnp_edit_calls::copy::PathCopy;
use capnp_edit_calls::edit::ListEdit;
use capnp_queries::floats::has_floats_at;
use capnp_schema::schema::StructSchema;
use capnp_schema::set::SchemaSet;
use capnp_wire::error::Result;
use capnp_words::call::{CallWord, WordOp, parse_call};
use capnp_words::marked::parse_marked_value;
use capnp_words::path::{Path, PathStep};
use capnp_words::target::target_type;
use capnp_words::value::PlainValue;
use std::alloc::Global;

/// Where words can't be read: in which of them, from 0 on, and the place of its first byte that can't stand there.
#[derive(Clone, Copy, Debug, PartialEq, Eq)]
pub struct Unreadable {
    pub index: usize,
    pub place: u128,
}

/// What words are read as, or where they can't be.
pub type Read<T> = std::result::Result<T, Unreadable>;

/// What a call or an edit is given.
#[derive(Drop)]
pub enum GivenValue<'s> {
    /// A value that has a word.
    Plain(PlainValue<'s>),
    /// A struct or list, of a JSON text.
    Whole(WholeValue<'s>),
    /// One of a printed text.
    Shown(ShownValue<'s>),
}

/// A call or an edit that was read under a schema: what its word says, the steps of its path, the value that it is given, and
/// the steps of the path of what it copies.
#[derive(Drop)]
pub struct ReadCall<'s, 'c> {
    pub word: &'c CallWord,
    pub steps: Vec<Step<'c>>,
    pub value: GivenValue<'s>,
    pub from: Vec<Step<'c>>,
}

/// The calls and edits that words say, or the first word that says none. Refused with `OutOfMemory` alone.
pub fn read_calls(alloc: Global, words: &[&str]) -> Result<Read<Vec<CallWord>>>
    ensures read { IfOk result (λ r. all_seen said.call_text_seen r ≡ each_word_read call_at 0 (map (λ w. w.now) words.now)) }
    ensures count { IfOk result (λ r. IfOk r (λ calls. length calls.items ≡ length words.now)) }
    ensures inside { IfOk result (λ r. IfErr r (λ at. at.index < length words.now)) }
    ensures memory { IfErr result (λ e. e.kind ≡ OutOfMemory) }
{
    let mut calls = Vec::new(alloc);
    for index in 0..words.len() {
        match parse_call(alloc, word_at(words, index))? {
            Ok(call) => calls.push(call)?,
            Err(place) => {
                let place = place as u128;
                return Ok(Err(Unreadable { index, place }));
            }
        }
    }
    Ok(Ok(calls))
}

/// The type of the elements of a list.
#[tactic(auto, using(capnp_schema::specs::Facts::Layers::seen_which))]
fn find_element_type(list: Type) -> Option<Type>
    ensures is { option_map seen_type result ≡ element_of (seen_type list) }
    ensures named { (set : Schemas) → NamesEntries set (seen_type list)
        → IfSome result (λ t. NamesEntries set (seen_type t)) }
{
    match list.which() {
        TypeVariant::List(element) => Some(element),
        _ => None,
    }
}

/// The type of the elements of the list at the end of a path under a schema.
fn find_element_along(schema: StructSchema<'_>, path: &Path) -> Option<Type>
    requires { IsStruct schema }
    ensures is { option_map seen_type result ≡ option_and_then element_of (type_along (set_of schema.entry)
        (root_type (set_of schema.entry) (number_of schema.entry)) (said.path_text_seen path.now)) }
    ensures named { IfSome result (λ t. NamesEntries (set_of schema.entry) (seen_type t)) }
{
    find_element_type(target_type(schema, path)?)
}

/// The type that the value of a call or an edit is read under: that of what its path leads to, or of an append and an
/// insertion that of the elements there. None where the path leads to nothing.
pub(crate) fn find_given_type(schema: StructSchema<'_>, call: &CallWord) -> Option<Type>
    requires { IsStruct schema }
    ensures is { option_map seen_type result ≡ given_type (said.op_text_seen call.now.op) (type_along (set_of schema.entry)
        (root_type (set_of schema.entry) (number_of schema.entry)) (said.path_text_seen call.now.path)) }
    ensures named { IfSome result (λ t. NamesEntries (set_of schema.entry) (seen_type t)) }
{
    match &call.op {
        WordOp::Append(_, _) | WordOp::Insert(_, _, _) => find_element_along(schema, &call.path),
        WordOp::Get
        | WordOp::Has
        | WordOp::Which
        | WordOp::Set(_, _)
        | WordOp::Init
        | WordOp::Initn(_)
        | WordOp::Clear
        | WordOp::Remove(_)
        | WordOp::Resize(_)
        | WordOp::Copy(_) => target_type(schema, &call.path),
    }
}

/// The spot of what a call or an edit is given: where a set's path leads, or of an append and an insertion an element there.
fn find_given_spot<'s>(schema: StructSchema<'s>, call: &CallWord) -> Option<Spot<'s>>
    requires { IsStruct schema }
    ensures is { option_map spot_seen result ≡ given_spot (said.op_text_seen call.now.op) (spot_along (set_of schema.entry)
        (root_type (set_of schema.entry) (number_of schema.entry)) (said.path_text_seen call.now.path)) }
    ensures typed { IfSome result (IsSpotAt (set_of schema.entry) (given_type (said.op_text_seen call.now.op)
        (type_along (set_of schema.entry) (root_type (set_of schema.entry) (number_of schema.entry))
        (said.path_text_seen call.now.path)))) }
{
    match &call.op {
        WordOp::Set(_, _) => find_spot(schema, &call.path),
        WordOp::Append(_, _) | WordOp::Insert(_, _, _) => {
            go_within(find_spot(schema, &call.path))
        }
        WordOp::Get
        | WordOp::Has
        | WordOp::Which
        | WordOp::Init
        | WordOp::Initn(_)
        | WordOp::Clear
        | WordOp::Remove(_)
        | WordOp::Resize(_)
        | WordOp::Copy(_) => None,
    }
}

/// A struct or a list by its JSON text, or the place in its word where it can't be read. Refused with `OutOfMemory` alone.
fn read_json_value<'s>(
    alloc: Global,
    schemas: &'s SchemaSet,
    target: Type,
    floats: bool,
    value: &[u8],
    place: usize,
) -> Result<std::result::Result<GivenValue<'s>, u128>>
    requires entries { NamesEntries (lists_seen schemas.now) (seen_type target) }
    requires whole { is_whole (seen_type target) ≡ true }
    ensures read { IfOk result (λ r. IsWholeGiven (lists_seen schemas.now) floats (seen_type target) value.now place
        (read_as given_value_source r)) }
    ensures memory { IfErr result (λ e. e.kind ≡ OutOfMemory) }
{
    match read_whole(alloc, schemas, target, floats, value)? {
        Ok(whole) => Ok(Ok(GivenValue::Whole(whole))),
        Err(inner) => Ok(Err(place as u128 + inner as u128)),
    }
}

/// A struct or a list by its printed text, or the place in its word where neither that nor JSON, which ends at a fault, goes on.
/// Refused with `OutOfMemory` alone.
fn read_printed_value<'s>(
    alloc: Global,
    schemas: &'s SchemaSet,
    target: Type,
    spot: Option<Spot<'s>>,
    value: &[u8],
    fault: usize,
    place: usize,
) -> Result<std::result::Result<GivenValue<'s>, u128>>
    requires entries { NamesEntries (lists_seen schemas.now) (seen_type target) }
    requires typed { IfSome spot (IsSpotOf (lists_seen schemas.now) (seen_type target)) }
    ensures read { IfOk result (λ r. IsShownGiven (lists_seen schemas.now) (option_map spot_seen spot.entry)
        (seen_type target) value.now fault place (read_as given_value_source r)) }
    ensures memory { IfErr result (λ e. e.kind ≡ OutOfMemory) }
{
    match read_shown(alloc, schemas, target, spot, value)? {
        Ok(shown) => Ok(Ok(GivenValue::Shown(shown))),
        Err(inner) => Ok(Err(place as u128 + fault.max(inner) as u128)),
    }
}

/// A struct or a list by its text, or the place in its word where it can't be read. A text that begins with `(` or `[` and is
/// no JSON is a printed one; any other is JSON. Refused with `OutOfMemory` alone.
fn read_whole_value<'s>(
    alloc: Global,
    schemas: &'s SchemaSet,
    target: Type,
    spot: Option<Spot<'s>>,
    floats: bool,
    value: &[u8],
    place: usize,
) -> Result<std::result::Result<GivenValue<'s>, u128>>
    requires entries { NamesEntries (lists_seen schemas.now) (seen_type target) }
    requires typed { IfSome spot (IsSpotOf (lists_seen schemas.now) (seen_type target)) }
    requires whole { is_whole (seen_type target) ≡ true }
    ensures read { IfOk result (λ r. IsGivenBy (shown_fault value.now) (lists_seen schemas.now)
        (option_map spot_seen spot.entry) floats (seen_type target) value.now place (read_as given_value_source r)) }
    ensures memory { IfErr result (λ e. e.kind ≡ OutOfMemory) }
{
    match find_shown_fault(alloc, value)? {
        None => read_json_value(alloc, schemas, target, floats, value, place),
        Some(fault) => read_printed_value(alloc, schemas, target, spot, value, fault, place),
    }
}

/// A value that is no struct and no list, or the place in its word where it can't be read.
fn read_plain_value<'s>(
    alloc: Global,
    schemas: &'s SchemaSet,
    target: Type,
    floats: bool,
    value: &[u8],
    place: usize,
) -> Result<std::result::Result<GivenValue<'s>, u128>>
    ensures read { IfOk result (λ r. read_as given_value_source r
        ≡ plain_read (lists_seen schemas.now) floats (seen_type target) value.now place) }
    ensures memory { IfErr result (λ e. e.kind ≡ OutOfMemory) }
{
    match parse_marked_value(alloc, schemas, target, floats, value)? {
        Ok(value) => Ok(Ok(GivenValue::Plain(value))),
        Err(inner) => Ok(Err(place as u128 + inner as u128)),
    }
}

/// A value under its type, whose numbers are floats or not, or the place in its word where it can't be read. A void where
/// there is no type.
fn read_given_value<'s>(
    alloc: Global,
    schema: StructSchema<'s>,
    target: Option<Type>,
    spot: Option<Spot<'s>>,
    floats: bool,
    value: &[u8],
    place: usize,
) -> Result<std::result::Result<GivenValue<'s>, u128>>
    requires stands { IsStruct schema }
    requires entries { IfSome target (λ t. NamesEntries (set_of schema) (seen_type t)) }
    requires typed { IfSome spot (IsSpotAt (set_of schema) (option_map seen_type target)) }
    ensures read { IfOk result (λ r. IsSourceRead (set_of schema.entry) (option_map spot_seen spot.entry) floats (option_map seen_type target) value.now place
        (read_as given_value_source r)) }
    ensures memory { IfErr result (λ e. e.kind ≡ OutOfMemory) }
{
    let Some(target) = target else {
        return Ok(Ok(GivenValue::Plain(PlainValue::Void)));
    };
    let schemas = schema.get_set();
    if is_whole(target.which()) {
        return read_whole_value(alloc, schemas, target, spot, floats, value, place);
    }
    read_plain_value(alloc, schemas, target, floats, value, place)
}

/// The value that a call or an edit is given under a type, or the place in its word where that can't be read. A void where
/// it has none, or where its path leads to no type: it is refused for its path then. Refused with `OutOfMemory` alone.
fn read_value<'s>(
    alloc: Global,
    schema: StructSchema<'s>,
    op: &WordOp,
    target: Option<Type>,
    spot: Option<Spot<'s>>,
    floats: bool,
) -> Result<std::result::Result<GivenValue<'s>, u128>>
    requires stands { IsStruct schema }
    requires entries { IfSome target (λ t. NamesEntries (set_of schema) (seen_type t)) }
    requires typed { IfSome spot (IsSpotAt (set_of schema) (option_map seen_type target)) }
    ensures read { IfOk result (λ r. IsSourceGiven (set_of schema.entry) (option_map spot_seen spot.entry) floats (option_map seen_type target)
        (said.op_text_seen op.now) (read_as given_value_source r)) }
    ensures memory { IfErr result (λ e. e.kind ≡ OutOfMemory) }
{
    match op {
        WordOp::Set(value, place)
        | WordOp::Append(value, place)
        | WordOp::Insert(_, value, place) => {
            read_given_value(alloc, schema, target, spot, floats, value, *place)
        }
        WordOp::Get
        | WordOp::Has
        | WordOp::Which
        | WordOp::Init
        | WordOp::Initn(_)
        | WordOp::Clear
        | WordOp::Remove(_)
        | WordOp::Resize(_)
        | WordOp::Copy(_) => Ok(Ok(GivenValue::Plain(PlainValue::Void))),
    }
}

/// A step as calls have it.
fn step_of(step: &PathStep) -> Step<'_>
    ensures { step_seen result ≡ said.step_text_seen step.now }
{
    match step {
        PathStep::Named(name) => Step::Named(name.as_str()),
        PathStep::Field(index) => Step::Field(*index),
        PathStep::Element(index) => Step::Element(*index),
    }
}

/// The steps of a path as calls have them. Refused with `OutOfMemory` alone.
pub fn steps_of(alloc: Global, path: &Path) -> Result<Vec<Step<'_>>>
    ensures steps { IfOk result (λ steps. path_seen steps.items ≡ said.path_text_seen path.now) }
    ensures memory { IfErr result (λ e. e.kind ≡ OutOfMemory) }
{
    let mut steps = Vec::with_capacity(alloc, path.steps.len())?;
    for step in path.steps.as_slice() {
        steps.push(step_of(step))?;
    }
    Ok(steps)
}

/// The steps of the path of what is copied. Refused with `OutOfMemory` alone.
fn steps_from(alloc: Global, op: &WordOp) -> Result<Vec<Step<'_>>>
    ensures steps { IfOk result (λ steps. path_seen steps.items ≡ from_of (said.op_text_seen op.now)) }
    ensures memory { IfErr result (λ e. e.kind ≡ OutOfMemory) }
{
    match op {
        WordOp::Copy(from) => steps_of(alloc, from),
        WordOp::Get
        | WordOp::Has
        | WordOp::Which
        | WordOp::Set(_, _)
        | WordOp::Init
        | WordOp::Initn(_)
        | WordOp::Clear
        | WordOp::Append(_, _)
        | WordOp::Insert(_, _, _)
        | WordOp::Remove(_)
        | WordOp::Resize(_) => Ok(Vec::new(alloc)),
    }
}

/// A call or an edit with its value and its steps, or the place in its word where the value can't be read. Refused with
/// `OutOfMemory` alone.
fn read_call<'s, 'c>(
    alloc: Global,
    schema: StructSchema<'s>,
    word: &'c CallWord,
) -> Result<std::result::Result<ReadCall<'s, 'c>, u128>>
    requires { IsStruct schema }
    ensures read { IfOk result (λ r. IsCallRead (set_of schema.entry) (root_type (set_of schema.entry) (number_of schema.entry))
        (said.call_text_seen word.now) (read_as read_act_seen r)) }
    ensures memory { IfErr result (λ e. e.kind ≡ OutOfMemory) }
{
    let steps = steps_of(alloc, &word.path)?;
    let from = steps_from(alloc, &word.op)?;
    let floats = has_floats_at(schema, steps.as_slice());
    let target = find_given_type(schema, word);
    let spot = find_given_spot(schema, word);
    match read_value(alloc, schema, &word.op, target, spot, floats)? {
        Ok(value) => Ok(Ok(ReadCall {
            word,
            steps,
            value,
            from,
        })),
        Err(place) => Ok(Err(place)),
    }
}

/// Calls and edits with their values and their steps under a schema, or the first whose value can't be read. Refused with
/// `OutOfMemory` alone.
///
/// # Conditions
///
/// The schema is one of an accepted set (`IsStruct`).
pub fn read_all_calls<'s, 'c>(
    alloc: Global,
    schema: StructSchema<'s>,
    words: &'c [CallWord],
) -> Result<Read<Vec<ReadCall<'s, 'c>>>>
    requires { IsStruct schema }
    ensures read { IfOk result (λ r. AreRead (IsCallRead (set_of schema.entry) (root_type (set_of schema.entry)
        (number_of schema.entry))) 0 (map said.call_text_seen words.now) (all_seen read_act_seen r)) }
    ensures inside { IfOk result (λ r. IfErr r (λ at. at.index < length words.now)) }
    ensures memory { IfErr result (λ e. e.kind ≡ OutOfMemory) }
{
    let mut calls = Vec::new(alloc);
    for index in 0..words.len() {
        match read_call(alloc, schema, &words[index])? {
            Ok(call) => calls.push(call)?,
            Err(place) => return Ok(Err(Unreadable { index, place })),
        }
    }
    Ok(Ok(calls))
}

/// A value as a call is given it.
#[tactic(auto, using(crate::proofs::PlainGiven::plain_given))]
fn value_of<'c>(value: &'c GivenValue<'_>) -> Result<Value<'c>>
    ensures source { IfOk result (λ v. source_of v ≡ given_value_source value.now) }
    ensures memory { IfErr result (λ e. e.kind ≡ OutOfMemory) }
{
    match value {
        GivenValue::Plain(plain) => Ok(plain.as_reader()),
        GivenValue::Whole(whole) => whole.as_reader(),
        GivenValue::Shown(shown) => shown.as_reader(),
    }
}

/// The value of each call and edit, as it is given. Refused with `OutOfMemory` alone.
pub fn make_values<'a>(alloc: Global, read: &'a [ReadCall<'_, '_>]) -> Result<Vec<Value<'a>>>
    ensures values { IfOk result (λ values. sources_of values.items ≡ map given_source read.now) }
    ensures memory { IfErr result (λ e. e.kind ≡ OutOfMemory) }
{
    let mut values = Vec::with_capacity(alloc, read.len())?;
    for call in read {
        values.push(value_of(&call.value)?)?;
    }
    Ok(values)
}

/// A call along these steps, the last of which is what the operation is done to.
fn split_call<'a>(op: Op<'a>, steps: &'a [Step<'_>]) -> Act<'a>
    ensures { act_seen result ≡ CallAct (split (path_seen steps.now) (op_seen op.entry)) }
{
    match steps.split_last() {
        Some((last, path)) => Act::Call(Call {
            path,
            last: *last,
            op,
        }),
        None => Act::Call(Call {
            path: steps,
            last: Step::Field(0),
            op,
        }),
    }
}

/// The call that asks the struct that all these steps lead to for its member.
pub(crate) fn ask_member<'a>(path: &'a [Step<'a>]) -> Call<'a>
    ensures { call_seen result ≡ member_asked (path_seen path.now) }
{
    Call {
        path,
        last: Step::Field(0),
        op: Op::Which,
    }
}

/// An edit of the list that these steps lead to.
fn edit_along<'a>(path: &'a [Step<'a>], change: Change<'a>) -> Act<'a>
    ensures { act_seen result ≡ EditAct (path_seen path.now) (change_seen change.entry) }
{
    Act::Edit(ListEdit { path, change })
}

/// A call or an edit that was read, as it is made with its value.
fn make_act<'a>(read: &'a ReadCall<'_, '_>, values: &'a [Value<'a>]) -> Act<'a>
    requires { sources_of values.now ≡ given_source read.now ∷ [] }
    ensures { act_seen result ≡ read_act_seen read.now }
{
    let path = read.steps.as_slice();
    match &read.word.op {
        WordOp::Get => split_call(Op::Get, path),
        WordOp::Has => split_call(Op::Has, path),
        WordOp::Which => Act::Call(ask_member(path)),
        WordOp::Set(_, _) => split_call(Op::Set(values[0]), path),
        WordOp::Init => split_call(Op::Init, path),
        WordOp::Initn(size) => split_call(Op::Initn(*size), path),
        WordOp::Clear => split_call(Op::Clear, path),
        WordOp::Append(_, _) => edit_along(path, Change::Append(values)),
        WordOp::Insert(index, _, _) => edit_along(path, Change::Insert(*index, values[0])),
        WordOp::Remove(index) => edit_along(path, Change::Remove(*index)),
        WordOp::Resize(count) => edit_along(path, Change::Resize(*count)),
        WordOp::Copy(_) => Act::Copy(PathCopy {
            path,
            from: read.from.as_slice(),
        }),
    }
}

/// Calls and edits that were read, as they are made, each with its value. Refused with `OutOfMemory` alone.
pub fn make_acts<'a>(
    alloc: Global,
    read: &'a [ReadCall<'_, '_>],
    values: &'a [Value<'a>],
) -> Result<Vec<Act<'a>>>
    requires { sources_of values.now ≡ map given_source read.now }
    ensures acts { IfOk result (λ acts. map act_seen acts.items ≡ map read_act_seen read.now) }
    ensures memory { IfErr result (λ e. e.kind ≡ OutOfMemory) }
{
    let mut acts = Vec::with_capacity(alloc, read.len())?;
    for index in 0..read.len() {
        acts.push(make_act(&read[index], &values[index..index + 1]))?;
    }
    Ok(acts)
}
