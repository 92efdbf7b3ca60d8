//! What is told of replies to calls and edits: of a marked number its float, and of a field that isn't there also the struct that was asked,
//! and names that may have been meant.
ghost use Rattle.std.specs.Prelude.{[], ◌<◌, ◌^◌, ◌≡◌, IfErr, IfOk, OnOk, None, Some, get_or, map, slice_get, string_bytes};
ghost use Rattle.std.specs.Option.{option_map};
ghost use Rattle.capnp_call.specs.Seen.{call_seen, path_seen, step_seen};
ghost use Rattle.capnp_device.specs.declared.error.ErrorKind.TheVariants.{OutOfMemory};
ghost use Rattle.capnp_records.specs.Run.{root_type};
ghost use Rattle.capnp_schema.specs.Entries.{lists_seen};
ghost use Rattle.capnp_schema.specs.StructHandles.{IsStruct, number_of, set_of};
ghost use Rattle.capnp_schema.specs.Types.{seen_type, seen_variant};
ghost use Rattle.capnp_words.specs.Targets.{type_behind};
ghost use Rattle.capnp_edit_calls.specs.ActsSeen.{act_seen};
ghost use Rattle.riftcalico_core.specs.Replies.{AreNoted, IsFloatTold, IsMarkedTold, IsNoted, asked_call, asked_calls, asked_first, asked_note, asks_float, call_along, kind_note, note_of, types_along};
ghost use Rattle.riftcalico_core.specs.Room.{reply_told};
ghost use Rattle.riftcalico_core.specs.Steps.RepliesSeen.{along_seen};

use crate::calls::ask_member;
use crate::note::put_within;
use capnp_base::introspect::{Type, TypeVariant};
use capnp_call::calls::{Call, Op, Plain, Reply, Step};
use capnp_edit_calls::acts::Act;
use capnp_edit_calls::copy::PathCopy;
use capnp_floats::text::float_text;
use capnp_floats::width::Width;
use capnp_patch::lines::{put_answer, put_line};
use capnp_queries::floats::has_floats_behind;
use capnp_schema::schema::StructSchema;
use capnp_schema::set::SchemaSet;
use capnp_wire::error::{ErrorKind, Result};
use capnp_words::target::{find_field_type, find_named_type};
use std::alloc::Global;

/// What is asked, by its type, and the step that it doesn't have.
pub(crate) type Unknown<'c> = (Type, Step<'c>);

/// The type of what a step names at a type of the set. None where it fits nothing there.
pub(crate) fn find_type_behind(
    schemas: &SchemaSet,
    kind: TypeVariant,
    step: Step<'_>,
) -> Option<Type>
    ensures { option_map seen_type result
        ≡ type_behind (lists_seen schemas.now) (seen_variant kind) (step_seen step.entry) }
{
    match kind {
        TypeVariant::Struct(raw) => match step {
            Step::Named(name) => find_named_type(schemas.struct_schema(raw.number), name),
            Step::Field(index) => find_field_type(schemas.struct_schema(raw.number), index),
            Step::Element(_) => None,
        },
        TypeVariant::List(element) => match step {
            Step::Element(_) => Some(element),
            Step::Named(_) | Step::Field(_) => None,
        },
        _ => None,
    }
}

/// The type behind a step, or that which it doesn't fit.
#[tactic(auto, using(capnp_schema::specs::Facts::Layers::seen_which))]
fn go_on<'c>(
    schemas: &SchemaSet,
    target: Type,
    step: Step<'c>,
) -> std::result::Result<Type, Unknown<'c>>
    ensures next { IfOk result (λ next. type_behind (lists_seen schemas.now) (seen_type target) (step_seen step.entry)
        ≡ Some (seen_type next)) }
    ensures unknown { IfErr result (λ x. type_behind (lists_seen schemas.now) (seen_type target) (step_seen step.entry)
        ≡ None) }
    ensures asked { IfErr result (λ x. seen_type x.0 ≡ seen_type target) }
    ensures step { IfErr result (λ x. step_seen x.1 ≡ step_seen step.entry) }
{
    match find_type_behind(schemas, target.which(), step) {
        Some(next) => Ok(next),
        None => Err((target, step)),
    }
}

/// The type at the end of a path, or the first step that fits nothing.
pub(crate) fn walk_types<'c>(
    schemas: &SchemaSet,
    start: Type,
    path: &[Step<'c>],
) -> std::result::Result<Type, Unknown<'c>>
    ensures { along_seen result ≡ types_along (lists_seen schemas.now) (seen_type start) (path_seen path.now) }
{
    let mut target = start;
    for step in path {
        match go_on(schemas, target, *step) {
            Ok(next) => target = next,
            Err(unknown) => return Err(unknown),
        }
    }
    Ok(target)
}

/// The type at the end of a call, or the first step that fits nothing.
fn walk_call<'c>(
    schema: StructSchema<'_>,
    call: &Call<'c>,
) -> std::result::Result<Type, Unknown<'c>>
    requires { IsStruct schema }
    ensures { along_seen result
        ≡ call_along (set_of schema.entry) (root_type (set_of schema.entry) (number_of schema.entry)) (call_seen call.now) }
{
    let schemas = schema.get_set();
    let root = Type::from(TypeVariant::Struct(schema.into()));
    match walk_types(schemas, root, call.path) {
        Ok(target) => match call.op {
            Op::Which => Ok(target),
            _ => go_on(schemas, target, call.last),
        },
        Err(unknown) => Err(unknown),
    }
}

/// The struct of a type that is asked for a field which it has not, and what may have been meant. Refused with
/// `OutOfMemory` alone.
#[tactic(auto, using(capnp_schema::specs::Facts::Layers::seen_which))]
fn get_asked_note(
    alloc: Global,
    schemas: &SchemaSet,
    target: Type,
    step: Step<'_>,
) -> Result<String>
    ensures note { IfOk result (λ note. string_bytes note
        ≡ asked_note (lists_seen schemas.now) (seen_type target) (step_seen step.entry)) }
    ensures memory { IfErr result (λ e. e.kind ≡ OutOfMemory) }
{
    let mut note = String::new(alloc);
    if let TypeVariant::Struct(raw) = target.which() {
        put_within(
            &mut note,
            Some(schemas.struct_schema(raw.number)),
            ErrorKind::FieldNotFound,
            step,
        )?;
    }
    Ok(note)
}

/// What tells more of a refusal of a call. Refused with `OutOfMemory` alone.
fn get_kind_note(
    alloc: Global,
    schema: StructSchema<'_>,
    call: &Call<'_>,
    kind: ErrorKind,
) -> Result<String>
    requires { IsStruct schema }
    ensures note { IfOk result (λ note. string_bytes note
        ≡ kind_note (set_of schema.entry) (number_of schema.entry) (call_seen call.now) kind) }
    ensures memory { IfErr result (λ e. e.kind ≡ OutOfMemory) }
{
    match kind {
        ErrorKind::FieldNotFound => match walk_call(schema, call) {
            Ok(_) => Ok(String::new(alloc)),
            Err((target, step)) => get_asked_note(alloc, schema.get_set(), target, step),
        },
        _ => Ok(String::new(alloc)),
    }
}

/// What tells more of a reply to a call, if it is one. Refused with `OutOfMemory` alone.
fn get_reply_note(
    alloc: Global,
    schema: StructSchema<'_>,
    call: Option<Call<'_>>,
    reply: &Reply,
) -> Result<String>
    requires { IsStruct schema }
    ensures note { IfOk result (λ note. string_bytes note ≡ note_of (set_of schema.entry) (number_of schema.entry)
        (option_map call_seen call.entry) reply.now) }
    ensures memory { IfErr result (λ e. e.kind ≡ OutOfMemory) }
{
    match (call, reply) {
        (Some(call), Reply::Refused(kind)) => get_kind_note(alloc, schema, &call, *kind),
        _ => Ok(String::new(alloc)),
    }
}

/// The word of the call at an index, empty where none is given.
fn word_at<'a>(words: &[&'a str], index: usize) -> &'a str
    ensures { result.now ≡ get_or (map (λ w. w.now) words.now) index [] }
{
    match words.get(index) {
        Some(word) => *word,
        None => "",
    }
}

/// What a copy asks: the path that is read, where the schema doesn't have it, and else the one that is set.
fn ask_copy<'c>(schema: StructSchema<'_>, copy: &PathCopy<'c>) -> Call<'c>
    requires { IsStruct schema }
    ensures { call_seen result ≡ asked_first (path_seen copy.now.from.now) (path_seen copy.now.path.now)
        (types_along (set_of schema.entry) (root_type (set_of schema.entry) (number_of schema.entry))
        (path_seen copy.now.from.now)) }
{
    let root = Type::from(TypeVariant::Struct(schema.into()));
    match walk_types(schema.get_set(), root, copy.from) {
        Ok(_) => ask_member(copy.path),
        Err(_) => ask_member(copy.from),
    }
}

/// What an act asks.
fn ask_act<'c>(schema: StructSchema<'_>, act: &Act<'c>) -> Call<'c>
    requires { IsStruct schema }
    ensures { call_seen result ≡ asked_call (set_of schema.entry) (number_of schema.entry) (act_seen act.now) }
{
    match act {
        Act::Call(call) => *call,
        Act::Edit(edit) => ask_member(edit.path),
        Act::Copy(copy) => ask_copy(schema, copy),
    }
}

/// What the act at an index asks.
fn asked_at<'c>(schema: StructSchema<'_>, acts: &[Act<'c>], index: usize) -> Option<Call<'c>>
    requires { IsStruct schema }
    ensures { option_map call_seen result ≡ slice_get (asked_calls (set_of schema.entry) (number_of schema.entry)
        (map act_seen acts.now)) index }
{
    match acts.get(index) {
        Some(act) => Some(ask_act(schema, act)),
        None => None,
    }
}

/// Whether the number that a call asks for, if there is one, is a float.
fn asks_float(schema: StructSchema<'_>, call: Option<Call<'_>>) -> bool
    requires { IsStruct schema }
    ensures { result ≡ asks_float (set_of schema.entry) (number_of schema.entry) (option_map call_seen call.entry) }
{
    match call {
        Some(call) => has_floats_behind(schema, call.path, call.last),
        None => false,
    }
}

/// Appends the line of a float by its bits. Refused with `OutOfMemory` alone.
fn put_float_line(
    lines: &mut String,
    number: u64,
    word: &str,
    width: Width,
    bits: u64,
) -> Result<()>
    ensures put { OnOk result (IsFloatTold number word.now width bits (string_bytes lines.old) (string_bytes lines.new)) }
    ensures memory { IfErr result (λ e. e.kind ≡ OutOfMemory) }
{
    let text = float_text(*lines.allocator(), width, bits)?;
    put_answer(lines, number, word, text.as_str())
}

/// Appends the line of a reply, whose number is a float or not. Refused with `OutOfMemory` alone.
fn put_marked(
    lines: &mut String,
    number: u64,
    word: &str,
    note: &str,
    floats: bool,
    reply: &Reply,
) -> Result<()>
    ensures put { OnOk result (IsMarkedTold floats number word.now note.now reply.now
        (string_bytes lines.old) (string_bytes lines.new)) }
    ensures memory { IfErr result (λ e. e.kind ≡ OutOfMemory) }
{
    match (floats, reply) {
        (true, Reply::Value(Plain::UInt32(bits))) => {
            put_float_line(lines, number, word, Width::Float32, *bits as u64)
        }
        (true, Reply::Value(Plain::UInt64(bits))) => {
            put_float_line(lines, number, word, Width::Float64, *bits)
        }
        _ => put_line(lines, number, word, note, reply),
    }
}

/// Appends the line of a reply to the call of a number, with its word and what tells more; a number as a float where it is one,
/// and a refusal for want of memory as one for the limit, where that is the cause. Refused with `OutOfMemory` alone.
fn put_reply(
    lines: &mut String,
    number: u64,
    word: &str,
    note: &str,
    floats: bool,
    by_limit: bool,
    reply: &Reply,
) -> Result<()>
    ensures put { OnOk result (IsMarkedTold floats number word.now note.now (reply_told by_limit reply.now)
        (string_bytes lines.old) (string_bytes lines.new)) }
    ensures memory { IfErr result (λ e. e.kind ≡ OutOfMemory) }
{
    match (by_limit, reply) {
        (true, Reply::Refused(ErrorKind::OutOfMemory)) => {
            let refused = Reply::Refused(ErrorKind::TooLarge);
            put_marked(lines, number, word, note, floats, &refused)
        }
        _ => put_marked(lines, number, word, note, floats, reply),
    }
}

/// Appends the line of a reply to the act of an index, with what tells more; of something done none. Refused with
/// `OutOfMemory` alone.
fn tell_reply(
    lines: &mut String,
    schema: StructSchema<'_>,
    words: &[&str],
    acts: &[Act<'_>],
    by_limit: bool,
    index: usize,
    reply: &Reply,
) -> Result<()>
    requires stands { IsStruct schema }
    requires few { index < 2 ^ 63 }
    ensures told { OnOk result (IsNoted (set_of schema.entry) (number_of schema.entry) by_limit index
        (map (λ w. w.now) words.now) (asked_calls (set_of schema.entry) (number_of schema.entry)
        (map act_seen acts.now)) reply.now (string_bytes lines.old) (string_bytes lines.new)) }
    ensures memory { IfErr result (λ e. e.kind ≡ OutOfMemory) }
{
    if let Reply::Done = reply {
        return Ok(());
    }
    let call = asked_at(schema, acts, index);
    let note = get_reply_note(*lines.allocator(), schema, call, reply)?;
    let floats = asks_float(schema, call);
    put_reply(
        lines,
        index as u64 + 1,
        word_at(words, index),
        note.as_str(),
        floats,
        by_limit,
        reply,
    )?;
    Ok(())
}

/// A line for each reply that answers or refuses, in order: the number of its call, from 1 on, the call's word, and the answer
/// or the refusal's number, name and note; numbers of marked fields as floats. A call that no word is given for is told with an empty one. Where the limit is the
/// cause of refusals for want of memory, they are told so. Refused with `OutOfMemory` alone.
pub(crate) fn get_noted_lines(
    alloc: Global,
    schema: StructSchema<'_>,
    words: &[&str],
    acts: &[Act<'_>],
    by_limit: bool,
    replies: &[Reply],
) -> Result<String>
    requires { IsStruct schema }
    ensures lines { IfOk result (λ lines. AreNoted (set_of schema.entry) (number_of schema.entry) by_limit 0
        (map (λ w. w.now) words.now) (asked_calls (set_of schema.entry) (number_of schema.entry) (map act_seen acts.now))
        replies.now [] (string_bytes lines)) }
    ensures memory { IfErr result (λ e. e.kind ≡ OutOfMemory) }
{
    let mut lines = String::new(alloc);
    for index in 0..replies.len() {
        tell_reply(
            &mut lines,
            schema,
            words,
            acts,
            by_limit,
            index,
            &replies[index],
        )?;
    }
    Ok(lines)
}
