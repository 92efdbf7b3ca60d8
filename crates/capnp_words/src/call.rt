//! Calls and edits as words.
ghost use Rattle.std.specs.Prelude.{◌≡◌, ◌+◌, ◌<◌, ◌≤◌, ◌^◌, length, IfErr, IfOk};
ghost use Rattle.std.specs.Str.{IsCharBoundary};
ghost use Rattle.capnp_device.specs.declared.error.ErrorKind.TheVariants.{OutOfMemory};
ghost use Rattle.capnp_words.specs.Reads.{read_as};
ghost use Rattle.capnp_words.specs.declared.call.Head.TheVariants as head;
ghost use Rattle.capnp_words.specs.Words.{begins_with_one};
ghost use Rattle.capnp_words.specs.Calls.{after_head, append_given, call_at, call_of, count_given, edit_heads, element_at, from_given, heads, indexed, insert_given, step_index, to_part, value_given, size_given, with_argument, with_element};
ghost use Rattle.capnp_words.specs.Steps.Calls.{element_seen, unfinished_call, unfinished_element};
ghost use Rattle.capnp_words.specs.Seen.{call_text_seen, op_text_seen, path_text_seen, step_text_seen};

use crate::numbers::read_decimal;
use crate::path::{Path, PathStep, Read, parse_path_at, parse_steps};
use crate::words::is_front;
use capnp_wire::error::Result;
use std::alloc::Global;

/// What a call does at the end of its path.
#[derive(Debug, Drop, PartialEq, Eq)]
pub enum WordOp {
    Get,
    Has,
    Which,
    /// Sets to the value of these bytes, which stand at this place in the call's word.
    Set(Vec<u8>, usize),
    Init,
    /// Makes a list, text or data of this size.
    Initn(u32),
    Clear,
    /// Puts the value of these bytes, which stand at this place in the word, behind the last element of a list.
    Append(Vec<u8>, usize),
    /// Puts one in front of the element of an index.
    Insert(u32, Vec<u8>, usize),
    /// Takes the element of an index out of a list.
    Remove(u32),
    /// Gives a list so many elements.
    Resize(u32),
    /// Puts a copy of what stands at the end of another path there.
    Copy(Path),
}

/// A call or an edit. The path of an edit is that of the list, without an index. It is empty only of `which`, `insert` and
/// `remove`.
#[derive(Debug, Drop, PartialEq, Eq)]
pub struct CallWord {
    pub path: Path,
    pub op: WordOp,
}

/// What a call's word begins with.
#[derive(Clone, Copy)]
enum Head {
    Set,
    Init,
    Initn,
    Clear,
    Get,
    Has,
    Which,
    Append,
    Insert,
    Remove,
    Resize,
    Copy,
}

/// What an edit's word begins with, and how many bytes that has, or the most bytes that it shares with one of these, or so
/// many. The word may be cut there.
fn parse_edit_head(word: &str, shared: usize) -> Read<(Head, usize)>
    ensures read { result ≡ begins_with_one edit_heads shared word.now }
    ensures inside { IfOk result (λ h. IsCharBoundary word.now h.1) }
{
    let bytes = word.as_bytes();
    let mut longest = shared;
    if is_front(b"append ", bytes, &mut longest) {
        return Ok((Head::Append, 7));
    }
    if is_front(b"insert ", bytes, &mut longest) {
        return Ok((Head::Insert, 7));
    }
    if is_front(b"remove ", bytes, &mut longest) {
        return Ok((Head::Remove, 7));
    }
    if is_front(b"resize ", bytes, &mut longest) {
        return Ok((Head::Resize, 7));
    }
    if is_front(b"copy ", bytes, &mut longest) {
        return Ok((Head::Copy, 5));
    }
    Err(longest)
}

/// What the word begins with, and how many bytes that has. The word may be cut there.
fn parse_head(word: &str) -> Read<(Head, usize)>
    ensures read { result ≡ begins_with_one heads 0 word.now }
    ensures inside { IfOk result (λ h. IsCharBoundary word.now h.1) }
{
    let bytes = word.as_bytes();
    let mut longest = 0;
    if is_front(b"set ", bytes, &mut longest) {
        return Ok((Head::Set, 4));
    }
    if is_front(b"init ", bytes, &mut longest) {
        return Ok((Head::Init, 5));
    }
    if is_front(b"initn ", bytes, &mut longest) {
        return Ok((Head::Initn, 6));
    }
    if is_front(b"clear ", bytes, &mut longest) {
        return Ok((Head::Clear, 6));
    }
    if is_front(b"get ", bytes, &mut longest) {
        return Ok((Head::Get, 4));
    }
    if is_front(b"has ", bytes, &mut longest) {
        return Ok((Head::Has, 4));
    }
    if is_front(b"which ", bytes, &mut longest) {
        return Ok((Head::Which, 6));
    }
    parse_edit_head(word, longest)
}

/// A call of a path alone, which is not empty.
fn parse_part(alloc: Global, op: WordOp, rest: &str, place: usize) -> Result<Read<CallWord>>
    requires { place + length rest.now < 2 ^ 64 }
    ensures read { IfOk result (λ r. read_as call_text_seen r ≡ to_part (op_text_seen op) place rest.now) }
    ensures memory { IfErr result (λ e. e.kind ≡ OutOfMemory) }
{
    match parse_steps(alloc, rest, place)? {
        Ok(path) => Ok(Ok(CallWord { path, op })),
        Err(fault) => Ok(Err(fault)),
    }
}

/// The active member of a struct, whose path may be empty.
fn parse_which(alloc: Global, rest: &str, place: usize) -> Result<Read<CallWord>>
    requires { place + length rest.now < 2 ^ 64 }
    ensures read { IfOk result (λ r. read_as call_text_seen r ≡ after_head head.Which place rest.now) }
    ensures memory { IfErr result (λ e. e.kind ≡ OutOfMemory) }
{
    match parse_path_at(alloc, rest, place)? {
        Ok(path) => Ok(Ok(CallWord {
            path,
            op: WordOp::Which,
        })),
        Err(fault) => Ok(Err(fault)),
    }
}

/// A path that is not empty, and after a space a value.
fn parse_set(alloc: Global, rest: &str, place: usize) -> Result<Read<CallWord>>
    requires { place + length rest.now < 2 ^ 64 }
    ensures read { IfOk result (λ r. read_as call_text_seen r ≡ with_argument value_given place rest.now) }
    ensures memory { IfErr result (λ e. e.kind ≡ OutOfMemory) }
{
    let Some((steps, value)) = rest.split_once(' ') else {
        return parse_unfinished(alloc, rest, place);
    };
    match parse_steps(alloc, steps, place)? {
        Ok(path) => {
            let bytes = value.as_bytes().to_vec(alloc)?;
            let op = WordOp::Set(bytes, place + steps.len() + 1);
            Ok(Ok(CallWord { path, op }))
        }
        Err(fault) => Ok(Err(fault)),
    }
}

/// A path that is not empty, and after a space a size.
fn parse_initn(alloc: Global, rest: &str, place: usize) -> Result<Read<CallWord>>
    requires { place + length rest.now < 2 ^ 64 }
    ensures read { IfOk result (λ r. read_as call_text_seen r ≡ with_argument size_given place rest.now) }
    ensures memory { IfErr result (λ e. e.kind ≡ OutOfMemory) }
{
    let Some((steps, size)) = rest.split_once(' ') else {
        return parse_unfinished(alloc, rest, place);
    };
    match parse_steps(alloc, steps, place)? {
        Ok(path) => Ok(parse_size(path, size.as_bytes(), place + steps.len() + 1)),
        Err(fault) => Ok(Err(fault)),
    }
}

/// A size, to the end of the word.
fn parse_size(path: Path, size: &[u8], place: usize) -> Read<CallWord>
    requires { place + length size.now < 2 ^ 64 }
    ensures { read_as call_text_seen result ≡ read_as (λ op. call_of op (path_text_seen path)) (size_given place size.now) }
{
    let count = read_decimal(size, place, u64::from(u32::MAX))?;
    let op = WordOp::Initn(count as u32);
    Ok(CallWord { path, op })
}

/// A path with no space behind it, where one has to stand: the path's fault, or the end of the word.
fn parse_unfinished(alloc: Global, rest: &str, place: usize) -> Result<Read<CallWord>>
    requires { place + length rest.now < 2 ^ 64 }
    ensures read { IfOk result (λ r. read_as call_text_seen r ≡ unfinished_call place rest.now) }
    ensures memory { IfErr result (λ e. e.kind ≡ OutOfMemory) }
{
    match parse_steps(alloc, rest, place)? {
        Ok(_) => Ok(Err(place + rest.len())),
        Err(fault) => Ok(Err(fault)),
    }
}

/// A path that is not empty, and after a space a value that is appended.
fn parse_append(alloc: Global, rest: &str, place: usize) -> Result<Read<CallWord>>
    requires { place + length rest.now < 2 ^ 64 }
    ensures read { IfOk result (λ r. read_as call_text_seen r ≡ with_argument append_given place rest.now) }
    ensures memory { IfErr result (λ e. e.kind ≡ OutOfMemory) }
{
    let Some((steps, value)) = rest.split_once(' ') else {
        return parse_unfinished(alloc, rest, place);
    };
    match parse_steps(alloc, steps, place)? {
        Ok(path) => {
            let bytes = value.as_bytes().to_vec(alloc)?;
            let op = WordOp::Append(bytes, place + steps.len() + 1);
            Ok(Ok(CallWord { path, op }))
        }
        Err(fault) => Ok(Err(fault)),
    }
}

/// The index that a step is, if it is one.
fn index_of(step: &PathStep) -> Option<u32>
    ensures { result ≡ step_index (step_text_seen step.now) }
{
    match step {
        PathStep::Element(index) => Some(*index),
        PathStep::Field(_) | PathStep::Named(_) => None,
    }
}

/// The path of a list and an index in it, of a path that ends at `end` in the word.
fn take_index(path: Path, end: usize) -> Read<(Path, u32)>
    ensures { read_as element_seen result ≡ indexed end (path_text_seen path) }
{
    let Path { mut steps } = path;
    let Some(last) = steps.pop() else {
        return Err(end);
    };
    match index_of(&last) {
        Some(index) => Ok((Path { steps }, index)),
        None => Err(end),
    }
}

/// The path of an element: that of its list, and its index.
fn parse_element(alloc: Global, steps: &str, place: usize) -> Result<Read<(Path, u32)>>
    requires { place + length steps.now < 2 ^ 64 }
    ensures read { IfOk result (λ r. read_as element_seen r ≡ element_at place steps.now) }
    ensures memory { IfErr result (λ e. e.kind ≡ OutOfMemory) }
{
    match parse_steps(alloc, steps, place)? {
        Ok(path) => Ok(take_index(path, place + steps.len())),
        Err(fault) => Ok(Err(fault)),
    }
}

/// The path of an element with no space behind it, where one has to stand: the path's fault, or the end of the word.
fn parse_unfinished_element(alloc: Global, rest: &str, place: usize) -> Result<Read<CallWord>>
    requires { place + length rest.now < 2 ^ 64 }
    ensures read { IfOk result (λ r. read_as call_text_seen r ≡ unfinished_element place rest.now) }
    ensures memory { IfErr result (λ e. e.kind ≡ OutOfMemory) }
{
    match parse_element(alloc, rest, place)? {
        Ok(_) => Ok(Err(place + rest.len())),
        Err(fault) => Ok(Err(fault)),
    }
}

/// The path of an element, and after a space a value that is put in front of it.
fn parse_insert(alloc: Global, rest: &str, place: usize) -> Result<Read<CallWord>>
    requires { place + length rest.now < 2 ^ 64 }
    ensures read { IfOk result (λ r. read_as call_text_seen r ≡ with_element insert_given place rest.now) }
    ensures memory { IfErr result (λ e. e.kind ≡ OutOfMemory) }
{
    let Some((steps, value)) = rest.split_once(' ') else {
        return parse_unfinished_element(alloc, rest, place);
    };
    match parse_element(alloc, steps, place)? {
        Ok((path, index)) => {
            let bytes = value.as_bytes().to_vec(alloc)?;
            let op = WordOp::Insert(index, bytes, place + steps.len() + 1);
            Ok(Ok(CallWord { path, op }))
        }
        Err(fault) => Ok(Err(fault)),
    }
}

/// The path of an element that is removed.
fn parse_remove(alloc: Global, rest: &str, place: usize) -> Result<Read<CallWord>>
    requires { place + length rest.now < 2 ^ 64 }
    ensures read { IfOk result (λ r. read_as call_text_seen r ≡ after_head head.Remove place rest.now) }
    ensures memory { IfErr result (λ e. e.kind ≡ OutOfMemory) }
{
    match parse_element(alloc, rest, place)? {
        Ok((path, index)) => Ok(Ok(CallWord {
            path,
            op: WordOp::Remove(index),
        })),
        Err(fault) => Ok(Err(fault)),
    }
}

/// A path that is not empty, and after a space how many elements its list is to have.
fn parse_resize(alloc: Global, rest: &str, place: usize) -> Result<Read<CallWord>>
    requires { place + length rest.now < 2 ^ 64 }
    ensures read { IfOk result (λ r. read_as call_text_seen r ≡ with_argument count_given place rest.now) }
    ensures memory { IfErr result (λ e. e.kind ≡ OutOfMemory) }
{
    let Some((steps, count)) = rest.split_once(' ') else {
        return parse_unfinished(alloc, rest, place);
    };
    match parse_steps(alloc, steps, place)? {
        Ok(path) => Ok(parse_count(path, count.as_bytes(), place + steps.len() + 1)),
        Err(fault) => Ok(Err(fault)),
    }
}

/// How many elements a list is to have, to the end of the word.
fn parse_count(path: Path, count: &[u8], place: usize) -> Read<CallWord>
    requires { place + length count.now < 2 ^ 64 }
    ensures { read_as call_text_seen result ≡ read_as (λ op. call_of op (path_text_seen path)) (count_given place count.now) }
{
    let number = read_decimal(count, place, u64::from(u32::MAX))?;
    let op = WordOp::Resize(number as u32);
    Ok(CallWord { path, op })
}

/// A path that is not empty, and after a space that of what is copied, which may be empty.
fn parse_copy(alloc: Global, rest: &str, place: usize) -> Result<Read<CallWord>>
    requires { place + length rest.now < 2 ^ 64 }
    ensures read { IfOk result (λ r. read_as call_text_seen r ≡ with_argument from_given place rest.now) }
    ensures memory { IfErr result (λ e. e.kind ≡ OutOfMemory) }
{
    let Some((steps, from)) = rest.split_once(' ') else {
        return parse_unfinished(alloc, rest, place);
    };
    match parse_steps(alloc, steps, place)? {
        Ok(path) => match parse_path_at(alloc, from, place + steps.len() + 1)? {
            Ok(from) => Ok(Ok(CallWord {
                path,
                op: WordOp::Copy(from),
            })),
            Err(fault) => Ok(Err(fault)),
        },
        Err(fault) => Ok(Err(fault)),
    }
}

/// What follows a call's first word.
fn parse_rest(alloc: Global, head: Head, rest: &str, place: usize) -> Result<Read<CallWord>>
    requires { place + length rest.now < 2 ^ 64 }
    ensures read { IfOk result (λ r. read_as call_text_seen r ≡ after_head head place rest.now) }
    ensures memory { IfErr result (λ e. e.kind ≡ OutOfMemory) }
{
    match head {
        Head::Set => parse_set(alloc, rest, place),
        Head::Init => parse_part(alloc, WordOp::Init, rest, place),
        Head::Initn => parse_initn(alloc, rest, place),
        Head::Clear => parse_part(alloc, WordOp::Clear, rest, place),
        Head::Get => parse_part(alloc, WordOp::Get, rest, place),
        Head::Has => parse_part(alloc, WordOp::Has, rest, place),
        Head::Which => parse_which(alloc, rest, place),
        Head::Append => parse_append(alloc, rest, place),
        Head::Insert => parse_insert(alloc, rest, place),
        Head::Remove => parse_remove(alloc, rest, place),
        Head::Resize => parse_resize(alloc, rest, place),
        Head::Copy => parse_copy(alloc, rest, place),
    }
}

/// The call or edit that a word is, with one space between its parts: `set PATH VALUE`, `init PATH`, `initn PATH N`,
/// `clear PATH`, `get PATH`, `has PATH`, `which PATH`, `append PATH VALUE`, `insert PATH.I VALUE`, `remove PATH.I`,
/// `resize PATH N` or `copy PATH FROM`. A path is as `parse_path` reads it, and empty only of `which` and as FROM. That of
/// `insert` and `remove` ends in an index. A value is all that follows its space, also nothing; N is up to 2^32 - 1.
///
/// Any other word is refused, in the inner result, with the place of the first byte that can't stand, or with its
/// length where it ends too soon. The outer result is refused with `OutOfMemory` alone.
pub fn parse_call(alloc: Global, word: &str) -> Result<Read<CallWord>>
    ensures read { IfOk result (λ r. read_as call_text_seen r ≡ call_at word.now) }
    ensures memory { IfErr result (λ e. e.kind ≡ OutOfMemory) }
{
    match parse_head(word) {
        Ok((head, count)) => parse_rest(alloc, head, &word[count..], count),
        Err(fault) => Ok(Err(fault)),
    }
}
