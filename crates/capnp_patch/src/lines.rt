//! The lines that tell of the replies to calls.
ghost use Rattle.std.specs.Prelude.{◌≡◌, ◌++◌, [], IfErr, IfOk, OnOk, get_or, map, string_bytes};
ghost use Rattle.capnp_device.specs.declared.error.ErrorKind.TheVariants.{OutOfMemory};
ghost use Rattle.capnp_dynamic_readers.specs.Pieces.{IsAppended};
ghost use Rattle.capnp_patch.specs.Lines.{AreTold, IsReplyTold, IsValueTold, answer_line, flag_word, member_word, answer_text, reply_refusal_line, told_char, told_line, told_word};

use capnp_base::text;
use capnp_call::calls::{Plain, Reply};
use capnp_dynamic_readers::dynamic_value::Reader as Value;
use capnp_dynamic_readers::printer::print;
use capnp_wire::error::{ErrorKind, Result};
use std::alloc::Global;

/// Appends a value as it is told.
fn put_plain(out: &mut String, plain: &Plain) -> Result<()>
    ensures put { OnOk result (IsAppended (string_bytes out.old) (answer_text plain.now) (string_bytes out.new)) }
    ensures memory { IfErr result (λ e. e.kind ≡ OutOfMemory) }
{
    match plain {
        Plain::Void => print(Value::Void, out, false),
        Plain::Bool(x) => print(Value::Bool(*x), out, false),
        Plain::Int8(x) => print(Value::Int8(*x), out, false),
        Plain::Int16(x) => print(Value::Int16(*x), out, false),
        Plain::Int32(x) => print(Value::Int32(*x), out, false),
        Plain::Int64(x) => print(Value::Int64(*x), out, false),
        Plain::UInt8(x) => print(Value::UInt8(*x), out, false),
        Plain::UInt16(x) => print(Value::UInt16(*x), out, false),
        Plain::UInt32(x) => print(Value::UInt32(*x), out, false),
        Plain::UInt64(x) => print(Value::UInt64(*x), out, false),
        Plain::Text(bytes) => print(Value::Text(text::Reader(bytes)), out, false),
        Plain::Data(bytes) => print(Value::Data(bytes), out, false),
        Plain::Enum(number) => Ok(write!(out, "{number}")?),
        Plain::List(len) => Ok(write!(out, "[{len} elements]")?),
        Plain::Struct => Ok(out.push_str("(..)")?),
        Plain::AnyPointer(true) => Ok(out.push_str("null")?),
        Plain::AnyPointer(false) => Ok(out.push_str("<opaque pointer>")?),
    }
}

/// Appends a character of a word as it is told.
fn put_char(out: &mut String, c: char) -> Result<()>
    ensures put { OnOk result (string_bytes out.new ≡ string_bytes out.old ++ told_char c) }
    ensures memory { IfErr result (λ e. e.kind ≡ OutOfMemory) }
{
    if c.is_ascii_control() {
        Ok(write!(out, "\\u{{{:x}}}", u32::from(c))?)
    } else {
        Ok(out.push(c)?)
    }
}

/// Appends a word as it is told: its control characters by their numbers, as `\u{1b}`. Refused with `OutOfMemory` alone.
pub fn put_word(out: &mut String, word: &str) -> Result<()>
    ensures put { OnOk result (string_bytes out.new ≡ string_bytes out.old ++ told_word word.now) }
    ensures memory { IfErr result (λ e. e.kind ≡ OutOfMemory) }
{
    for c in word.chars() {
        put_char(out, c)?;
    }
    Ok(())
}

/// Appends a line: the number of a call, its word, and what is told.
fn put_told(lines: &mut String, number: u64, word: &str, between: &str, text: &str) -> Result<()>
    ensures put { OnOk result (string_bytes lines.new
        ≡ string_bytes lines.old ++ told_line number word.now between.now text.now) }
    ensures memory { IfErr result (λ e. e.kind ≡ OutOfMemory) }
{
    write!(lines, "{number}: ")?;
    put_word(lines, word)?;
    Ok(write!(lines, "{between}{text}\n")?)
}

/// Appends the line of an answer to the call of a number with its word: the number, the word, and the answer's text, as it
/// stands. Refused with `OutOfMemory` alone.
pub fn put_answer(lines: &mut String, number: u64, word: &str, text: &str) -> Result<()>
    ensures put { OnOk result (string_bytes lines.new
        ≡ string_bytes lines.old ++ answer_line number word.now text.now) }
    ensures memory { IfErr result (λ e. e.kind ≡ OutOfMemory) }
{
    put_told(lines, number, word, " = ", text)
}

/// Appends the line of a value.
fn put_value_line(lines: &mut String, number: u64, word: &str, plain: &Plain) -> Result<()>
    ensures put { OnOk result (IsValueTold number word.now plain.now (string_bytes lines.old)
        (string_bytes lines.new)) }
    ensures memory { IfErr result (λ e. e.kind ≡ OutOfMemory) }
{
    let mut text = String::new(*lines.allocator());
    put_plain(&mut text, plain)?;
    put_answer(lines, number, word, text.as_str())
}

/// Appends the line of a flag.
fn put_flag(lines: &mut String, number: u64, word: &str, flag: bool) -> Result<()>
    ensures put { OnOk result (string_bytes lines.new
        ≡ string_bytes lines.old ++ answer_line number word.now (flag_word flag)) }
    ensures memory { IfErr result (λ e. e.kind ≡ OutOfMemory) }
{
    put_answer(lines, number, word, if flag { "true" } else { "false" })
}

/// Appends the line of a member.
fn put_member(lines: &mut String, number: u64, word: &str, member: Option<u16>) -> Result<()>
    ensures put { OnOk result (string_bytes lines.new
        ≡ string_bytes lines.old ++ answer_line number word.now (member_word member)) }
    ensures memory { IfErr result (λ e. e.kind ≡ OutOfMemory) }
{
    match member {
        None => put_answer(lines, number, word, "none"),
        Some(index) => {
            let text = format!(in *lines.allocator(); "#{index}")?;
            put_answer(lines, number, word, text.as_str())
        }
    }
}

/// Appends the line of a refusal, with what tells more.
fn put_refusal(
    lines: &mut String,
    number: u64,
    word: &str,
    kind: ErrorKind,
    note: &str,
) -> Result<()>
    ensures put { OnOk result (string_bytes lines.new
        ≡ string_bytes lines.old ++ reply_refusal_line number word.now kind note.now) }
    ensures memory { IfErr result (λ e. e.kind ≡ OutOfMemory) }
{
    let refusal = kind.number();
    let name = kind.name();
    let mut text = format!(in *lines.allocator(); "{refusal} {name}")?;
    put_word(&mut text, note)?;
    put_told(lines, number, word, ": refused: ", text.as_str())
}

/// Appends the line of a reply to the call of a number with its word, if it answers or refuses: the number, the word, and the
/// answer, or the refusal's number and name and a note that tells more. Control characters are told by their numbers. Refused
/// with `OutOfMemory` alone.
pub fn put_line(
    lines: &mut String,
    number: u64,
    word: &str,
    note: &str,
    reply: &Reply,
) -> Result<()>
    ensures put { OnOk result (IsReplyTold number word.now note.now reply.now (string_bytes lines.old)
        (string_bytes lines.new)) }
    ensures memory { IfErr result (λ e. e.kind ≡ OutOfMemory) }
{
    match reply {
        Reply::Done => Ok(()),
        Reply::Value(plain) => put_value_line(lines, number, word, plain),
        Reply::Flag(flag) => put_flag(lines, number, word, *flag),
        Reply::Member(member) => put_member(lines, number, word, *member),
        Reply::Refused(kind) => put_refusal(lines, number, word, *kind, note),
    }
}

/// The word of the call at an index, empty where none is given.
fn word_at<'a>(words: &[&'a str], index: usize) -> &'a str
    ensures { result.now ≡ get_or (map (λ w. w.now) words.now) index [] }
{
    match words.get(index) {
        Some(word) => *word,
        None => "",
    }
}

/// A line for each reply that answers or refuses, in order: the number of its call, from 1 on, the call's word, and the
/// answer or the refusal's number and name. A call that no word is given for is told with an empty one. Refused with
/// `OutOfMemory` alone.
pub fn get_lines(alloc: Global, words: &[&str], replies: &[Reply]) -> Result<String>
    ensures lines { IfOk result (λ lines. AreTold 0 (map (λ w. w.now) words.now) replies.now [] (string_bytes lines)) }
    ensures memory { IfErr result (λ e. e.kind ≡ OutOfMemory) }
{
    let mut lines = String::new(alloc);
    for index in 0..replies.len() {
        let number = index as u64 + 1;
        put_line(
            &mut lines,
            number,
            word_at(words, index),
            "",
            &replies[index],
        )?;
    }
    Ok(lines)
}
