//! The line of a change: the word of its call, as `patch` reads it.
ghost use Rattle.std.specs.Prelude.{false, ◌≡◌, ◌≤◌, ◌++◌, IfErr, IfOk, MatchOption, length};
ghost use Rattle.std.specs.Str.{is_utf8};
ghost use Rattle.capnp_call.specs.Seen.{path_seen};
ghost use Rattle.capnp_call.specs.declared.calls.Op.TheVariants.{Set as SetTo};
ghost use Rattle.capnp_device.specs.declared.error.ErrorKind.TheVariants.{OutOfMemory};
ghost use Rattle.capnp_diffs.specs.Changes.{same_leaf};
ghost use Rattle.capnp_diffs.specs.Steps.Leaves.{integer_seen, is_integer};
ghost use Rattle.capnp_dynamic_readers.specs.Seen.{value_seen};
ghost use Rattle.capnp_dynamic_readers.specs.declared.dynamic_value.Reader.TheVariants.{List as ListOf, Struct as StructOf};
ghost use Rattle.capnp_json.specs.Pieces.{IsJson};
ghost use Rattle.capnp_json.specs.Written.{written_json_as};
ghost use Rattle.capnp_queries.specs.Floats.{form_at};
ghost use Rattle.capnp_records.specs.Record.{Number};
ghost use Rattle.capnp_records.specs.Run.{root_type};
ghost use Rattle.capnp_schema.specs.Entries.{lists_seen};
ghost use Rattle.capnp_schema.specs.StructHandles.{IsStruct, number_of, set_of};
ghost use Rattle.capnp_words.specs.Paths.{words_of_path};
ghost use Rattle.capnp_words.specs.Seen.{word_value_seen};
ghost use Rattle.riftcalico_core.specs.ChangeLines.{IsJsonless, IsLeafWord, IsLeafless, IsOpLine, IsPutWord, IsSetLine, IsWordless, cause_name, cause_number, change_path, is_no_utf8, is_own, is_read_under};
ghost use Rattle.riftcalico_core.specs.Replies.{types_along};
ghost use Rattle.riftcalico_core.specs.Steps.RepliesSeen.{along_seen};
ghost use Rattle.riftcalico_core.specs.Steps.Wordless.{HasNoLine, IsLeaf, IsLineCut, cause_of};

use crate::field_names::name_path;
use crate::get::{get_path_word, print_value, put_behind};
use crate::note::get_words;
use crate::replies::{Unknown, walk_types};
use capnp_base::introspect::{Type, TypeVariant};
use capnp_call::calls::{Op, Step};
use capnp_diffs::change::Change;
use capnp_dynamic_readers::dynamic_value::Reader as Value;
use capnp_dynamic_readers::{dynamic_list, dynamic_struct};
use capnp_json::error::JsonError;
use capnp_json::forms::Form;
use capnp_json::json::to_json_as;
use capnp_queries::floats::get_form_at;
use capnp_schema::schema::StructSchema;
use capnp_schema::set::SchemaSet;
use capnp_wire::error::{Error, ErrorKind, Result};
use capnp_words::marked::parse_marked_value;
use capnp_words::value::PlainValue;
use std::alloc::Global;
use std::str;

/// Why a value that a call puts has no word.
#[derive(Clone, Copy, Debug, PartialEq, Eq)]
pub(crate) enum NoWord {
    /// It has no text or no JSON, or none within the limit.
    Refused(JsonError),
    /// What is printed of it is read as another value: a float that is no number, with other bits than the one of `nan`.
    Unread,
}

impl NoWord {
    /// Whether no message is refused so.
    pub(crate) fn is_own(self) -> bool
        ensures { result ≡ is_own self }
    {
        match self {
            NoWord::Unread => true,
            NoWord::Refused(JsonError::UntypedHasNoJson | JsonError::TextNotUtf8) => true,
            NoWord::Refused(JsonError::Read(_) | JsonError::OutOfMemory | JsonError::TooLarge) =>
                false,
        }
    }

    /// The number by which it is told.
    pub(crate) fn number(self) -> u32
        ensures { result ≡ cause_number self }
    {
        match self {
            NoWord::Unread => 75,
            NoWord::Refused(error) => error.number(),
        }
    }

    /// Its name.
    pub(crate) fn name(self) -> &'static str
        ensures { result.now ≡ cause_name self }
    {
        match self {
            NoWord::Unread => "ValueHasNoWord",
            NoWord::Refused(error) => error.name(),
        }
    }
}

/// A value's word, or why it has none.
pub(crate) type Worded = std::result::Result<Vec<u8>, NoWord>;

/// The refusal of a text.
fn find_cause(error: Error) -> NoWord
    ensures { result ≡ cause_of error.kind }
{
    match error.kind {
        ErrorKind::OutOfMemory => NoWord::Refused(JsonError::OutOfMemory),
        ErrorKind::TooLarge => NoWord::Refused(JsonError::TooLarge),
        kind => NoWord::Refused(JsonError::Read(kind)),
    }
}

/// An integer by its sign and its size: of one below zero, how far it is below -1.
fn split(number: i64) -> (bool, u64)
    ensures { integer_seen result ≡ number }
{
    if number < 0 {
        (true, (-(number + 1)) as u64)
    } else {
        (false, number as u64)
    }
}

/// The integer of a value that is one.
fn integer_of(value: Value<'_>) -> Option<(bool, u64)>
    ensures { MatchOption result (is_integer value.entry ≡ false)
        (λ p. value_seen value.entry ≡ Number (integer_seen p)) }
{
    match value {
        Value::Int8(x) => Some(split(x as i64)),
        Value::Int16(x) => Some(split(x as i64)),
        Value::Int32(x) => Some(split(x as i64)),
        Value::Int64(x) => Some(split(x)),
        Value::UInt8(x) => Some((false, x as u64)),
        Value::UInt16(x) => Some((false, x as u64)),
        Value::UInt32(x) => Some((false, x as u64)),
        Value::UInt64(x) => Some((false, x)),
        _ => None,
    }
}

/// Whether two values that are no integers are the same, of those that have no parts.
fn is_same_other(one: Value<'_>, another: Value<'_>) -> bool
    requires leaf { IsLeaf one }
    requires leaves { IsLeaf another }
    requires other { is_integer one ≡ false }
    ensures { result ≡ same_leaf (value_seen one.entry) (value_seen another.entry) }
{
    match one {
        Value::Void => matches!(another, Value::Void),
        Value::Bool(x) => match another {
            Value::Bool(y) => x == y,
            _ => false,
        },
        Value::Enum(x) => match another {
            Value::Enum(y) => x.get_value() == y.get_value(),
            _ => false,
        },
        Value::Text(x) => match another {
            Value::Text(y) => x.0 == y.0,
            _ => false,
        },
        Value::Data(x) => match another {
            Value::Data(y) => x == y,
            _ => false,
        },
        _ => false,
    }
}

/// Whether a word's value is a value.
fn is_same(value: Value<'_>, read: &PlainValue<'_>) -> bool
    requires { IsLeaf value }
    ensures { result ≡ same_leaf (value_seen value.entry) (word_value_seen read.now) }
{
    let other = read.as_reader();
    match integer_of(value) {
        Some(x) => match integer_of(other) {
            Some(y) => x.0 == y.0 && x.1 == y.1,
            None => false,
        },
        None => is_same_other(value, other),
    }
}

/// Whether a word is read back as a value, under the type that stands at its path. Refused with `OutOfMemory` alone.
fn is_read_back(
    alloc: Global,
    schemas: &SchemaSet,
    target: std::result::Result<Type, Unknown<'_>>,
    floats: bool,
    value: Value<'_>,
    word: &[u8],
) -> Result<bool>
    requires { IsLeaf value }
    ensures read { IfOk result (λ read. read ≡ is_read_under (lists_seen schemas.now) floats (along_seen target.entry)
        (value_seen value.entry) word.now) }
    ensures memory { IfErr result (λ e. e.kind ≡ OutOfMemory) }
{
    let Ok(target) = target else {
        return Ok(false);
    };
    match parse_marked_value(alloc, schemas, target, floats, word)? {
        Ok(read) => Ok(is_same(value, &read)),
        Err(_) => Ok(false),
    }
}

/// Whether bytes are UTF-8.
#[tactic(auto, using(crate::proofs::Texts::is_text, crate::proofs::Texts::is_no_text))]
fn is_utf8(bytes: &[u8]) -> bool
    ensures { result ≡ is_utf8 bytes.now }
{
    match str::from_utf8(bytes) {
        Ok(_) => true,
        Err(_) => false,
    }
}

/// Whether a value is a text that is not UTF-8.
fn is_no_utf8(value: Value<'_>) -> bool
    ensures { result ≡ is_no_utf8 value.entry }
{
    match value {
        Value::Text(text) => !is_utf8(text.0),
        _ => false,
    }
}

/// The word of a value without parts, of at most so many bytes: what is printed of it, which is read back as the value.
fn get_leaf_word(
    alloc: Global,
    schemas: &SchemaSet,
    target: std::result::Result<Type, Unknown<'_>>,
    form: Form,
    value: Value<'_>,
    limit: u64,
) -> Worded
    requires { IsLeaf value }
    ensures word { IfOk result (λ word. IsLeafWord (lists_seen schemas.now) form (along_seen target.entry) value.entry word.items) }
    ensures within { IfOk result (λ word. length word.items ≤ limit) }
    ensures refused { IfErr result (IsLeafless limit (lists_seen schemas.now) form (along_seen target.entry) value.entry) }
{
    if is_no_utf8(value) {
        return Err(NoWord::Refused(JsonError::TextNotUtf8));
    }
    let word = match print_value(alloc, value, form.floats, false, limit) {
        Ok(word) => word,
        Err(error) => return Err(find_cause(error)),
    };
    match is_read_back(alloc, schemas, target, form.floats, value, &word) {
        Ok(true) => Ok(word),
        Ok(false) => Err(NoWord::Unread),
        Err(error) => Err(find_cause(error)),
    }
}

/// The JSON of a struct or a list on one line, of at most so many bytes.
fn get_whole_word(alloc: Global, value: Value<'_>, form: Form, limit: u64) -> Worded
    ensures json { IfOk result (λ json. IsJson (written_json_as form false value.entry) json.items) }
    ensures within { IfOk result (λ json. length json.items ≤ limit) }
    ensures refused { IfErr result (IsJsonless limit form value.entry) }
{
    match to_json_as(alloc, value, form, false, limit as usize) {
        Ok(json) => Ok(json),
        Err(why) => Err(NoWord::Refused(why)),
    }
}

/// The word of a struct that is put at a path.
fn get_struct_word(
    alloc: Global,
    schema: StructSchema<'_>,
    path: &[Step<'_>],
    reader: dynamic_struct::Reader<'_>,
    limit: u64,
) -> Worded
    requires { IsStruct schema }
    ensures word { IfOk result (λ word. IsPutWord (set_of schema.entry) (number_of schema.entry) (path_seen path.now)
        (StructOf reader.entry) word.items) }
    ensures within { IfOk result (λ word. length word.items ≤ limit) }
    ensures refused { IfErr result (IsWordless limit (set_of schema.entry)
        (form_at (set_of schema.entry) (number_of schema.entry) (path_seen path.now))
        (types_along (set_of schema.entry) (root_type (set_of schema.entry) (number_of schema.entry)) (path_seen path.now))
        (StructOf reader.entry)) }
{
    let form = get_form_at(schema, path);
    get_whole_word(alloc, Value::Struct(reader), form, limit)
}

/// The word of a list that is put at a path.
fn get_list_word(
    alloc: Global,
    schema: StructSchema<'_>,
    path: &[Step<'_>],
    list: dynamic_list::Reader<'_>,
    limit: u64,
) -> Worded
    requires { IsStruct schema }
    ensures word { IfOk result (λ word. IsPutWord (set_of schema.entry) (number_of schema.entry) (path_seen path.now)
        (ListOf list.entry) word.items) }
    ensures within { IfOk result (λ word. length word.items ≤ limit) }
    ensures refused { IfErr result (IsWordless limit (set_of schema.entry)
        (form_at (set_of schema.entry) (number_of schema.entry) (path_seen path.now))
        (types_along (set_of schema.entry) (root_type (set_of schema.entry) (number_of schema.entry)) (path_seen path.now))
        (ListOf list.entry)) }
{
    let form = get_form_at(schema, path);
    get_whole_word(alloc, Value::List(list), form, limit)
}

/// The word of a value that is put at a path, of at most so many bytes.
fn get_value_word(
    alloc: Global,
    schema: StructSchema<'_>,
    path: &[Step<'_>],
    value: Value<'_>,
    limit: u64,
) -> Worded
    requires { IsStruct schema }
    ensures word { IfOk result (λ word. IsPutWord (set_of schema.entry) (number_of schema.entry) (path_seen path.now)
        value.entry word.items) }
    ensures within { IfOk result (λ word. length word.items ≤ limit) }
    ensures refused { IfErr result (IsWordless limit (set_of schema.entry)
        (form_at (set_of schema.entry) (number_of schema.entry) (path_seen path.now))
        (types_along (set_of schema.entry) (root_type (set_of schema.entry) (number_of schema.entry)) (path_seen path.now))
        value.entry) }
{
    match value {
        Value::Struct(reader) => get_struct_word(alloc, schema, path, reader, limit),
        Value::List(list) => get_list_word(alloc, schema, path, list, limit),
        Value::AnyPointer(_) => Err(NoWord::Refused(JsonError::UntypedHasNoJson)),
        _ => {
            let root = Type::from(TypeVariant::Struct(schema.into()));
            let schemas = schema.get_set();
            let target = walk_types(schemas, root, path);
            let form = get_form_at(schema, path);
            get_leaf_word(alloc, schemas, target, form, value, limit)
        }
    }
}

/// The path of a change, with its fields by their names. Refused with `OutOfMemory` alone.
pub(crate) fn get_change_path<'a>(
    alloc: Global,
    schema: StructSchema<'a>,
    change: &Change<'a>,
) -> Result<Vec<Step<'a>>>
    requires { IsStruct schema }
    ensures path { IfOk result (λ path. path_seen path.items ≡ change_path (set_of schema.entry) (number_of schema.entry)
        change.now) }
    ensures memory { IfErr result (λ e. e.kind ≡ OutOfMemory) }
{
    let mut steps = Vec::with_capacity(alloc, change.path.len() + 1)?;
    steps.extend_from_slice(&change.path)?;
    steps.push(change.last)?;
    name_path(alloc, schema, &steps)
}

/// What a call is called, and its path. Refused with `OutOfMemory` alone.
fn get_start(alloc: Global, verb: &str, path: &[Step<'_>], end: &str) -> Result<Vec<u8>>
    ensures start { IfOk result (λ start. start.items ≡ verb.now ++ (words_of_path (path_seen path.now) ++ end.now)) }
    ensures memory { IfErr result (λ e. e.kind ≡ OutOfMemory) }
{
    let words = get_words(alloc, path)?;
    let path = get_path_word(words.as_str());
    let start = format!(in alloc; "{verb}{path}{end}")?;
    Ok(start.into_bytes())
}

/// The line of a call that is given nothing, of at most so many bytes.
fn get_short_line(alloc: Global, verb: &str, path: &[Step<'_>], limit: u64) -> Worded
    ensures line { IfOk result (λ line. line.items ≡ verb.now ++ words_of_path (path_seen path.now)) }
    ensures within { IfOk result (λ line. length line.items ≤ limit) }
    ensures refused { IfErr result (IsLineCut limit (verb.now ++ words_of_path (path_seen path.now))) }
{
    let line = match get_start(alloc, verb, path, "") {
        Ok(line) => line,
        Err(error) => return Err(find_cause(error)),
    };
    if line.len() as u64 > limit {
        return Err(NoWord::Refused(JsonError::TooLarge));
    }
    Ok(line)
}

/// The line of a call that puts a value, of at most so many bytes.
fn get_set_line(
    alloc: Global,
    schema: StructSchema<'_>,
    path: &[Step<'_>],
    value: Value<'_>,
    limit: u64,
) -> Worded
    requires { IsStruct schema }
    ensures line { IfOk result (λ line. IsSetLine (set_of schema.entry) (number_of schema.entry) (path_seen path.now)
        value.entry line.items) }
    ensures within { IfOk result (λ line. length line.items ≤ limit) }
    ensures refused { IfErr result (HasNoLine limit schema.entry (path_seen path.now) (SetTo value.entry)) }
{
    let start = match get_start(alloc, "set ", path, " ") {
        Ok(start) => start,
        Err(error) => return Err(find_cause(error)),
    };
    let length = start.len() as u64;
    if length > limit {
        return Err(NoWord::Refused(JsonError::TooLarge));
    }
    let word = match get_value_word(alloc, schema, path, value, limit - length) {
        Ok(word) => word,
        Err(why) => return Err(why),
    };
    match put_behind(start, &word) {
        Ok(line) => Ok(line),
        Err(error) => Err(find_cause(error)),
    }
}

/// The line of a change along a path, of at most so many bytes; or why it has none.
pub(crate) fn get_line(
    alloc: Global,
    schema: StructSchema<'_>,
    path: &[Step<'_>],
    op: Op<'_>,
    limit: u64,
) -> Worded
    requires { IsStruct schema }
    ensures line { IfOk result (λ line. IsOpLine (set_of schema.entry) (number_of schema.entry) (path_seen path.now)
        op.entry line.items) }
    ensures within { IfOk result (λ line. length line.items ≤ limit) }
    ensures refused { IfErr result (HasNoLine limit schema.entry (path_seen path.now) op.entry) }
{
    match op {
        Op::Set(value) => get_set_line(alloc, schema, path, value, limit),
        Op::Init => get_short_line(alloc, "init ", path, limit),
        Op::Get | Op::Has | Op::Which | Op::Initn(_) | Op::Clear => {
            get_short_line(alloc, "clear ", path, limit)
        }
    }
}
