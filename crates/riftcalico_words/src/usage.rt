//! What the program tells of itself, and of words that ask for nothing.
ghost use Rattle.std.specs.Prelude.{◌≡◌, ◌++◌, IfErr, IfOk, string_bytes};
ghost use Rattle.capnp_device.specs.declared.error.ErrorKind.TheVariants.{OutOfMemory};
ghost use Rattle.riftcalico_words.specs.RequestSeen.{fault_seen};
ghost use Rattle.riftcalico_words.specs.Usage.{fault_text, help_text, program_help, word_line, verb_help, verb_usage, version_line};

use crate::request::{Misuse, Verb};
use capnp_device::error::Result;
use std::alloc::Global;

/// The version of the program.
pub const VERSION: &str = "riftcalico 0.1.0\n";

const USAGE: &str = "\
usage: riftcalico show [--set FILE] [--packed] [--limit BYTES] [--each [--keep-going]] NAME [--indent]
       riftcalico get [--set FILE] [--packed] [--limit BYTES] [--raw] [--paths] [--json] [--each [--keep-going]] NAME PATH.. [--indent]
       riftcalico json [--set FILE] [--packed] [--limit BYTES] [--each [--keep-going]] NAME [PATH..] [--indent]
       riftcalico from-json [--set FILE] [--strict] [--packed] [--limit BYTES] [--each [--keep-going]] NAME
       riftcalico check [--set FILE] [--packed] [--limit PARTS] [--all] [--each [--keep-going]] NAME [PATH]
       riftcalico patch [--set FILE] [--calls FILE] [--keep-going] [--packed] [--limit BYTES] [--each] [--in-place FILE] NAME CALL..
       riftcalico new [--set FILE] [--calls FILE] [--keep-going] [--packed] [--limit BYTES] NAME CALL..
       riftcalico structs [--set FILE] [--limit BYTES] [NAME]
       riftcalico schemas [--strict] [--limit BYTES]
       riftcalico compatible [--quiet] [--breaking-only] [--both] [--limit BYTES] OLD NEW [NAME]
       riftcalico diff [--set FILE] [--packed] [--limit BYTES] NAME OLD NEW
";

const HELP: &str = "\
Shows, makes and patches Cap'n Proto messages under schemas that are known at run time. Messages are read from standard
input and written to standard output.

usage: riftcalico show [--set FILE] [--packed] [--limit BYTES] [--each [--keep-going]] NAME [--indent]
       riftcalico get [--set FILE] [--packed] [--limit BYTES] [--raw] [--paths] [--json] [--each [--keep-going]] NAME PATH.. [--indent]
       riftcalico json [--set FILE] [--packed] [--limit BYTES] [--each [--keep-going]] NAME [PATH..] [--indent]
       riftcalico from-json [--set FILE] [--strict] [--packed] [--limit BYTES] [--each [--keep-going]] NAME
       riftcalico check [--set FILE] [--packed] [--limit PARTS] [--all] [--each [--keep-going]] NAME [PATH]
       riftcalico patch [--set FILE] [--calls FILE] [--keep-going] [--packed] [--limit BYTES] [--each] [--in-place FILE] NAME CALL..
       riftcalico new [--set FILE] [--calls FILE] [--keep-going] [--packed] [--limit BYTES] NAME CALL..
       riftcalico structs [--set FILE] [--limit BYTES] [NAME]
       riftcalico schemas [--strict] [--limit BYTES]
       riftcalico compatible [--quiet] [--breaking-only] [--both] [--limit BYTES] OLD NEW [NAME]
       riftcalico diff [--set FILE] [--packed] [--limit BYTES] NAME OLD NEW

More of a verb is told by 'riftcalico VERB --help', the version by 'riftcalico --version'.
";

const SHOW_USAGE: &str = "\
usage: riftcalico show [--set FILE] [--packed] [--limit BYTES] [--each [--keep-going]] NAME [--indent]
";

const GET_USAGE: &str = "\
usage: riftcalico get [--set FILE] [--packed] [--limit BYTES] [--raw] [--paths] [--json] [--each [--keep-going]] NAME PATH.. [--indent]
";

const JSON_USAGE: &str = "\
usage: riftcalico json [--set FILE] [--packed] [--limit BYTES] [--each [--keep-going]] NAME [PATH..] [--indent]
";

const FROM_JSON_USAGE: &str = "\
usage: riftcalico from-json [--set FILE] [--strict] [--packed] [--limit BYTES] [--each [--keep-going]] NAME
";

const CHECK_USAGE: &str = "\
usage: riftcalico check [--set FILE] [--packed] [--limit PARTS] [--all] [--each [--keep-going]] NAME [PATH]
";

const PATCH_USAGE: &str = "\
usage: riftcalico patch [--set FILE] [--calls FILE] [--keep-going] [--packed] [--limit BYTES] [--each] [--in-place FILE] NAME CALL..
";

const NEW_USAGE: &str = "\
usage: riftcalico new [--set FILE] [--calls FILE] [--keep-going] [--packed] [--limit BYTES] NAME CALL..
";

const STRUCTS_USAGE: &str = "\
usage: riftcalico structs [--set FILE] [--limit BYTES] [NAME]
";

const SCHEMAS_USAGE: &str = "\
usage: riftcalico schemas [--strict] [--limit BYTES]
";

const COMPATIBLE_USAGE: &str = "\
usage: riftcalico compatible [--quiet] [--breaking-only] [--both] [--limit BYTES] OLD NEW [NAME]
";

const DIFF_USAGE: &str = "\
usage: riftcalico diff [--set FILE] [--packed] [--limit BYTES] NAME OLD NEW
";

const SHOW_HELP: &str = "\
usage: riftcalico show [--set FILE] [--packed] [--limit BYTES] [--each [--keep-going]] NAME [--indent]

Prints the root of the first message as a struct NAME, on one line, or with --indent on several. With --packed the
message is read packed. No text is printed of more bytes than --limit, or else 1 GiB.
With --each all messages of the input are taken, one after another, and what is told names the message by number.
With --keep-going one that is refused is told and passed over.
NAME is a struct of the set in FILE, as 'riftcalico schemas' writes it, or else of the built-in set.
";

const GET_HELP: &str = "\
usage: riftcalico get [--set FILE] [--packed] [--limit BYTES] [--raw] [--paths] [--json] [--each [--keep-going]] NAME PATH.. [--indent]

Prints what stands at each PATH of the first message's root, a struct NAME, a line each. PATH has steps joined by '.': a
field's name, #3, a field by its number, or 4, an element of a list; a last # is the length of a list. '.' alone is the
root. A step '*' is each element of a list or each field of a struct, a line each. With --paths lines begin with their
paths. With --raw texts and data are printed as their bytes, with --json all as 'riftcalico json' does. With --packed the
message is read packed. The texts have no more bytes together than --limit, or else 1 GiB.
With --each all messages of the input are taken, one after another, and what is told names the message by number.
With --keep-going one that is refused is told and passed over.
NAME is a struct of the set in FILE, as 'riftcalico schemas' writes it, or else of the built-in set.
";

const JSON_HELP: &str = "\
usage: riftcalico json [--set FILE] [--packed] [--limit BYTES] [--each [--keep-going]] NAME [PATH..] [--indent]

Prints the root of the first message, a struct NAME, or what stands at each PATH of it, as JSON, as the public library's
codec does, each on one line, or with --indent on several. PATH is as 'riftcalico get' takes it. Numbers of 64 bits are
strings. With --packed the message is read packed. The JSON has no more bytes together than --limit, or else 1 GiB.
With --each all messages of the input are taken, one after another, and what is told names the message by number.
With --keep-going one that is refused is told and passed over.
NAME is a struct of the set in FILE, as 'riftcalico schemas' writes it, or else of the built-in set.
";

const FROM_JSON_HELP: &str = "\
usage: riftcalico from-json [--set FILE] [--strict] [--packed] [--limit BYTES] [--each [--keep-going]] NAME

Reads the input as one JSON text, an object with fields of a struct NAME, and writes the message that it stands for.
Fields that are not named have their defaults. What can't be read is told with its place, counted in bytes from 0. With
--strict a name that its struct lacks is refused; else it is passed over. With --packed the message is written packed.
No message is made of more bytes than --limit, or else 1 GiB.
With --each each line of the input that is not blank is a text, and what is told names its message by number.
With --keep-going one that is refused is told and passed over.
NAME is a struct of the set in FILE, as 'riftcalico schemas' writes it, or else of the built-in set.
";

const CHECK_HELP: &str = "\
usage: riftcalico check [--set FILE] [--packed] [--limit PARTS] [--all] [--each [--keep-going]] NAME [PATH]

Reads the first message's root, a struct NAME, or what stands at PATH of it, and tells the first value that can't be
read, if one can't, or with --all each. Nothing is printed. With --packed the message is read packed. No more fields and
elements are looked at than --limit, or else 2^30.
With --each all messages of the input are taken, one after another, and what is told names the message by number.
With --keep-going one that is refused is told and passed over.
NAME is a struct of the set in FILE, as 'riftcalico schemas' writes it, or else of the built-in set.
";

const PATCH_HELP: &str = "\
usage: riftcalico patch [--set FILE] [--calls FILE] [--keep-going] [--packed] [--limit BYTES] [--each] [--in-place FILE] NAME CALL..

Makes calls on a copy of the first message's root, a struct NAME, and writes the message that they leave.
A CALL is one word: 'set PATH VALUE', 'init PATH', 'initn PATH N', 'clear PATH', 'get PATH', 'has PATH', 'which PATH',
'append PATH VALUE', 'insert PATH.I VALUE', 'remove PATH.I', 'resize PATH N' or 'copy PATH FROM'. With --calls they are
the lines of FILE, but empty ones and those that begin with '#'. With --keep-going the message is written also where a
call is refused. With --packed messages are read and written packed.
No message is made of more bytes than --limit, or else 1 GiB.
With --each all messages of the input are taken, one after another, and what is told names the message by number.
With --keep-going one that is refused is told and passed over too.
With --in-place the messages are those of FILE, and what is made of them takes their place where nothing was refused.
NAME is a struct of the set in FILE, as 'riftcalico schemas' writes it, or else of the built-in set.
";

const NEW_HELP: &str = "\
usage: riftcalico new [--set FILE] [--calls FILE] [--keep-going] [--packed] [--limit BYTES] NAME CALL..

Makes calls on an empty struct NAME, and writes the message that they leave.
A CALL is one word: 'set PATH VALUE', 'init PATH', 'initn PATH N', 'clear PATH', 'get PATH', 'has PATH', 'which PATH',
'append PATH VALUE', 'insert PATH.I VALUE', 'remove PATH.I', 'resize PATH N' or 'copy PATH FROM'. With --calls they are
the lines of FILE, but empty ones and those that begin with '#'. With --keep-going the message is written also where a
call is refused. With --packed it is written packed.
No message is made of more bytes than --limit, or else 1 GiB.
NAME is a struct of the set in FILE, as 'riftcalico schemas' writes it, or else of the built-in set.
";

const STRUCTS_HELP: &str = "\
usage: riftcalico structs [--set FILE] [--limit BYTES] [NAME]

Lists the structs of a set, or the fields of the struct NAME. No text is printed of more bytes than --limit, or else 1 GiB.
The set is that of FILE, as 'riftcalico schemas' writes it, or else the built-in one.
";

const SCHEMAS_HELP: &str = "\
usage: riftcalico schemas [--strict] [--limit BYTES]

Reads a request of the public compiler, as 'capnp compile -o- FILE..' writes it, and writes its set of schemas.
With --strict floats and interfaces are refused. No set is made of more bytes than --limit, or else 1 GiB.
";

const COMPATIBLE_HELP: &str = "\
usage: riftcalico compatible [--quiet] [--breaking-only] [--both] [--limit BYTES] OLD NEW [NAME]

Tells what differs between the struct NAME of the set in the file OLD and that of the set in NEW, so that a program that
knows one can't read messages of the other: a line for each difference. The status is 0 where there is none, as the newer
struct follows the older one, and else 1. With --quiet nothing is printed. Sets are as 'riftcalico schemas' writes them.
Behind the differences a line that begins with 'note:' tells each field and enumerant that came or has another name, and
each list whose elements became structs, unless --breaking-only stands there.
Without NAME all structs are compared whose names stand in both sets. Notes tell those that went or came, too, and the
last line how many structs are compatible and how many not. The status is 0 where all are.
With --both the sets are compared a second time as if OLD were the newer one, and a line stands before each direction. The
status is 0 where both are compatible. No text is printed of more bytes than --limit, or else 1 GiB.
";

const DIFF_HELP: &str = "\
usage: riftcalico diff [--set FILE] [--packed] [--limit BYTES] NAME OLD NEW

Prints the calls that make the first message of the file OLD into that of NEW, both of a struct NAME: a line each, as
'riftcalico patch --calls' reads them. Nothing is printed where the two are equal. A struct or list that is put whole is
told as its JSON. With --packed both messages are read packed. The lines have no more bytes together than --limit, or
else 1 GiB.
NAME is a struct of the set in FILE, as 'riftcalico schemas' writes it, or else of the built-in set.
";

/// How a verb is called.
pub fn get_verb_usage(verb: Verb) -> &'static str
    ensures { result.now ≡ verb_usage verb }
{
    match verb {
        Verb::Show => SHOW_USAGE,
        Verb::Get => GET_USAGE,
        Verb::Json => JSON_USAGE,
        Verb::FromJson => FROM_JSON_USAGE,
        Verb::Check => CHECK_USAGE,
        Verb::Patch => PATCH_USAGE,
        Verb::New => NEW_USAGE,
        Verb::Structs => STRUCTS_USAGE,
        Verb::Schemas => SCHEMAS_USAGE,
        Verb::Compatible => COMPATIBLE_USAGE,
        Verb::Diff => DIFF_USAGE,
    }
}

/// What a verb does.
fn get_verb_help(verb: Verb) -> &'static str
    ensures { result.now ≡ verb_help verb }
{
    match verb {
        Verb::Show => SHOW_HELP,
        Verb::Get => GET_HELP,
        Verb::Json => JSON_HELP,
        Verb::FromJson => FROM_JSON_HELP,
        Verb::Check => CHECK_HELP,
        Verb::Patch => PATCH_HELP,
        Verb::New => NEW_HELP,
        Verb::Structs => STRUCTS_HELP,
        Verb::Schemas => SCHEMAS_HELP,
        Verb::Compatible => COMPATIBLE_HELP,
        Verb::Diff => DIFF_HELP,
    }
}

/// What the program does.
fn get_program_help() -> &'static str
    ensures { result.now ≡ program_help }
{
    HELP
}

/// What the program does, or one verb.
pub fn get_help(verb: Option<Verb>) -> &'static str
    ensures { result.now ≡ help_text verb }
{
    match verb {
        Some(verb) => get_verb_help(verb),
        None => get_program_help(),
    }
}

/// The version of the program, as a line.
pub fn get_version() -> &'static str
    ensures { result.now ≡ version_line }
{
    VERSION
}

/// A line of a word and what it is, and how the program or the verb is called. Refused with `OutOfMemory` alone.
fn get_word_line(alloc: Global, noun: &str, word: &str, usage: &str) -> Result<String>
    ensures told { IfOk result (λ text. string_bytes text ≡ word_line noun.now word.now ++ usage.now) }
    ensures memory { IfErr result (λ e. e.kind ≡ OutOfMemory) }
{
    let mut text = String::new(alloc);
    text.push_str(noun)?;
    text.push_str(": ")?;
    text.push_str(word)?;
    text.push_str("\n")?;
    text.push_str(usage)?;
    Ok(text)
}

/// What is told of words that ask for nothing: the word that is unknown or no number, if one is, and how the program or the
/// verb is called. Refused with `OutOfMemory` alone.
pub fn get_misuse(alloc: Global, misuse: Misuse<'_>) -> Result<String>
    ensures told { IfOk result (λ text. string_bytes text ≡ fault_text (fault_seen misuse.entry)) }
    ensures memory { IfErr result (λ e. e.kind ≡ OutOfMemory) }
{
    match misuse {
        Misuse::NoVerb => Ok(String::from_str(alloc, USAGE)?),
        Misuse::UnknownVerb(word) => get_word_line(alloc, "unknown verb", word, USAGE),
        Misuse::UnknownOption(verb, word) => {
            get_word_line(alloc, "unknown option", word, get_verb_usage(verb))
        }
        Misuse::NoBytes(verb, word) => {
            get_word_line(alloc, "no number of bytes", word, get_verb_usage(verb))
        }
        Misuse::OtherWords(verb) => Ok(String::from_str(alloc, get_verb_usage(verb))?),
    }
}
