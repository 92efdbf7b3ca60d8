//! Options among words. They stand in any order, and of one that stands twice the last counts.
ghost use Rattle.std.specs.Prelude.{◌≡◌, IfErr, IfOk, map, string_bytes};
ghost use Rattle.std.specs.Option.{option_map};
ghost use Rattle.capnp_device.specs.declared.error.ErrorKind.TheVariants.{OutOfMemory};
ghost use Rattle.riftcalico_words.specs.Options.{is_option, no_options, options_read, with_flag, with_kind, with_other, with_value, with_word, word_kind};
ghost use Rattle.riftcalico_words.specs.OptionsSeen.{options_seen, read_seen};

use capnp_device::error::Result;
use std::alloc::Global;

/// An option that has no word behind it.
#[derive(Clone, Copy, Debug, PartialEq, Eq)]
pub enum Flag {
    /// `--indent`
    Indent,
    /// `--raw`
    Raw,
    /// `--paths`
    Paths,
    /// `--json`
    Json,
    /// `--keep-going`
    KeepGoing,
    /// `--packed`
    Packed,
    /// `--each`
    Each,
    /// `--strict`
    Strict,
    /// `--all`
    All,
    /// `--quiet`
    Quiet,
    /// `--breaking-only`
    BreakingOnly,
    /// `--both`
    Both,
    /// `--help`
    Help,
}

/// An option that has a word behind it.
#[derive(Clone, Copy, Debug, PartialEq, Eq)]
pub enum ValueOption {
    /// `--set`, with the path of a file.
    Set,
    /// `--calls`, with the path of a file.
    Calls,
    /// `--limit`, with a number of bytes.
    Limit,
    /// `--in-place`, with the path of a file.
    InPlace,
}

/// What a word is that stands behind no option that has one.
#[derive(Clone, Copy, Debug, PartialEq, Eq)]
pub enum WordKind {
    /// No option.
    Other,
    Flag(Flag),
    Value(ValueOption),
    /// A word that begins with `--` and is no option.
    Unknown,
}

/// The options of words, and the other words in their order.
#[derive(Drop)]
pub struct Options<'a> {
    pub set: Option<&'a str>,
    pub calls: Option<&'a str>,
    pub limit: Option<&'a str>,
    pub in_place: Option<&'a str>,
    pub indent: bool,
    pub raw: bool,
    pub paths: bool,
    pub json: bool,
    pub keep_going: bool,
    pub packed: bool,
    pub each: bool,
    pub strict: bool,
    pub all: bool,
    pub quiet: bool,
    pub breaking_only: bool,
    pub both: bool,
    pub help: bool,
    pub others: Vec<&'a str>,
    /// The option whose word comes next.
    pub waiting: Option<ValueOption>,
}

/// Whether a word begins with `--`.
fn is_option_word(word: &str) -> bool
    ensures { result ≡ is_option word.now }
{
    match word.as_bytes() {
        [first, second, ..] => *first == b'-' && *second == b'-',
        _ => false,
    }
}

/// What a word is.
fn kind_of(word: &str) -> WordKind
    ensures { result ≡ word_kind word.now }
{
    match word {
        "--set" => WordKind::Value(ValueOption::Set),
        "--calls" => WordKind::Value(ValueOption::Calls),
        "--limit" => WordKind::Value(ValueOption::Limit),
        "--in-place" => WordKind::Value(ValueOption::InPlace),
        "--indent" => WordKind::Flag(Flag::Indent),
        "--raw" => WordKind::Flag(Flag::Raw),
        "--paths" => WordKind::Flag(Flag::Paths),
        "--json" => WordKind::Flag(Flag::Json),
        "--keep-going" => WordKind::Flag(Flag::KeepGoing),
        "--packed" => WordKind::Flag(Flag::Packed),
        "--each" => WordKind::Flag(Flag::Each),
        "--strict" => WordKind::Flag(Flag::Strict),
        "--all" => WordKind::Flag(Flag::All),
        "--quiet" => WordKind::Flag(Flag::Quiet),
        "--breaking-only" => WordKind::Flag(Flag::BreakingOnly),
        "--both" => WordKind::Flag(Flag::Both),
        "--help" => WordKind::Flag(Flag::Help),
        _ => {
            if is_option_word(word) {
                WordKind::Unknown
            } else {
                WordKind::Other
            }
        }
    }
}

/// The options with a flag more.
fn put_flag(options: Options<'_>, flag: Flag) -> Options<'_>
    ensures { options_seen result ≡ with_flag (options_seen options.entry) flag }
{
    let mut options = options;
    match flag {
        Flag::Indent => options.indent = true,
        Flag::Raw => options.raw = true,
        Flag::Paths => options.paths = true,
        Flag::Json => options.json = true,
        Flag::KeepGoing => options.keep_going = true,
        Flag::Packed => options.packed = true,
        Flag::Each => options.each = true,
        Flag::Strict => options.strict = true,
        Flag::All => options.all = true,
        Flag::Quiet => options.quiet = true,
        Flag::BreakingOnly => options.breaking_only = true,
        Flag::Both => options.both = true,
        Flag::Help => options.help = true,
    }
    options
}

/// The options with the word of one of them.
fn put_value<'a>(options: Options<'a>, option: ValueOption, word: &'a str) -> Options<'a>
    ensures { options_seen result ≡ with_value (options_seen options.entry) option word.now }
{
    let mut options = options;
    options.waiting = None;
    match option {
        ValueOption::Set => options.set = Some(word),
        ValueOption::Calls => options.calls = Some(word),
        ValueOption::Limit => options.limit = Some(word),
        ValueOption::InPlace => options.in_place = Some(word),
    }
    options
}

/// The options with a word more that is none. Refused with `OutOfMemory` alone.
fn put_other<'a>(options: Options<'a>, word: &'a str) -> Result<Options<'a>>
    ensures put { IfOk result (λ o. options_seen o ≡ with_other (options_seen options.entry) word.now) }
    ensures memory { IfErr result (λ e. e.kind ≡ OutOfMemory) }
{
    let mut options = options;
    options.others.push(word)?;
    Ok(options)
}

/// The options with a word more; none where it is an unknown option.
fn put_kind<'a>(options: Options<'a>, word: &'a str) -> Result<Option<Options<'a>>>
    ensures put { IfOk result (λ r. option_map options_seen r
        ≡ with_kind (options_seen options.entry) word.now (word_kind word.now)) }
    ensures memory { IfErr result (λ e. e.kind ≡ OutOfMemory) }
{
    match kind_of(word) {
        WordKind::Other => Ok(Some(put_other(options, word)?)),
        WordKind::Flag(flag) => Ok(Some(put_flag(options, flag))),
        WordKind::Value(option) => {
            let mut options = options;
            options.waiting = Some(option);
            Ok(Some(options))
        }
        WordKind::Unknown => Ok(None),
    }
}

/// The options with a word more; none where it is an unknown option.
fn put_word<'a>(options: Options<'a>, word: &'a str) -> Result<Option<Options<'a>>>
    ensures put { IfOk result (λ r. option_map options_seen r ≡ with_word (options_seen options.entry) word.now) }
    ensures memory { IfErr result (λ e. e.kind ≡ OutOfMemory) }
{
    match options.waiting {
        Some(option) => Ok(Some(put_value(options, option, word))),
        None => put_kind(options, word),
    }
}

/// The options of words, or the first of them that is an unknown one. Refused with `OutOfMemory` alone.
pub fn read_options<'a>(
    alloc: Global,
    words: &'a [String],
) -> Result<std::result::Result<Options<'a>, &'a str>>
    ensures read { IfOk result (λ r. read_seen r ≡ options_read no_options (map string_bytes words.now)) }
    ensures memory { IfErr result (λ e. e.kind ≡ OutOfMemory) }
{
    let mut options = Options {
        set: None,
        calls: None,
        limit: None,
        in_place: None,
        indent: false,
        raw: false,
        paths: false,
        json: false,
        keep_going: false,
        packed: false,
        each: false,
        strict: false,
        all: false,
        quiet: false,
        breaking_only: false,
        both: false,
        help: false,
        others: Vec::new(alloc),
        waiting: None,
    };
    for word in words {
        match put_word(options, word.as_str())? {
            Some(more) => options = more,
            None => return Ok(Err(word.as_str())),
        }
    }
    Ok(Ok(options))
}
