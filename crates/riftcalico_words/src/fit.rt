//! Which options a verb takes.
ghost use Rattle.std.specs.Prelude.{◌≡◌};
ghost use Rattle.riftcalico_words.specs.OptionsSeen.{options_seen};
ghost use Rattle.riftcalico_words.specs.Requests.{flags_fit, going_fits, is_allowed, is_fitting, is_on_messages, is_reading, is_with_calls, place_fits, style_fits, takes_each, takes_flag, takes_value, values_fit};

use crate::options::{Flag, Options, ValueOption};
use crate::request::Verb;

/// Whether a verb only reads messages.
fn is_reading(verb: Verb) -> bool
    ensures { result ≡ is_reading verb }
{
    match verb {
        Verb::Show | Verb::Get | Verb::Json | Verb::Check => true,
        Verb::FromJson
        | Verb::Patch
        | Verb::New
        | Verb::Structs
        | Verb::Schemas
        | Verb::Compatible
        | Verb::Diff => false,
    }
}

/// Whether a verb takes messages, or gives one.
fn is_on_messages(verb: Verb) -> bool
    ensures { result ≡ is_on_messages verb }
{
    match verb {
        Verb::Patch | Verb::New => true,
        _ => is_reading(verb),
    }
}

/// Whether a verb makes calls.
fn is_with_calls(verb: Verb) -> bool
    ensures { result ≡ is_with_calls verb }
{
    match verb {
        Verb::Patch | Verb::New => true,
        _ => false,
    }
}

/// Whether a verb takes an option that has a word behind it.
fn takes_value(verb: Verb, option: ValueOption) -> bool
    ensures { result ≡ takes_value verb option }
{
    match option {
        ValueOption::Set => match verb {
            Verb::Structs | Verb::FromJson | Verb::Diff => true,
            _ => is_on_messages(verb),
        },
        ValueOption::Calls => is_with_calls(verb),
        ValueOption::Limit => true,
        ValueOption::InPlace => match verb {
            Verb::Patch => true,
            _ => false,
        },
    }
}

/// Whether a verb takes several messages, or texts that are made messages.
fn takes_each(verb: Verb) -> bool
    ensures { result ≡ takes_each verb }
{
    match verb {
        Verb::Patch | Verb::FromJson => true,
        _ => is_reading(verb),
    }
}

/// Whether a verb takes an option that has none.
fn takes_flag(verb: Verb, flag: Flag) -> bool
    ensures { result ≡ takes_flag verb flag }
{
    match flag {
        Flag::Indent => match verb {
            Verb::Check => false,
            _ => is_reading(verb),
        },
        Flag::Raw | Flag::Paths | Flag::Json => match verb {
            Verb::Get => true,
            _ => false,
        },
        Flag::KeepGoing => takes_each(verb) || is_with_calls(verb),
        Flag::Packed => match verb {
            Verb::FromJson | Verb::Diff => true,
            _ => is_on_messages(verb),
        },
        Flag::Each => takes_each(verb),
        Flag::Strict => match verb {
            Verb::Schemas | Verb::FromJson => true,
            _ => false,
        },
        Flag::All => match verb {
            Verb::Check => true,
            _ => false,
        },
        Flag::Quiet | Flag::BreakingOnly | Flag::Both => match verb {
            Verb::Compatible => true,
            _ => false,
        },
        Flag::Help => true,
    }
}

/// Whether a verb takes the options with words that stand there.
fn do_values_fit(verb: Verb, options: &Options<'_>) -> bool
    ensures { result ≡ values_fit verb (options_seen options.now) }
{
    (options.set.is_none() || takes_value(verb, ValueOption::Set))
        && (options.calls.is_none() || takes_value(verb, ValueOption::Calls))
        && (options.limit.is_none() || takes_value(verb, ValueOption::Limit))
        && (options.in_place.is_none() || takes_value(verb, ValueOption::InPlace))
}

/// Whether an option is none that stands where its verb doesn't take it.
fn is_allowed(stands: bool, verb: Verb, flag: Flag) -> bool
    ensures { result ≡ is_allowed stands (takes_flag verb flag) }
{
    !stands || takes_flag(verb, flag)
}

/// Whether a verb takes the options without words that stand there.
fn do_flags_fit(verb: Verb, options: &Options<'_>) -> bool
    ensures { result ≡ flags_fit verb (options_seen options.now) }
{
    is_allowed(options.indent, verb, Flag::Indent)
        && is_allowed(options.raw, verb, Flag::Raw)
        && is_allowed(options.paths, verb, Flag::Paths)
        && is_allowed(options.json, verb, Flag::Json)
        && is_allowed(options.keep_going, verb, Flag::KeepGoing)
        && is_allowed(options.packed, verb, Flag::Packed)
        && is_allowed(options.each, verb, Flag::Each)
        && is_allowed(options.strict, verb, Flag::Strict)
        && is_allowed(options.all, verb, Flag::All)
        && is_allowed(options.quiet, verb, Flag::Quiet)
        && is_allowed(options.breaking_only, verb, Flag::BreakingOnly)
        && is_allowed(options.both, verb, Flag::Both)
}

/// Whether a verb that makes no calls is to go on behind a message that is refused only where there are several.
fn does_going_fit(verb: Verb, options: &Options<'_>) -> bool
    ensures { result ≡ going_fits verb (options_seen options.now) }
{
    is_with_calls(verb) || !options.keep_going || options.each
}

/// Whether no file is to be replaced where a refused call or message may be passed over, which its messages would then lack.
fn does_place_fit(options: &Options<'_>) -> bool
    ensures { result ≡ place_fits (options_seen options.now) }
{
    options.in_place.is_none() || !options.keep_going
}

/// Whether a JSON is to be told neither as bytes nor behind its path.
fn does_style_fit(options: &Options<'_>) -> bool
    ensures { result ≡ style_fits (options_seen options.now) }
{
    !options.json || (!options.raw && !options.paths)
}

/// Whether a verb takes these options.
pub(crate) fn is_fit(verb: Verb, options: &Options<'_>) -> bool
    ensures { result ≡ is_fitting verb (options_seen options.now) }
{
    do_values_fit(verb, options)
        && do_flags_fit(verb, options)
        && does_going_fit(verb, options)
        && does_place_fit(options)
        && does_style_fit(options)
}
