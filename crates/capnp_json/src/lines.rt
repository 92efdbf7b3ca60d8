//! Lines and brackets.
ghost use Rattle.std.specs.Prelude.{◌≡◌, ◌++◌, IfErr, IfOk, None, OnOk, Some, codes, cond};
ghost use Rattle.capnp_records.specs.Text.{deeper, line};
ghost use Rattle.capnp_json.specs.Pieces.{colon, ending, said, separator, shallower};
ghost use Rattle.capnp_json.specs.Steps.Puts.{IsMemory, IsPut, IsStopped};

use crate::error::JsonError;
use crate::output::Output;

/// How many brackets stand around what is put first; none where all is on one line.
pub(crate) fn layout(indented: bool) -> Option<u64>
    ensures { result ≡ cond indented (Some 0) None }
{
    if indented { Some(0) } else { None }
}

/// One bracket further in. No memory has room for the lines of more brackets than can be counted.
#[tactic(auto, using(crate::proofs::LineSteps::deeper_is))]
pub(crate) fn one_deeper(at: Option<u64>) -> Result<Option<u64>, JsonError>
    ensures deeper { IfOk result (λ further. further ≡ deeper at) }
    ensures memory { IfErr result IsMemory }
{
    match at {
        None => Ok(None),
        Some(u64::MAX) => Err(JsonError::OutOfMemory),
        Some(depth) => Ok(Some(depth + 1)),
    }
}

/// One bracket further out.
pub(crate) fn one_shallower(at: Option<u64>) -> Option<u64>
    ensures { result ≡ shallower at }
{
    match at {
        None => None,
        Some(0) => Some(0),
        Some(depth) => Some(depth - 1),
    }
}

/// Appends a line break with the spaces of so many brackets.
fn put_spaces(out: &mut Output, depth: u64) -> Result<(), JsonError>
    ensures put { OnOk result (IsPut out.old (said (line (Some depth))) out.new) }
    ensures stopped { IfErr result (IsStopped out.old (said (line (Some depth)))) }
{
    if let Err(why) = out.put(b"\n") {
        return Err(why);
    }
    for step in 0..depth {
        if let Err(why) = out.put(b"  ") {
            return Err(why);
        }
    }
    Ok(())
}

/// Appends a line break, where lines are broken.
pub(crate) fn put_line(out: &mut Output, at: Option<u64>) -> Result<(), JsonError>
    ensures put { OnOk result (IsPut out.old (said (line at)) out.new) }
    ensures stopped { IfErr result (IsStopped out.old (said (line at))) }
{
    match at {
        Some(depth) => put_spaces(out, depth),
        None => Ok(()),
    }
}

/// Appends what stands before an item that is not the first.
fn put_comma(out: &mut Output, at: Option<u64>) -> Result<(), JsonError>
    ensures put { OnOk result (IsPut out.old (said (codes "," ++ line at)) out.new) }
    ensures stopped { IfErr result (IsStopped out.old (said (codes "," ++ line at))) }
{
    if let Err(why) = out.put(b",") {
        return Err(why);
    }
    put_line(out, at)
}

/// Appends what stands before an item.
pub(crate) fn put_separator(out: &mut Output, at: Option<u64>, first: bool) -> Result<(), JsonError>
    ensures put { OnOk result (IsPut out.old (said (separator at first)) out.new) }
    ensures stopped { IfErr result (IsStopped out.old (said (separator at first))) }
{
    if first {
        put_line(out, at)
    } else {
        put_comma(out, at)
    }
}

/// Appends a closing bracket on a line of its own, where lines are broken.
fn put_closing_line(out: &mut Output, at: Option<u64>, closing: &[u8]) -> Result<(), JsonError>
    ensures put { OnOk result (IsPut out.old (said (line (shallower at) ++ closing.now)) out.new) }
    ensures stopped { IfErr result (IsStopped out.old (said (line (shallower at) ++ closing.now))) }
{
    if let Err(why) = put_line(out, one_shallower(at)) {
        return Err(why);
    }
    out.put(closing)
}

/// Appends a closing bracket, behind its opening one or behind items.
pub(crate) fn put_closing(
    out: &mut Output,
    at: Option<u64>,
    first: bool,
    closing: &[u8],
) -> Result<(), JsonError>
    ensures put { OnOk result (IsPut out.old (said (ending at first ++ closing.now)) out.new) }
    ensures stopped { IfErr result (IsStopped out.old (said (ending at first ++ closing.now))) }
{
    if first {
        out.put(closing)
    } else {
        put_closing_line(out, at, closing)
    }
}

/// Appends what stands between a name and its value.
pub(crate) fn put_colon(out: &mut Output, at: Option<u64>) -> Result<(), JsonError>
    ensures put { OnOk result (IsPut out.old (said (colon at)) out.new) }
    ensures stopped { IfErr result (IsStopped out.old (said (colon at))) }
{
    match at {
        None => out.put(b":"),
        Some(_) => out.put(b": "),
    }
}
