//! Pieces of text: lines, and what stands before an item.
ghost use Rattle.std.specs.Prelude.{◌≡◌, IfErr, IfOk, None, OnOk, Some, cond};
ghost use Rattle.capnp_schema.specs.FieldLists.{typed_of};
ghost use Rattle.capnp_records.specs.Text.{deeper, line, said_text, separator};
ghost use Rattle.capnp_dynamic_readers.specs.Steps.GroupTexts.{IsNamePut, name_text, shallower};
ghost use Rattle.capnp_dynamic_readers.specs.Steps.Pieces.{IsFull, IsPut, IsStopped};

use crate::walk::output::{Out, Stop};
use capnp_schema::schema::Field;

/// How many brackets stand around what is printed first; none where all is on one line.
pub(crate) fn layout(indented: bool) -> Option<u64>
    ensures { result ≡ cond indented (Some 0) None }
{
    if indented { Some(0) } else { None }
}

/// One bracket further in. No place has room for the lines of more brackets than can be counted.
#[tactic(auto, using(crate::proofs::Streams::deeper_is))]
pub(crate) fn one_deeper(at: Option<u64>) -> Result<Option<u64>, Stop>
    ensures deeper { IfOk result (λ further. further ≡ deeper at) }
    ensures full { IfErr result IsFull }
{
    match at {
        None => Ok(None),
        Some(u64::MAX) => Err(Stop::Full),
        Some(depth) => Ok(Some(depth + 1)),
    }
}

/// One bracket further out.
pub(crate) fn one_shallower(at: Option<u64>) -> Option<u64>
    ensures { result ≡ shallower at }
{
    match at {
        None => None,
        Some(0) => Some(0),
        Some(depth) => Some(depth - 1),
    }
}

/// A line break, where lines are broken.
pub(crate) fn put_line<O: Out>(at: Option<u64>, out: &mut O) -> Result<(), Stop>
    ensures put { OnOk result (IsPut (O.text out.old) (said_text (line at)) (O.text out.new)) }
    ensures stopped { IfErr result (IsStopped (O.text out.old) (said_text (line at))) }
{
    let Some(depth) = at else {
        return Ok(());
    };
    out.put("\n")?;
    for step in 0..depth {
        out.put("  ")?;
    }
    Ok(())
}

/// What stands before an item.
pub(crate) fn put_separator<O: Out>(at: Option<u64>, first: bool, out: &mut O) -> Result<(), Stop>
    ensures put { OnOk result (IsPut (O.text out.old) (said_text (separator at first)) (O.text out.new)) }
    ensures stopped { IfErr result (IsStopped (O.text out.old) (said_text (separator at first))) }
{
    if first {
        return put_line(at, out);
    }
    match at {
        None => out.put(", "),
        Some(_) => {
            out.put(",")?;
            put_line(at, out)
        }
    }
}

/// What stands before the text of an item: its separator and its name.
pub(crate) fn put_name<O: Out>(
    field: Field<'_>,
    at: Option<u64>,
    first: bool,
    out: &mut O,
) -> Result<(), Stop>
    ensures put { OnOk result (IsNamePut at first (typed_of field.entry) (O.text out.old) (O.text out.new)) }
    ensures stopped { IfErr result (IsStopped (O.text out.old) (said_text (name_text at first (typed_of field.entry)))) }
{
    put_separator(at, first, out)?;
    out.put(field.get_proto().name.as_str())?;
    out.put(" = ")
}
