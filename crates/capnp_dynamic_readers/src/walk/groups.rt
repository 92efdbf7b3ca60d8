//! The way of a print through the groups of a struct, which takes no memory: a group knows its field.
ghost use Rattle.std.specs.Prelude.{◌≡◌, ◌<◌, [], length, IfErr, IfOk, MatchOption, true};
ghost use Rattle.capnp_schema.specs.GroupFields.{group_field_of};
ghost use Rattle.capnp_schema.specs.GroupWalks.{above, frames, walk_brand, walk_depth, walk_index, walk_schema, walk_set};
ghost use Rattle.capnp_schema.specs.StructHandles.{number_of, set_of, struct_fields};
ghost use Rattle.capnp_records.specs.Text.{deeper, said_text};
ghost use Rattle.capnp_dynamic_readers.specs.Steps.GroupTexts.{closing, has_fields};
ghost use Rattle.capnp_dynamic_readers.specs.Steps.Pieces.{IsFull, IsStopped};
ghost use Rattle.capnp_dynamic_readers.specs.Steps.WalkSteps.{IsBracketClosed, IsGroupOpened, IsPast, IsStart};

use crate::walk::output::{Out, Stop};
use crate::walk::pieces::{one_deeper, one_shallower, put_line};
use capnp_schema::schema::{GroupWalk, StructSchema};

/// Where a print of a struct stands: among its fields or those of a group in it, whether the next item there is the
/// first, and how many brackets stand around it.
#[derive(Clone, Copy)]
pub(crate) struct Standing<'a> {
    pub(crate) walk: GroupWalk<'a>,
    pub(crate) first: bool,
    pub(crate) at: Option<u64>,
}

/// Whether a struct or group has a field.
pub(crate) fn has_fields(schema: StructSchema<'_>) -> bool
    ensures { result ≡ has_fields (struct_fields schema.entry) }
{
    let Ok(fields) = schema.get_fields() else {
        unreachable!()
    };
    fields.len() > 0
}

/// At the first field of a struct whose bracket is open.
pub(crate) fn start<'a>(schema: StructSchema<'a>, at: Option<u64>) -> Result<Standing<'a>, Stop>
    ensures start { IfOk result (IsStart schema.entry at) }
    ensures full { IfErr result IsFull }
{
    Ok(Standing {
        walk: GroupWalk::start(schema),
        first: true,
        at: one_deeper(at)?,
    })
}

/// Past the field that it stands at.
pub(crate) fn past(now: Standing<'_>, first: bool) -> Standing<'_>
    requires { walk_index now.walk < length (struct_fields (walk_schema now.walk)) }
    ensures { IsPast now.entry first result }
{
    Standing {
        walk: now.walk.advance(),
        first,
        at: now.at,
    }
}

/// At the first field of a group whose bracket is open. No place has room for the brackets of more groups than can be
/// counted.
pub(crate) fn open<'a>(now: Standing<'a>, group: StructSchema<'a>) -> Result<Standing<'a>, Stop>
    requires set { set_of group ≡ walk_set now.walk }
    requires field { group_field_of (walk_set now.walk) (number_of group)
        ≡ Some (walk_brand now.walk, walk_index now.walk) }
    ensures opened { IfOk result (IsGroupOpened now.entry group.entry) }
    ensures full { IfErr result IsFull }
{
    if now.walk.get_depth() == usize::MAX {
        return Err(Stop::Full);
    }
    Ok(Standing {
        walk: now.walk.enter(group),
        first: true,
        at: one_deeper(now.at)?,
    })
}

/// Appends the closing bracket of the struct or group that a print stands in; answers where it stands behind a group.
pub(crate) fn close<'a, O: Out>(
    now: Standing<'a>,
    out: &mut O,
) -> Result<Option<Standing<'a>>, Stop>
    ensures closed { IfOk result (IsBracketClosed now.entry (O.text out.old) (O.text out.new)) }
    ensures stopped { IfErr result (IsStopped (O.text out.old) (said_text (closing now.entry.at))) }
{
    let at = one_shallower(now.at);
    put_line(at, out)?;
    out.put(")")?;
    match now.walk.leave() {
        Some(walk) => Ok(Some(Standing {
            walk,
            first: false,
            at,
        })),
        None => Ok(None),
    }
}
