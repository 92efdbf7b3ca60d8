//! Where a write of a struct stands, which takes no memory: a group knows its field.
ghost use Rattle.std.specs.Prelude.{◌≡◌, IfErr, IfOk, Some};
ghost use Rattle.capnp_schema.specs.FieldLists.{index_of};
ghost use Rattle.capnp_schema.specs.GroupFields.{group_field_of};
ghost use Rattle.capnp_schema.specs.StructHandles.{number_of, set_of};
ghost use Rattle.capnp_json.specs.Pieces.{said};
ghost use Rattle.capnp_json.specs.Steps.Puts.{IsMemory, IsStopped};
ghost use Rattle.capnp_json.specs.Steps.Records.{IsClosed, IsGroupOpened, IsStart, closing};
ghost use Rattle.capnp_json.specs.Steps.Walks.{walk_brand, walk_set};

use crate::error::JsonError;
use crate::lines::{one_deeper, one_shallower, put_closing};
use crate::output::Output;
use crate::walk::Walk;
use capnp_schema::schema::{Field, StructSchema};

/// Among the fields of a struct or of a group in it, whether the next item there is the first, and how many brackets
/// stand around it.
#[derive(Clone, Copy)]
pub(crate) struct Standing<'a> {
    pub(crate) walk: Walk<'a>,
    pub(crate) first: bool,
    pub(crate) at: Option<u64>,
}

/// At the first field of a struct whose bracket is open.
pub(crate) fn start<'a>(
    schema: StructSchema<'a>,
    at: Option<u64>,
) -> Result<Standing<'a>, JsonError>
    ensures start { IfOk result (IsStart schema.entry at) }
    ensures memory { IfErr result IsMemory }
{
    Ok(Standing {
        walk: Walk::start(schema),
        first: true,
        at: one_deeper(at)?,
    })
}

/// At the first field of a group whose bracket is open. No memory has room for the brackets of more groups than can be
/// counted.
pub(crate) fn open<'a>(
    behind: Walk<'a>,
    at: Option<u64>,
    field: Field<'a>,
    group: StructSchema<'a>,
) -> Result<Standing<'a>, JsonError>
    requires set { set_of group ≡ walk_set behind }
    requires back { group_field_of (walk_set behind) (number_of group) ≡ Some (walk_brand behind, index_of field) }
    ensures opened { IfOk result (IsGroupOpened at behind.entry field.entry group.entry) }
    ensures memory { IfErr result IsMemory }
{
    if behind.get_depth() == usize::MAX {
        return Err(JsonError::OutOfMemory);
    }
    Ok(Standing {
        walk: behind.enter(field, group),
        first: true,
        at: one_deeper(at)?,
    })
}

/// Appends the closing bracket of the struct or group that a write stands in; answers where it stands behind a group.
pub(crate) fn close<'a>(
    out: &mut Output,
    now: Standing<'a>,
) -> Result<Option<Standing<'a>>, JsonError>
    ensures closed { IfOk result (IsClosed now.entry out.old out.new) }
    ensures stopped { IfErr result (IsStopped out.old (said (closing now.entry))) }
{
    if let Err(why) = put_closing(out, now.at, now.first, b"}") {
        return Err(why);
    }
    match now.walk.leave() {
        Some(walk) => Ok(Some(Standing {
            walk,
            first: false,
            at: one_shallower(now.at),
        })),
        None => Ok(None),
    }
}
