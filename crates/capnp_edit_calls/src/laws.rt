//! What holds of edits.
ghost use Rattle.capnp_edit_calls.specs.Laws.{ActsLaw, EditedLaw};

use capnp_edits::laws::edit_law;
use capnp_records::laws::overlay_law;

/// An edit that is made leaves the record as it was, but for the elements of the list at the end of the path: these are
/// what the edit makes of those that were there.
pub fn edited_law()
    ensures { EditedLaw }
{
    overlay_law();
    edit_law();
}

/// Calls and edits in a row are a run of the machine of records.
pub fn acts_law()
    ensures { ActsLaw }
{
    overlay_law();
}
