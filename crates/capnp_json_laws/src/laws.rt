//! The laws of JSON for whole records.
ghost use Rattle.capnp_json_laws.specs.Distinct.{CheckedNamesAreDistinct, PlainNamesAreDistinct};
ghost use Rattle.capnp_json_laws.specs.Laws.{JsonComesBack, JsonIsAsBefore, RecordsAreReadBack, TreesAreRead};
ghost use Rattle.capnp_json_laws.specs.NewMessages.{NewMessagesHaveTheRecord};
ghost use Rattle.capnp_json_laws.specs.Roots.{MessagesAreReadBack, RootsAreReadBack};
ghost use Rattle.capnp_json_laws.specs.Shaped.{ReadersAreShaped};

use capnp_json_messages::laws::rules_are_there;
use capnp_json_names::laws::none_meet_where_apart;

/// The tree of a value is read as the value, but for what `as_read` says.
pub fn trees_are_read()
    ensures { TreesAreRead }
{}

/// The JSON of a record of a struct is read as the record, but for what `record_as_read` says: NaNs are the quiet one, a discriminant
/// without a member becomes member 0 with its default, and no levels are counted at missing parts.
pub fn records_are_read_back()
    ensures { RecordsAreReadBack }
{}

/// Where each discriminant is a member's, the record as it is read has the same JSON.
pub fn json_is_as_before()
    ensures { JsonIsAsBefore }
{}

/// What was read of a record's JSON has that JSON again, where each discriminant is a member's.
pub fn json_comes_back()
    ensures { JsonComesBack }
{}

/// What readers see of a struct is shaped as its schema says.
pub fn readers_are_shaped()
    ensures { ReadersAreShaped }
{}

/// The JSON of a message's root is read as the root's record, but for what `record_as_read` says.
pub fn roots_are_read_back()
    ensures { RootsAreReadBack }
{}

/// The JSON of a message is read as the record of its root, but for what `record_as_read` says.
pub fn messages_are_read_back()
    ensures { MessagesAreReadBack }
{}

/// In an accepted set whose fields have no names by annotations, names are distinct where those of enumerants are.
pub fn plain_names_are_distinct()
    ensures { PlainNamesAreDistinct }
{}

/// In an accepted set that the check of names passed, names are distinct where own names of enumerants are: so the laws above hold
/// there, which ask for distinct names.
pub fn checked_names_are_distinct()
    ensures { CheckedNamesAreDistinct }
{
    none_meet_where_apart();
}

/// The root of a message that is read of a record's JSON reads as the record, but for what `record_as_read` says.
pub fn new_messages_have_the_record()
    ensures { NewMessagesHaveTheRecord }
{
    rules_are_there();
}
