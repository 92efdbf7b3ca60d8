//! What holds of records, of the machine of records, and of writes on trees.
ghost use Rattle.capnp_records.specs.Laws.{DefaultPartsStand, ExtensionChangesNothing, FirstMemberIsActive, FormedLaw, GroupClearStaysInside, GroupCopyStaysInside, GroupIsCleared, GroupIsCopied, GroupPrintLaw, OverlayLaw, PartDependsOnFootprint, PrintLaw, ProjectionLaw, RoundingChangesNothing, SlotIsWritten, SlotWriteStaysInside, UpgradeLaw, ValuePrintLaw, WriteReplacesOnePart};
ghost use Rattle.capnp_records.specs.ReadBack.{ClearIsRead, ClearedIsActive, ContentIsRead, CopiedIsActive, CopyIsRead, DataIsRead, GroupStartsAtFirst, NumberIsRead, OthersAreRead, OthersAreThere, NonUnionKeepsActive, TextIsRead, WrittenIsActive};

use capnp_wire::laws::elements_stand_first;

/// What a field has of a struct depends on its footprint alone: structs that have the same data
/// bits and pointers there give it the same part of their records.
#[tactic(auto, using(crate::proofs::AllLaws::part_depends))]
pub fn part_depends_on_footprint()
    ensures { PartDependsOnFootprint }
{}

/// In an accepted set the default record has each number at its default, nothing behind each pointer,
/// each group at its default record, and the member of discriminant value 0 active.
pub fn default_record_is_of_defaults()
    ensures parts { DefaultPartsStand }
    ensures member { FirstMemberIsActive }
{}

/// The record of a struct stays the same when the struct is extended with zeros and nulls, and when
/// its data is rounded up to whole words.
pub fn extension_changes_nothing()
    ensures extended { ExtensionChangesNothing }
    ensures rounded { RoundingChangesNothing }
{}

/// A write inside a field's footprint, once the union is switched to a member, replaces that field's
/// part of the record and nothing else.
pub fn write_replaces_one_part()
    ensures { WriteReplacesOnePart }
{}

/// A slot that is written has what was written, and the struct is as it was outside the slot's
/// footprint and, of a member, the discriminant.
pub fn slot_is_written()
    ensures written { SlotIsWritten }
    ensures inside { SlotWriteStaysInside }
{}

/// A group that is cleared has the default record, and the struct is as it was outside the group
/// field's footprint and, of a member, the discriminant.
pub fn group_is_cleared()
    ensures cleared { GroupIsCleared }
    ensures inside { GroupClearStaysInside }
{}

/// A group that is copied has the record that the copy of groups says, also where the copy is cut
/// short, and the struct is as it was outside the group field's footprint and, of a member, the
/// discriminant.
#[tactic(auto, using(crate::proofs::AllLaws::group_copied, crate::proofs::AllLaws::copy_inside))]
pub fn group_is_copied()
    ensures copied { GroupIsCopied }
    ensures inside { GroupCopyStaysInside }
{}

/// On an accepted set, what a list of calls does to a root's tree is what the machine of records
/// does to its record.
#[tactic(auto, using(crate::proofs::AllLaws::run_is_run))]
pub fn overlay_law()
    ensures { OverlayLaw }
{}

/// A list of calls leaves a well-formed root well-formed.
#[tactic(auto, using(crate::proofs::AllLaws::run_formed))]
pub fn formed_law()
    ensures { FormedLaw }
{}

/// A text that a reader with few levels has of a struct, a group or another value is the text of the
/// whole record or value.
pub fn print_law()
    ensures records { PrintLaw }
    ensures groups { GroupPrintLaw }
    ensures values { ValuePrintLaw }
{}

/// The record of a struct under an older compatible schema is the projection of its record under the
/// newer one, at every depth and with the same levels.
#[tactic(auto, using(crate::proofs::AllLaws::projected_record))]
pub fn projection_law()
    ensures { ProjectionLaw }
{}

/// Where lists became lists of structs: of a struct whose lists are read as what they were, the record under the older
/// schema is the projection of that under the newer one, but for the levels that missing parts carry.
pub fn upgrade_law()
    ensures { UpgradeLaw }
{
    elements_stand_first();
}

/// What is written into a slot is read there, by a reader with any number of levels left: a number, a truth value or an
/// enum's number that was set is the value, a text or data its bytes, and what else was copied what the slot's own type
/// reads of it. A member is the active one then.
pub fn written_slots_are_read()
    ensures content { ContentIsRead }
    ensures numbers { NumberIsRead }
    ensures copies { CopyIsRead }
    ensures texts { TextIsRead }
    ensures data { DataIsRead }
    ensures active { WrittenIsActive }
{}

/// A slot that was cleared is read as its default.
pub fn cleared_slots_are_read()
    ensures { ClearIsRead }
{}

/// A group that was cleared or initialized has its member of discriminant value 0 active, where it has one; and a group
/// that is a member itself is the active one after it was cleared, initialized or set.
pub fn groups_are_active()
    ensures first { GroupStartsAtFirst }
    ensures cleared { ClearedIsActive }
    ensures copied { CopiedIsActive }
{}

/// A write of a field changes nothing of what another one is read as, nor of whether it is there, unless both are
/// members; and that of a non-union field leaves the active member.
pub fn other_fields_are_read()
    ensures read { OthersAreRead }
    ensures there { OthersAreThere }
    ensures active { NonUnionKeepsActive }
{}
