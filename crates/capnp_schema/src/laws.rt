//! What holds of every set of schemas that was accepted: laws that everything which reads or writes fields stands on.
ghost use Rattle.capnp_schema.specs.Defaults.{DefaultsFit};
ghost use Rattle.capnp_schema.specs.Entries.{lists_seen};
ghost use Rattle.capnp_schema.specs.GroupsDown.{GroupsLeadDown};
ghost use Rattle.capnp_schema.specs.Laws.{GroupFieldsNameBrands, GroupNamesItsParts, HeightsFall, NoneNamesDiscriminant, OnlyMembersMeet};
ghost use Rattle.capnp_schema.specs.Layers.{TypesGoByLayers};
ghost use Rattle.capnp_schema.specs.Ranges.{HasRanges};

mod bits;

pub use crate::laws::bits::{
    bits_are_numbers, masks_undo, slots_are_numbers, written_bits_are_read,
};
use crate::set::SchemaSet;

/// Two fields of a struct or group occupy the same data bit or pointer only where both are members
/// of its union.
#[tactic(auto, using(crate::specs::Facts::Groups::only_members_meet))]
pub fn only_members_meet()
    ensures { OnlyMembersMeet }
{}

/// No field of a struct or group occupies a bit of its discriminant.
#[tactic(auto, using(crate::specs::Facts::Groups::none_names_discriminant))]
pub fn none_names_discriminant()
    ensures { NoneNamesDiscriminant }
{}

/// What a group field names is what the fields of its group and the group's discriminant name.
#[tactic(auto, using(crate::specs::Facts::Groups::group_names_its_parts))]
pub fn group_names_its_parts()
    ensures { GroupNamesItsParts }
{}

/// A group field is the group field of the brand that its type names.
#[tactic(auto, using(crate::specs::Facts::Groups::group_fields_name_brands))]
pub fn group_fields_name_brands()
    ensures { GroupFieldsNameBrands }
{}

/// Each group field leads to a group of the set, of lesser height; a height is at most the number of brands. What goes
/// down groups ends by it.
#[tactic(auto, using(crate::specs::Facts::Groups::heights_fall))]
pub fn heights_fall()
    ensures { HeightsFall }
{}

/// The numbers of a set fit the integer types of its records: discriminants, offsets and section sizes, the bytes of
/// texts and words, and each default, which has no more bits than its type. The numbers of types take 1, 2, 4 or 8
/// bytes.
pub fn numbers_fit(schemas: &SchemaSet)
    ensures { HasRanges (lists_seen schemas.now) }
{
    let _ = schemas.accepted_lists();
}

/// Each group field leads to a group of the set that has the sections of its struct, and lesser height.
#[tactic(auto, using(crate::proofs::GroupsDown::leads_to_group))]
pub fn groups_lead_down()
    ensures { GroupsLeadDown }
{}

/// Each field's default is of its type or an untyped null, has whole words and decodes; and what stands behind its
/// pointer has no fault leaf, and is what the field's type reads or null.
#[tactic(auto, using(crate::proofs::Defaults::default_fits))]
pub fn defaults_fit()
    ensures { DefaultsFit }
{}

/// What `which` answers of a type stands for the same as the type. So a type that names entries of a set names them by
/// its layer: a struct its brand and node, an enum its entry, a list what its elements name.
#[tactic(auto, using(crate::specs::Facts::Layers::seen_which))]
pub fn types_go_by_layers()
    ensures { TypesGoByLayers }
{}
