//! The lists of a set with what is known of them, and enumerants by numbers that are known to be theirs.
ghost use Rattle.std.specs.Prelude.{◌≡◌, ◌<◌, length};
ghost use Rattle.capnp_schema.specs.Accepted.{IsAccepted};
ghost use Rattle.capnp_schema.specs.Entries.{lists_seen};
ghost use Rattle.capnp_schema.specs.Annotated.{enumerant_at};
ghost use Rattle.capnp_schema.specs.Ranges.{HasRanges};
ghost use Rattle.capnp_schema.specs.Schema.{enum_at, seen_enumerant};

use crate::lists::Lists;
use crate::record::EnumerantRecord;
use crate::set::SchemaSet;

impl SchemaSet {
    /// The lists, which meet the twelve rules, and whose numbers fit their integer types.
    pub(crate) fn accepted_lists(&self) -> &Lists
        ensures is { result.now ≡ self.now }
        ensures accepted { IsAccepted (lists_seen result.now) }
        ensures ranges { HasRanges (lists_seen result.now) }
    {
        &self.lists
    }

    /// The enumerant of an ordinal in an enum, which has to be there.
    #[tactic(auto, using(crate::proofs::EnumLemmas::enumerant_read))]
    pub(crate) fn enumerant_in_range(&self, number: u32, ordinal: u16) -> &EnumerantRecord
        requires { ordinal < length (enum_at (lists_seen self.now) number).enumerants }
        ensures { seen_enumerant result.now ≡ enumerant_at (lists_seen self.now) number ordinal }
    {
        let Some(record) = self.accepted_lists().enum_at(number as usize) else {
            unreachable!()
        };
        &record.enumerants[ordinal as usize]
    }

    /// How many enumerants an enum has, none past the end of the enums.
    pub(crate) fn count_enumerants(&self, number: u32) -> u16
        ensures { result ≡ length (enum_at (lists_seen self.now) number).enumerants }
    {
        match self.accepted_lists().enum_at(number as usize) {
            Some(record) => record.enumerants.len() as u16,
            None => 0,
        }
    }
}
