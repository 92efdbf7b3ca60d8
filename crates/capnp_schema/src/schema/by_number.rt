//! Schemas by their numbers in a set, and by the types that name them.
ghost use Rattle.std.specs.Prelude.{◌≡◌, ◌<◌, ◌≤◌, length, MatchOption};
ghost use Rattle.capnp_schema.specs.Accepted.{IsAccepted};
ghost use Rattle.capnp_schema.specs.Entries.{lists_seen};
ghost use Rattle.capnp_schema.specs.Enums.{IsEnum, enum_number, enum_set};
ghost use Rattle.capnp_schema.specs.StructHandles.{IsStruct, number_of, set_of};

use crate::schema::enums::EnumSchema;
use crate::schema::structs::StructSchema;
use crate::set::SchemaSet;

impl SchemaSet {
    /// The schema of the struct or group of a brand number. It answers for every number: past the last brand the schema
    /// has no fields, and a record with nothing in it.
    pub fn struct_schema(&self, number: u32) -> StructSchema<'_>
        ensures set { set_of result ≡ lists_seen self.now }
        ensures number { number_of result ≡ number }
        ensures stands { number < length (lists_seen self.now).brands → IsStruct result }
        ensures accepted { IsAccepted (lists_seen self.now) }
    {
        // The prover learns the set's invariant from this call.
        let _lists = self.accepted_lists();
        StructSchema {
            schemas: self,
            number,
        }
    }

    /// The schema of the struct or group of a brand number, as a struct type and the place of a group have it. None
    /// past the last brand.
    pub fn get_struct(&self, number: u32) -> Option<StructSchema<'_>>
        ensures { MatchOption result (length (lists_seen self.now).brands ≤ number)
            (λ s. IsStruct s × (set_of s ≡ lists_seen self.now) × (number_of s ≡ number)) }
    {
        if (number as usize) < self.brands().len() {
            return Some(self.struct_schema(number));
        }
        None
    }

    /// The schema of the enum of a number. It answers for every number: past the last enum the schema has no
    /// enumerants, and a record with nothing in it.
    pub fn enum_schema(&self, number: u32) -> EnumSchema<'_>
        ensures set { enum_set result ≡ lists_seen self.now }
        ensures number { enum_number result ≡ number }
        ensures stands { number < length (lists_seen self.now).enums → IsEnum result }
        ensures accepted { IsAccepted (lists_seen self.now) }
    {
        // The prover learns the set's invariant from this call.
        let _lists = self.accepted_lists();
        EnumSchema {
            schemas: self,
            number,
        }
    }

    /// The schema of the enum of a number, as an enum type has it. None past the last enum.
    pub fn get_enum(&self, number: u32) -> Option<EnumSchema<'_>>
        ensures { MatchOption result (length (lists_seen self.now).enums ≤ number)
            (λ e. IsEnum e × (enum_set e ≡ lists_seen self.now) × (enum_number e ≡ number)) }
    {
        if (number as usize) < self.enums().len() {
            return Some(self.enum_schema(number));
        }
        None
    }
}
