//! Structs of a set by their display names.
ghost use Rattle.std.specs.Prelude.{None, ◌≡◌, ◌<◌, ◌&&◌, not, IfSome, MatchOption, Some, bytes_eq, length};
ghost use Rattle.capnp_schema.specs.ByName.{brand_asked};
ghost use Rattle.capnp_schema.specs.Entries.{lists_seen};
ghost use Rattle.capnp_schema.specs.Schema.{node_of};
ghost use Rattle.capnp_schema.specs.StructHandles.{IsStruct, number_of, set_of};

use crate::schema::structs::StructSchema;
use crate::set::SchemaSet;

/// Whether a brand of a set is no group, and its node has the display name.
fn is_named(schemas: &SchemaSet, brand: u32, name: &str) -> bool
    ensures { result ≡ (not (node_of (lists_seen schemas.now) brand).is_group && bytes_eq name.now
        (node_of (lists_seen schemas.now) brand).display_name) }
{
    let node = schemas.struct_schema(brand).get_proto();
    !node.body.is_group && name == node.display_name.as_str()
}

/// The number of the first brand that is no group and whose node has the display name.
fn find_brand(schemas: &SchemaSet, name: &str) -> Option<u32>
    ensures found { result ≡ brand_asked (lists_seen schemas.now) name.now }
    ensures inside { IfSome result (λ b. b < length (lists_seen schemas.now).brands) }
{
    for index in 0..schemas.brands().len() {
        let Ok(brand) = u32::try_from(index) else {
            return None;
        };
        if is_named(schemas, brand, name) {
            return Some(brand);
        }
    }
    None
}

impl SchemaSet {
    /// The struct of a display name: the first brand in order that is no group and whose node has that name. None where
    /// there is no such brand. It looks at each brand up to that one.
    pub fn find_struct(&self, name: &str) -> Option<StructSchema<'_>>
        ensures { MatchOption result (brand_asked (lists_seen self.now) name.now ≡ None)
            (λ s. IsStruct s × (set_of s ≡ lists_seen self.now)
            × (brand_asked (lists_seen self.now) name.now ≡ Some (number_of s))) }
    {
        let brand = find_brand(self, name)?;
        Some(self.struct_schema(brand))
    }
}
