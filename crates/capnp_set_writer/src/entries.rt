//! Brands and enums, as their records are written.
ghost use Rattle.std.specs.Prelude.{◌≡◌, ⊤};
ghost use Rattle.capnp_schema.specs.Schema.{Brand, Enum, Enumerant, seen_brand, seen_enum, seen_enumerant};
ghost use Rattle.capnp_set_writer.specs.Kept.{BrandKept, EnumKept, EnumerantKept};
ghost use Rattle.capnp_set_writer.specs.Limits.{BrandFits, EnumFits, EnumHasKinds, EnumerantFits, EnumerantHasKinds};
ghost use Rattle.capnp_set_writer.specs.Trees.{brand_tree, enum_tree, enumerant_tree};

use crate::rows::{Part, put_parts};
use crate::types::put_type_lists;
use crate::writes::put_name;
use capnp_arena::arena::{Arena, Place};
use capnp_schema::record::{BrandRecord, EnumRecord, EnumerantRecord};
use capnp_wire::error::Result;
use capnp_wire::size::StructSize;

impl Part for BrandRecord {
    ghost Seen = { Brand };

    ghost seen = { seen_brand };

    ghost data_words = { 1 };

    ghost pointers = { 3 };

    ghost tree = { brand_tree };

    ghost kept = { BrandKept };

    ghost has_kinds = { λ b. ⊤ };

    ghost fits = { BrandFits };

    fn size() -> StructSize {
        StructSize {
            data_words: 1,
            pointers: 3,
        }
    }

    fn put(&self, arena: &mut Arena, place: Place) -> Result<()> {
        arena.set_number::<u32>(place, 0, self.node);
        put_parts(arena, place, 0, self.field_types.as_slice())?;
        put_parts(arena, place, 1, self.annotation_types.own.as_slice())?;
        put_type_lists(arena, place, 2, self.annotation_types.children.as_slice())
    }
}

impl Part for EnumerantRecord {
    ghost Seen = { Enumerant };

    ghost seen = { seen_enumerant };

    ghost data_words = { 0 };

    ghost pointers = { 2 };

    ghost tree = { enumerant_tree };

    ghost kept = { EnumerantKept };

    ghost has_kinds = { EnumerantHasKinds };

    ghost fits = { EnumerantFits };

    fn size() -> StructSize {
        StructSize {
            data_words: 0,
            pointers: 2,
        }
    }

    fn put(&self, arena: &mut Arena, place: Place) -> Result<()> {
        put_name(arena, place, 0, self.name.as_str())?;
        put_parts(arena, place, 1, self.annotations.as_slice())
    }
}

impl Part for EnumRecord {
    ghost Seen = { Enum };

    ghost seen = { seen_enum };

    ghost data_words = { 1 };

    ghost pointers = { 5 };

    ghost tree = { enum_tree };

    ghost kept = { EnumKept };

    ghost has_kinds = { EnumHasKinds };

    ghost fits = { EnumFits };

    fn size() -> StructSize {
        StructSize {
            data_words: 1,
            pointers: 5,
        }
    }

    fn put(&self, arena: &mut Arena, place: Place) -> Result<()> {
        arena.set_number::<u64>(place, 0, self.id);
        put_name(arena, place, 0, self.display_name.as_str())?;
        put_parts(arena, place, 1, self.annotations.as_slice())?;
        put_parts(arena, place, 2, self.enumerants.as_slice())?;
        put_parts(arena, place, 3, self.annotation_types.own.as_slice())?;
        put_type_lists(arena, place, 4, self.annotation_types.children.as_slice())
    }
}
