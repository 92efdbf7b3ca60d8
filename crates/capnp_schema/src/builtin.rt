//! A small set of schemas that is built in: structs, unions, groups, lists, an enum and annotations, for examples and
//! tests.
ghost use Rattle.std.specs.Prelude.{◌≡◌, map, IfErr, IfOk};
ghost use Rattle.capnp_device.specs.declared.error.ErrorKind.TheVariants.{OutOfMemory};
ghost use Rattle.capnp_schema.specs.Schema.{Enumerant, seen_enum, seen_enumerant, seen_schemas};
ghost use Rattle.capnp_schema.specs.Accepted.{IsAccepted};
ghost use Rattle.capnp_schema.specs.Builtin as set;
ghost use Rattle.capnp_schema.specs.Entries.{lists_seen};

mod table;

use crate::builtin::table::{NODES, SIZES};
use crate::making::no_types;
use crate::record::{AnnotationTypes, BrandRecord, EnumRecord, EnumerantRecord, NodeRecord};
use crate::set::SchemaSet;
use crate::table_rows::{MadeOf, all_made, brand_records, node_records};
use capnp_wire::error::Error;
use std::alloc::{AllocError, Global};

/// The number of the struct `Flat`.
pub const FLAT: u32 = 0;
/// The number of the struct `Mixed`.
pub const MIXED: u32 = 1;
/// The number of the struct `Many`.
pub const MANY: u32 = 2;
/// The number of the struct `Shapes`.
pub const SHAPES: u32 = 3;
/// The number of the struct `Loop`.
pub const LOOP: u32 = 6;
/// The number of the struct `Lists`.
pub const LISTS: u32 = 7;
/// The number of the struct `Node`.
pub const NODE: u32 = 8;

impl MadeOf<&'static str> for EnumerantRecord {
    ghost Seen = { Enumerant };

    ghost seen = { seen_enumerant };

    ghost of_row = { λ name. set.enumerant name.now };

    fn make(alloc: Global, name: &&'static str) -> Result<EnumerantRecord, AllocError> {
        let name = String::from_str(alloc, name)?;
        Ok(EnumerantRecord {
            name,
            annotations: Vec::new(alloc),
        })
    }
}

fn element_size_enum(alloc: Global) -> Result<EnumRecord, AllocError>
    ensures { IfOk result (λ e. seen_enum e ≡ set.element_size_enum) }
{
    Ok(EnumRecord {
        id: 200,
        display_name: String::from_str(alloc, "ElementSize")?,
        annotations: Vec::new(alloc),
        enumerants: all_made(alloc, &SIZES)?,
        annotation_types: AnnotationTypes {
            own: Vec::new(alloc),
            children: no_types(alloc, 8)?,
        },
    })
}

fn enums(alloc: Global) -> Result<Vec<EnumRecord>, AllocError>
    ensures { IfOk result (λ enums. map seen_enum enums.items ≡ set.builtin.enums) }
{
    let enums = vec![in alloc; element_size_enum(alloc)?]?;
    Ok(enums)
}

/// The nodes, brands and enums of the built-in set, of which a `SchemaSet` is made.
///
/// Brand k has node k, whose id is 100 + k; the structs' numbers are public: 0 `Flat`, a struct of one number; 1
/// `Mixed`, with a union of nothing and a number; 2 `Many`, numbers with defaults; 3 `Shapes`, whose union's members
/// are the groups 4 `Shapes.circle` and 5 `Shapes.tag`, which has a union of its own, and a text; 6 `Loop`, a union
/// that may hold a `Loop`; 7 `Lists`; 8 `Node`, with annotations. Enum 0 is `ElementSize`, of id 200.
///
/// The lists meet the twelve rules, so that a set of them is refused for memory alone.
///
/// Refused with `OutOfMemory` alone.
pub fn records(alloc: Global) -> Result<(Vec<NodeRecord>, Vec<BrandRecord>, Vec<EnumRecord>), Error>
    ensures ok { IfOk result (λ r. seen_schemas r.0.items r.1.items r.2.items ≡ set.builtin) }
    ensures accepted { IfOk result (λ r. IsAccepted (seen_schemas r.0.items r.1.items r.2.items)) }
    ensures err { IfErr result (λ e. e.kind ≡ OutOfMemory) }
{
    let nodes = node_records(alloc, &NODES)?;
    let brands = brand_records(alloc, &NODES)?;
    let enums = enums(alloc)?;
    Ok((nodes, brands, enums))
}

/// The built-in set, whose lists meet the twelve rules. Refused for memory alone.
pub fn new_set(alloc: Global) -> Result<SchemaSet, Error>
    ensures set { IfOk result (λ made. lists_seen made ≡ set.builtin) }
    ensures refused { IfErr result (λ e. e.kind ≡ OutOfMemory) }
{
    let (nodes, brands, enums) = records(alloc)?;
    SchemaSet::of_accepted(alloc, nodes, brands, enums)
}
