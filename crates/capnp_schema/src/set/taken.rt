//! A set is taken apart into its lists with their tables of names, and made of them again.
ghost use Rattle.std.specs.Prelude.{◌≡◌, IfErr, IfOk};
ghost use Rattle.capnp_device.specs.declared.error.ErrorKind.TheVariants.{OutOfMemory};
ghost use Rattle.capnp_schema.specs.Accepted.{IsAccepted};
ghost use Rattle.capnp_schema.specs.Entries.{lists_seen};
ghost use Rattle.capnp_schema.specs.Schema.{seen_schemas};
ghost use Rattle.capnp_schema.specs.Tables.{AreNameTables};

use crate::lists::Lists;
use crate::record::{BrandRecord, EnumRecord, NodeRecord};
use crate::set::SchemaSet;
use capnp_wire::error::Result;
use std::alloc::Global;

/// The lists of a set, and the tables of its fields by name.
#[derive(Drop)]
pub struct SetLists {
    pub nodes: Vec<NodeRecord>,
    pub brands: Vec<BrandRecord>,
    pub enums: Vec<EnumRecord>,
    /// For each node the indices of its fields, in the order of their names.
    pub by_name: Vec<Vec<u16>>,
}

impl SchemaSet {
    /// A set of lists that are known to meet the twelve rules, with the tables of their names, of which none is looked at
    /// again. Refused for memory alone, which drops the lists.
    ///
    /// # Conditions
    ///
    /// The lists meet the twelve rules, and the tables are those of their names, as the lists and tables of two sets are
    /// that stand one behind the other.
    pub fn of_lists(alloc: Global, lists: SetLists) -> Result<SchemaSet>
        requires accepted { IsAccepted (seen_schemas lists.nodes.items lists.brands.items lists.enums.items) }
        requires names { AreNameTables (seen_schemas lists.nodes.items lists.brands.items lists.enums.items) lists.by_name.items }
        ensures set { IfOk result (λ schemas. lists_seen schemas
            ≡ seen_schemas lists.nodes.items lists.brands.items lists.enums.items) }
        ensures refused { IfErr result (λ e. e.kind ≡ OutOfMemory) }
    {
        let SetLists {
            nodes,
            brands,
            enums,
            by_name,
        } = lists;
        let lists = Lists {
            nodes,
            brands,
            enums,
        };
        SchemaSet::with_names(alloc, lists, by_name)
    }

    /// The lists of this set, which meet the twelve rules, and the tables of their names.
    pub fn into_lists(self) -> SetLists
        ensures is { seen_schemas result.nodes.items result.brands.items result.enums.items ≡ lists_seen self }
        ensures accepted { IsAccepted (lists_seen self) }
        ensures names { AreNameTables (lists_seen self) result.by_name.items }
    {
        let SchemaSet { lists, tables } = self;
        SetLists {
            nodes: lists.nodes,
            brands: lists.brands,
            enums: lists.enums,
            by_name: tables.by_name,
        }
    }

    /// For each node the indices of its fields, in the order of their names.
    pub fn name_tables(&self) -> &[Vec<u16>]
        ensures { AreNameTables (lists_seen self.now) result.now }
    {
        self.tables.by_name.as_slice()
    }
}
