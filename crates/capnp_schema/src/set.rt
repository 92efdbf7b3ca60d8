//! Sets of schemas that the check accepted.
ghost use Rattle.std.specs.Prelude.{◌≡◌, IfErr, IfOk, MatchResult, OnOk, map};
ghost use Rattle.capnp_device.specs.declared.error.ErrorKind.TheVariants.{OutOfMemory};
ghost use Rattle.capnp_schema.specs.Accepted.{IsAccepted};
ghost use Rattle.capnp_schema.specs.Broken.{IsRefusalOf};
ghost use Rattle.capnp_schema.specs.Entries.{lists_seen};
ghost use Rattle.capnp_schema.specs.Schema.{seen_brand, seen_enum, seen_node, seen_schemas};
ghost use Rattle.capnp_schema.specs.Steps.Checking.Parents.{IsParentTable};
ghost use Rattle.capnp_schema.specs.Tables.{AreNameTables};

mod annotated;
mod look_up;
mod records;
mod taken;

use crate::check::footprints::check_footprints;
use crate::check::groups::{check_groups, parent_table};
use crate::check::lengths::check_lengths;
use crate::check::names::{check_names, name_tables};
use crate::check::types::check_types;
use crate::check::unions::{check_discriminants, check_unions};
use crate::check::values::check_values;
use crate::lists::Lists;
use crate::ranges::numbers_fit;
use crate::record::{BrandRecord, EnumRecord, NodeRecord};
use crate::tables::{FieldTables, field_tables};
use capnp_wire::error::Result;
use std::alloc::Global;
use std::marker::Model;
pub use taken::SetLists;

/// Nodes, brands and enums that meet the twelve rules of schemas. Whoever has a set knows that it meets them.
///
/// # Example
///
/// ```rust
/// let none = ValueRecord::Text(Vec::new(alloc));
/// let name = FieldRecord::slot(alloc, "name", 0, none)?;
/// let older = NodeRecord::structure(alloc, 1, "OldAccount", 0, 1, vec![in alloc; name]?)?;
/// let none = ValueRecord::Text(Vec::new(alloc));
/// let name = FieldRecord::slot(alloc, "name", 0, none)?;
/// let balance = FieldRecord::slot(alloc, "balance", 0, ValueRecord::Int64(0))?;
/// let newer = NodeRecord::structure(alloc, 1, "Account", 1, 1, vec![in alloc; name, balance]?)?;
/// let text = Type::from(TypeVariant::Text);
/// let integer = Type::from(TypeVariant::Int64);
/// let older_brand = BrandRecord::new(alloc, 0, vec![in alloc; text]?)?;
/// let newer_brand = BrandRecord::new(alloc, 1, vec![in alloc; text, integer]?)?;
/// SchemaSet::new(
///     alloc,
///     vec![in alloc; older, newer]?,
///     vec![in alloc; older_brand, newer_brand]?,
///     Vec::new(alloc),
/// )
/// ```
#[derive(Drop)]
pub struct SchemaSet {
    lists: Lists,
    tables: FieldTables,
}

impl Model for SchemaSet {
    ghost use Rattle.capnp_schema.specs.declared.lists.Lists.{Lists};

    ghost Value = { Lists };

    ghost use Rattle.capnp_schema.specs.Accepted.{IsAccepted};
    ghost use Rattle.capnp_schema.specs.Entries.{lists_seen};
    ghost use Rattle.capnp_schema.specs.Ranges.{HasRanges};
    ghost use Rattle.capnp_schema.specs.Tables.{AreTables};

    ghost view = { λ s. s.lists };

    ghost invariant = { λ s. IsAccepted (lists_seen s.lists) × AreTables (lists_seen s.lists) s.tables
        × HasRanges (lists_seen s.lists) };
}

/// What the check of lists leaves.
#[derive(Drop)]
struct Checked {
    /// The fields of each node in the order of their names.
    by_name: Vec<Vec<u16>>,
    /// At each brand the brand and the index of the group field that names it.
    parents: Vec<Option<(usize, usize)>>,
}

/// The tables of fields by name and of group fields, of lists that meet the twelve rules. A refusal names a rule that
/// is broken and where, or is for memory.
fn check(alloc: Global, lists: &Lists) -> Result<Checked>
    ensures { MatchResult result
        (λ checked. IsAccepted (lists_seen lists.now)
        × AreNameTables (lists_seen lists.now) checked.by_name.items
        × IsParentTable (lists_seen lists.now) checked.parents.items)
        (IsRefusalOf (lists_seen lists.now)) }
{
    let by_name = check_names(alloc, lists)?;
    check_lengths(lists)?;
    check_types(lists)?;
    check_values(lists)?;
    check_unions(alloc, lists)?;
    check_discriminants(lists)?;
    let parents = check_groups(alloc, lists)?;
    check_footprints(alloc, lists)?;
    Ok(Checked { by_name, parents })
}

impl SchemaSet {
    /// A set of these lists, where they meet the twelve rules.
    ///
    /// A refusal drops the lists. It is `OutOfMemory`, or `Schema` with the number of a rule that is broken and a place
    /// where it is broken: the list, the entry there, and the field or enumerant, which is 65,535 where the whole entry
    /// is meant. Where several rules are broken, any of them may be named; lists that meet the twelve rules are refused
    /// for memory alone.
    #[tactic(auto, using(crate::proofs::BrokenSets::refused_for_memory))]
    pub fn new(
        alloc: Global,
        nodes: Vec<NodeRecord>,
        brands: Vec<BrandRecord>,
        enums: Vec<EnumRecord>,
    ) -> Result<SchemaSet>
        ensures set { IfOk result (λ schemas. lists_seen schemas ≡ seen_schemas nodes.items brands.items enums.items) }
        ensures accepted { OnOk result (IsAccepted (seen_schemas nodes.items brands.items enums.items)) }
        ensures refused { IfErr result (IsRefusalOf (seen_schemas nodes.items brands.items enums.items)) }
        ensures memory { IsAccepted (seen_schemas nodes.items brands.items enums.items)
            → IfErr result (λ e. e.kind ≡ OutOfMemory) }
    {
        let lists = Lists {
            nodes,
            brands,
            enums,
        };
        let checked = check(alloc, &lists)?;
        let tables = field_tables(alloc, &lists, checked.by_name, &checked.parents)?;
        numbers_fit(&lists);
        Ok(SchemaSet { lists, tables })
    }

    /// A set of lists that are known to meet the twelve rules, of which none is looked at again. Refused for memory alone,
    /// which drops the lists.
    ///
    /// # Conditions
    ///
    /// The lists meet the twelve rules, as those of two sets do that stand one behind the other.
    #[tactic(auto, using(crate::proofs::BrokenSets::refused_for_memory))]
    pub fn of_accepted(
        alloc: Global,
        nodes: Vec<NodeRecord>,
        brands: Vec<BrandRecord>,
        enums: Vec<EnumRecord>,
    ) -> Result<SchemaSet>
        requires { IsAccepted (seen_schemas nodes.items brands.items enums.items) }
        ensures set { IfOk result (λ schemas. lists_seen schemas ≡ seen_schemas nodes.items brands.items enums.items) }
        ensures refused { IfErr result (λ e. e.kind ≡ OutOfMemory) }
    {
        let lists = Lists {
            nodes,
            brands,
            enums,
        };
        let by_name = name_tables(alloc, &lists)?;
        SchemaSet::with_names(alloc, lists, by_name)
    }

    /// A set of lists that meet the twelve rules, by their tables of names. Refused for memory alone, which drops the lists.
    #[tactic(auto, using(crate::proofs::BrokenSets::refused_for_memory))]
    fn with_names(alloc: Global, lists: Lists, by_name: Vec<Vec<u16>>) -> Result<SchemaSet>
        requires accepted { IsAccepted (lists_seen lists) }
        requires names { AreNameTables (lists_seen lists) by_name.items }
        ensures set { IfOk result (λ schemas. lists_seen schemas ≡ lists_seen lists) }
        ensures refused { IfErr result (λ e. e.kind ≡ OutOfMemory) }
    {
        let parents = parent_table(alloc, &lists)?;
        let tables = field_tables(alloc, &lists, by_name, &parents)?;
        numbers_fit(&lists);
        Ok(SchemaSet { lists, tables })
    }

    /// The nodes: structs and groups.
    pub fn nodes(&self) -> &[NodeRecord]
        ensures is { map seen_node result.now ≡ (lists_seen self.now).nodes }
        ensures accepted { IsAccepted (lists_seen self.now) }
    {
        self.lists.nodes.as_slice()
    }

    /// The brands: nodes with the types of their fields.
    pub fn brands(&self) -> &[BrandRecord]
        ensures { map seen_brand result.now ≡ (lists_seen self.now).brands }
    {
        self.lists.brands.as_slice()
    }

    /// The enums.
    pub fn enums(&self) -> &[EnumRecord]
        ensures { map seen_enum result.now ≡ (lists_seen self.now).enums }
    {
        self.lists.enums.as_slice()
    }
}
