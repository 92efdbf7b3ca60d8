//! The plans of all fields of a set.
ghost use Rattle.std.specs.Prelude.{◌≡◌, ◌<◌, length, map, IfOk, IfErr};
ghost use Rattle.capnp_device.specs.declared.error.ErrorKind.TheVariants.{OutOfMemory};
ghost use Rattle.capnp_schema.specs.Schema.{field_at, fields_of};
ghost use Rattle.capnp_schema.specs.Accepted.{IsAccepted};
ghost use Rattle.capnp_schema.specs.Entries.{lists_seen};
ghost use Rattle.capnp_schema.specs.Plan.{plan_of};
ghost use Rattle.capnp_schema.specs.Tables.{ArePlanTables};

use crate::lists::Lists;
use crate::plan::{NO_PLAN, SlotPlan, plan_field};
use capnp_wire::error::Result;
use std::alloc::Global;

/// The plan of a field of a brand.
fn plan_at(lists: &Lists, brand: usize, field: usize) -> SlotPlan
    requires accepted { IsAccepted (lists_seen lists.now) }
    requires brand_in { brand < length (lists_seen lists.now).brands }
    requires field_in { field < length (fields_of (lists_seen lists.now) brand) }
    ensures { result ≡ plan_of (lists_seen lists.now) brand (field_at (lists_seen lists.now) brand field) }
{
    let Some(node) = lists.node_of(brand) else {
        return NO_PLAN;
    };
    let Some(typed) = lists.field_at(brand, field) else {
        return NO_PLAN;
    };
    plan_field(node, typed.field, typed.field_type)
}

/// The plan of each field of a brand.
fn brand_plans(alloc: Global, lists: &Lists, brand: usize) -> Result<Vec<SlotPlan>>
    requires accepted { IsAccepted (lists_seen lists.now) }
    requires brand_in { brand < length (lists_seen lists.now).brands }
    ensures plans { IfOk result (λ v. v.items
        ≡ map (plan_of (lists_seen lists.now) brand) (fields_of (lists_seen lists.now) brand)) }
    ensures refused { IfErr result (λ e. e.kind ≡ OutOfMemory) }
{
    let count = lists.field_count(brand);
    let mut plans = Vec::with_capacity(alloc, count)?;
    for i in 0..count {
        plans.push(plan_at(lists, brand, i))?;
    }
    Ok(plans)
}

/// The plans of each brand's fields.
pub(crate) fn plan_tables(alloc: Global, lists: &Lists) -> Result<Vec<Vec<SlotPlan>>>
    requires { IsAccepted (lists_seen lists.now) }
    ensures plans { IfOk result (λ v. ArePlanTables (lists_seen lists.now) v.items) }
    ensures refused { IfErr result (λ e. e.kind ≡ OutOfMemory) }
{
    let mut tables = Vec::new(alloc);
    for brand in 0..lists.brands.len() {
        let plans = brand_plans(alloc, lists, brand)?;
        tables.push(plans)?;
    }
    Ok(tables)
}
