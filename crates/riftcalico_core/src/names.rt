//! Names that meet in JSON, by which verbs of JSON are refused before a message or text is read.
ghost use Rattle.std.specs.Prelude.{◌≡◌, ◌++◌, ◌∷◌, IfErr, IfOk, OnOk, codes, string_bytes};
ghost use Rattle.std.specs.Option.{option_map};
ghost use Rattle.capnp_device.specs.declared.error.ErrorKind.TheVariants.{OutOfMemory};
ghost use Rattle.capnp_schema.specs.Entries.{lists_seen};
ghost use Rattle.riftcalico_core.specs.Names.{json_file, met_line, names_line};
ghost use Rattle.riftcalico_core.specs.PlansSeen.{plan_seen};

use crate::fault::get_file_word;
use crate::plan::Plan;
use capnp_json_names::names::{NamesMeet, check_names};
use capnp_patch::lines::put_word;
use capnp_schema::set::SchemaSet;
use capnp_wire::error::Result;
use std::alloc::Global;

/// The file of the set of a plan that reads or writes JSON, if it names one; none of another plan. Calls that are told may have JSON.
fn get_json_file<'a>(plan: &Plan<'a>) -> Option<Option<&'a str>>
    ensures { option_map (λ file. option_map (λ f. f.now) file) result ≡ json_file (plan_seen plan.now) }
{
    match plan {
        Plan::Json(plan) => Some(plan.root.file),
        Plan::FromJson(plan) => Some(plan.root.file),
        Plan::Diff(plan) => Some(plan.root.file),
        _ => None,
    }
}

/// The line that tells names that meet: the number and name, the set, and what meets where. Control characters are told by
/// their numbers. Refused with `OutOfMemory` alone.
fn tell_names(alloc: Global, file: Option<&str>, met: NamesMeet<'_>) -> Result<String>
    ensures line { IfOk result (λ line. string_bytes line
        ≡ met_line (option_map (λ f. f.now) file.entry) met.entry.place.now met.entry.first.now met.entry.second.now) }
    ensures memory { IfErr result (λ e. e.kind ≡ OutOfMemory) }
{
    let mut line = String::from_str(alloc, "refused: 69 JsonNamesMeet (")?;
    put_word(&mut line, get_file_word(file, "the built-in set"))?;
    line.push_str(") in ")?;
    put_word(&mut line, met.place)?;
    line.push_str(": ")?;
    put_word(&mut line, met.first)?;
    line.push_str(", ")?;
    put_word(&mut line, met.second)?;
    line.push_str("\n")?;
    Ok(line)
}

/// The line by which a plan that reads or writes JSON is refused under a set in which names meet in JSON; none where it isn't.
/// Refused with `OutOfMemory` alone.
pub fn find_names_line(
    alloc: Global,
    schemas: &SchemaSet,
    plan: &Plan<'_>,
) -> Result<Option<String>>
    ensures line { IfOk result (λ line. option_map string_bytes line
        ≡ names_line (plan_seen plan.now) (lists_seen schemas.now)) }
    ensures memory { IfErr result (λ e. e.kind ≡ OutOfMemory) }
{
    let Some(file) = get_json_file(plan) else {
        return Ok(None);
    };
    match check_names(schemas) {
        Ok(()) => Ok(None),
        Err(met) => Ok(Some(tell_names(alloc, file, met)?)),
    }
}
