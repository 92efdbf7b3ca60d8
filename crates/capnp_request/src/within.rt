//! From a compiler's request to lists of at most so many bytes.
ghost use Rattle.std.specs.Prelude.{List, ◌∷◌, suc, ◌≡◌, ◌≢◌, ◌≤◌, ◌+◌, ◌⊎◌, length, IfErr, IfOk, Ok, Err};
ghost use Rattle.capnp_device.specs.declared.error.ErrorKind.TheVariants.{OutOfMemory, TooLarge};
ghost use Rattle.capnp_schema.specs.Schema.{seen_schemas};
ghost use Rattle.capnp_request.specs.Handles.{root_record};
ghost use Rattle.capnp_request.specs.Names.{Holder};
ghost use Rattle.capnp_request.specs.Order.{Made, and_said, conversion_of, make_all, nothing_made, result_of};
ghost use Rattle.capnp_request.specs.ProgressSeen.{seen_lists};
ghost use Rattle.capnp_request.specs.Reading.{request_said};
ghost use Rattle.capnp_request.specs.Refusals.{IsRefusal};
ghost use Rattle.capnp_request.specs.Shapes.{AreBrandsOf};
ghost use Rattle.capnp_request.specs.Sizes.{lists_bytes};
ghost use Rattle.capnp_request.specs.Steps.Done.{between};
ghost use Rattle.capnp_request.specs.Steps.NamesMade.{AreHolders};
ghost use Rattle.capnp_request.specs.Steps.Nodes.{AreNodes, nodes_of};
ghost use Rattle.capnp_request.specs.Steps.Numbers.{AreNumbered};
ghost use Rattle.capnp_request.specs.Steps.ProgressSeen.{made_of, work_rest};
ghost use Rattle.capnp_request.specs.Steps.Sizes.{IsLargeWork, IsStepLarge, made_bytes};
ghost use Rattle.capnp_request.specs.Within.{IsLargeConversion, make_step};
ghost use Rattle.capnp_request.specs.Work.{Work};

use crate::context::Context;
use crate::conversion::{Converted, MORE_STEPS, Progress};
use crate::entries::Entries;
use crate::handles::RequestRecord;
use crate::places::brands;
use crate::roots::number_roots;
use crate::schema_nodes::SchemaNodes;
use crate::sizes::take_next;
use capnp_wire::StructReader;
use capnp_wire::error::{Error, ErrorKind, Result};
use std::alloc::Global;

/// Makes the next struct, or where all are made the next enum, and takes its bytes from those that are left. False where
/// there is neither. Refused with `TooLarge` where fewer are left.
fn make_next_within<'a>(
    progress: &mut Progress,
    context: Context<'_, 'a>,
    entries: &mut Entries,
    left: &mut u64,
) -> Result<bool>
    requires nodes { AreNodes context.nodes.now }
    requires numbers { AreNumbered entries.now }
    requires brands { AreBrandsOf progress.now.made.nodes.items progress.now.made.brands.items }
    ensures done { (hs : List Holder) → AreHolders progress.old.names hs
        → IfOk result (λ more. (after : List Holder) × AreHolders progress.new.names after
        × ((again : Made → Work Made) → make_step (nodes_of context.entry.nodes.now) context.entry.strict again
        (made_of progress.old hs) (between entries.old)
        ≡ work_rest more again (made_of progress.new after) (between entries.new))) }
    ensures left { IfOk result (λ _. left.new + made_bytes progress.new.made ≡ left.old + made_bytes progress.old.made) }
    ensures refused { (hs : List Holder) → AreHolders progress.old.names hs
        → IfErr result (λ e. e.kind ≢ OutOfMemory → ((again : Made → Work Made) →
        make_step (nodes_of context.entry.nodes.now) context.entry.strict again (made_of progress.old hs)
        (between entries.old) ≡ Err e.kind)
        ⊎ ((e.kind ≡ TooLarge) × IsStepLarge (nodes_of context.entry.nodes.now) context.entry.strict
        (made_of progress.old hs) (between entries.old) left.old (made_bytes progress.old.made)
        progress.new (between entries.new))) }
    ensures numbers { IfOk result (λ _. AreNumbered entries.new) }
    ensures brands { IfOk result (λ _. AreBrandsOf progress.new.made.nodes.items progress.new.made.brands.items) }
    ensures kinds { IfErr result (λ e. IsRefusal context.entry.strict e.kind) }
{
    let structs = progress.made.nodes.len();
    let enums = progress.made.enums.len();
    let more = progress.make_next(context, entries)?;
    let rest = take_next(*left, &progress.made, structs, enums)?;
    *left = rest;
    Ok(more)
}

/// Makes all entries and enums, those too that these name. Refused with `TooLarge` as soon as they have more than so many
/// bytes.
fn make_all_within<'a>(
    context: Context<'_, 'a>,
    mut entries: Entries,
    limit: u64,
) -> Result<Converted>
    requires nodes { AreNodes context.nodes.now }
    requires numbers { AreNumbered entries }
    ensures read { IfOk result (λ made. result_of
        (make_all (nodes_of context.entry.nodes.now) context.entry.strict
        (65536 + suc (length (nodes_of context.entry.nodes.now))) nothing_made (between entries))
        ≡ Ok (seen_lists made)) }
    ensures within { IfOk result (λ made. made_bytes made ≤ limit) }
    ensures refused { IfErr result (λ e. e.kind ≢ OutOfMemory
        → (make_all (nodes_of context.entry.nodes.now) context.entry.strict
        (65536 + suc (length (nodes_of context.entry.nodes.now))) nothing_made (between entries) ≡ Err e.kind)
        ⊎ ((e.kind ≡ TooLarge)
        × IsLargeWork limit (nodes_of context.entry.nodes.now) context.entry.strict (between entries))) }
    ensures brands { IfOk result (λ made. AreBrandsOf made.nodes.items made.brands.items) }
    ensures kinds { IfErr result (λ e. IsRefusal context.entry.strict e.kind) }
{
    let mut progress = Progress::new(context.alloc);
    let mut left = limit;
    let mut steps = u64::from(context.nodes.count()) + MORE_STEPS;
    while steps > 0 {
        steps -= 1;
        let more = make_next_within(&mut progress, context, &mut entries, &mut left)?;
        if !more {
            return Ok(progress.made);
        }
    }
    Err(Error::from(ErrorKind::TooManyTypes))
}

/// The lists and notes that a request stands for, as `read_request`, where the lists have at most `limit` bytes
/// (`lists_bytes`). Those bytes stand in the message of the set too.
///
/// Refused as `read_request`, and with `TooLarge` as soon as the lists made so far have more than `limit` bytes: before
/// the next struct or enum is made. A small request may stand for a large set, since each binding of a generic struct is
/// an entry with copies of its names and values. An entry that is named and not yet made has at most 1,024 bound types,
/// and the lists have a field for each that a field names.
pub fn read_request_within(
    alloc: Global,
    reader: StructReader<'_>,
    strict: bool,
    limit: u64,
) -> Result<Converted>
    ensures read { IfOk result (λ made. and_said (request_said (root_record reader.entry))
        (λ r. conversion_of r strict) ≡ Ok (seen_lists made)) }
    ensures within { IfOk result (λ made. lists_bytes (seen_schemas made.nodes.items made.brands.items made.enums.items)
        ≤ limit) }
    ensures refused { IfErr result (λ e. e.kind ≢ OutOfMemory
        → (and_said (request_said (root_record reader.entry)) (λ r. conversion_of r strict) ≡ Err e.kind)
        ⊎ ((e.kind ≡ TooLarge) × IsLargeConversion limit (request_said (root_record reader.entry)) strict)) }
    ensures brands { IfOk result (λ made. AreBrandsOf made.nodes.items made.brands.items) }
    ensures kinds { IfErr result (λ e. IsRefusal strict e.kind) }
{
    let request = RequestRecord {
        sections: reader,
        brand: brands::REQUEST,
    };
    let nodes = SchemaNodes::of_request(alloc, request)?;
    let context = Context {
        alloc,
        strict,
        nodes: &nodes,
    };
    let mut entries = Entries::new(alloc);
    number_roots(context, &mut entries, request)?;
    let made = make_all_within(context, entries, limit)?;
    Ok(made)
}
