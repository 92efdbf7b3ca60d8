//! Proved callers: the laws serve what `read_request` gives, and the set that is made of it.
ghost use Rattle.std.specs.Prelude.{IfErr, IfOk};
ghost use Rattle.capnp_schema.specs.Entries.{lists_seen};
ghost use Rattle.capnp_schema.specs.Schema.{seen_schemas};
ghost use Rattle.capnp_request.specs.Handles.{root_record};
ghost use Rattle.capnp_request.specs.Refusals.{IsRefusal};
ghost use Rattle.capnp_request.specs.StructsSeen.{seen_notes};
ghost use Rattle.capnp_request_meaning.specs.Laws.{FindsRequested, IsSetOfRecord};

use crate::laws::set_means_its_request;
use capnp_request::{Converted, read_request};
use capnp_schema::set::SchemaSet;
use capnp_wire::StructReader;
use capnp_wire::error::Result;
use std::alloc::Global;

/// The lists of the set that a request is converted to, and its notes, which are those of the request.
pub fn read_set(alloc: Global, reader: StructReader<'_>, strict: bool) -> Result<Converted>
    ensures meant { IfOk result (λ made. IsSetOfRecord (root_record reader.entry) strict
        (seen_schemas made.nodes.items made.brands.items made.enums.items) (seen_notes made.notes.items)) }
    ensures kinds { IfErr result (λ e. IsRefusal strict e.kind) }
{
    set_means_its_request();
    let made = read_request(alloc, reader, strict)?;
    Ok(made)
}

/// The checked set of a request. A query by its display name finds each struct of the requested files there, where the request's
/// struct nodes have names of their own without brackets.
pub fn read_schemas(alloc: Global, reader: StructReader<'_>, strict: bool) -> Result<SchemaSet>
    ensures found { IfOk result (λ schemas. FindsRequested (root_record reader.entry) (lists_seen schemas)) }
{
    let made = read_set(alloc, reader, strict)?;
    let Converted {
        nodes,
        brands,
        enums,
        ..
    } = made;
    let schemas = SchemaSet::new(alloc, nodes, brands, enums)?;
    Ok(schemas)
}
