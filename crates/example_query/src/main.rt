//! Prints the fields of a struct of the built-in set, and where each one stands in a message.
#![tactic(auto)]

use capnp::Result;
use capnp::device::{WriteSink, write_all};
use capnp::schema::plan::Place;
use capnp::schema::{Field, StructSchema, builtin};
use std::alloc::Global;

/// Appends a field's name, and the bits or the pointer that it occupies.
fn describe(field: Field<'_>, out: &mut String) -> Result<()> {
    out.push_str(field.get_proto().name.as_str())?;
    match field.plan().place {
        Place::Nothing => out.push_str(": no room\n")?,
        Place::Bits { start, width, mask } => write!(out, ": {width} bits from bit {start}\n")?,
        Place::Pointer(index) => write!(out, ": pointer {index}\n")?,
        Place::Group(brand) => write!(out, ": the group of brand {brand}\n")?,
    }
    Ok(())
}

/// The names of all fields of a struct, and the bits or pointers that they occupy, a line each.
fn describe_all(alloc: Global, schema: StructSchema<'_>) -> Result<String> {
    let mut out = String::new(alloc);
    let fields = schema.get_fields()?;
    for i in 0..fields.len() {
        describe(fields.get(i), &mut out)?;
    }
    Ok(out)
}

/// The lines of `Mixed`: two numbers, a text, and a union.
fn mixed(alloc: Global) -> Result<String> {
    let schemas = builtin::new_set(alloc)?;
    describe_all(alloc, schemas.struct_schema(builtin::MIXED))
}

fn main(rt: HostRuntime) -> Result<()> {
    let lines = mixed(rt.alloc())?;
    write_all(&mut WriteSink::new(rt.stdout()), lines.as_bytes())
}
