//! Reads a field of the message on standard input by its name, under a schema that is known only at run time, and
//! prints it. The message is a `Many` of the built-in set; `examples/many.bin` is one.
#![tactic(auto)]

ghost use Rattle.std.specs.Prelude.{◌≡◌, IfOk, pos};
ghost use Rattle.capnp_schema.specs.Query.{field_named};
ghost use Rattle.capnp_schema.specs.StructHandles.{struct_records};
ghost use Rattle.capnp_records.specs.Record.{Number};
ghost use Rattle.capnp_dynamic_readers.specs.Handles.{schema_of};
ghost use Rattle.capnp_dynamic_readers.specs.Reads.{found_seen};

use capnp::device::{ReadSource, WriteSink, read_all, write_all};
use capnp::message::Reader;
use capnp::schema::builtin;
use capnp::{Error, Result, dynamic_struct, dynamic_value};
use std::alloc::Global;

/// The UInt16 that the field of a name has. Refused as the read of the field, and as `TypeMismatch` where the field has
/// another type. The contract says that it is the field's number in the record that the struct stands for.
fn get_number(reader: dynamic_struct::Reader<'_>, name: &str) -> Result<u16>
    ensures { IfOk result (λ n. Number (pos n)
        ≡ found_seen reader.entry (field_named (struct_records (schema_of reader.entry)) name.now)) }
{
    match reader.get_named(name)? {
        dynamic_value::Reader::UInt16(number) => Ok(number),
        _ => Err(Error::type_mismatch()),
    }
}

/// The field `n` of the message's root.
fn read(alloc: Global, bytes: &[u8]) -> Result<u16> {
    let schemas = builtin::new_set(alloc)?;
    let message = Reader::new(alloc, bytes)?;
    let root = message.get_root().get_struct()?;
    get_number(
        dynamic_struct::Reader::new(root, schemas.struct_schema(builtin::MANY)),
        "n",
    )
}

/// Prints the number of the message on standard input.
fn main(rt: HostRuntime) -> Result<()> {
    let bytes = read_all(rt.alloc(), &mut ReadSource::new(rt.stdin()))?;
    let number = read(rt.alloc(), &bytes)?;
    let line = format!(in rt.alloc(); "n = {number}\n")?;
    write_all(&mut WriteSink::new(rt.stdout()), line.as_bytes())
}
