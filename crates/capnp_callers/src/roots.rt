//! Calls on the root of a message that is built.
ghost use Rattle.std.specs.Prelude.{OnOk};
ghost use Rattle.capnp_arena.specs.Message.{IsMessage};
ghost use Rattle.capnp_schema.specs.StructHandles.{IsStruct};

use capnp_arena::message::Builder;
use capnp_call::calls::{Call, Reply};
use capnp_dynamic::dynamic_struct;
use capnp_run::run::run;
use capnp_schema::schema::StructSchema;
use capnp_slots::size_of;
use capnp_wire::error::Result;
use std::alloc::Global;

/// Makes calls on the root of a message as a struct of a schema, which is a message still.
///
/// Refused as `get_struct`, and then as `run::run`.
///
/// # Conditions
///
/// The schema is one of an accepted set (`IsStruct`). A tree stands at the message's root (`IsMessage`).
pub fn call_on_root(
    alloc: Global,
    message: &mut Builder,
    schema: StructSchema<'_>,
    calls: &[Call<'_>],
) -> Result<Vec<Reply>>
    requires stands { IsStruct schema }
    requires message { IsMessage message.old }
    ensures { OnOk result (IsMessage message.new) }
{
    let place = message.get_struct(0, size_of(schema))?;
    let built = dynamic_struct::Builder {
        arena: message,
        place,
        schema,
    };
    run(alloc, built, calls)
}
