//! A proved caller: the laws serve what `print_floats_within` appends, and what `read_root` makes of it.
ghost use Rattle.std.specs.Prelude.{◌≡◌, ◌≢◌, Err, IfErr, IfOk, false};
ghost use Rattle.capnp_arena.specs.Message.{IsMessage, message_tree};
ghost use Rattle.capnp_device.specs.declared.error.ErrorKind.TheVariants.{OutOfMemory, SizePastFormat, TooLarge};
ghost use Rattle.capnp_dynamic_readers.specs.Pieces.{IsLonger};
ghost use Rattle.capnp_dynamic_readers.specs.declared.dynamic_value.Reader.TheVariants.{Struct};
ghost use Rattle.capnp_float_texts.specs.Printed.{printed_float_text};
ghost use Rattle.capnp_value_laws.specs.Readers.{HasRecordOf, IsWholeStruct};

use capnp_arena::message::Builder;
use capnp_dynamic_readers::dynamic_struct;
use capnp_dynamic_readers::dynamic_value::Reader as Value;
use capnp_float_texts::printer::print_floats_within;
use capnp_value_texts::error::Error as Unread;
use capnp_value_texts::value::read_root;
use capnp_wire::error::{Error, ErrorKind, Result};
use capnp_words::laws::printed_values_are_read;
use capnp_words::marked::floats_are_read_back;
use std::alloc::Global;

/// A new message with the record of a struct, by way of its text with floats, of at most `longest` bytes.
///
/// Refused as the print, so with `TooLarge` where the text is longer, with `OutOfMemory`, and with `SizePastFormat` where a list has
/// no room in the format. The text itself is never refused.
pub fn copied_by_text(
    alloc: Global,
    limit: usize,
    source: dynamic_struct::Reader<'_>,
    indented: bool,
    longest: u64,
) -> Result<Builder>
    requires whole { IsWholeStruct source }
    ensures message { IfOk result IsMessage }
    ensures same { IfOk result (λ m. HasRecordOf source.entry (message_tree m)) }
    ensures cause { IfErr result (λ e. e.kind ≢ OutOfMemory → e.kind ≢ SizePastFormat → e.kind ≢ TooLarge
        → printed_float_text false indented (Struct source.entry) ≡ Err e.kind) }
    ensures too_long { IfErr result (λ e. e.kind ≡ TooLarge
        → IsLonger longest (printed_float_text false indented (Struct source.entry))) }
{
    printed_values_are_read();
    floats_are_read_back();
    let mut text = String::new(alloc);
    print_floats_within(Value::Struct(source), false, &mut text, indented, longest)?;
    match read_root(alloc, limit, source.get_schema(), text.as_bytes()) {
        Ok(message) => Ok(message),
        Err(Unread::OutOfMemory) => Err(Error::from(ErrorKind::OutOfMemory)),
        Err(Unread::NotMade(kind)) => Err(Error::from(kind)),
        Err(Unread::Refused(_)) => unreachable!(),
    }
}
