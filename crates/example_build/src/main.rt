//! Builds a message of one number and a text, and writes it to standard output.
#![tactic(auto)]

use capnp::Result;
use capnp::device::{Sink, WriteSink};
use capnp::message::{Builder, StructSize};
use std::alloc::Global;

/// The sections of the struct that is built: a word of numbers and one pointer.
const SIZE: StructSize = StructSize {
    data_words: 1,
    pointers: 1,
};

/// Builds a struct of a number and a name, and writes the message.
fn write<W: Sink>(alloc: Global, id: u64, name: &str, sink: &mut W) -> Result<()> {
    let mut message = Builder::new(alloc)?;
    let mut root = message.root().init_struct(SIZE)?;
    root.set_data_field(0, id);
    root.get_pointer_field(0).set_text(name.as_bytes())?;
    message.write_message_to(sink)
}

fn main(rt: HostRuntime) -> Result<()> {
    write(rt.alloc(), 7, "seven", &mut WriteSink::new(rt.stdout()))
}
