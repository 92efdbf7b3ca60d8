//! Texts: a struct with a list of structs, on one line.

use crate::reads::root_of;
use capnp_dynamic::dynamic_value::Reader as Value;
use capnp_dynamic::printer::print;
use capnp_schema::builtin::new_set;
use capnp_wire::error::Result;
use std::alloc::Global;

/// The number of the struct of lists among the built-in brands.
const LISTS: u32 = 7;

fn print_lists(alloc: Global, message: &[u8], rounds: u64) -> Result<u64> {
    let schemas = new_set(alloc)?;
    let root = root_of(alloc, message, schemas.struct_schema(LISTS))?;
    let mut sum: u64 = 0;
    for _ in 0..rounds {
        let mut out = String::new(alloc);
        print(Value::Struct(root), &mut out, false)?;
        sum = sum.wrapping_add(out.len() as u64);
    }
    Ok(sum)
}

#[unsafe(no_mangle)]
pub extern "C" fn bench_print_lists(alloc: Global, message: &[u8], rounds: u64) -> u64 {
    print_lists(alloc, message, rounds).unwrap_or(0)
}
