//! JSON: of a document, and of a list of floats, written and read.

use crate::document_set::{DOCUMENT, MEASURES, read_documents, schema_of};
use capnp_json::message::message_to_json;
use capnp_json_messages::message::read_message;
use capnp_wire::error::{Error, ErrorKind, Result};
use std::alloc::Global;

/// The most bytes of a JSON.
const LIMIT: usize = 1 << 30;

/// Writes a message as the JSON of a struct of the set.
fn json_of(alloc: Global, number: u32, message: &[u8]) -> Result<Vec<u8>> {
    let schemas = read_documents(alloc)?;
    let schema = schema_of(&schemas, number)?;
    match message_to_json(alloc, schema, message, false, LIMIT) {
        Ok(json) => Ok(json),
        Err(_) => Err(Error::from(ErrorKind::TooLarge)),
    }
}

/// How many commas there are.
fn commas_in(bytes: &[u8]) -> u64 {
    let mut count: u64 = 0;
    for index in 0..bytes.len() {
        if bytes[index] == b',' {
            count = count.wrapping_add(1);
        }
    }
    count
}

/// Writes a document so many times, and adds the lengths.
fn json_document(alloc: Global, message: &[u8], rounds: u64) -> Result<u64> {
    let mut sum: u64 = 0;
    for _ in 0..rounds {
        let json = json_of(alloc, DOCUMENT, message)?;
        sum = sum.wrapping_add(json.len() as u64);
    }
    Ok(sum)
}

/// Writes a list of floats so many times, and adds how many there are but one.
fn json_floats(alloc: Global, message: &[u8], rounds: u64) -> Result<u64> {
    let mut sum: u64 = 0;
    for _ in 0..rounds {
        let json = json_of(alloc, MEASURES, message)?;
        sum = sum.wrapping_add(commas_in(&json));
    }
    Ok(sum)
}

/// Reads a JSON as a struct of the set so many times, and adds the words of the messages.
fn read_json(alloc: Global, number: u32, json: &[u8], rounds: u64) -> Result<u64> {
    let schemas = read_documents(alloc)?;
    let schema = schema_of(&schemas, number)?;
    let mut sum: u64 = 0;
    for _ in 0..rounds {
        let message = match read_message(alloc, schema, json, true) {
            Ok(message) => message,
            Err(_) => return Err(Error::from(ErrorKind::TypeMismatch)),
        };
        sum = sum.wrapping_add(message.size_in_words()?);
    }
    Ok(sum)
}

#[unsafe(no_mangle)]
pub extern "C" fn bench_json_document(alloc: Global, message: &[u8], rounds: u64) -> u64 {
    json_document(alloc, message, rounds).unwrap_or(0)
}

#[unsafe(no_mangle)]
pub extern "C" fn bench_json_floats(alloc: Global, message: &[u8], rounds: u64) -> u64 {
    json_floats(alloc, message, rounds).unwrap_or(0)
}

#[unsafe(no_mangle)]
pub extern "C" fn bench_document_of_json(alloc: Global, message: &[u8], rounds: u64) -> u64 {
    read_json(alloc, DOCUMENT, message, rounds).unwrap_or(0)
}

#[unsafe(no_mangle)]
pub extern "C" fn bench_floats_of_json(alloc: Global, message: &[u8], rounds: u64) -> u64 {
    read_json(alloc, MEASURES, message, rounds).unwrap_or(0)
}
