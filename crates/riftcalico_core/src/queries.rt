//! What is asked for by paths, as words say it, and as it is asked of messages.
ghost use Rattle.std.specs.Prelude.{◌≡◌, IfErr, IfOk, map};
ghost use Rattle.std.specs.Option.{option_map};
ghost use Rattle.capnp_device.specs.declared.error.ErrorKind.TheVariants.{OutOfMemory};
ghost use Rattle.capnp_words.specs.Paths.{path_at};
ghost use Rattle.capnp_words.specs.Reads.{read_as};
ghost use Rattle.riftcalico_core.specs.CallsSeen.{all_seen};
ghost use Rattle.riftcalico_core.specs.Queries.{counted_path, query_at, query_of, steps_before};
ghost use Rattle.riftcalico_core.specs.QueriesSeen.{asked_seen, query_word_seen};
ghost use Rattle.riftcalico_core.specs.Reads.{each_word_read};

use crate::calls::{Read, Unreadable, steps_of};
use crate::words::word_at;
use capnp_call::calls::Step;
use capnp_wire::error::Result;
use capnp_words::path::{Path, Read as WordRead, parse_path};
use std::alloc::Global;

/// What a word asks for: what stands at a path, or how many elements the list there has.
#[derive(Drop)]
pub struct QueryWord {
    pub path: Path,
    pub counts: bool,
}

/// What is asked for: what stands at the end of these steps, or how many elements the list there has.
#[derive(Drop)]
pub struct AskedQuery<'c> {
    pub steps: Vec<Step<'c>>,
    pub counts: bool,
}

/// What stands before a last step `#`, where there are steps before it.
fn get_steps_before(path: &str) -> Option<&str>
    ensures { option_map (λ p. p.now) result ≡ steps_before path.now }
{
    match path.as_bytes() {
        [first, ..] => { if *first == b'.' { None } else { Some(path) } }
        [] => None,
    }
}

/// The path of which a word asks how many elements the list there has, if it asks for that.
fn get_counted(word: &str) -> Option<&str>
    ensures { option_map (λ p. p.now) result ≡ counted_path word.now }
{
    match word.strip_suffix(".#") {
        Some(path) => get_steps_before(path),
        None => None,
    }
}

/// A query by its path. Refused with `OutOfMemory` alone.
fn parse_by(alloc: Global, path: &str, counts: bool) -> Result<WordRead<QueryWord>>
    ensures read { IfOk result (λ r. read_as query_word_seen r ≡ read_as (query_of counts) (path_at 0 path.now)) }
    ensures memory { IfErr result (λ e. e.kind ≡ OutOfMemory) }
{
    match parse_path(alloc, path)? {
        Ok(path) => Ok(Ok(QueryWord { path, counts })),
        Err(place) => Ok(Err(place)),
    }
}

/// What a word asks for: a path, behind whose steps `#` may be the last, which asks how many elements the list there has. Any
/// other word is refused, in the inner result, as `capnp_words::path::parse_path` does. The outer result is refused with
/// `OutOfMemory` alone.
fn parse_query(alloc: Global, word: &str) -> Result<WordRead<QueryWord>>
    ensures read { IfOk result (λ r. read_as query_word_seen r ≡ query_at word.now) }
    ensures memory { IfErr result (λ e. e.kind ≡ OutOfMemory) }
{
    match get_counted(word) {
        Some(path) => parse_by(alloc, path, true),
        None => parse_by(alloc, word, false),
    }
}

/// What words ask for, or the first word that asks for nothing. Refused with `OutOfMemory` alone.
pub(crate) fn read_queries(alloc: Global, words: &[&str]) -> Result<Read<Vec<QueryWord>>>
    ensures read { IfOk result (λ r. all_seen query_word_seen r
        ≡ each_word_read query_at 0 (map (λ w. w.now) words.now)) }
    ensures memory { IfErr result (λ e. e.kind ≡ OutOfMemory) }
{
    let mut queries = Vec::new(alloc);
    for index in 0..words.len() {
        match parse_query(alloc, word_at(words, index))? {
            Ok(query) => queries.push(query)?,
            Err(place) => {
                let place = place as u128;
                return Ok(Err(Unreadable { index, place }));
            }
        }
    }
    Ok(Ok(queries))
}

/// A query as it is asked of messages. Refused with `OutOfMemory` alone.
fn make_query(alloc: Global, word: &QueryWord) -> Result<AskedQuery<'_>>
    ensures made { IfOk result (λ q. asked_seen q ≡ query_word_seen word.now) }
    ensures memory { IfErr result (λ e. e.kind ≡ OutOfMemory) }
{
    let steps = steps_of(alloc, &word.path)?;
    Ok(AskedQuery {
        steps,
        counts: word.counts,
    })
}

/// Queries as they are asked of messages. Refused with `OutOfMemory` alone.
pub(crate) fn make_queries(alloc: Global, words: &[QueryWord]) -> Result<Vec<AskedQuery<'_>>>
    ensures made { IfOk result (λ queries. map asked_seen queries.items ≡ map query_word_seen words.now) }
    ensures memory { IfErr result (λ e. e.kind ≡ OutOfMemory) }
{
    let mut queries = Vec::with_capacity(alloc, words.len())?;
    for word in words {
        queries.push(make_query(alloc, word)?)?;
    }
    Ok(queries)
}
