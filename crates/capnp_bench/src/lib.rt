//! The calls that `bench/run` times beside the C++ library. Each does a whole row's work so many times and answers a
//! checksum; one that is refused answers 0.
#![tactic(auto)]

mod arena_builds;
mod builds;
mod document_set;
mod documents;
mod json;
mod prints;
mod reads;
mod requests;
mod runs;
mod schemas;
mod set_messages;
mod sets;
mod versions;
mod wire_reads;
mod writes;
