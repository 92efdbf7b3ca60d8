//! The program `riftcalico` over its files and streams: what it reads before what, what it writes and what it tells.
//!
//! What is answered to words and bytes is `riftcalico_core`'s. `command::command_over` is the program from its words to
//! its exit status, over sources, sinks and what opens files. Five functions touch one of these: `shell::read_file`,
//! `answering::put_answer`, `stream::run_each`, `shell::run` and `command::command_over`. What they decide by is pure.
#![tactic(auto)]

mod answering;
pub mod command;
pub mod ended;
pub mod place;
pub mod shell;
mod stages;
mod stream;
mod told;
