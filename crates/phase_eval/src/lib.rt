//! The command `eval` of the program `phase` by worker threads: long texts and long lists are read,
//! filtered and written by several threads, a part each, and it answers as `eval` does by one.
//!
//! `run_cli` reads the words behind `eval`, of which one is `--workers`. `ByThreads` is for whoever
//! reads samples, makes the lists of filters or writes values otherwise.
//!
//! Proved: what is written is what `eval` writes, and each status has its cause, as there. Not
//! promised: that it is faster.
#![tactic(auto)]

mod cli;
mod filtering;
mod rounds;
mod texts;

pub use cli::run_cli;
pub use texts::ByThreads;
