//! The command `run`: it runs a graph of filters over phasers on worker threads, and answers as
//! `eval` does.
//!
//! `run_graph` reads the words behind `run`. `run` reads the job of a graph's file as `eval` does,
//! runs it, and writes what was asked for, or answers why not; `report` tells that.
//!
//! Proved: what is written at status 0 is what `eval` writes, and each other status has its cause.
//! Only tested: that a run comes back, and that `phase: stalled` is told only where every task that
//! is left waits for another.

mod cli;
mod counts;
mod graph_run;
mod laws;

pub use cli::run_graph;
