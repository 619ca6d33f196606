//! Whole lists of a graph: what each task puts on each phaser, composed from the samples of the
//! sources, phaser by phaser.
//!
//! It is for whoever wants the exact lists of a graph's sinks, or the first value that is out of
//! range: make a `Job` of a graph and the samples of its sources, and give it to `eval`.
#![tactic(auto)]

mod fault;
mod filter_lists;
mod list;
mod members;
mod numbers;
mod outputs;
mod phases;
mod reading;
mod taken_phases;
mod taken_values;
mod whole;

pub use fault::EvalFault;
pub use filter_lists::{FilterLists, InTurn, filter_part, parts_follow};
pub use whole::{Lines, eval, eval_by};
