//! Graphs and samples, read from their texts: the phasers and the tasks that a graph's lines
//! declare, or its first fault; and the values of a stream, one number a record.
//!
//! The first calls are `read_graph`, `Graph::tasks` and `Graph::task`; what one needs of
//! `graph_base` is handed on. `read_samples` reads samples from a watched reader,
//! `read_sample_file` from a file, as the crate `csv` reads records, and `samples_of` takes a text
//! that was read already.
#![tactic(auto)]

mod add;
mod body;
mod draft;
mod fault;
mod file;
pub mod laws;
mod number;
mod parents;
mod plain;
mod read;
mod sample;
mod text_fault;
pub mod text_laws;
mod texts;
mod within;

pub use fault::{FaultKind, GraphFault, GraphRefusal};
pub use file::read_sample_file;
pub use graph_base::{
    ENDS_MAX, EVERY_MAX, FACTOR_MAX, Graph, Kind, Mode, Op, PHASERS_MAX, Parent, PhaserLine, Place,
    Registration, STEPS_MAX, TASKS_MAX, TaskLine,
};
pub use plain::{parts_have_samples, plain_part};
pub use read::read_graph;
pub use sample::{TEXT_MAX, read_samples, samples_of, samples_with};
pub use text_fault::SampleFault;
pub use texts::{OneThread, SampleTexts};
