//! The commands on graphs: what each reads, answers and writes, and how it ends.
//!
//! `check`, `eval` and `draw` read the graph in a file and write what is asked for of it, or answer
//! a `Failure`, which is a value until `report` tells it: by its line, explained to a person where
//! that is asked for; `end` answers the status of both. `read_job` gives the job of a graph's file:
//! its graph, and the samples in the files of its sources; `read_asked` that and the sink that is
//! asked for; `write_lines` writes what an evaluation gave each sink, `write_values` what it gave
//! one, and `write_sinks` what was asked for; `stall_told` what a person is told of a stall, and
//! `told_from` of a record that is no sample. These are for another command that gives the same
//! values.
#![tactic(auto)]

mod answered;
mod asked;
mod columns;
mod controls;
mod drawn;
mod explained;
mod failure;
mod fault;
mod folders;
mod further;
mod graph_faults;
mod graph_file;
mod hints;
mod job_file;
pub mod laws;
mod lines;
mod meeting;
mod members;
mod notes;
mod output_buffer;
mod rate;
mod rates;
mod records;
mod refused;
mod sinks;
mod sources;
mod stalls;
mod value_texts;

pub use answered::{check, eval, eval_by, eval_columns};
pub use asked::{AskedJob, read_asked, write_sinks};
pub use drawn::draw;
pub use explained::{end, report, tell_refusal};
pub use failure::Failure;
pub use fault::JobFault;
pub use folders::{LooksBeside, look_by, path_beside};
pub use further::{further_lines, tell_bytes};
pub use graph_file::{GRAPH_MAX, read_graph_file};
pub use job_file::read_job;
pub use lines::{write_lines, write_values};
pub use output_buffer::OutputBuffer;
pub use records::{line_at, start_of, told_from};
pub use refused::{FileRefusal, Refuses, TellingFiles};
pub use sinks::find_sink;
pub use sources::read_sources;
pub use stalls::stall_told;
pub use value_texts::ValueTexts;
