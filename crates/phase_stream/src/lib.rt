//! The command `stream` of the program `phase`: a graph of filters over phasers whose samples come
//! piece by piece, and the values of its sinks, written as they come, to the output or to files.
//!
//! `run_cli` reads the words behind `stream`. `stream` reads the graph of a file, then the samples
//! of its sources, a piece of a source that waits for some at a time, and writes what comes out
//! before it reads again; or answers why not. `stream_table` writes all sinks as the columns of a
//! table, a line as soon as it is known. `StreamFiles` are the files of the disk.
//!
//! Proved: what is written of a sink at status 0 is all its values, of the samples that came and of
//! all that may follow them; whatever the status it begins that, each status has its cause, and
//! where that is in the samples or the graph, all that the sink had by then was written. Of a table
//! the same is proved, but for how much of it was written at another status. Only tested: when
//! files are made, when bytes are read and written, and what is told of a stall.
#![tactic(auto)]

mod cli;
mod column;
mod opens;
mod record_text;
mod session;
mod sink;
mod source;
mod streamed;
mod streamed_table;
mod table;
mod wanted;
mod writers;

pub use cli::run_cli;
pub use opens::{OUTPUT, Opens, Role, Samples, StreamFiles};
