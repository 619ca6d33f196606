//! The words of the program's command line, and what they ask for, as clap reads them.
//!
//! The first call is `read_words`; `read_run_words` is for the words behind `phase run`, and
//! `read_stream_words` for those behind `phase stream`. Each answers plain data: who calls it needs
//! nothing of clap. `answer` tells the user why there is no call, and answers the status. Before
//! all of them `explain_to_person` adds a word for who types at a terminal.
#![tactic(auto)]

mod at_terminal;
mod call;
mod command_line;
mod escape;
mod help;
pub mod laws;
mod outputs;
mod run_line;
mod sink_line;
mod stream_line;
mod told;

pub use at_terminal::explain_to_person;
pub use call::{Call, NoCall, RunCall, SinkFile, StreamCall, Strict, WORKERS, WORKERS_MAX};
pub use command_line::read_words;
pub use run_line::{read_eval_words, read_run_words};
pub use stream_line::read_stream_words;
pub use told::answer;
pub use watched_io::Explain;
