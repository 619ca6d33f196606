//! Scripts of phaser calls: each line of a script is answered by one reply line.
//!
//! Wrap a reader and a writer by `Watched::new` and call `replay`, or make a `Session` and hand it
//! one line after the other. A line gives a command where `read` reads it. `replay_and_report` is
//! the command `replay` of the program: it replays the input, and reports its fault.
//! `replay_file_and_report` and `replay_file_strictly` replay the script in a file.
#![tactic(auto)]

mod any_phaser;
mod block_sends;
mod file_replay;
mod first_line;
mod held_sends;
pub mod laws;
mod line_prefix;
mod replayed;
mod replayer;
mod script_phaser;
mod session;
mod stop;
mod strict;
mod whole;

pub use file_replay::{replay_file_and_report, replay_file_strictly};
pub use phase_script::{Command, Op, Outcomes, Refusal, Reply, ReplyLine, Values, read};
pub use replayed::replay_and_report;
pub use session::Session;
pub use watched_io::{IoFault as ReplayFault, ReadFailed, Watched, WriteFailed};
pub use whole::{PIECE_MAX, SCRIPT_MAX, replay};
