//! The commands of the program `phase` that need no threads: it replays scripts of calls on a
//! phaser, and checks, evaluates and draws graphs of filters over phasers.
//!
//! `run_cli` does what the words ask for, over any input, outputs and files, and answers the
//! program's status; `laws` says which statuses never come. A program calls `hold_closed_streams`
//! before it, and at a terminal `point_to_check` behind it.
#![tactic(auto)]

mod cli;
mod held;
pub mod laws;
mod loose;

pub use cli::run_cli;
pub use held::hold_closed_streams;
pub use loose::point_to_check;
