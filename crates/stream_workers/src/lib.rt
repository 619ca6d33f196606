//! Runs of a graph on worker threads, which meet only at phasers.
//!
//! `run` opens the phasers of a job's graph, lets their founders register the tasks without a
//! parent, and goes on with the tasks by worker threads. A task registers its children as they
//! come. Each task is with one worker at a time, and what is known of it crosses the workers' locks
//! in its type. Where all have left, what they have seen of each phaser is joined, and the lists of
//! the sinks are the answer.
//!
//! ```text
//! let lines = run(&rt, alloc, &job, 4, &Open)?;                  // the lists of the sinks
//! write_lines(&mut writer, &OneThread, job.graph(), &lines)?;    // as text
//! ```
//!
//! Proved: that an answer `Ok` is the answer of the job, for the starts that it tells of sinks that
//! join now, whatever the workers' turns were, and that `TooBig` names the first value out of
//! range. Only tested: that a run comes back, and that `Stalled` and `OutOfMemory` are said only
//! where they are so.
#![tactic(auto)]

mod behind;
mod endings;
mod finishing;
pub mod laws;
mod opening;
mod slot;
mod stopped;
mod watch;
mod whole;

pub use graph_commands::write_lines;
pub use stream_lists::Stand;
pub use stream_tasks::{Gate, Open, Went};
pub use watch::Watch;
pub use whole::{RunFault, after_fault, run, run_watched};
