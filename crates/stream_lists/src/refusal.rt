//! Why there is no job.
use thiserror::Error;

/// Why no job was made.
#[derive(Clone, Copy, Debug, PartialEq, Eq, Error)]
pub enum JobRefusal {
    /// On a phaser with `any`, the task of this line signals in a phase in which a task of an
    /// earlier line signals. It is the least line of such a task.
    #[error("graph line {line}: signals in one phase with an earlier line")]
    AnyMeets {
        /// The number of the line in the text, from 1 on.
        line: u64,
    },
    /// There was no memory.
    #[error("out of memory")]
    OutOfMemory,
}
