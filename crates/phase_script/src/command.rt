//! The commands that a script line can give.

use phase_accum::{Op, Single};
use phase_base::Mode;

/// What a script line asks for. Task 0 is the founder. The values of a block stand beside it, in
/// `Values`.
#[derive(Clone, Copy, Debug, PartialEq, Eq)]
pub enum Command {
    /// Makes the phaser. `bound` and `phases` are in phases.
    Make {
        operation: Op,
        bound: u64,
        phases: u64,
    },
    /// Registers the child, in a mode that the parent's holds.
    Add {
        parent: u64,
        child: u64,
        mode: Mode,
    },
    /// Registers the child as a waiter from the first phase that is not complete.
    Now {
        parent: u64,
        child: u64,
    },
    /// Holds one more send for the task.
    Send {
        task: u64,
        value: i64,
    },
    /// Makes the task's signal, with the sends that it holds, and names a single or none.
    Signal {
        task: u64,
        single: Option<Single>,
    },
    /// Signals as many of the task's next phases as there are values, each with its value as its
    /// one send, and no single.
    Block {
        task: u64,
    },
    /// Waits for the task's next phase.
    Wait {
        task: u64,
    },
    /// Waits for the task's next phases, as many as are complete, but no more than this.
    Take {
        task: u64,
        phases: u64,
    },
    /// Drops the task's registration. The sends that it holds are given up.
    Drop {
        task: u64,
    },
}
