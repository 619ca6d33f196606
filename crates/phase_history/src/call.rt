//! The calls of a phaser as plain data. The code makes none: contracts speak of them.
use phase_accum::Single;
use phase_base::Mode;
use std::collections::LinkedList;

/// A call of a phaser.
#[derive(Drop)]
pub enum Call {
    /// The parent registers the child in the mode, at the parent's own phases.
    Register {
        parent: u64,
        child: u64,
        mode: Mode,
    },
    /// The parent registers the child as a waiter from the first phase that is not complete.
    RegisterNow {
        parent: u64,
        child: u64,
    },
    /// The task signals as many phases as there are lists of sends, and names a single or none.
    Signal {
        task: u64,
        lists: LinkedList<LinkedList<i64>>,
        single: Option<Single>,
    },
    /// The task waits for one phase.
    Wait {
        task: u64,
    },
    /// The task waits for at most this many phases.
    WaitBlock {
        task: u64,
        phases: u64,
    },
    /// The task drops its registration.
    Drop {
        task: u64,
    },
}
