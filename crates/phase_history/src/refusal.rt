//! Why a call of a phaser was refused. The variants stand in the order in which they are checked.
use phase_base::{MEMBERS_MAX, SENDS_MAX};
use thiserror::Error;

/// The task is not registered.
#[derive(Clone, Copy, Debug, PartialEq, Eq, Hash, Error)]
#[error("the task is not registered")]
pub struct NoTask;

/// Why a registration was refused.
#[derive(Clone, Copy, Debug, PartialEq, Eq, Hash, Error)]
pub enum RegisterRefusal {
    /// The parent is not registered.
    #[error("the parent is not registered")]
    NoTask,
    /// The parent's mode does not hold the child's.
    #[error("the parent's mode does not hold the child's mode")]
    NotAllowed,
    /// The child's number is not above every number ever used on the phaser.
    #[error("the child's number is not above every number ever used")]
    NotNew,
    /// `MEMBERS_MAX` tasks are registered.
    #[error("{max} tasks are registered already", max = MEMBERS_MAX)]
    TooManyTasks,
    /// A growth was refused.
    #[error("out of memory")]
    OutOfMemory,
}

/// Why a signal was refused.
#[derive(Clone, Copy, Debug, PartialEq, Eq, Hash, Error)]
pub enum SignalRefusal {
    /// The task is not registered.
    #[error("the task is not registered")]
    NoTask,
    /// The task's mode does not signal.
    #[error("the task's mode does not signal")]
    NoSignal,
    /// A single is named and the task's mode is not `Single`.
    #[error("only a task in the mode `Single` may name a single")]
    NotSingle,
    /// A block of no phase, or of more phases than the bound. No plain signal meets it.
    #[error("a block has one phase at least, and at most as many as the bound")]
    BadBlock,
    /// The task's mode waits too, and it has signalled since its last wait.
    #[error("the task waits too, and has to wait before it signals again")]
    SignalTwice,
    /// The phase is not below the limit of phases.
    #[error("the phaser was made for fewer phases")]
    Spent,
    /// A waiter is registered, and the phase is the bound or more ahead of the slowest.
    #[error("the slowest waiter is as many phases behind as the bound allows")]
    Ahead,
    /// A waiter is registered, and the first signal of the phase named otherwise: another single,
    /// one where this signal names none, or none where it names one.
    #[error("the signals of this phase named another single, or none")]
    SingleDiffers,
    /// A waiter is registered, and the phase would hold more than `SENDS_MAX` sends.
    #[error("the phase would have more than {max} sends", max = SENDS_MAX)]
    PhaseFull,
}

/// Why a wait was refused.
#[derive(Clone, Copy, Debug, PartialEq, Eq, Hash, Error)]
pub enum WaitRefusal {
    /// The task is not registered.
    #[error("the task is not registered")]
    NoTask,
    /// The task's mode does not wait.
    #[error("the task's mode does not wait")]
    NoWait,
    /// A block of no phase, or of more phases than the bound. No plain wait meets it.
    #[error("a block has one phase at least, and at most as many as the bound")]
    BadBlock,
    /// The task's mode signals too, and it has not signalled since its last wait.
    #[error("the task signals too, and has to signal before it waits again")]
    SignalFirst,
    /// The phase is not complete, and a signaller is registered.
    #[error("the phase is not complete, and a signaller is registered")]
    NotYet,
}
