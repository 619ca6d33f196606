//! What a phaser keeps of a registered task.
use crate::mode::Mode;

/// A registered task's mode and its two phase numbers, which count phases from 0.
#[derive(Clone, Copy, Debug, PartialEq, Eq)]
pub struct Entry {
    /// The mode in which the task is registered.
    pub mode: Mode,
    /// The phase that the task's next signal joins.
    pub signal_phase: u64,
    /// The phase that the task's next wait asks for.
    pub wait_phase: u64,
}
