//! Where a task meets another.

/// The task that a task meets on a phaser, and where it does first.
#[derive(Clone, Copy, Debug, PartialEq, Eq)]
pub struct Meeting {
    /// The number of the other task.
    pub task: usize,
    /// The first phase of the phaser in which both signal.
    pub phase: u128,
}
