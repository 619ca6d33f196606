//! Where a task meets another.

/// Where the task at fault meets one of an earlier line: both signal a phaser with `any` in one
/// phase.
#[derive(Clone, Copy, Debug)]
pub struct MeetingPlace<'a> {
    /// The name of the phaser.
    pub phaser: &'a str,
    /// The name of the other task.
    pub task: &'a str,
    /// The number of its line, counted from 1.
    pub line: usize,
    /// The phase, counted from 0.
    pub phase: u128,
}
