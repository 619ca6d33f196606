//! A registered task of a phaser.
use crate::entry::Entry;

/// A registered task: its number and its entry.
#[derive(Clone, Copy, Debug, PartialEq, Eq)]
pub struct Member {
    /// The task's number.
    pub task: u64,
    /// The task's mode and phases.
    pub entry: Entry,
}
