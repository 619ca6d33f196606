//! What a name stands for.

/// A phaser or a task of a graph, each numbered from 0 in the order of their lines.
#[derive(Clone, Copy, Debug, PartialEq, Eq)]
pub enum Place {
    /// The phaser of this number.
    Phaser(usize),
    /// The task of this number.
    Task(usize),
}
