//! What a task is registered for on a phaser.

use phase_base::Mode;

/// The registration of a task on one of its phasers. It is an input of the task, or an output, or
/// both: a peer's exchange is its input 1 and its output 0, so that its Y is output 1.
#[derive(Clone, Copy, Debug, PartialEq, Eq)]
pub struct Registration {
    /// The number of the phaser.
    pub phaser: usize,
    /// The mode in which the task is registered.
    pub mode: Mode,
    /// The number of the input, from 0 on, where the task waits there.
    pub input: Option<usize>,
    /// The number of the output, from 0 on, where the task signals there.
    pub output: Option<usize>,
}
