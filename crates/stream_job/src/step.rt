//! What a task does next.

/// The call that a task makes next.
#[derive(Clone, Copy, Debug, PartialEq, Eq)]
pub enum Step {
    /// None, as it is not live.
    NotLive,
    /// It registers this child.
    Register { child: usize },
    /// It leaves the first phaser that it has not left.
    Leave,
    /// It signals its next sample.
    Sample,
    /// It signals the value that it owes on this output.
    Signal { output: usize },
    /// It waits on this input for its next step.
    Wait { input: usize },
    /// A peer waits on E.
    Exchange,
}

/// The call that a task makes next, of at most so many steps.
#[derive(Clone, Copy)]
pub struct SizedStep {
    pub step: Step,
    pub most: u64,
}
