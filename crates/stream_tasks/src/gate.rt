//! What a worker calls as it enters a step.

/// Called by a worker as it enters a step of a task, before the step's first event, once a step; of
/// a block of steps once, with the first of them. Steps are numbered from 0.
pub trait Gate {
    fn at(&self, task: usize, step: u64);

    /// Whether it sees nothing, so that a run may make several steps at once where nobody can tell.
    /// Else the steps of a line that names no block are made one by one.
    fn is_open(&self) -> bool;
}

/// A gate that returns at once.
pub struct Open;

impl Gate for Open {
    fn at(&self, _task: usize, _step: u64) {}

    fn is_open(&self) -> bool {
        true
    }
}
