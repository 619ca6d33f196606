//! Who looks at the turns of the tasks of a run.
use std::time::Instant;
use stream_tasks::{Gate, Went};

/// A gate that is called around each turn of a task, too.
pub trait Watch: Gate {
    /// Called as a worker begins a turn of a task. What it returns is handed to `ends`.
    fn begins(&self) -> Option<Instant>;

    /// Called at the end of a turn of this task, with what `begins` returned, and with how far the
    /// task came.
    fn ends(&self, task: usize, began: Option<Instant>, went: Went);
}

/// A gate, of whose run nobody looks at the turns.
#[derive(Drop)]
pub struct Unwatched<'a, G> {
    pub gate: &'a G,
}

impl<'a, G: Gate> Gate for Unwatched<'a, G> {
    fn at(&self, task: usize, step: u64) {
        self.gate.at(task, step);
    }

    fn is_open(&self) -> bool {
        self.gate.is_open()
    }
}

impl<'a, G: Gate> Watch for Unwatched<'a, G> {
    fn begins(&self) -> Option<Instant> {
        None
    }

    fn ends(&self, _task: usize, _began: Option<Instant>, _went: Went) {}
}
