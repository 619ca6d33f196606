//! All phasers and all tasks of a graph.

use crate::task_state::TaskState;
use phase_any::AnyPhaser;
use stream_eval::Lines;

/// The phasers of a graph, how far each task has come, and what each sink has taken.
#[derive(Drop)]
pub struct Machine {
    /// The phasers, in the order of their lines.
    pub cores: Vec<AnyPhaser>,
    /// The tasks, in the order of their lines.
    pub tasks: Vec<TaskState>,
    /// The sinks with their values, in the order of their lines.
    pub lines: Vec<Lines>,
}
