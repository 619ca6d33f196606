//! What a turn answers.
ghost use Rattle.std.specs.Prelude.{◌≡◌, None};

use graph_lang::Place;

/// What a turn of a task answers.
#[derive(Clone, Copy, Debug, PartialEq, Eq)]
pub enum Turned {
    /// The task made one event, which was not its last drop.
    Moved,
    /// The task's next signal is too far ahead, or its next wait has to wait. Nothing changed.
    Blocked,
    /// The task made its last drop.
    Ended,
    /// The task is not live: it has ended, is not registered yet, or there is no such task.
    Gone,
    /// A value is out of range: that of a phase of a phaser, or that of a step of a task.
    TooBig {
        /// The phaser or the task.
        place: Place,
        /// The phase or the step, from 0 on.
        phase: u64,
    },
}

impl Turned {
    ghost use Rattle.stream_job.specs.Turning.{met_by};

    /// Where a value is out of range.
    pub(crate) fn too_big(self) -> Option<(Place, u64)>
        ensures { result ≡ met_by None self }
    {
        match self {
            Turned::TooBig { place, phase } => Some((place, phase)),
            _ => None,
        }
    }
}
