//! Why there are no lists.
use graph_base::Place;
use thiserror::Error;

/// Why whole lists were not composed.
#[derive(Clone, Copy, Debug, PartialEq, Eq, Error)]
pub enum EvalFault {
    /// A value is out of range. It is the first in the order of the phasers' lines; on one phaser
    /// the outputs of filters and peers come before the phases.
    #[error("{place:?}: the value of phase or step {phase} is out of range")]
    TooBig {
        /// The phaser of the value, or the filter or peer that made it.
        place: Place,
        /// The phase on the phaser, or the step of the task.
        phase: usize,
    },
    /// There was no memory, or a list has more values than any memory holds.
    #[error("out of memory")]
    OutOfMemory,
}
