//! Why a run that is fed goes on no further.

use graph_lang::Place;

/// Why a run that is fed goes on no further for now, or at all.
#[derive(Clone, Copy, Debug, PartialEq, Eq)]
pub enum Stopped {
    /// A source has signalled all samples that it was fed, and has not ended. Feed it, or end it.
    Hungry {
        /// The number of the source among the sources.
        source: usize,
    },
    /// A sink has no room for its next values. Read what it has, and forget it.
    Full {
        /// The number of the sink among the sinks.
        sink: usize,
    },
    /// No task can move, and no sample and no reading can help.
    Stalled,
    /// No task is left.
    Done,
    /// A value is out of range: that of a phase of a phaser, or that of a step of a task.
    TooBig {
        /// The phaser or the task.
        place: Place,
        /// The phase or the step, from 0 on.
        phase: u64,
    },
    /// As many rounds of turns were made as one call makes at most, 2^32 - 1, and there may be more
    /// to do. Call again.
    Paused,
}
