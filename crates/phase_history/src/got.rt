//! What a wait, or a wait for a block of phases, answers.
use phase_accum::Outcome;

/// What a wait answers where it is accepted.
#[derive(Clone, Copy, Debug, PartialEq, Eq)]
pub enum Got {
    /// The value of a complete phase.
    Value {
        /// The phase, counted from 0.
        phase: u64,
        /// Its value.
        outcome: Outcome,
    },
    /// No signaller is registered, and the task has got every phase.
    Ended,
}

/// What a wait for a block of phases answers where it is accepted.
#[derive(Clone, Copy, Debug, PartialEq, Eq)]
pub enum GotBlock {
    /// The values of complete phases, one after another, stand where the caller asked for them.
    Values {
        /// The first of the phases, counted from 0.
        phase: u64,
        /// How many phases there are: as many as were asked for, or as are complete.
        count: u64,
    },
    /// No signaller is registered, and the task has got every phase.
    Ended,
}
