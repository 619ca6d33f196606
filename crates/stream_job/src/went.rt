//! What a turn did that takes no value out of range.
ghost use Rattle.std.specs.Prelude.{◌≡◌};

use crate::made::Made;
use graph_lang::Place;

/// What a turn did that takes no value out of range.
#[derive(Clone, Copy)]
pub enum Went {
    /// It made one event.
    On,
    /// Nothing: the task is not live, or its phaser would not take the call now.
    Stays,
    /// Nothing: the value that the task would take or signal next is out of range.
    Before {
        /// The phaser or the task.
        place: Place,
        /// The phase or the step, from 0 on.
        phase: u64,
    },
}

impl Made {
    ghost use Rattle.stream_job.specs.InRange.{went_by};

    /// What a turn did that met no value out of range.
    pub fn went(self) -> Went
        ensures { result ≡ went_by self }
    {
        match self {
            Made::Event { .. } => Went::On,
            Made::Blocked { .. } | Made::OutOfRange { .. } | Made::Nothing => Went::Stays,
        }
    }
}
