//! What the call of a turn did.
ghost use Rattle.std.specs.Prelude.{◌≡◌};

use crate::turned::Turned;
use graph_lang::Place;

/// What the call of a turn did, and where.
#[derive(Clone, Copy)]
pub enum Made {
    /// An event on this phaser, of which the turn tells so.
    Event { phaser: usize, told: Turned },
    /// Nothing: this phaser would not take the call now.
    Blocked { phaser: usize },
    /// Nothing: the value that the task would signal is out of range, in this step.
    OutOfRange { step: u64 },
    /// Nothing: the task is not live.
    Nothing,
}

impl Made {
    ghost use Rattle.stream_job.specs.Tellings.{told_by};

    /// What a turn of this task tells.
    pub fn told(self, task: usize) -> Turned
        ensures { result ≡ told_by self task }
    {
        match self {
            Made::Event { told, .. } => told,
            Made::Blocked { .. } => Turned::Blocked,
            Made::OutOfRange { step } => Turned::TooBig {
                place: Place::Task(task),
                phase: step,
            },
            Made::Nothing => Turned::Gone,
        }
    }
}
