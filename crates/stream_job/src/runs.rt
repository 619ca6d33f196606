//! Runs of a graph by given turns.
ghost use Rattle.std.specs.Prelude.{◌≡◌, ℕ, None, Err, IfOk, OnOk};
ghost use Rattle.graph_base.specs.declared.place.Place.{Place as PlaceValue};
ghost use Rattle.graph_runs.specs.Answers.{after_turns};
ghost use Rattle.graph_runs.specs.Beginnings.{opening};
ghost use Rattle.stream_job.specs.Runs.{TellsNone, TellsTooBig};
ghost use Rattle.stream_job.specs.Worlds.{IsWorldAt};

use crate::turned::Turned;
use crate::world::World;
use graph_lang::Place;
use std::alloc::{AllocError, AllocFailed, Global};
use stream_lists::Job;
use thiserror::Error;

/// Why a run by given turns came to no end.
#[derive(Clone, Copy, Debug, PartialEq, Eq, Error)]
pub enum RunTurnsFault {
    /// A value is out of range: that of a phase of a phaser, or that of a step of a task.
    #[error("{place:?}: the value of phase or step {phase} is out of range")]
    TooBig {
        /// The phaser or the task.
        place: Place,
        /// The phase or the step, from 0 on.
        phase: u64,
    },
    /// There was no memory.
    #[error("out of memory")]
    OutOfMemory,
}

impl From<AllocError> for RunTurnsFault {
    ghost use Rattle.std.specs.Prelude.{◌≡◌};
    ghost use Rattle.stream_job.specs.declared.runs.RunTurnsFault.TheVariants.{OutOfMemory};

    ghost from_gives = { λ _ e. e ≡ OutOfMemory };

    fn from(_: AllocError) -> RunTurnsFault {
        RunTurnsFault::OutOfMemory
    }
}

/// Makes a run of a job at its opening, and gives the tasks of these numbers a turn each, one after
/// the other. A number may come more than once; a turn of a task that is not live, or not there,
/// changes nothing. The first value out of range ends the run, and is named.
///
/// It takes memory as `World::new` and `World::turn` do.
pub fn run_turns<'a>(
    alloc: Global,
    job: &'a Job,
    turns: &[usize],
) -> Result<World<'a>, RunTurnsFault>
    ensures job { IfOk result (λ world. world.job ≡ job.now) }
    ensures after { IfOk result (λ world.
        IsWorldAt world (after_turns job.now (opening job.now) turns.now)) }
    ensures met { IfOk result (λ world. world.met ≡ None) }
    ensures none { OnOk result (TellsNone job.now turns.now) }
    ensures too_big { (place : PlaceValue) (phase : ℕ)
        → result ≡ Err (RunTurnsFault.TooBig place phase)
        → TellsTooBig job.now turns.now (place, phase) }
{
    let mut world = World::new(alloc, job)?;
    for task in turns {
        if let Turned::TooBig { place, phase } = world.turn(*task)? {
            return Err(RunTurnsFault::TooBig { place, phase });
        }
    }
    Ok(world)
}
