//! Places in which blocks are made.
ghost use Rattle.std.specs.Prelude.{◌≡◌, ◌≤◌, ◌<◌, length, IfOk};
ghost use Rattle.graph_base.specs.Graphs.{task_at};
ghost use Rattle.stream_job.specs.Buffers.{HasPlaces};

use phase_accum::Outcome;
use phase_any::Parcels;
use std::alloc::{AllocError, Global};
use std::marker::Model;
use stream_lists::Job;

/// How many steps a task makes in one event of its own accord, at most.
pub const OWN_STEPS: u64 = 64;

/// Places that the calls of a turn use meanwhile: for what a wait for a block gets, and for the
/// values of a signal. They stand for how many there are of each.
#[derive(Drop)]
pub struct Buffers {
    pub outcomes: Vec<Outcome>,
    pub values: Vec<i64>,
    pub parcels: Parcels,
}

impl Model for Buffers {
    ghost use Rattle.std.specs.Prelude.{◌≡◌, ◌≤◌, ℕ, length, vec_capacity};

    ghost Value = { ℕ };

    ghost view = { λ b. b.parcels };

    ghost invariant = { λ b. (length b.outcomes.items ≡ b.parcels)
        × (b.parcels ≤ vec_capacity b.values) };
}

impl Buffers {
    /// Makes places for a turn of each task of a job. It takes memory for the greatest of them.
    pub fn new(alloc: Global, job: &Job) -> Result<Buffers, AllocError>
        ensures { IfOk result (HasPlaces job.now) }
    {
        let Ok(most) = usize::try_from(greatest_steps(job)) else {
            return Err(AllocError);
        };
        Ok(Buffers {
            outcomes: vec![in alloc; Outcome::Empty; most]?,
            values: Vec::with_capacity(alloc, most)?,
            parcels: Parcels::new(alloc, most)?,
        })
    }
}

/// The most steps that a turn of one of a job's tasks makes.
fn greatest_steps(job: &Job) -> u64
    ensures { HasPlaces job.now result }
{
    let mut most = OWN_STEPS;
    for t in 0..job.graph().tasks() {
        most = most.max(job.graph().task(t).block);
    }
    most
}
