//! Whole runs of a graph on worker threads.
ghost use Rattle.std.specs.Prelude.{◌≡◌, ℕ, Some, Err, IfOk};
ghost use Rattle.stream_tasks.specs.Openings.{ArePhasers, AreFoundersFrom, spot_at};
ghost use Rattle.stream_tasks.specs.RunAnswers.{AreLinesOf};
ghost use Rattle.stream_lists.specs.Ranges.{first_too_big};
ghost use Rattle.graph_base.specs.declared.place.Place.{Place as PlaceValue};

use crate::behind::{Behind, run_on};
use crate::finishing::finish_run;
use crate::laws::starts_are_in_time;
use crate::stopped::Stopped;
use crate::watch::{Unwatched, Watch};
use graph_base::Place;
use std::alloc::Global;
use std::marker::Brand;
use std::sync::Wait;
use std::thread::Threads;
use stream_eval::{EvalFault, Lines, eval};
use stream_lists::{Job, Stand};
use stream_members::{AnyPhaser, AnyReg};
use stream_tasks::{Gate, Open, Run, open_phasers};
use thiserror::Error;
use worker_pool::Fault;

/// Why a run gives no lines.
#[derive(Debug, PartialEq, Eq, Error, Drop)]
pub enum RunFault {
    /// A value is out of range: the first one in the order of the phasers' lines.
    #[error("{place:?}: the value of phase or step {phase} is out of range")]
    TooBig {
        /// The phaser of the value, or the filter or peer that made it.
        place: Place,
        /// The phase on the phaser, or the step of the task.
        phase: usize,
    },
    /// Every task that was not done waited for another. Where each of them stood on each phaser
    /// that it had not left, in the order of the lines; nothing where memory ran out over it.
    #[error("stalled")]
    Stalled(Vec<Stand>),
    /// There was no memory.
    #[error("out of memory")]
    OutOfMemory,
}

/// What a job's run answers where a worker met a value out of range: the job's own answer. It names
/// the first such value, or has the lines, where no value that the job takes is out of range.
fn too_big(alloc: Global, job: &Job) -> Result<Vec<Lines>, RunFault>
    ensures done { IfOk result (λ lines. AreLinesOf job.now lines.items) }
    ensures too_big { (place : PlaceValue) (n : ℕ) → result ≡ Err (RunFault.TooBig place n)
        → first_too_big job.now ≡ Some (place, n) }
{
    let _tasks = job.graph().tasks();
    starts_are_in_time();
    match eval(alloc, job) {
        Ok(lines) => Ok(lines),
        Err(EvalFault::TooBig { place, phase }) => Err(RunFault::TooBig { place, phase }),
        Err(EvalFault::OutOfMemory) => Err(RunFault::OutOfMemory),
    }
}

/// What a run answers that ended before all its tasks were done: for a value out of range what
/// `eval` answers, which takes memory, since a worker may meet one that the job does not take.
pub fn after_fault(alloc: Global, job: &Job, fault: Fault) -> Result<Vec<Lines>, RunFault>
    ensures done { IfOk result (λ lines. AreLinesOf job.now lines.items) }
    ensures too_big { (place : PlaceValue) (n : ℕ) → result ≡ Err (RunFault.TooBig place n)
        → first_too_big job.now ≡ Some (place, n) }
{
    match fault {
        Fault::TooBig => too_big(alloc, job),
        Fault::Stalled => Err(RunFault::Stalled(Vec::new(alloc))),
        Fault::OutOfMemory => Err(RunFault::OutOfMemory),
    }
}

/// Runs a job on these phasers to its end.
fn run_named<'a, J: Run + Send + Sync, G: Watch + Sync, R: Threads + Wait + Sync>(
    rt: &R,
    alloc: Global,
    job: &'a Job,
    phasers: &'a [AnyPhaser],
    regs: Vec<AnyReg>,
    workers: usize,
    gate: &'a G,
) -> Result<Vec<Lines>, RunFault>
    requires job { job.now ≡ J.job }
    requires spots { spot_at phasers.now ≡ J.spots }
    requires phasers { ArePhasers J.job phasers.now }
    requires founders { AreFoundersFrom 0 phasers.now regs.items }
    ensures done { IfOk result (λ lines. AreLinesOf job.now lines.items) }
    ensures too_big { (place : PlaceValue) (n : ℕ) → result ≡ Err (RunFault.TooBig place n)
        → first_too_big job.now ≡ Some (place, n) }
{
    let behind = match run_on::<J, G, R>(rt, alloc, job, phasers, regs, workers, gate) {
        Ok(behind) => behind,
        Err(
            Stopped {
                fault: Fault::Stalled,
                stands,
            },
        ) => return Err(RunFault::Stalled(stands)),
        Err(Stopped { fault, stands: _ }) => return after_fault(alloc, job, fault),
    };
    let Behind { founders, tasks } = behind;
    match finish_run::<J>(alloc, job, founders, tasks) {
        Ok(Some(lines)) => Ok(lines),
        Ok(None) => Err(RunFault::Stalled(Vec::new(alloc))),
        Err(_) => Err(RunFault::OutOfMemory),
    }
}

/// Runs a job by so many worker threads, of which the caller's is one, and gives the values of each
/// sink in the order of the lines. A sink that joins now begins where its phaser stands when its
/// parent's turn comes to register it, and tells where. The gate is called once a step, as a worker
/// enters it, and once for a block of steps.
///
/// It takes memory for the phasers, the tasks, their registrations and the sinks' values, and
/// waits. `Stalled` is said where every task that is left waits for another, with where it stands;
/// nothing is promised of it. It is not promised that a run comes back.
pub fn run<R: Threads + Wait + Sync, G: Gate + Sync>(
    rt: &R,
    alloc: Global,
    job: &Job,
    workers: usize,
    gate: &G,
) -> Result<Vec<Lines>, RunFault>
    ensures done { IfOk result (λ lines. AreLinesOf job.now lines.items) }
    ensures too_big { (place : PlaceValue) (n : ℕ) → result ≡ Err (RunFault.TooBig place n)
        → first_too_big job.now ≡ Some (place, n) }
{
    run_by(rt, alloc, job, workers, &Unwatched { gate })
}

/// Runs a job as `run` does, and calls the gate, where there is one, around each turn of a task,
/// too. It takes memory as that does, and waits.
pub fn run_watched<R: Threads + Wait + Sync, G: Watch + Sync>(
    rt: &R,
    alloc: Global,
    job: &Job,
    workers: usize,
    gate: Option<&G>,
) -> Result<Vec<Lines>, RunFault>
    ensures done { IfOk result (λ lines. AreLinesOf job.now lines.items) }
    ensures too_big { (place : PlaceValue) (n : ℕ) → result ≡ Err (RunFault.TooBig place n)
        → first_too_big job.now ≡ Some (place, n) }
{
    match gate {
        Some(gate) => run_by(rt, alloc, job, workers, gate),
        None => run(rt, alloc, job, workers, &Open),
    }
}

/// Runs a job by so many worker threads, which call the gate.
fn run_by<R: Threads + Wait + Sync, G: Watch + Sync>(
    rt: &R,
    alloc: Global,
    job: &Job,
    workers: usize,
    gate: &G,
) -> Result<Vec<Lines>, RunFault>
    ensures done { IfOk result (λ lines. AreLinesOf job.now lines.items) }
    ensures too_big { (place : PlaceValue) (n : ℕ) → result ≡ Err (RunFault.TooBig place n)
        → first_too_big job.now ≡ Some (place, n) }
{
    let Ok((phasers, regs)) = open_phasers(rt, alloc, job) else {
        return Err(RunFault::OutOfMemory);
    };
    run_named::<Brand, G, R>(rt, alloc, job, &phasers, regs, workers, gate)
}
