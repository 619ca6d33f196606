//! A run of a graph on worker threads.
ghost use Rattle.std.specs.Prelude.{◌≡◌, length, IfOk};
ghost use Rattle.stream_tasks.specs.Openings.{ArePhasers, AreFoundersFrom, HaveFoundersLeft, spot_at};
ghost use Rattle.stream_workers.specs.TasksLeft.{AreTasksLeft};

use crate::endings::{dismiss_all, run_slots};
use crate::opening::open_pool;
use crate::stopped::Stopped;
use crate::watch::Watch;
use std::alloc::Global;
use std::sync::Wait;
use std::thread::Threads;
use stream_lists::Job;
use stream_members::{AnyPhaser, AnyReg};
use stream_tasks::{FounderLeft, Run, TaskLeft, dismiss_founders, found, leave_all};
use worker_pool::Fault;

/// What the founders and the tasks of a run have left behind, in the order of the lines.
#[derive(Drop)]
pub struct Behind<'a> {
    pub founders: Vec<FounderLeft<'a>>,
    pub tasks: Vec<Option<TaskLeft<'a>>>,
}

/// Runs a job on these phasers, by so many workers. Where a worker tells of a fault, it is told
/// where the tasks stood.
pub fn run_on<'a, J: Run + Send + Sync, G: Watch + Sync, R: Threads + Wait + Sync>(
    rt: &R,
    alloc: Global,
    job: &'a Job,
    phasers: &'a [AnyPhaser],
    regs: Vec<AnyReg>,
    workers: usize,
    gate: &'a G,
) -> Result<Behind<'a>, Stopped>
    requires job { job.now ≡ J.job }
    requires spots { spot_at phasers.now ≡ J.spots }
    requires phasers { ArePhasers J.job phasers.now }
    requires founders { AreFoundersFrom 0 phasers.now regs.items }
    ensures founders { IfOk result (λ behind.
        HaveFoundersLeft J.job J.spots behind.founders.items) }
    ensures many { IfOk result (λ behind. length behind.tasks.items
        ≡ length J.job.graph.tasks) }
    ensures tasks { IfOk result (λ behind. AreTasksLeft J.job J.spots behind.tasks.items) }
{
    let Ok(mut founders) = found(rt, alloc, phasers, regs) else {
        return Err(Stopped::by(alloc, Fault::OutOfMemory));
    };
    let Ok(pool) = open_pool::<J, G, R>(rt, alloc, &mut founders, job, gate) else {
        dismiss_founders(rt, founders);
        return Err(Stopped::by(alloc, Fault::OutOfMemory));
    };
    let Ok(founders) = leave_all(rt, alloc, founders) else {
        dismiss_all(rt, pool);
        return Err(Stopped::by(alloc, Fault::OutOfMemory));
    };
    let tasks = run_slots(rt, alloc, pool, job.graph().tasks(), workers)?;
    Ok(Behind { founders, tasks })
}
