//! The tasks of a run before their first turn.
ghost use Rattle.std.specs.Prelude.{◌≡◌, ◌+◌, ◌<◌, length, IfOk, OnOk};
ghost use Rattle.stream_tasks.specs.Openings.{AreFounders};

use crate::endings::dismiss_all;
use crate::slot::{Slot, TaskSlot};
use crate::watch::Watch;
use graph_runs::parent_of;
use std::alloc::{AllocError, Global};
use std::sync::Wait;
use stream_lists::Job;
use stream_tasks::{Founder, Run, Task, Unregistered};
use worker_pool::Pool;

/// Makes a task's place: the founders register a task without a parent, and another one waits for
/// its parent.
fn open_place<'a, J: Run, W: Wait>(
    rt: &W,
    alloc: Global,
    founders: &mut [Founder<'a>],
    job: &'a Job,
    t: usize,
) -> Result<TaskSlot<'a, J>, AllocError>
    requires job { job.now ≡ J.job }
    requires task { t < length job.now.graph.tasks }
    requires founders { AreFounders job.now J.spots founders.old }
    ensures founders { AreFounders job.now J.spots founders.new }
{
    let None = parent_of(job, t) else {
        return Ok(TaskSlot::Unregistered(Unregistered::new(alloc, job, t)?));
    };
    match Task::found(rt, alloc, job, founders, t) {
        Ok(task) => Ok(TaskSlot::Task(task)),
        Err(_) => Err(AllocError),
    }
}

/// Puts a place into a pool. Where there is no memory the task leaves, by waiting.
fn put_in<'a, J: Run, G: Watch, W: Wait>(
    rt: &W,
    pool: &mut Pool<Slot<'a, J, G>>,
    place: TaskSlot<'a, J>,
    gate: &'a G,
) -> Result<(), AllocError>
    ensures { OnOk result (pool.new ≡ pool.old + 1) }
{
    let is_task = place.is_task();
    let slot = Slot { place, gate };
    let put = if is_task {
        pool.push(slot)
    } else {
        pool.push_child(slot)
    };
    match put {
        Ok(()) => Ok(()),
        Err(Slot { place, gate: _ }) => {
            place.dismiss(rt);
            Err(AllocError)
        }
    }
}

/// Makes the pool of all tasks of a job, in the order of the lines, those without a parent
/// registered by the founders. Where there is no memory all leave, by waiting.
pub fn open_pool<'a, J: Run, G: Watch, W: Wait>(
    rt: &W,
    alloc: Global,
    founders: &mut [Founder<'a>],
    job: &'a Job,
    gate: &'a G,
) -> Result<Pool<Slot<'a, J, G>>, AllocError>
    requires job { job.now ≡ J.job }
    requires founders { AreFounders J.job J.spots founders.old }
    ensures founders { AreFounders J.job J.spots founders.new }
    ensures many { IfOk result (λ pool. pool ≡ length J.job.graph.tasks) }
{
    let mut pool = Pool::with_room(alloc, job.graph().tasks())?;
    for t in 0..job.graph().tasks() {
        let put = match open_place::<J, W>(rt, alloc, founders, job, t) {
            Ok(place) => put_in(rt, &mut pool, place, gate),
            Err(fault) => Err(fault),
        };
        if let Err(fault) = put {
            dismiss_all(rt, pool);
            return Err(fault);
        }
    }
    Ok(pool)
}
