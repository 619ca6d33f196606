//! What the tasks of a run leave behind.
ghost use Rattle.std.specs.Prelude.{◌≡◌, ◌+◌, [], length, IfOk, OnOk};
ghost use Rattle.stream_workers.specs.TasksLeft.{AreTasksLeft};

use crate::slot::{Slot, TaskSlot};
use crate::stopped::Stopped;
use crate::watch::Watch;
use std::alloc::Global;
use std::sync::Wait;
use std::thread::Threads;
use stream_lists::Stand;
use stream_tasks::{Run, TaskLeft};
use worker_pool::{Fault, Pool};

/// Runs the tasks of a pool by so many workers, and gives what each leaves behind, in the order in
/// which they were put in, and nothing for one that never came. Where there is a fault all leave
/// their phasers, by waiting, and it is told where they stood.
pub fn run_slots<'a, J: Run + Send + Sync, G: Watch + Sync, R: Threads + Wait + Sync>(
    rt: &R,
    alloc: Global,
    pool: Pool<Slot<'a, J, G>>,
    tasks: usize,
    workers: usize,
) -> Result<Vec<Option<TaskLeft<'a>>>, Stopped>
    ensures many { IfOk result (λ ends. length ends.items ≡ pool.entry) }
    ensures left { IfOk result (λ ends. AreTasksLeft J.job J.spots ends.items) }
{
    let Ok(ends) = Vec::with_capacity(alloc, tasks) else {
        dismiss_all(rt, pool);
        return Err(Stopped::by(alloc, Fault::OutOfMemory));
    };
    match pool.run(rt, workers) {
        None => match end_all(rt, pool, ends) {
            Ok(ends) => Ok(ends),
            Err(fault) => Err(Stopped::by(alloc, fault)),
        },
        Some(fault) => {
            let stands = dismiss_and_tell(rt, alloc, pool);
            Err(Stopped { fault, stands })
        }
    }
}

/// Lets all tasks leave, by waiting, and gives where each of them stood, in the order in which they
/// were put in; nothing where memory runs out.
fn dismiss_and_tell<J: Run, G: Watch, W: Wait>(
    rt: &W,
    alloc: Global,
    pool: Pool<Slot<'_, J, G>>,
) -> Vec<Stand> {
    let mut stands = Vec::new(alloc);
    let mut is_told = true;
    let mut pool = pool;
    while let Some(Slot { place, gate: _ }) = pool.pop() {
        is_told = is_told && place.stand(&mut stands).is_ok();
        place.dismiss(rt);
    }
    pool.destroy_empty();
    if !is_told {
        stands.clear();
    }
    stands.reverse();
    stands
}

/// Lets all tasks leave, by waiting.
pub fn dismiss_all<J: Run, G: Watch, W: Wait>(rt: &W, pool: Pool<Slot<'_, J, G>>) {
    let mut pool = pool;
    while let Some(Slot { place, gate: _ }) = pool.pop() {
        place.dismiss(rt);
    }
    pool.destroy_empty();
}

// Takes a task apart, and puts what it leaves behind to the others.
fn end_one<'a, J: Run, W: Wait>(
    rt: &W,
    place: TaskSlot<'a, J>,
    ends: &mut Vec<Option<TaskLeft<'a>>>,
) -> Result<(), Fault>
    ensures many { OnOk result (length ends.new.items ≡ length ends.old.items + 1) }
    ensures left { OnOk result (AreTasksLeft J.job J.spots ends.old.items
        → AreTasksLeft J.job J.spots ends.new.items) }
{
    let end = place.end(rt)?;
    if ends.reserve(1).is_err() {
        return Err(Fault::OutOfMemory);
    }
    ends.push_reserved(end);
    Ok(())
}

// Takes all tasks apart, the last one first, and turns what they leave behind round. Where one has
// not left, all the others leave, by waiting.
fn end_all<'a, J: Run, G: Watch, W: Wait>(
    rt: &W,
    pool: Pool<Slot<'a, J, G>>,
    ends: Vec<Option<TaskLeft<'a>>>,
) -> Result<Vec<Option<TaskLeft<'a>>>, Fault>
    requires none { ends.items ≡ [] }
    ensures many { IfOk result (λ ends. length ends.items ≡ pool.entry) }
    ensures left { IfOk result (λ ends. AreTasksLeft J.job J.spots ends.items) }
{
    let mut pool = pool;
    let mut ends = ends;
    while let Some(Slot { place, gate: _ }) = pool.pop() {
        if let Err(fault) = end_one(rt, place, &mut ends) {
            dismiss_all(rt, pool);
            return Err(fault);
        }
    }
    pool.destroy_empty();
    ends.reverse();
    Ok(ends)
}
