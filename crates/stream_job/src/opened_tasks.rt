//! The tasks of a graph at its opening.
ghost use Rattle.std.specs.Prelude.{◌≡◌, ◌<◌, ◌≤◌, ℕ, [], length, slice_get, Some, IfOk, vec_capacity};
ghost use Rattle.graph_base.specs.Graphs.{task_at};
ghost use Rattle.graph_base.specs.declared.line.Kind.TheVariants.{Fir as filters};
ghost use Rattle.std.specs.List.{filter, range_with_len};
ghost use Rattle.graph_base.specs.TaskLines.{HasBlock, IsGraph};
ghost use Rattle.stream_lists.specs.Lists.{is_sink_at};
ghost use Rattle.graph_runs.specs.NextBlocks.{with_block};
ghost use Rattle.graph_runs.specs.Nexts.{registrations_at};
ghost use Rattle.graph_runs.specs.TaskPlaces.{registration_at};
ghost use Rattle.graph_runs.specs.Beginnings.{root_number};
ghost use Rattle.stream_job.specs.Buffers.{most_steps};
ghost use Rattle.stream_job.specs.Places.{IsOpened};

use crate::buffers::OWN_STEPS;
use crate::roots::root_number;
use crate::task_state::TaskState;
use graph_base::Kind;
use graph_runs::{Owed, first_filter, input_of, kind_of, output_of, parent_of};
use smallvec::SmallVec;
use std::alloc::{AllocError, Global};
use stream_filters::TooBigValue;
use stream_lists::Job;

/// The numbers of task number `t` on its phasers, none of a child's. It takes no memory.
fn root_numbers(alloc: Global, job: &Job, t: usize) -> SmallVec<u64, 9>
    requires { t < length job.now.graph.tasks }
    ensures few { length result.items ≤ length (registrations_at job.now t) }
    ensures numbers { (i : ℕ) → i < length (registrations_at job.now t)
        → root_number job.now (registration_at job.now t i).phaser t
        ≡ slice_get result.items i }
    ensures room { result.capacity ≡ 9 }
{
    let mut numbers = SmallVec::new(alloc);
    if parent_of(job, t).is_some() {
        return numbers;
    }
    for k in 0..job.graph().registrations(t) {
        let p = job.graph().registration(t, k).phaser;
        numbers.push_reserved(root_number(job, t, p));
    }
    numbers
}

/// How many of the values that task number `t` owes one event of it signals, at most: a block of
/// its line; or, of a filter whose line names none, so many, and no more than the bound of each of
/// its phasers.
fn owed_most(job: &Job, t: usize, own: u64) -> u64
    requires graph { IsGraph job.now.graph }
    requires task { t < length job.now.graph.tasks }
    requires own { 1 ≤ own }
    ensures sized { HasBlock job.now.graph (with_block result (task_at job.now.graph t)) }
    ensures least { (task_at job.now.graph t).block ≤ result }
    ensures most { own ≤ OWN_STEPS → result ≤ most_steps job.now t }
    ensures line { own ≡ 1 → result ≡ (task_at job.now.graph t).block }
{
    let block = job.graph().task(t).block;
    if block > 1 || kind_of(job, t) != Kind::Fir {
        return block;
    }
    let (_, output) = output_of(job, t, 0);
    let bound = job.graph().phaser(output).bound;
    own.min(bound)
        .min(job.graph().phaser(input_of(job, t, 0)).bound)
}

/// What task number `t` has made, which is nothing, with room for so many values of a filter.
fn first_made(
    alloc: Global,
    job: &Job,
    t: usize,
    most: u64,
) -> Result<Vec<Result<i64, TooBigValue>>, AllocError>
    requires { t < length job.now.graph.tasks }
    ensures none { IfOk result (λ made. made.items ≡ []) }
    ensures room { IfOk result (λ made. (task_at job.now.graph t).kind ≡ filters
        → most ≤ vec_capacity made) }
{
    if kind_of(job, t) != Kind::Fir {
        return Ok(Vec::new(alloc));
    }
    let Ok(most) = usize::try_from(most) else {
        return Err(AllocError);
    };
    Vec::with_capacity(alloc, most)
}

/// The state of task number `t`, above which there are so many sinks. A filter whose line names no
/// block makes at most so many steps of its own accord.
fn opened_task(
    alloc: Global,
    job: &Job,
    t: usize,
    sink: usize,
    own: u64,
) -> Result<TaskState, AllocError>
    requires graph { IsGraph job.now.graph }
    requires task { t < length job.now.graph.tasks }
    requires sinks { sink ≡ length (filter (is_sink_at job.now) (range_with_len 0 t)) }
    requires own { (1 ≤ own) × (own ≤ OWN_STEPS) }
    ensures { IfOk result (IsOpened own job.now t) }
{
    let most = owed_most(job, t, own);
    Ok(TaskState {
        numbers: root_numbers(alloc, job, t),
        left: 0,
        begun: 0,
        owed: Owed::Nothing,
        filter: first_filter(alloc, job, t)?,
        most,
        made: first_made(alloc, job, t, most)?,
        sink,
    })
}

/// The states of the tasks, in the order of their lines. A filter whose line names no block makes
/// at most so many steps of its own accord.
pub fn opened_tasks(alloc: Global, job: &Job, own: u64) -> Result<Vec<TaskState>, AllocError>
    requires { (1 ≤ own) × (own ≤ OWN_STEPS) }
    ensures many { IfOk result (λ tasks. length tasks.items ≡ length job.now.graph.tasks) }
    ensures tasks { IfOk result (λ tasks. (t : ℕ) (state : TaskState)
        → slice_get tasks.items t ≡ Some state → IsOpened own job.now t state) }
{
    let mut tasks = Vec::with_capacity(alloc, job.graph().tasks())?;
    let mut sinks = 0;
    for t in 0..job.graph().tasks() {
        tasks.push(opened_task(alloc, job, t, sinks, own)?)?;
        if job.graph().is_sink(t) {
            sinks += 1;
        }
    }
    Ok(tasks)
}
