//! What the founders and the tasks of a run leave behind, taken to the end.
ghost use Rattle.std.specs.Prelude.{◌≡◌, Some, length, map, IfOk, IfSome};
ghost use Rattle.stream_tasks.specs.Openings.{HaveFoundersLeft};
ghost use Rattle.stream_tasks.specs.RunAnswers.{AreLinesOf};
ghost use Rattle.stream_workers.specs.TasksLeft.{AreTasksLeft};

use std::alloc::{AllocError, Global};
use stream_eval::Lines;
use stream_lists::Job;
use stream_members::AnyLeft;
use stream_tasks::{FounderLeft, Run, TaskLeft, finish};

/// What the founders have seen, and the numbers that they gave.
fn founders_left<'a>(
    alloc: Global,
    founders: Vec<FounderLeft<'a>>,
) -> Result<(Vec<Option<AnyLeft<'a>>>, Vec<Vec<u64>>), AllocError>
    ensures lefts { IfOk result (λ made.
        made.0.items ≡ map (λ founder. Some founder.left) founders.entry.items) }
    ensures gave { IfOk result (λ made.
        made.1.items ≡ map (λ founder. founder.gave) founders.entry.items) }
{
    let mut lefts = Vec::with_capacity(alloc, founders.len())?;
    let mut gave = Vec::with_capacity(alloc, founders.len())?;
    for founder in founders {
        let FounderLeft {
            left,
            gave: numbers,
        } = founder;
        lefts.push(Some(left))?;
        gave.push(numbers)?;
    }
    Ok((lefts, gave))
}

/// The sinks' lines, where what the founders and the tasks leave behind agrees.
pub fn finish_run<'a, J: Run>(
    alloc: Global,
    job: &Job,
    founders: Vec<FounderLeft<'a>>,
    tasks: Vec<Option<TaskLeft<'a>>>,
) -> Result<Option<Vec<Lines>>, AllocError>
    requires job { job.now ≡ J.job }
    requires founders { HaveFoundersLeft J.job J.spots founders.items }
    requires many { length tasks.items ≡ length J.job.graph.tasks }
    requires tasks { AreTasksLeft J.job J.spots tasks.items }
    ensures { IfOk result (λ found. IfSome found (λ lines. AreLinesOf job.now lines.items)) }
{
    let (lefts, gave) = founders_left(alloc, founders)?;
    finish(alloc, job, lefts, &gave, tasks)
}
