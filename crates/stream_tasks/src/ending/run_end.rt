//! The end of a run between threads.
ghost use Rattle.std.specs.Prelude.{◌≡◌, [], ℕ, length, map, get_or, IfOk, IfSome};
ghost use Rattle.stream_members.specs.Members.{Spot};
ghost use Rattle.stream_tasks.specs.declared.ending.task_left.TaskLeft.{TaskLeft as TaskLeftValue};
ghost use Rattle.stream_tasks.specs.Joinings.{IsPlaced};
ghost use Rattle.stream_tasks.specs.RunAnswers.{AreLinesOf};
ghost use Rattle.stream_tasks.specs.TaskLefts.{IsTaskLeft, AreFoundersLeft};

use crate::ending::agreeing::all_agree;
use crate::ending::gathering::gather;
use crate::ending::given_numbers::all_of_tasks;
use crate::ending::lines::sink_lines;
use crate::ending::task_left::TaskLeft;
use graph_runs::ends::runs_end;
use std::alloc::{AllocError, Global};
use stream_eval::Lines;
use stream_lists::Job;
use stream_members::AnyLeft;

/// What the sinks have taken, where what the tasks and the founders leave behind agrees: then it is
/// the answer of the job, for the starts of the sinks that joined now. None where something
/// differs, or is missing.
///
/// The founders' and the tasks' places are those of the lines; a task that never came has none. It
/// takes memory for a list of the tasks, and one of the sinks.
pub fn finish<'a>(
    alloc: Global,
    job: &Job,
    founders: Vec<Option<AnyLeft<'a>>>,
    gave: &[Vec<u64>],
    tasks: Vec<Option<TaskLeft<'a>>>,
) -> Result<Option<Vec<Lines>>, AllocError>
    requires phasers { length founders.items ≡ length job.now.graph.phasers }
    requires gave { length gave.now ≡ length job.now.graph.phasers }
    requires tasks { length tasks.items ≡ length job.now.graph.tasks }
    requires left { (spots : ℕ → Spot)
        × AreFoundersLeft job.now spots founders.items
        (λ p. get_or (map (λ g. g.items) gave.now) p [])
        × ((t : ℕ) (left : TaskLeftValue) → IsPlaced tasks.items t left
        → IsTaskLeft job.now spots left) }
    ensures { IfOk result (λ found. IfSome found (λ lines. AreLinesOf job.now lines.items)) }
{
    runs_end();
    let mut joined = founders;
    let _tasks = job.graph().tasks();
    let Some(parts) = gather(alloc, job, &mut joined, tasks)? else {
        return Ok(None);
    };
    if !all_agree(job, &parts) || !all_of_tasks(job, &parts, gave) {
        return Ok(None);
    }
    Ok(Some(sink_lines(alloc, job, parts)?))
}
