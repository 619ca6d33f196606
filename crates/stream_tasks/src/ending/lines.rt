//! What the sinks have taken.
ghost use Rattle.std.specs.Prelude.{◌≡◌, ◌<◌, length, map, get_or, None, IfOk};
ghost use Rattle.std.specs.List.{All};
ghost use Rattle.stream_eval.specs.Results.{sink_values};
ghost use Rattle.stream_lists.specs.Lists.{sinks_of};
ghost use Rattle.graph_base.specs.Graphs.{task_at};
ghost use Rattle.stream_tasks.specs.TaskLefts.{part_lines, part_start, lines_at};

use crate::ending::task_left::TaskKnowledge;
use std::alloc::{AllocError, Global};
use stream_eval::Lines;
use stream_lists::Job;

/// What a task has taken, and nothing where it never came.
fn lines_of(alloc: Global, part: Option<TaskKnowledge>) -> Vec<i64>
    ensures { result.items ≡ part_lines part }
{
    match part {
        Some(part) => part.lines,
        None => Vec::new(alloc),
    }
}

/// Where a task began that joins now and came.
fn start_of(job: &Job, t: usize, part: &Option<TaskKnowledge>) -> Option<u64>
    requires { t < length job.now.graph.tasks }
    ensures { result ≡ part_start (task_at job.now.graph t).joins_now part.now }
{
    if !job.graph().task(t).joins_now {
        return None;
    }
    match part {
        Some(part) => Some(part.start),
        None => None,
    }
}

/// What the sinks have taken, in the order of their lines, with the starts of those that join now.
pub fn sink_lines(
    alloc: Global,
    job: &Job,
    parts: Vec<Option<TaskKnowledge>>,
) -> Result<Vec<Lines>, AllocError>
    requires { length parts.items ≡ length job.now.graph.tasks }
    ensures values { IfOk result (λ lines. map sink_values lines.items
        ≡ map (λ t. (t, lines_at parts.items t)) (sinks_of job.now)) }
    ensures starts { IfOk result (λ lines. All (λ line. line.start
        ≡ part_start (task_at job.now.graph line.task).joins_now
        (get_or parts.items line.task None)) lines.items) }
    ensures tasks { IfOk result (λ lines.
        All (λ line. line.task < length job.now.graph.tasks) lines.items) }
{
    let mut parts = parts;
    let mut lines = Vec::with_capacity(alloc, job.graph().tasks())?;
    for t in 0..job.graph().tasks() {
        if job.graph().is_sink(t) {
            let start = start_of(job, t, &parts[t]);
            let values = lines_of(alloc, parts[t].take());
            lines.push(Lines {
                task: t,
                start,
                values,
            })?;
        }
    }
    Ok(lines)
}
