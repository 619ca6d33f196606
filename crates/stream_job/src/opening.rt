//! The opening of a run.
ghost use Rattle.std.specs.Prelude.{◌≡◌, ◌<◌, ◌≤◌, [], length, map, None, IfOk};
ghost use Rattle.std.specs.List.{All};
ghost use Rattle.stream_eval.specs.Results.{sink_values};
ghost use Rattle.stream_lists.specs.Lists.{sinks_of};
ghost use Rattle.graph_runs.specs.Beginnings.{opening};
ghost use Rattle.stream_job.specs.Machines.{IsLineOf};

use crate::buffers::OWN_STEPS;
use crate::machine::Machine;
use crate::opened_cores::opened_cores;
use crate::opened_tasks::opened_tasks;
use std::alloc::{AllocError, Global};
use stream_eval::Lines;
use stream_lists::Job;

/// A sink that has taken nothing, with room for all that it takes.
fn opened_line(alloc: Global, job: &Job, t: usize) -> Result<Lines, AllocError>
    requires { t < length job.now.graph.tasks }
    ensures line { IfOk result (λ line. sink_values line ≡ (t, [])) }
    ensures start { IfOk result (λ line. line.start ≡ None) }
    ensures own { IfOk result (IsLineOf job.now) }
{
    let Ok(steps) = usize::try_from(job.span(t).steps) else {
        return Err(AllocError);
    };
    Ok(Lines {
        task: t,
        start: None,
        values: Vec::with_capacity(alloc, steps)?,
    })
}

/// The sinks, in the order of their lines, with room for all that they take.
pub fn opened_lines(alloc: Global, job: &Job) -> Result<Vec<Lines>, AllocError>
    ensures lines { IfOk result (λ lines.
        map sink_values lines.items ≡ map (λ t. (t, [])) (sinks_of job.now)) }
    ensures starts { IfOk result (λ lines.
        map (λ line. line.start) lines.items ≡ map (λ t. None) (sinks_of job.now)) }
    ensures own { IfOk result (λ lines. All (IsLineOf job.now) lines.items) }
{
    let mut lines = Vec::with_capacity(alloc, job.graph().tasks())?;
    for t in 0..job.graph().tasks() {
        if job.graph().is_sink(t) {
            lines.push(opened_line(alloc, job, t)?)?;
        }
    }
    Ok(lines)
}

impl Machine {
    ghost use Rattle.stream_job.specs.Machines.{HasLineSizes, IsMachineAt};

    /// Makes the phasers of a graph, on which its tasks without a parent are registered, in the
    /// order of their lines, with these lines of its sinks. A filter whose line names no block
    /// makes at most so many steps of its own accord.
    ///
    /// It takes memory for a slot of each phase that a phaser may have open, an entry for each
    /// registration, and the window of each filter.
    pub fn new(alloc: Global, job: &Job, lines: Vec<Lines>, own: u64) -> Result<Machine, AllocError>
        requires lines { length lines.items ≡ length (sinks_of job.now) }
        requires own { (1 ≤ own) × (own ≤ OWN_STEPS) }
        ensures opening { IfOk result (λ machine. IsMachineAt job.now (opening job.now) machine) }
        ensures lines { IfOk result (λ machine. machine.lines ≡ lines) }
        ensures sizes { own ≡ 1 → IfOk result (HasLineSizes job.now) }
    {
        let _tasks = job.graph().tasks();
        Ok(Machine {
            cores: opened_cores(alloc, job)?,
            tasks: opened_tasks(alloc, job, own)?,
            lines,
        })
    }
}
