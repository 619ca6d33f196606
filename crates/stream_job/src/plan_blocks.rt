//! How many steps the next block of a task has.
ghost use Rattle.std.specs.Prelude.{◌≡◌, ◌<◌, length};
ghost use Rattle.std.specs.List.{fold, range_with_len};
ghost use Rattle.graph_base.specs.Graphs.{task_at};
ghost use Rattle.graph_runs.specs.Moments.{Moment};
ghost use Rattle.graph_runs.specs.NextBlocks.{block_up_to, child_allows, until_allows};
ghost use Rattle.stream_job.specs.Plans.{IsPlan};

use crate::plan::Plan;
use graph_lang::Parent;
use graph_runs::{parent_of, until_of};
use stream_lists::Job;

impl Plan {
    /// How many steps the next block of task number `t` has, which has begun so many: at most this
    /// many, none past its `until`, and none past the boundary of a child that comes later. It
    /// looks at the task's children alone, and only where one of them may come within these steps.
    pub fn block(&self, job: &Job, t: usize, begun: u64, most: u64) -> u64
        requires plan { IsPlan job.now self.now }
        requires task { t < length job.now.graph.tasks }
        ensures { (m : Moment) → m.begun t ≡ begun → block_up_to most job.now m t ≡ result }
    {
        let steps = until_allows(until_of(job, t), begun, most);
        let plan = &self.tasks[t];
        if plan.from <= begun && steps <= plan.to.saturating_sub(begun) {
            return steps;
        }
        self.children_allow(job, t, begun, steps)
    }

    /// So many steps of task number `t`, but none past the boundary of a child that comes later.
    fn children_allow(&self, job: &Job, t: usize, begun: u64, steps: u64) -> u64
        requires plan { IsPlan job.now self.now }
        requires task { t < length job.now.graph.tasks }
        ensures { result ≡ fold (λ s c. child_allows t begun (task_at job.now.graph c).parent s)
            steps (range_with_len 0 (length job.now.graph.tasks)) }
    {
        let mut allowed = steps;
        for c in self.children(job, t) {
            allowed = child_allows(t, begun, parent_of(job, *c), allowed);
        }
        allowed
    }
}

/// How many steps the line of task number `t` names for a block: one, where there is no such line.
pub fn line_block(job: &Job, t: usize) -> u64
    ensures { result ≡ (task_at job.now.graph t).block }
{
    if t >= job.graph().tasks() {
        return 1;
    }
    job.graph().task(t).block
}

/// So many steps, of which `until` allows some after those that were begun.
fn until_allows(until: Option<u64>, begun: u64, steps: u64) -> u64
    ensures { result ≡ until_allows until begun steps }
{
    match until {
        None => steps,
        Some(until) => steps.min(until.saturating_sub(begun)),
    }
}

/// So many steps of task `t`, but none past the boundary of a line's task, where it is a later
/// child of task `t`.
fn child_allows(t: usize, begun: u64, parent: Option<Parent>, steps: u64) -> u64
    ensures { result ≡ child_allows t begun parent steps }
{
    match parent {
        None => steps,
        Some(parent) => {
            if parent.task == t && begun < parent.at {
                return steps.min(parent.at - begun);
            }
            steps
        }
    }
}
