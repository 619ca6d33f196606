//! What the turns of a task ask of the lines of its graph, found once.
ghost use Rattle.std.specs.Prelude.{◌≡◌, ◌<◌, ◌≤◌, ℕ, true, false, Some, drop, length, IfOk};
ghost use Rattle.phase_accum.specs.Sends.{AreSends};
ghost use Rattle.graph_base.specs.declared.line.Parent.{Parent as ParentValue};
ghost use Rattle.graph_base.specs.Graphs.{task_at};
ghost use Rattle.stream_lists.specs.Jobs.{samples_at};
ghost use Rattle.graph_runs.specs.Nexts.{comes_by};
ghost use Rattle.stream_job.specs.Plans.{IsPlan, IsTaskPlan, NoneComes, children_of, is_child_of};

use crate::task_state::TaskState;
use graph_lang::Parent;
use graph_runs::parent_of;
use std::alloc::{AllocError, Global};
use stream_lists::Job;

/// What the turns of one task ask.
#[derive(Drop)]
pub struct TaskPlan {
    /// The task's children, in the order of their lines.
    pub children: Vec<usize>,
    /// How many sources stand above the task.
    pub source: usize,
    /// From so many steps of the task on ..
    pub from: u64,
    /// .. and before so many no child comes.
    pub to: u64,
}

impl TaskPlan {
    /// The task, which is number `t`, has begun so many steps: where it has passed its last child,
    /// looks for the next one.
    fn pass(&mut self, job: &Job, t: usize, steps: u64)
        requires { IsTaskPlan job.now t self.old }
        ensures { IsTaskPlan job.now t self.new }
    {
        if steps > self.to {
            self.from = steps;
            self.to = next_child(job, t, steps);
        }
    }
}

/// The same of each task, in the order of the lines.
#[derive(Drop)]
pub struct Plan {
    /// One for each task.
    pub tasks: Vec<TaskPlan>,
}

impl Plan {
    /// Makes the plan of a job. It takes memory for each task and each child.
    pub fn new(alloc: Global, job: &Job) -> Result<Plan, AllocError>
        ensures { IfOk result (IsPlan job.now) }
    {
        let mut tasks = Vec::with_capacity(alloc, job.graph().tasks())?;
        for t in 0..job.graph().tasks() {
            tasks.push(TaskPlan {
                children: children_of(alloc, job, t)?,
                source: job.graph().source_number(t),
                from: 0,
                to: next_child(job, t, 0),
            })?;
        }
        Ok(Plan { tasks })
    }

    /// The children of task number `t`.
    pub fn children(&self, job: &Job, t: usize) -> &[usize]
        requires plan { IsPlan job.now self.now }
        requires task { t < length job.now.graph.tasks }
        ensures { result.now ≡ children_of job.now t }
    {
        self.tasks[t].children.as_slice()
    }

    /// Whether it is known that no child of task number `t` comes after so many steps of it.
    pub fn is_quiet(&self, job: &Job, t: usize, steps: u64) -> bool
        requires plan { IsPlan job.now self.now }
        requires task { t < length job.now.graph.tasks }
        ensures { result ≡ true → (c : ℕ) → c < length job.now.graph.tasks
            → comes_by t steps (task_at job.now.graph c).parent ≡ false }
    {
        let plan = &self.tasks[t];
        plan.from <= steps && steps < plan.to
    }

    /// Keeps how far task number `t` has come, where there is one.
    pub fn pass(&mut self, job: &Job, states: &[TaskState], t: usize)
        requires { IsPlan job.now self.old }
        ensures { IsPlan job.now self.new }
    {
        if t < self.tasks.len() && t < states.len() {
            self.tasks[t].pass(job, t, states[t].begun);
        }
    }

    /// The samples of task number `t`.
    pub fn samples<'a>(&self, job: &'a Job, t: usize) -> &'a [i64]
        requires plan { IsPlan job.now self.now }
        requires task { t < length job.now.graph.tasks }
        ensures value { result.now ≡ samples_at job.now t }
        ensures sends { AreSends result.now }
    {
        job.samples(self.tasks[t].source)
    }

    /// Those of them that come after so many.
    pub fn samples_from<'a>(&self, job: &'a Job, t: usize, begun: u64) -> &'a [i64]
        requires plan { IsPlan job.now self.now }
        requires task { t < length job.now.graph.tasks }
        ensures value { result.now ≡ drop begun (samples_at job.now t) }
        ensures sends { AreSends (samples_at job.now t) }
    {
        let samples = self.samples(job, t);
        if begun >= samples.len() as u64 {
            return &[];
        }
        &samples[begun as usize..]
    }
}

/// The children of task number `t`, in the order of their lines.
fn children_of(alloc: Global, job: &Job, t: usize) -> Result<Vec<usize>, AllocError>
    ensures { IfOk result (λ children. children.items ≡ children_of job.now t) }
{
    let mut children = Vec::new(alloc);
    for c in 0..job.graph().tasks() {
        if is_child_of(t, parent_of(job, c)) {
            children.push(c)?;
        }
    }
    Ok(children)
}

/// Whether a line's parent is task `t`.
fn is_child_of(t: usize, parent: Option<Parent>) -> bool
    ensures { result ≡ is_child_of t parent }
{
    match parent {
        None => false,
        Some(parent) => parent.task == t,
    }
}

/// After how many steps of task number `t`, at least so many, its next child comes.
fn next_child(job: &Job, t: usize, steps: u64) -> u64
    ensures { NoneComes job.now t steps result }
{
    let mut next = u64::MAX;
    for c in 0..job.graph().tasks() {
        next = earlier(next, t, steps, parent_of(job, c));
    }
    next
}

/// The lesser of two numbers of steps: this one, and when a line's child comes, where its parent is
/// task `t` and it does not come before so many steps.
fn earlier(next: u64, t: usize, steps: u64, parent: Option<Parent>) -> u64
    ensures less { result ≤ next }
    ensures child { (it : ParentValue) → parent ≡ Some it → it.task ≡ t → steps ≤ it.at
        → result ≤ it.at }
{
    match parent {
        None => next,
        Some(parent) => {
            if parent.task == t && steps <= parent.at && parent.at < next {
                return parent.at;
            }
            next
        }
    }
}
