//! What a task does next.
ghost use Rattle.std.specs.Prelude.{◌≡◌, ◌<◌, ◌&&◌, ℤ, List, nat_le, not, true, is_some, length, Some, None};
ghost use Rattle.phase_base.specs.Limits.{Limits};
ghost use Rattle.phase_base.specs.Members.{entry_of};
ghost use Rattle.phase_history.specs.Histories.{History, members_of, done_of};
ghost use Rattle.phase_any.specs.Phasers.{PhaserStandsFor};
ghost use Rattle.graph_base.specs.Graphs.{phaser_at, task_at};
ghost use Rattle.stream_job.specs.Machines.{next_by};
ghost use Rattle.stream_job.specs.Plans.{IsPlan};
ghost use Rattle.stream_lists.specs.Jobs.{with_samples};
ghost use Rattle.graph_runs.specs.Moments.{Moment, limits_at};
ghost use Rattle.graph_runs.specs.Nexts.{next_of, at_boundary, without_child, is_live, is_due, comes_by, first_due, has_signaller, next_step};

use crate::machine::Machine;
use crate::plan::Plan;
use crate::step::Step;
use crate::task_state::TaskState;
use graph_lang::{Op, Parent};
use graph_runs::{Owed, first_input_of, input_of, is_cut, parent_of, until_of};
use phase_any::AnyPhaser;
use phase_base::Entry;
use stream_lists::Job;

impl Machine {
    ghost use Rattle.stream_job.specs.Places.{IsTaskAt};
    ghost use Rattle.stream_job.specs.Machines.{AwaitsAt, IsLiveSome, IsMachine, IsMachineAt, IsSome, MayHaveCome, is_over};

    /// The state of task number `t`.
    pub fn state(&self, job: &Job, t: usize) -> &TaskState
        requires machine { IsSome job.now self.now }
        requires task { t < length job.now.graph.tasks }
        ensures { (s : List (List ℤ)) (m : Moment) → IsMachineAt (with_samples s job.now) m self.now
            → IsTaskAt (with_samples s job.now) m t result.now }
    {
        &self.tasks[t]
    }

    /// Phaser number `p`.
    pub fn core(&self, job: &Job, p: usize) -> &AnyPhaser
        requires machine { IsSome job.now self.now }
        requires phaser { p < length job.now.graph.phasers }
        ensures { (s : List (List ℤ)) (m : Moment) → IsMachineAt (with_samples s job.now) m self.now
            → PhaserStandsFor result.now (phaser_at job.now.graph p).op (limits_at job.now p)
            (m.history p) }
    {
        &self.cores[p]
    }

    /// The samples that task number `t`, where it is a source, has still to signal, of those that
    /// the job has.
    pub fn awaits<'a>(&self, job: &'a Job, plan: &Plan, t: usize) -> &'a [i64]
        requires machine { IsMachine job.now self.now }
        requires plan { IsPlan job.now plan.now }
        ensures { MayHaveCome job.now self.now t result.now job.now.samples }
    {
        if t >= self.tasks.len() {
            return &[];
        }
        plan.samples_from(job, t, self.tasks[t].begun)
    }

    /// What task number `t` does next, which, where it is a source, has these samples still to
    /// signal.
    pub fn next(&self, job: &Job, plan: &Plan, t: usize, awaits: &[i64]) -> Step
        requires machine { IsSome job.now self.now }
        requires plan { IsPlan job.now plan.now }
        ensures { (s : List (List ℤ)) (m : Moment) → IsMachineAt (with_samples s job.now) m self.now
            → AwaitsAt job.now s m t awaits.now
            → next_of (with_samples s job.now) m t ≡ next_by result }
    {
        if t >= self.tasks.len() || !self.tasks[t].is_live(job, t) {
            return Step::NotLive;
        }
        if !self.tasks[t].made.is_empty() {
            return Step::Signal { output: 0 };
        }
        match self.tasks[t].owed {
            Owed::Value { output, .. } => Step::Signal { output },
            Owed::Exchange { .. } => Step::Exchange,
            Owed::Nothing => self.at_boundary(job, plan, t, awaits),
        }
    }

    /// What a live task that owes nothing does next.
    fn at_boundary(&self, job: &Job, plan: &Plan, t: usize, awaits: &[i64]) -> Step
        requires live { IsLiveSome job.now self.now t }
        requires plan { IsPlan job.now plan.now }
        ensures { (s : List (List ℤ)) (m : Moment) → IsMachineAt (with_samples s job.now) m self.now
            → AwaitsAt job.now s m t awaits.now → is_live job.now m t ≡ true
            → at_boundary (with_samples s job.now) m t (first_due job.now m t)
            ≡ next_by result }
    {
        match self.first_due(job, plan, t) {
            Some(child) => Step::Register { child },
            None => self.without_child(job, t, awaits),
        }
    }

    /// The first child of a task that is due. It looks at the task's children alone, and only where
    /// one of them may come after so many steps.
    fn first_due(&self, job: &Job, plan: &Plan, t: usize) -> Option<usize>
        requires machine { IsSome job.now self.now }
        requires plan { IsPlan job.now plan.now }
        requires task { t < length job.now.graph.tasks }
        ensures { (s : List (List ℤ)) (m : Moment) → IsMachineAt (with_samples s job.now) m self.now
            → first_due job.now m t ≡ result }
    {
        if plan.is_quiet(job, t, self.state(job, t).begun) {
            return None;
        }
        for c in plan.children(job, t) {
            if self.is_due(job, t, *c) {
                return Some(*c);
            }
        }
        None
    }

    /// Whether task `c` is a child of task `t` that comes now.
    fn is_due(&self, job: &Job, t: usize, c: usize) -> bool
        requires machine { IsSome job.now self.now }
        requires task { t < length job.now.graph.tasks }
        requires child { c < length job.now.graph.tasks }
        ensures { (s : List (List ℤ)) (m : Moment) → IsMachineAt (with_samples s job.now) m self.now
            → is_due job.now m t c ≡ result }
    {
        let begun = self.state(job, t).begun;
        comes_by(t, begun, parent_of(job, c)) && !self.state(job, c).is_registered(job, c)
    }

    /// What a live task does next where no child is due.
    fn without_child(&self, job: &Job, t: usize, awaits: &[i64]) -> Step
        requires { IsLiveSome job.now self.now t }
        ensures { (s : List (List ℤ)) (m : Moment) → IsMachineAt (with_samples s job.now) m self.now
            → AwaitsAt job.now s m t awaits.now → is_live job.now m t ≡ true
            → without_child (with_samples s job.now) m t ≡ next_by result }
    {
        if self.is_over(job, t, awaits) {
            return Step::Leave;
        }
        next_step(job, t, self.state(job, t).begun)
    }

    /// Whether a live task makes no further step: by `until`, or as its input has ended.
    fn is_over(&self, job: &Job, t: usize, awaits: &[i64]) -> bool
        requires { IsLiveSome job.now self.now t }
        ensures { (s : List (List ℤ)) (m : Moment) → IsMachineAt (with_samples s job.now) m self.now
            → AwaitsAt job.now s m t awaits.now → is_live job.now m t ≡ true
            → is_over (with_samples s job.now) m t ≡ result }
    {
        let state = self.state(job, t);
        if state.left > 0 || is_cut(until_of(job, t), state.begun) {
            return true;
        }
        if job.graph().is_source(t) {
            return awaits.is_empty();
        }
        let k = first_input_of(job, t, state.begun);
        has_run_out(self.core(job, input_of(job, t, k)), state.numbers[k])
    }
}

/// Whether a phaser has no signaller, and the waiter of this number has taken all its phases.
fn has_run_out(core: &AnyPhaser, number: u64) -> bool
    ensures { (op : Op) (limits : Limits) (h : History) (entry : Entry)
        → PhaserStandsFor core.now op limits h → entry_of (members_of h) number ≡ Some entry
        → (not (has_signaller h) && nat_le (done_of h) entry.wait_phase) ≡ result }
{
    let Some(entry) = core.view(number) else {
        return true;
    };
    !core.has_signaller() && core.done() <= entry.wait_phase
}

/// How the next step of task number `t` begins, after so many.
fn next_step(job: &Job, t: usize, steps: u64) -> Step
    requires { t < length job.now.graph.tasks }
    ensures { let task = task_at job.now.graph t in
        next_by result ≡ next_step task steps task.kind }
{
    if job.graph().is_source(t) {
        return Step::Sample;
    }
    Step::Wait {
        input: first_input_of(job, t, steps),
    }
}

/// Whether a line's parent is task `t`, and the child comes after so many steps of it.
fn comes_by(t: usize, steps: u64, parent: Option<Parent>) -> bool
    ensures { result ≡ comes_by t steps parent }
{
    match parent {
        None => false,
        Some(parent) => parent.task == t && parent.at == steps,
    }
}
