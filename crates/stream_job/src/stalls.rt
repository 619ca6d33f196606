//! Whether no task can move.
ghost use Rattle.std.specs.Prelude.{◌≡◌, ◌<◌, ◌≤◌, ◌&&◌, ◌||◌, ℕ, ℤ, List, true, false, nat_le, length, get_or, Some};
ghost use Rattle.std.specs.List.{list_any, list_all, range_with_len};
ghost use Rattle.phase_base.specs.Limits.{Limits};
ghost use Rattle.phase_base.specs.Members.{least, wait_phases};
ghost use Rattle.phase_history.specs.Histories.{History, members_of, done_of};
ghost use Rattle.phase_history.specs.Refusals.{is_ahead};
ghost use Rattle.graph_base.specs.Graphs.{phaser_at, task_at};
ghost use Rattle.graph_base.specs.Registrations.{signalled_by};
ghost use Rattle.phase_any.specs.Phasers.{PhaserStandsFor};
ghost use Rattle.graph_base.specs.declared.line.Kind.TheVariants.{Source};
ghost use Rattle.phase_accum.specs.Sends.{AreSends};
ghost use Rattle.graph_runs.specs.Feeds.{IsFed};
ghost use Rattle.graph_runs.specs.Moments.{Moment, limits_at, input_at};
ghost use Rattle.graph_runs.specs.Nexts.{has_signaller, is_live, number_on, samples, signals};
ghost use Rattle.graph_runs.specs.Answers.{is_stalled, is_still, output_at};
ghost use Rattle.stream_job.specs.Stepping.{blocks_signal, blocks_wait, is_at_rest, would_block};
ghost use Rattle.stream_job.specs.Blocking.{AreBlocked};
ghost use Rattle.stream_job.specs.InRange.{is_blocked_before, is_held_up};
ghost use Rattle.stream_job.specs.Machines.{next_by};
ghost use Rattle.stream_job.specs.Plans.{IsPlan};
ghost use Rattle.stream_job.specs.Streams.{IsStreamAt, StreamState, all_tasks, ended_at};
ghost use Rattle.stream_lists.specs.Jobs.{samples_in, with_samples};

use crate::machine::Machine;
use crate::parked::Parked;
use crate::plan::Plan;
use crate::plan_blocks::line_block;
use crate::step::Step;
use graph_lang::{Op, TASKS_MAX};
use graph_runs::{input_of, output_of};
use phase_any::AnyPhaser;
use phase_base::PHASES_MAX;
use stream_lists::Job;

impl Machine {
    ghost use Rattle.stream_job.specs.Machines.{HasLineSizes, IsLiveSome, IsMachine, IsMachineAt, IsSome, MayHaveCome};
    ghost use Rattle.stream_job.specs.Stalls.{MakesNext, MayMakeNext};

    /// Whether some task is live, and the turn of each live task would be blocked. It asks the
    /// phasers for those tasks alone that stand in no list.
    pub fn is_stalled(&self, job: &Job, plan: &Plan, parked: &Parked) -> bool
        requires machine { IsMachine job.now self.now }
        requires sizes { HasLineSizes job.now self.now }
        requires plan { IsPlan job.now plan.now }
        ensures { (m : Moment) → IsMachineAt job.now m self.now → AreBlocked job.now m parked.now
            → is_stalled job.now m ≡ result }
    {
        self.has_live(job) && self.are_still(job, plan, &parked.marks())
    }

    /// Whether some task is live.
    pub fn has_live(&self, job: &Job) -> bool
        requires { IsSome job.now self.now }
        ensures { (s : List (List ℤ)) (m : Moment) → IsMachineAt (with_samples s job.now) m self.now
            → list_any (is_live job.now m)
            (range_with_len 0 (length job.now.graph.tasks)) ≡ result }
    {
        for t in 0..job.graph().tasks() {
            if self.state(job, t).is_live(job, t) {
                return true;
            }
        }
        false
    }

    /// Whether the turn of each live task would be blocked, as that of each marked one is.
    fn are_still(&self, job: &Job, plan: &Plan, marks: &[bool; TASKS_MAX]) -> bool
        requires machine { IsMachine job.now self.now }
        requires sizes { HasLineSizes job.now self.now }
        requires plan { IsPlan job.now plan.now }
        ensures { (m : Moment) → IsMachineAt job.now m self.now
            → ((t : ℕ) → get_or marks.now t false ≡ true → is_still job.now m t ≡ true)
            → list_all (is_still job.now m) (range_with_len 0 (length job.now.graph.tasks))
            ≡ result }
    {
        for t in 0..job.graph().tasks() {
            if !marks[t] && !self.is_still(job, plan, t, self.awaits(job, plan, t)) {
                return false;
            }
        }
        true
    }

    /// Whether task number `t`, which, where it is a source, has these samples still to signal, is
    /// not live, or its turn would be blocked, which signals all that it owes.
    pub fn is_still(&self, job: &Job, plan: &Plan, t: usize, awaits: &[i64]) -> bool
        requires came { (s : List (List ℤ)) × MayHaveCome job.now self.now t awaits.now s }
        requires plan { IsPlan job.now plan.now }
        requires task { t < length job.now.graph.tasks }
        ensures { (s : List (List ℤ)) (m : Moment) → MayHaveCome job.now self.now t awaits.now s
            → IsMachineAt (with_samples s job.now) m self.now
            → is_at_rest (with_samples s job.now) m t ≡ result }
    {
        if !self.state(job, t).is_live(job, t) {
            return true;
        }
        self.step_blocks(job, plan, t, awaits, self.next(job, plan, t, awaits))
    }

    /// Whether task number `t`, which, where it is a source, has these samples still to signal, is
    /// not live, or its turn would be blocked, which signals all that it owes, or all that it owes
    /// before a value out of range.
    pub fn is_held_up(&self, job: &Job, plan: &Plan, t: usize, awaits: &[i64]) -> bool
        requires came { (s : List (List ℤ)) × MayHaveCome job.now self.now t awaits.now s }
        requires plan { IsPlan job.now plan.now }
        requires task { t < length job.now.graph.tasks }
        ensures { (s : List (List ℤ)) (m : Moment) → MayHaveCome job.now self.now t awaits.now s
            → IsMachineAt (with_samples s job.now) m self.now
            → is_held_up (with_samples s job.now) m t ≡ result }
    {
        if self.is_still(job, plan, t, awaits) {
            return true;
        }
        match self.next(job, plan, t, awaits) {
            Step::Signal { output } => self.is_blocked_before(job, t, output),
            _ => false,
        }
    }

    /// Whether the signal of the values that are owed on output `j` before one that is out of range
    /// would be blocked.
    fn is_blocked_before(&self, job: &Job, t: usize, j: usize) -> bool
        requires { MayMakeNext job.now self.now t (signals j) }
        ensures { (s : List (List ℤ)) (m : Moment)
            → MakesNext (with_samples s job.now) self.now t (signals j)
            → IsMachineAt (with_samples s job.now) m self.now
            → is_blocked_before (with_samples s job.now) m t ≡ result }
    {
        let Some(many) = self.state(job, t).good_many() else {
            return false;
        };
        many > 0 && self.signal_blocks(job, t, j, many as u64)
    }

    /// Whether a live task's turn would be blocked, where this is what it does next.
    fn step_blocks(&self, job: &Job, plan: &Plan, t: usize, awaits: &[i64], step: Step) -> bool
        requires next { (s : List (List ℤ)) × MayHaveCome job.now self.now t awaits.now s
            × MakesNext (with_samples s job.now) self.now t (next_by step) }
        requires plan { IsPlan job.now plan.now }
        ensures { (s : List (List ℤ)) (m : Moment) → MayHaveCome job.now self.now t awaits.now s
            → MakesNext (with_samples s job.now) self.now t (next_by step)
            → IsMachineAt (with_samples s job.now) m self.now
            → would_block (with_samples s job.now) m t (next_by step) ≡ result }
    {
        match step {
            Step::NotLive => false,
            Step::Register { .. } => false,
            Step::Leave => false,
            Step::Sample => self.samples_block(job, plan, t, awaits),
            Step::Signal { output } => self.values_block(job, t, output),
            Step::Wait { input } => self.wait_blocks(job, t, input),
            Step::Exchange => self.wait_blocks(job, t, 1),
        }
    }

    /// Whether the signal of a source's next samples would be blocked.
    fn samples_block(&self, job: &Job, plan: &Plan, t: usize, awaits: &[i64]) -> bool
        requires next { (s : List (List ℤ)) × MayHaveCome job.now self.now t awaits.now s
            × MakesNext (with_samples s job.now) self.now t samples }
        requires plan { IsPlan job.now plan.now }
        ensures { (s : List (List ℤ)) (m : Moment) → MayHaveCome job.now self.now t awaits.now s
            → MakesNext (with_samples s job.now) self.now t samples
            → IsMachineAt (with_samples s job.now) m self.now
            → would_block (with_samples s job.now) m t samples ≡ result }
    {
        let begun = self.state(job, t).begun;
        let many = plan
            .block(job, t, begun, line_block(job, t))
            .min(awaits.len() as u64);
        self.signal_blocks(job, t, 0, many)
    }

    /// Whether the signal of the values that are owed on output `j` would be blocked. Where one is
    /// out of range, none is signalled.
    fn values_block(&self, job: &Job, t: usize, j: usize) -> bool
        requires { MayMakeNext job.now self.now t (signals j) }
        ensures { (s : List (List ℤ)) (m : Moment)
            → MakesNext (with_samples s job.now) self.now t (signals j)
            → IsMachineAt (with_samples s job.now) m self.now
            → would_block (with_samples s job.now) m t (signals j) ≡ result }
    {
        let state = self.state(job, t);
        if !state.are_in_range() {
            return false;
        }
        self.signal_blocks(job, t, j, state.owed_many())
    }

    /// Whether a live task's signal of so many phases on its output `j` would be blocked.
    fn signal_blocks(&self, job: &Job, t: usize, j: usize, many: u64) -> bool
        requires live { IsLiveSome job.now self.now t }
        requires output { j < length (signalled_by (task_at job.now.graph t)) }
        requires some { 1 ≤ many }
        ensures { (s : List (List ℤ)) (m : Moment) → IsMachineAt (with_samples s job.now) m self.now
            → is_live job.now m t ≡ true → let p = output_at job.now t j in
            blocks_signal (limits_at job.now p) (m.history p) (number_on m t p) many ≡ result }
    {
        let (k, p) = output_of(job, t, j);
        let bound = job.graph().phaser(p).bound;
        signal_blocks(
            self.core(job, p),
            bound,
            self.state(job, t).numbers[k],
            many,
        )
    }

    /// Whether a live task's wait on its input `k` would be blocked.
    fn wait_blocks(&self, job: &Job, t: usize, k: usize) -> bool
        requires live { IsLiveSome job.now self.now t }
        requires input { k < length (task_at job.now.graph t).inputs }
        ensures { (s : List (List ℤ)) (m : Moment) → IsMachineAt (with_samples s job.now) m self.now
            → is_live job.now m t ≡ true → let p = input_at (task_at job.now.graph t) k in
            blocks_wait (m.history p) (number_on m t p) ≡ result }
    {
        let p = input_of(job, t, k);
        wait_blocks(self.core(job, p), self.state(job, t).numbers[k])
    }
}

/// Whether a signal of so many phases is past the last one, or too far ahead of the slowest waiter.
fn signal_blocks(core: &AnyPhaser, bound: u64, number: u64, many: u64) -> bool
    requires { 1 ≤ many }
    ensures { (op : Op) (limits : Limits) (h : History) → PhaserStandsFor core.now op limits h
        → limits.phases_max ≡ PHASES_MAX → limits.bound ≡ bound
        → blocks_signal limits h number many ≡ result }
{
    let Some(entry) = core.view(number) else {
        return false;
    };
    let Some(last) = entry.signal_phase.checked_add(many - 1) else {
        return true;
    };
    last >= PHASES_MAX || is_ahead(core.least_wait(), bound, last)
}

/// Whether phase `s` is the bound or more ahead of the slowest waiter.
fn is_ahead(slowest: Option<u64>, bound: u64, s: u64) -> bool
    ensures { result ≡ is_ahead slowest bound s }
{
    match slowest {
        None => false,
        Some(slowest) => slowest <= s && s - slowest >= bound,
    }
}

/// Whether a wait has no complete phase yet, and some task still signals.
fn wait_blocks(core: &AnyPhaser, number: u64) -> bool
    ensures { (op : Op) (limits : Limits) (h : History) → PhaserStandsFor core.now op limits h
        → blocks_wait h number ≡ result }
{
    let Some(entry) = core.view(number) else {
        return false;
    };
    core.done() <= entry.wait_phase && core.has_signaller()
}

/// Where each task is held up, each stays so with whatever samples go on behind those that came.
pub fn stalls_stay()
    ensures { (stream : StreamState) (s : List (List ℤ)) (m : Moment) (given : ℕ → List ℤ)
        (more : List (List ℤ)) → IsStreamAt stream s m given
        → IsFed (with_samples s stream.job) (ended_at stream) more
        → ((t : ℕ) → t < length stream.job.graph.tasks
        → (task_at stream.job.graph t).kind ≡ Source → AreSends (samples_in stream.job more t))
        → list_all (is_held_up (with_samples s stream.job) m) (all_tasks stream.job) ≡ true
        → list_all (is_held_up (with_samples more stream.job) m) (all_tasks stream.job) ≡ true }
{}
