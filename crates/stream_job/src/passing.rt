//! Steps of a splitter, a decimator or a joiner, several in a row: each is a wait, and a signal of
//! what it got where it puts that.
ghost use Rattle.std.specs.Prelude.{◌≡◌, ◌<◌, ℤ, List, IfSome, length, true, false};
ghost use Rattle.graph_runs.specs.Moments.{Moment};
ghost use Rattle.graph_runs.specs.Nexts.{is_live};
ghost use Rattle.stream_lists.specs.Jobs.{with_samples};
ghost use Rattle.stream_job.specs.Buffers.{HasPlaces};
ghost use Rattle.stream_job.specs.Passing.{MayStepFrom, MakesSteps, goes_by_steps};
ghost use Rattle.stream_job.specs.Plans.{IsPlan};
ghost use Rattle.graph_base.specs.Graphs.{task_at};

use crate::buffers::{Buffers, OWN_STEPS};
use crate::machine::Machine;
use crate::plan::Plan;
use graph_base::Kind;
use graph_runs::{Owed, first_input_of, input_of, is_cut, kind_of, output_of, until_of};
use phase_accum::Outcome;
use phase_core::GotBlock;
use stream_lists::Job;

impl Machine {
    ghost use Rattle.stream_job.specs.Machines.{IsMachineAt, IsSome};

    /// Lets task number `t`, where it is a splitter, a decimator or a joiner, make steps one after
    /// the other, as many as it can, and at most 64, and returns whether it made an event. It takes
    /// no value out of range. Another task does nothing.
    pub fn pass_on(&mut self, job: &Job, plan: &Plan, buffers: &mut Buffers, t: usize) -> bool
        requires machine { IsSome job.now self.old }
        requires task { t < length job.now.graph.tasks }
        requires plan { IsPlan job.now plan.now }
        requires places { HasPlaces job.now buffers.old }
        ensures steps { MakesSteps job.now self.old self.new t result }
        ensures lines { self.new.lines ≡ self.old.lines }
        ensures places { buffers.new ≡ buffers.old }
    {
        let mut moved = false;
        for _ in 0..OWN_STEPS {
            if !self.pass_value(job, plan, buffers, t) {
                return moved;
            }
            moved = true;
        }
        moved
    }

    /// Makes one step, or the wait alone where the signal is refused. Where no value in range
    /// is ahead, it does nothing.
    fn pass_value(&mut self, job: &Job, plan: &Plan, buffers: &mut Buffers, t: usize) -> bool
        requires machine { IsSome job.now self.old }
        requires task { t < length job.now.graph.tasks }
        requires plan { IsPlan job.now plan.now }
        requires places { HasPlaces job.now buffers.old }
        ensures steps { MakesSteps job.now self.old self.new t result }
        ensures lines { self.new.lines ≡ self.old.lines }
        ensures places { buffers.new ≡ buffers.old }
    {
        let Some(k) = self.passes_from(job, plan, t) else {
            return false;
        };
        let phaser = input_of(job, t, k);
        let number = self.tasks[t].numbers[k];
        let Ok(ahead) = self.good_ahead_on(job, phaser, number, 1) else {
            return false;
        };
        let GotBlock::Values { count, .. } = ahead else {
            return false;
        };
        if count == 0 {
            return false;
        }
        let mut out = [Outcome::Empty; 1];
        let Ok(_) = self.wait_block_on(job, phaser, number, &mut out, 1) else {
            unreachable!()
        };
        self.tasks[t].take(job, t, &out, &mut buffers.values);
        self.put_on(job, buffers, t);
        true
    }

    /// The input that task number `t`, where it is a splitter, a decimator or a joiner, waits for
    /// first by its next step, where it is live and owes nothing, no child is due, and `until`
    /// allows a step.
    fn passes_from(&self, job: &Job, plan: &Plan, t: usize) -> Option<usize>
        requires machine { IsSome job.now self.now }
        requires task { t < length job.now.graph.tasks }
        requires plan { IsPlan job.now plan.now }
        ensures { IfSome result (λ k. (s : List (List ℤ)) (m : Moment)
            → IsMachineAt (with_samples s job.now) m self.now
            → MayStepFrom (with_samples s job.now) self.now m t k) }
    {
        if !goes_by_steps(kind_of(job, t)) {
            return None;
        }
        let state = &self.tasks[t];
        let begun = state.begun;
        if !state.is_live(job, t) || state.left > 0 || !state.made.is_empty() {
            return None;
        }
        let Owed::Nothing = state.owed else {
            return None;
        };
        if !plan.is_quiet(job, t, begun) || is_cut(until_of(job, t), begun) {
            return None;
        }
        Some(first_input_of(job, t, begun))
    }

    /// A splitter, a decimator or a joiner signals the one value that it owes, where it owes one
    /// and its phaser takes it.
    fn put_on(&mut self, job: &Job, buffers: &mut Buffers, t: usize)
        requires machine { IsSome job.now self.old }
        requires task { t < length job.now.graph.tasks }
        requires kind { goes_by_steps (task_at job.now.graph t).kind ≡ true }
        requires live { (s : List (List ℤ)) (m : Moment)
            → IsMachineAt (with_samples s job.now) m self.old → is_live job.now m t ≡ true }
        requires places { HasPlaces job.now buffers.old }
        ensures steps { MakesSteps job.now self.old self.new t false }
        ensures lines { self.new.lines ≡ self.old.lines }
        ensures places { buffers.new ≡ buffers.old }
    {
        let Owed::Value { output, value } = self.tasks[t].owed else {
            return;
        };
        let Ok(x) = value else {
            return;
        };
        let (k, p) = output_of(job, t, output);
        let number = self.tasks[t].numbers[k];
        let parcels = &mut buffers.parcels;
        let Ok(_) = self.signal_values_on(job, p, number, &[x], parcels) else {
            return;
        };
        self.tasks[t].owed = Owed::Nothing;
    }
}

/// Whether a task of this kind makes steps of a wait and one signal at most: a splitter, a
/// decimator or a joiner.
fn goes_by_steps(kind: Kind) -> bool
    ensures { result ≡ goes_by_steps kind }
{
    matches!(kind, Kind::Split | Kind::Decimate | Kind::Join)
}
