//! The turn of a task that takes no value out of range, and makes none known: the task looks ahead,
//! and where the next one is, it stands before it. So the turn has its size before it is made.
ghost use Rattle.std.specs.Prelude.{◌≡◌, ◌≢◌, ◌≤◌, ℕ, ℤ, List, IfOk, OnErr};
ghost use Rattle.graph_runs.specs.Moments.{Moment};
ghost use Rattle.graph_runs.specs.Nexts as turns;
ghost use Rattle.graph_runs.specs.Nexts.{next_of};
ghost use Rattle.stream_lists.specs.Jobs.{with_samples};
ghost use Rattle.stream_job.specs.Buffers.{HasPlaces, most_steps};
ghost use Rattle.stream_job.specs.InRange.{HasGone, IsAhead};
ghost use Rattle.stream_job.specs.Plans.{IsPlan};
ghost use Rattle.stream_job.specs.Stepping.{HasRoomNext, IsNextIn, MayStep};

use crate::buffers::Buffers;
use crate::machine::Machine;
use crate::plan::Plan;
use crate::step::{SizedStep, Step};
use crate::went::Went;
use graph_lang::Place;
use graph_runs::{input_of, sized};
use phase_core::GotBlock;
use std::alloc::AllocError;
use stream_lists::Job;

/// What a task may do next that takes no value out of range.
#[derive(Clone, Copy)]
pub enum Ahead {
    /// A turn of at most so many steps.
    Steps { most: u64 },
    /// A signal of so many values, the first of those that it owes.
    Values { many: u64 },
    /// Nothing: the value that it would take or signal next is out of range.
    Before { place: Place, phase: u64 },
}

impl Machine {
    ghost use Rattle.stream_job.specs.Machines.{IsMachineAt, MayHaveCome, next_by};
    ghost use Rattle.stream_job.specs.declared.step.Step.TheVariants.{NotLive};

    /// Gives a turn to task number `t`, as `make` does, which takes no value out of range: it has
    /// no more steps than there are values before it, and a filter signals those that it has made
    /// before it.
    pub fn go(
        &mut self,
        job: &Job,
        plan: &Plan,
        buffers: &mut Buffers,
        t: usize,
        awaits: &[i64],
        most: u64,
    ) -> Result<Went, AllocError>
        requires came { (s : List (List ℤ)) × MayHaveCome job.now self.old t awaits.now s
            × HasRoomNext most (with_samples s job.now) self.old t }
        requires most { MayStep job.now self.old t most × (most ≤ most_steps job.now t) }
        requires plan { IsPlan job.now plan.now }
        requires places { HasPlaces job.now buffers.old }
        ensures went { IfOk result (λ went. (s : List (List ℤ))
            → MayHaveCome job.now self.old t awaits.now s
            → HasGone most (with_samples s job.now) self.old self.new t went) }
        ensures err { OnErr result (self.new ≡ self.old) }
        ensures places { buffers.new ≡ buffers.old }
    {
        sized::turns_up_to();
        let step = self.next(job, plan, t, awaits);
        if let Step::NotLive = step {
            return Ok(Went::Stays);
        }
        match self.ahead(job, plan, t, step, most) {
            Ahead::Before { place, phase } => Ok(Went::Before { place, phase }),
            Ahead::Values { many } => Ok(self.signal_made(job, buffers, t, many).went()),
            Ahead::Steps { most } => Ok(
                self.make(job, plan, buffers, t, awaits, SizedStep { step, most })?
                    .went(),
            ),
        }
    }

    /// Looks ahead for a task that makes this call next, of at most so many steps.
    fn ahead(&self, job: &Job, plan: &Plan, t: usize, step: Step, most: u64) -> Ahead
        requires next { (s : List (List ℤ))
            × IsNextIn most (with_samples s job.now) self.now t (next_by step) }
        requires lives { step ≢ NotLive }
        requires plan { IsPlan job.now plan.now }
        ensures { (s : List (List ℤ))
            → IsNextIn most (with_samples s job.now) self.now t (next_by step)
            → IsAhead most (with_samples s job.now) self.now t result }
    {
        match step {
            Step::Signal { output } => self.owed_ahead(job, t, output, most),
            Step::Wait { input } => self.wait_ahead(job, plan, t, input, most),
            Step::Exchange => self.exchange_ahead(job, t, most),
            _ => Ahead::Steps { most },
        }
    }

    /// Looks at what a task owes that it signals next, on this output.
    fn owed_ahead(&self, job: &Job, t: usize, output: usize, most: u64) -> Ahead
        requires { (s : List (List ℤ))
            × IsNextIn most (with_samples s job.now) self.now t (turns.signals output) }
        ensures { (s : List (List ℤ))
            → IsNextIn most (with_samples s job.now) self.now t (turns.signals output)
            → IsAhead most (with_samples s job.now) self.now t result }
    {
        let state = &self.tasks[t];
        let Some(many) = state.good_many() else {
            return Ahead::Steps { most };
        };
        if many == 0 {
            let place = Place::Task(t);
            let phase = state.begun - state.owed_many();
            return Ahead::Before { place, phase };
        }
        Ahead::Values { many: many as u64 }
    }

    /// Looks at the values of the phases that a task waits for next, on this input.
    fn wait_ahead(&self, job: &Job, plan: &Plan, t: usize, k: usize, most: u64) -> Ahead
        requires next { (s : List (List ℤ))
            × IsNextIn most (with_samples s job.now) self.now t (turns.waits k) }
        requires plan { IsPlan job.now plan.now }
        ensures { (s : List (List ℤ))
            → IsNextIn most (with_samples s job.now) self.now t (turns.waits k)
            → IsAhead most (with_samples s job.now) self.now t result }
    {
        let phaser = input_of(job, t, k);
        let number = self.tasks[t].numbers[k];
        let steps = plan.block(job, t, self.tasks[t].begun, most);
        match self.good_ahead_on(job, phaser, number, steps as usize) {
            Ok(GotBlock::Values { phase, count }) => {
                if count == 0 {
                    let place = Place::Phaser(phaser);
                    return Ahead::Before { place, phase };
                }
                Ahead::Steps { most: count }
            }
            Ok(GotBlock::Ended) => unreachable!(),
            Err(_) => Ahead::Steps { most },
        }
    }

    /// Looks at the value that a peer waits for on E.
    fn exchange_ahead(&self, job: &Job, t: usize, most: u64) -> Ahead
        requires { (s : List (List ℤ))
            × IsNextIn most (with_samples s job.now) self.now t turns.exchanges }
        ensures { (s : List (List ℤ))
            → IsNextIn most (with_samples s job.now) self.now t turns.exchanges
            → IsAhead most (with_samples s job.now) self.now t result }
    {
        let phaser = input_of(job, t, 1);
        let number = self.tasks[t].numbers[1];
        match self.good_ahead_on(job, phaser, number, 1) {
            Ok(GotBlock::Values { phase, count }) => {
                if count == 0 {
                    let place = Place::Phaser(phaser);
                    return Ahead::Before { place, phase };
                }
                Ahead::Steps { most }
            }
            Ok(GotBlock::Ended) => unreachable!(),
            Err(_) => Ahead::Steps { most },
        }
    }
}
