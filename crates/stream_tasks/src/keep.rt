//! What a decimator takes by blocks, and keeps of them for its output.
ghost use Rattle.std.specs.Prelude.{◌≡◌, ◌+◌, ◌-◌, ◌%◌, ◌<◌, ◌≤◌, [], length, map, vec_capacity};
ghost use Rattle.graph_base.specs.Graphs.{task_at};
ghost use Rattle.graph_base.specs.declared.line.Kind.TheVariants as kind;
ghost use Rattle.stream_lists.specs.Lists.{every, number};
ghost use Rattle.stream_tasks.specs.Children.{MayStep};
ghost use Rattle.stream_tasks.specs.Tasks.{IsWhole, KeepsTask};

use crate::gate::Gate;
use crate::hold::Given;
use crate::task_state::TaskState;
use crate::turn::{all_fit, enter, get_into};
use crate::went::Went;
use graph_base::EVERY_MAX;
use graph_runs::{input_of, number_taken, output_of};
use phase_accum::Outcome;
use stream_lists::Job;

impl<'a> TaskState<'a> {
    /// Begins steps of a decimator, by a wait for what it keeps some of.
    pub fn take_kept<G: Gate>(&mut self, job: &Job, gate: &G) -> Went
        requires step { MayStep job.now self.old }
        requires kind { (task_at job.now.graph self.old.number).kind ≡ kind.Decimate }
        ensures { KeepsTask job.now self.old self.new }
    {
        let steps = self.steps(job, gate) as usize;
        if self.begun.checked_add(steps as u64).is_none() {
            return self.meet(Went::Stuck);
        }
        enter(gate, &mut self.entered, self.number, self.begun);
        let every = every_of(job, self.number);
        let first = steps_to_next(every, self.begun);
        let p = input_of(job, self.number, 0);
        match get_into(&mut self.holds[0], &mut self.outcomes, steps) {
            Ok(Given::Values(count)) => {
                let got = &self.outcomes[..count];
                if !all_fit(got) {
                    return self.meet(Went::TooBig);
                }
                keep_every(&mut self.made, got, every as usize, first as usize);
                self.begun += count as u64;
                self.entered = false;
                Went::Moved(p)
            }
            Ok(Given::Ended) => {
                self.over = true;
                Went::Ready
            }
            Err(held) => held.on(p),
        }
    }

    /// How many steps of a decimator find room on its output for what it keeps of them, as far as
    /// is known without a turn.
    pub fn kept_steps(&self, job: &Job) -> u64
        requires whole { IsWhole job.now self.now }
        requires kind { (task_at job.now.graph self.now.number).kind ≡ kind.Decimate }
        ensures some { 1 ≤ result }
        ensures few { result ≤ self.now.own }
    {
        let every = every_of(job, self.number);
        let (k, _) = output_of(job, self.number, 0);
        let room = self.holds[k].room().saturating_mul(every);
        let steps = room.saturating_add(steps_to_next(every, self.begun));
        steps.clamp(1, self.own)
    }
}

/// Of how many values task number `t` puts one, a decimator.
pub fn every_of(job: &Job, t: usize) -> u64
    requires task { t < length job.now.graph.tasks }
    requires kind { (task_at job.now.graph t).kind ≡ kind.Decimate }
    ensures every { result ≡ (task_at job.now.graph t).every }
    ensures some { 1 ≤ result }
    ensures few { result ≤ EVERY_MAX }
{
    job.graph().task(t).every
}

/// How many steps come before the next that `every` divides, where so many have begun.
fn steps_to_next(every: u64, begun: u64) -> u64
    requires { 1 ≤ every }
    ensures next { (begun + result) % every ≡ 0 }
    ensures few { result < every }
{
    match begun % every {
        0 => 0,
        behind => every - behind,
    }
}

/// Keeps the numbers of these outcomes from place `first` on, each so many places behind the other.
/// There is room for them.
fn keep_every(made: &mut Vec<i64>, outcomes: &[Outcome], step: usize, first: usize)
    requires none { made.old.items ≡ [] }
    requires first { first < step }
    requires few { step ≤ EVERY_MAX }
    requires room { length outcomes.now ≤ vec_capacity made.old }
    ensures kept { made.new.items ≡ every step first (map number outcomes.now) }
    ensures few { length made.new.items ≤ length outcomes.now }
    ensures room { vec_capacity made.new ≡ vec_capacity made.old }
{
    let count = (outcomes.len() + (step - 1 - first)) / step;
    for k in 0..count {
        let value = outcomes.get(first + k * step).copied();
        made.push_reserved(number_taken(value.unwrap_or(Outcome::Value(0))));
    }
}
