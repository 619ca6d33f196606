//! What a splitter takes by blocks, and deals to its outputs.
ghost use Rattle.std.specs.Prelude.{◌≡◌, ◌≢◌, ◌%◌, ◌<◌, ◌≤◌, ℕ, [], false, length, vec_capacity, IfOk, OnErr, OnOk};
ghost use Rattle.stream_lists.specs.Lists.{every};
ghost use Rattle.stream_members.specs.Members.{Spot};
ghost use Rattle.stream_members.specs.AnyMembers.{room_for};
ghost use Rattle.phase_base.specs.declared.operation.Op.{Op};
ghost use Rattle.graph_base.specs.Graphs.{task_at};
ghost use Rattle.graph_base.specs.declared.line.Kind.TheVariants as kind;
ghost use Rattle.stream_tasks.specs.Children.{MayStep};
ghost use Rattle.stream_tasks.specs.Deals.{DealtThen, HasDealRoom, HasListPlaces, next_output_of};
ghost use Rattle.stream_tasks.specs.Holds.{HoldGoesOn, HasSeenOthers, MemberHasSignalled};
ghost use Rattle.stream_tasks.specs.Tasks.{IsTask, IsWhole, KeepsTask};

use crate::gate::Gate;
use crate::held::Held;
use crate::hold::{Given, Hold};
use crate::task_state::TaskState;
use crate::turn::{all_fit, enter, get_into, keep_all};
use crate::went::Went;
use graph_base::ENDS_MAX;
use graph_runs::{input_of, output_of};
use phase_accum::Single;
use std::alloc::{AllocError, Global};
use stream_lists::Job;
use stream_members::Places;

/// What a splitter has taken by one wait, and deals to its outputs in turn.
#[derive(Drop)]
pub struct Deal {
    /// The values, in the order in which it took them: none, where each output has its share.
    pub values: Vec<i64>,
    /// How many outputs have their share of them, from the one on that gets the first value.
    pub turn: usize,
    /// A place for a share.
    pub share: Vec<i64>,
}

impl Deal {
    /// Makes one with room for so many values. It takes memory for them.
    pub fn new(alloc: Global, most: usize) -> Result<Deal, AllocError>
        ensures room { IfOk result (HasDealRoom most) }
        ensures none { IfOk result (λ deal. deal.values.items ≡ []) }
    {
        let values = Vec::with_capacity(alloc, most)?;
        let share = Vec::with_capacity(alloc, most)?;
        Ok(Deal {
            values,
            turn: 0,
            share,
        })
    }

    /// One more of so many outputs has got its share.
    fn go_on(&mut self, outputs: usize)
        requires { self.old.turn < length self.old.values.items }
        ensures then { DealtThen outputs self.old.turn self.old.values.items self.new }
        ensures room { vec_capacity self.new.values ≡ vec_capacity self.old.values }
        ensures share { self.new.share ≡ self.old.share }
    {
        self.turn += 1;
        if self.turn >= outputs.min(self.values.len()) {
            self.values.clear();
        }
    }
}

impl<'a> TaskState<'a> {
    /// The output of a splitter that gets its share next.
    pub fn next_output(&self, job: &Job) -> usize
        requires whole { IsWhole job.now self.now }
        requires kind { (task_at job.now.graph self.now.number).kind ≡ kind.Split }
        ensures output { result ≡ next_output_of job.now self.now }
        ensures within { result < length (task_at job.now.graph self.now.number).outputs }
    {
        let left = self.deal.values.len().saturating_sub(self.deal.turn);
        let step = self.begun.saturating_sub(left as u64);
        output_in_turn(job, self.number, step)
    }

    /// Puts its share of what a splitter has taken on the next output.
    pub fn put_share(&mut self, job: &Job) -> Went
        requires task { (spots : ℕ → Spot) × IsTask job.now spots self.old }
        requires met { self.old.met ≡ false }
        requires over { self.old.over ≡ false }
        requires dealing { self.old.deal.values.items ≢ [] }
        ensures { KeepsTask job.now self.old self.new }
    {
        let outputs = outputs_of(job, self.number);
        let (k, p) = output_of(job, self.number, self.next_output(job));
        let single = job.graph().phaser(p).single;
        let turn = self.deal.turn;
        gather(&self.deal.values, turn, outputs, &mut self.deal.share);
        match put_list(
            &mut self.holds[k],
            &self.deal.share,
            single,
            &mut self.places,
        ) {
            Ok(()) => {
                self.deal.go_on(outputs);
                Went::Moved(p)
            }
            Err(held) => held.on(p),
        }
    }

    /// Begins steps of a splitter, by a wait for what it deals.
    pub fn take_deal<G: Gate>(&mut self, job: &Job, gate: &G) -> Went
        requires step { MayStep job.now self.old }
        requires kind { (task_at job.now.graph self.old.number).kind ≡ kind.Split }
        ensures { KeepsTask job.now self.old self.new }
    {
        let steps = self.steps(job, gate) as usize;
        if self.begun.checked_add(steps as u64).is_none() {
            return self.meet(Went::Stuck);
        }
        enter(gate, &mut self.entered, self.number, self.begun);
        let p = input_of(job, self.number, 0);
        match get_into(&mut self.holds[0], &mut self.outcomes, steps) {
            Ok(Given::Values(count)) => {
                let got = &self.outcomes[..count];
                if !all_fit(got) {
                    return self.meet(Went::TooBig);
                }
                keep_all(&mut self.deal.values, got);
                self.deal.turn = 0;
                self.begun += count as u64;
                self.entered = false;
                Went::Moved(p)
            }
            Ok(Given::Ended) => {
                self.over = true;
                Went::Ready
            }
            Err(held) => held.on(p),
        }
    }

    /// How many steps of a splitter find room on its outputs, as far as is known without a turn.
    pub fn dealt_steps(&self, job: &Job) -> u64
        requires whole { IsWhole job.now self.now }
        requires kind { (task_at job.now.graph self.now.number).kind ≡ kind.Split }
        ensures some { 1 ≤ result }
        ensures few { result ≤ self.now.own }
    {
        let outputs = outputs_of(job, self.number);
        let mut steps = self.own;
        for turn in 0..outputs {
            let step = self.begun.saturating_add(turn as u64);
            let (k, _) = output_of(job, self.number, output_in_turn(job, self.number, step));
            let room = self.holds[k].room().saturating_mul(outputs as u64);
            steps = steps.min(room.saturating_add(turn as u64));
        }
        steps.max(1)
    }
}

/// The output of task number `t`, a splitter, that gets the value of the step after so many.
fn output_in_turn(job: &Job, t: usize, steps: u64) -> usize
    requires task { t < length job.now.graph.tasks }
    requires kind { (task_at job.now.graph t).kind ≡ kind.Split }
    ensures output { result ≡ steps % length (task_at job.now.graph t).outputs }
    ensures within { result < length (task_at job.now.graph t).outputs }
{
    (steps % outputs_of(job, t) as u64) as usize
}

/// How many outputs task number `t` has, a splitter.
pub fn outputs_of(job: &Job, t: usize) -> usize
    requires task { t < length job.now.graph.tasks }
    requires kind { (task_at job.now.graph t).kind ≡ kind.Split }
    ensures count { result ≡ length (task_at job.now.graph t).outputs }
    ensures some { 2 ≤ result }
    ensures few { result ≤ ENDS_MAX }
{
    job.graph().task(t).outputs.len()
}

/// Gathers the values from place `first` on, each so many places behind the other.
fn gather(values: &[i64], first: usize, step: usize, share: &mut Vec<i64>)
    requires turn { first < step }
    requires few { step ≤ ENDS_MAX }
    requires room { length values.now ≤ vec_capacity share.old }
    ensures share { share.new.items ≡ every step first values.now }
    ensures room { vec_capacity share.new ≡ vec_capacity share.old }
{
    share.clear();
    let count = (values.len() + (step - 1 - first)) / step;
    for k in 0..count {
        share.push_reserved(values.get(first + k * step).copied().unwrap_or(0));
    }
}

/// Signals with these values, one a phase, of which several find places for their sends.
fn put_list(
    hold: &mut Hold,
    values: &[i64],
    single: Option<Single>,
    places: &mut Places,
) -> Result<(), Held>
    requires { HasListPlaces hold.old (length values.now) places.old }
    ensures ok { OnOk result
        (HoldGoesOn (MemberHasSignalled values.now single) hold.old hold.new) }
    ensures err { OnErr result (HoldGoesOn HasSeenOthers hold.old hold.new) }
    ensures places { (op : Op) → room_for op places.new ≡ room_for op places.old }
{
    if values.len() == 1 {
        return hold.put(values[0], single);
    }
    hold.put_all(values, single, places)
}
