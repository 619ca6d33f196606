//! How far a task has come.
ghost use Rattle.std.specs.Prelude.{◌≡◌, ◌<◌, ◌≤◌, ◌+◌, [], not, is_some, length, map, List, ℤ, vec_capacity};
ghost use Rattle.std.specs.List.{position_from};
ghost use Rattle.graph_base.specs.declared.line.Kind.TheVariants.{Fir as filters};
ghost use Rattle.stream_job.specs.Stepping.{is_value_out};
ghost use Rattle.stream_lists.specs.Lists.{number};
ghost use Rattle.graph_runs.specs.Moves.{IsBlock};
ghost use Rattle.graph_runs.specs.declared.owed.Owed.TheVariants.{Nothing};
ghost use Rattle.graph_base.specs.Graphs.{task_at};
ghost use Rattle.stream_lists.specs.Jobs.{with_samples};
ghost use Rattle.graph_runs.specs.Steps.{HasFilter};
ghost use Rattle.graph_runs.specs.Moments.{Moment};
ghost use Rattle.graph_runs.specs.Nexts.{first_missing, is_live};
ghost use Rattle.graph_runs.specs.TaskPlaces.{StandsUpTo};

use crate::filtering::filter_all;
use graph_base::Kind;
use graph_runs::{Owed, kind_of, number_taken, owed_after_wait};
use phase_accum::Outcome;
use smallvec::SmallVec;
use stream_filters::{Fir, TooBigValue};
use stream_lists::Job;

/// Where a task stands.
#[derive(Drop)]
pub struct TaskState {
    /// Its numbers on the first of its phasers, in the order of its registrations.
    pub numbers: SmallVec<u64, 9>,
    /// How many of these phasers it has left.
    pub left: usize,
    /// How many steps it has begun.
    pub begun: u64,
    /// What these steps owe next, of a task that is no filter.
    pub owed: Owed,
    /// The filter of a task that is one.
    pub filter: Option<Fir>,
    /// How many of the values that it owes one event of it signals, at most.
    pub most: u64,
    /// What it has made and not signalled: all that a filter owes.
    pub made: Vec<Result<i64, TooBigValue>>,
    /// How many sinks stand above the task.
    pub sink: usize,
}

impl TaskState {
    ghost use Rattle.stream_job.specs.Places.{place_in_state, owed_in, StateHasTaken};
    ghost use Rattle.stream_job.specs.Stepping.{are_in_range, good_in, owed_many};

    /// Whether task number `t` is registered on all phasers of its line.
    pub fn is_registered(&self, job: &Job, t: usize) -> bool
        requires { t < length job.now.graph.tasks }
        ensures { (s : List (List ℤ)) (m : Moment)
            → StandsUpTo self.now.most (with_samples s job.now) m t (place_in_state self.now)
            → is_some (first_missing job.now m t) ≡ not result }
    {
        self.numbers.len() >= job.graph().registrations(t)
    }

    /// Whether task number `t` is live.
    pub fn is_live(&self, job: &Job, t: usize) -> bool
        requires { t < length job.now.graph.tasks }
        ensures { (s : List (List ℤ)) (m : Moment)
            → StandsUpTo self.now.most (with_samples s job.now) m t (place_in_state self.now)
            → is_live job.now m t ≡ result }
    {
        self.is_registered(job, t) && self.left < self.numbers.len()
    }

    /// Takes what the first wait of the next steps got, of which it owes nothing yet. It uses the
    /// places of the values meanwhile.
    pub fn take(&mut self, job: &Job, t: usize, outcomes: &[Outcome], values: &mut Vec<i64>)
        requires task { t < length job.now.graph.tasks }
        requires begun { self.old.begun + length outcomes.now ≤ 18446744073709551615 }
        requires filter { (taken : List ℤ)
            × HasFilter (task_at job.now.graph t) self.old.filter taken }
        requires block { (1 ≤ length outcomes.now)
            × IsBlock (task_at job.now.graph t).kind (length outcomes.now) }
        requires nothing { (self.old.owed ≡ Nothing) × (self.old.made.items ≡ []) }
        requires room { (length outcomes.now ≤ vec_capacity values.old)
            × ((task_at job.now.graph t).kind ≡ filters
            → length outcomes.now ≤ vec_capacity self.old.made) }
        ensures taken { StateHasTaken (task_at job.now.graph t) (map number outcomes.now)
            self.old self.new }
        ensures places { vec_capacity values.new ≡ vec_capacity values.old }
    {
        match kind_of(job, t) {
            Kind::Fir => {
                filter_all(job, t, &mut self.filter, outcomes, values, &mut self.made);
            }
            Kind::Source | Kind::Sink => {}
            Kind::Split | Kind::Decimate | Kind::Join | Kind::Peer => {
                let x = number_taken(outcomes[0]);
                self.owed = owed_after_wait(job, t, self.begun, &mut self.filter, x);
            }
        }
        self.begun += outcomes.len() as u64;
    }

    /// Whether what the task owes is values that are all in range.
    pub fn are_in_range(&self) -> bool
        ensures { are_in_range (owed_in self.now.owed self.now.made.items) ≡ result }
    {
        if self.made.is_empty() {
            return matches!(self.owed, Owed::Value { value: Ok(_), .. });
        }
        for value in &self.made {
            if value.is_err() {
                return false;
            }
        }
        true
    }

    /// How many values the task owes before the first that is out of range, where one is.
    pub fn good_many(&self) -> Option<usize>
        ensures { good_in (owed_in self.now.owed self.now.made.items) ≡ result }
    {
        if !self.made.is_empty() {
            return first_out(&self.made);
        }
        match self.owed {
            Owed::Value { value: Err(_), .. } => Some(0),
            _ => None,
        }
    }

    /// How many values the task owes.
    pub fn owed_many(&self) -> u64
        ensures { owed_many (owed_in self.now.owed self.now.made.items) ≡ result }
    {
        if self.made.is_empty() && matches!(self.owed, Owed::Value { .. }) {
            return 1;
        }
        self.made.len() as u64
    }
}

/// The place of the first of these values that is out of range, where one is.
fn first_out(made: &[Result<i64, TooBigValue>]) -> Option<usize>
    ensures { result ≡ position_from is_value_out 0 made.now }
{
    for place in 0..made.len() {
        if made[place].is_err() {
            return Some(place);
        }
    }
    None
}
