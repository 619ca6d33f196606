//! What a joiner takes by blocks: a share of each input by one wait, all in one turn.
ghost use Rattle.std.specs.Prelude.{◌≡◌, ◌*◌, ◌<◌, ◌≤◌, ℕ, [], length, true, vec_capacity};
ghost use Rattle.graph_base.specs.Graphs.{task_at};
ghost use Rattle.graph_base.specs.declared.line.Kind.TheVariants as kind;
ghost use Rattle.stream_lists.specs.Lists.{in_turn};
ghost use Rattle.stream_members.specs.Members.{Spot};
ghost use Rattle.stream_tasks.specs.Holds.{HoldGoesOn, MemberHasWaited};
ghost use Rattle.stream_tasks.specs.Joiners.{HaveGiven, MayTakeNext, MayTakeShares, shares_in};
ghost use Rattle.stream_tasks.specs.Tasks.{IsTask, IsWhole, KeepsTask};

use crate::blocks::until_allows;
use crate::gate::Gate;
use crate::held::Held;
use crate::hold::{Given, Hold};
use crate::task_state::TaskState;
use crate::turn::all_fit;
use crate::went::Went;
use graph_base::ENDS_MAX;
use graph_runs::{first_input_of, input_of, number_taken, output_of, until_of};
use phase_accum::Outcome;
use std::thread;
use stream_lists::Job;

impl<'a> TaskState<'a> {
    /// How many values a block of a joiner takes from each input, as far as is known without a
    /// turn: as many as each has ready, and as there is room for on the output. None where its next
    /// step is not its first input's, or where somebody looks at steps.
    pub fn ready_share<G: Gate>(&self, job: &Job, gate: &G) -> usize
        requires whole { IsWhole job.now self.now }
        requires kind { (task_at job.now.graph self.now.number).kind ≡ kind.Join }
        ensures { 1 ≤ result → MayTakeShares job.now self.now result }
    {
        if !gate.is_open() || first_input_of(job, self.number, self.begun) != 0 {
            return 0;
        }
        let inputs = inputs_of(job, self.number);
        let (k, _) = output_of(job, self.number, 0);
        let room = self.own.min(self.holds[k].room());
        let steps = until_allows(until_of(job, self.number), self.begun, room);
        least_ready(&self.holds, inputs).min(steps / inputs as u64) as usize
    }

    /// Takes so many values from each input of a joiner, which are there, and owes them in turn.
    pub fn take_shares(&mut self, job: &Job, each: usize) -> Went
        requires next { MayTakeNext job.now self.old }
        requires none { self.old.made.items ≡ [] }
        requires shares { MayTakeShares job.now self.old each }
        ensures { KeepsTask job.now self.old self.new }
    {
        let inputs = inputs_of(job, self.number);
        let steps = inputs * each;
        let Some(begun) = self.begun.checked_add(steps as u64) else {
            return self.meet(Went::Stuck);
        };
        if !take_each(&mut self.holds, &mut self.outcomes, inputs, each) {
            return self.meet(Went::Stuck);
        }
        if !all_fit(&self.outcomes[..steps]) {
            return self.meet(Went::TooBig);
        }
        keep_in_turn(&mut self.made, &self.outcomes, inputs, each);
        self.begun = begun;
        self.entered = false;
        self.telling = 1;
        Went::Moved(input_of(job, self.number, 0))
    }

    /// Tells of the wait of the next input of a joiner that has taken a block.
    pub fn tell(&mut self, job: &Job) -> Went
        requires { (spots : ℕ → Spot) × IsTask job.now spots self.old }
        ensures { KeepsTask job.now self.old self.new }
    {
        let inputs = &job.graph().task(self.number).inputs;
        let k = self.telling;
        self.telling = if k < inputs.len().saturating_sub(1) {
            k + 1
        } else {
            0
        };
        match inputs.get(k) {
            Some(p) => Went::Moved(*p),
            None => Went::Ready,
        }
    }
}

/// How many inputs task number `t` has, a joiner.
fn inputs_of(job: &Job, t: usize) -> usize
    requires task { t < length job.now.graph.tasks }
    requires kind { (task_at job.now.graph t).kind ≡ kind.Join }
    ensures count { result ≡ length (task_at job.now.graph t).inputs }
    ensures some { 2 ≤ result }
    ensures few { result ≤ ENDS_MAX }
{
    job.graph().task(t).inputs.len()
}

/// How many values a wait of any of the first so many of these would get, at least, as far as is
/// known without a turn.
fn least_ready(holds: &[Hold<'_>], inputs: usize) -> u64
    requires { inputs ≤ length holds.now }
{
    let mut least = u64::MAX;
    for k in 0..inputs {
        least = least.min(holds[k].ready());
    }
    least
}

/// Waits for so many values on each of the first so many of these, which come into places of its
/// own, and tells whether all came.
fn take_each(
    holds: &mut Vec<Hold<'_>>,
    outcomes: &mut Vec<Outcome>,
    inputs: usize,
    each: usize,
) -> bool
    requires holds { inputs ≤ length holds.old.items }
    requires places { inputs * each ≤ length outcomes.old.items }
    ensures given { result ≡ true
        → HaveGiven inputs each holds.old.items holds.new.items outcomes.new.items }
    ensures holds { length holds.new.items ≡ length holds.old.items }
    ensures places { length outcomes.new.items ≡ length outcomes.old.items }
{
    for k in 0..inputs {
        if !take_all(&mut holds[k], &mut outcomes[k * each..(k + 1) * each]) {
            return false;
        }
    }
    true
}

/// Waits for as many values as there are places, which get them, and tells whether all came. They
/// are there, so it waits for no more than that others end their calls.
fn take_all(hold: &mut Hold<'_>, places: &mut [Outcome]) -> bool
    ensures given { result ≡ true → HoldGoesOn (MemberHasWaited places.new) hold.old hold.new }
    ensures places { length places.new ≡ length places.old }
{
    for _ in 0..u64::MAX {
        match hold.get(places) {
            Ok(Given::Values(count)) => return count == places.len(),
            Err(Held::Busy) => thread::yield_now(),
            Ok(Given::Ended) | Err(_) => return false,
        }
    }
    false
}

/// Keeps the numbers of the first of these outcomes, so many shares of so many, one behind the
/// other: the first of each share, then the second of each, and so on. There is room for them.
fn keep_in_turn(made: &mut Vec<i64>, outcomes: &[Outcome], inputs: usize, each: usize)
    requires none { made.old.items ≡ [] }
    requires inputs { 1 ≤ inputs }
    requires shares { inputs * each ≤ length outcomes.now }
    requires room { inputs * each ≤ vec_capacity made.old }
    ensures kept { made.new.items ≡ in_turn (shares_in inputs each outcomes.now) (inputs * each) }
    ensures room { vec_capacity made.new ≡ vec_capacity made.old }
{
    let mut k = 0;
    let mut i = 0;
    for _ in 0..inputs * each {
        made.push_reserved(number_taken(outcomes[k * each + i]));
        k += 1;
        if k == inputs {
            k = 0;
            i += 1;
        }
    }
}
