//! One event of a task.
ghost use Rattle.std.specs.Prelude.{◌≡◌, ◌≢◌, ◌+◌, ◌<◌, ◌≤◌, ℕ, ℤ, List, [], ◌++◌, Ok, true, false, length, map, take, vec_len, vec_capacity, IfOk, IfSome};
ghost use Rattle.std.specs.List.{All};
ghost use Rattle.graph_base.specs.Graphs.{task_at};
ghost use Rattle.graph_base.specs.declared.line.Kind.TheVariants as kind;
ghost use Rattle.stream_filters.specs.Range.{ranged};
ghost use Rattle.stream_lists.specs.Jobs.{Job as JobValue};
ghost use Rattle.stream_lists.specs.Lists.{number};
ghost use Rattle.stream_lists.specs.Ranges.{is_too_big};
ghost use Rattle.stream_members.specs.Members.{Spot};
ghost use Rattle.graph_runs.specs.declared.owed.Owed.TheVariants.{Value, Exchange};
ghost use Rattle.graph_runs.specs.Moves.{IsBlock};
ghost use Rattle.graph_runs.specs.Steps.{HasFilter};
ghost use Rattle.graph_runs.specs.TaskPlaces.{outputs_of_block};
ghost use Rattle.stream_tasks.specs.Holds.{HoldGoesOn, WaitGave, IsAtMost};
ghost use Rattle.stream_tasks.specs.Tasks.{HasAllNow, HasNoneDue, IsTask, IsWhole, KeepsTask, OwesNothing};
ghost use Rattle.stream_tasks.specs.Children.{HasTakenFirst, MayStep};

use crate::gate::Gate;
use crate::held::Held;
use crate::hold::{Given, Hold};
use crate::task_state::TaskState;
use crate::went::Went;
use graph_base::Kind;
use graph_runs::{
    Owed, filtered_all, first_input_of, input_of, is_cut, kind_of, number_taken, output_of,
    owed_after_exchange, owed_after_signal, owed_after_wait, until_of,
};
use phase_accum::Outcome;
use stream_filters::Fir;
use stream_lists::Job;

/// How many numbers a filter is given at once.
const AT_ONCE: usize = 16;

impl<'a> TaskState<'a> {
    /// Makes the next event, where it can and no child comes first.
    pub fn turn<G: Gate>(&mut self, job: &Job, gate: &G) -> Went
        requires task { (spots : ℕ → Spot) × IsTask job.now spots self.old }
        requires met { self.old.met ≡ false }
        requires children { HasNoneDue job.now self.old }
        ensures { KeepsTask job.now self.old self.new }
    {
        if self.telling > 0 {
            return self.tell(job);
        }
        if self.over {
            return self.leave_next(job);
        }
        if !self.made.is_empty() {
            return self.go_on_made(job, gate);
        }
        if !self.deal.values.is_empty() {
            return self.put_share(job);
        }
        match self.owed {
            Owed::Value {
                output,
                value: Ok(value),
            } => self.put(job, output, value),
            Owed::Value { .. } => self.meet(Went::TooBig),
            Owed::Exchange { x } => self.exchange(job, x),
            Owed::Nothing => self.at_boundary(job, gate),
        }
    }

    /// Has met what ends all.
    pub fn meet(&mut self, turned: Went) -> Went
        ensures keeps { (job : JobValue) (spots : ℕ → Spot) → IsWhole job self.old
            → IsTask job spots self.new }
        ensures result { result ≡ turned }
    {
        self.met = true;
        turned
    }

    /// Leaves the next of its phasers.
    fn leave_next(&mut self, job: &Job) -> Went
        requires task { (spots : ℕ → Spot) × IsTask job.now spots self.old }
        requires met { self.old.met ≡ false }
        requires over { self.old.over ≡ true }
        ensures { KeepsTask job.now self.old self.new }
    {
        let k = self.lefts.len();
        if k >= self.holds.len() {
            return Went::Gone;
        }
        let p = job.graph().registration(self.number, k).phaser;
        match self.holds[k].leave() {
            Ok(left) => {
                self.lefts.push_reserved(left);
                Went::Moved(p)
            }
            Err(held) => held.on(p),
        }
    }

    /// Puts all that it has made.
    pub fn put_made(&mut self, job: &Job) -> Went
        requires task { (spots : ℕ → Spot) × IsTask job.now spots self.old }
        requires met { self.old.met ≡ false }
        requires over { self.old.over ≡ false }
        requires made { self.old.made.items ≢ [] }
        ensures { KeepsTask job.now self.old self.new }
    {
        let (k, p) = output_of(job, self.number, 0);
        let single = job.graph().phaser(p).single;
        match self.holds[k].put_all(&self.made, single, &mut self.places) {
            Ok(()) => {
                self.made.clear();
                Went::Moved(p)
            }
            Err(held) => held.on(p),
        }
    }

    /// Puts the value that it owes on an output.
    fn put(&mut self, job: &Job, output: usize, value: i64) -> Went
        requires task { (spots : ℕ → Spot) × IsTask job.now spots self.old }
        requires met { self.old.met ≡ false }
        requires over { self.old.over ≡ false }
        requires owed { self.old.owed ≡ Value output (Ok value) }
        requires none_made { self.old.made.items ≡ [] }
        ensures { KeepsTask job.now self.old self.new }
    {
        let (k, p) = output_of(job, self.number, output);
        match self.holds[k].put(value, job.graph().phaser(p).single) {
            Ok(()) => {
                self.owed = owed_after_signal(job, self.number, output, value);
                Went::Moved(p)
            }
            Err(held) => held.on(p),
        }
    }

    /// Waits on E for a peer, which took `x` from X.
    fn exchange(&mut self, job: &Job, x: i64) -> Went
        requires task { (spots : ℕ → Spot) × IsTask job.now spots self.old }
        requires met { self.old.met ≡ false }
        requires over { self.old.over ≡ false }
        requires owed { self.old.owed ≡ Exchange x }
        requires none_made { self.old.made.items ≡ [] }
        ensures { KeepsTask job.now self.old self.new }
    {
        let p = input_of(job, self.number, 1);
        match get_into(&mut self.holds[1], &mut self.outcomes, 1) {
            Ok(Given::Values(_)) => {
                let got = self.outcomes[0];
                if is_too_big(got) {
                    return self.meet(Went::TooBig);
                }
                self.owed = owed_after_exchange(job, self.number, x, number_taken(got));
                Went::Moved(p)
            }
            Ok(Given::Ended) => self.meet(Went::Stuck),
            Err(held) => held.on(p),
        }
    }

    /// Goes on between two steps, where no child comes first.
    fn at_boundary<G: Gate>(&mut self, job: &Job, gate: &G) -> Went
        requires task { (spots : ℕ → Spot) × IsTask job.now spots self.old }
        requires met { self.old.met ≡ false }
        requires over { self.old.over ≡ false }
        requires owed { OwesNothing self.old }
        requires children { HasAllNow job.now self.old }
        ensures { KeepsTask job.now self.old self.new }
    {
        if is_cut(until_of(job, self.number), self.begun) {
            self.over = true;
            return Went::Ready;
        }
        match kind_of(job, self.number) {
            Kind::Source => self.put_samples(job, gate),
            Kind::Split => self.take_deal(job, gate),
            Kind::Decimate => self.take_kept(job, gate),
            Kind::Join => self.begin_join(job, gate),
            _ => self.first_wait(job, gate),
        }
    }

    /// Begins steps of a source, by a signal with its next samples.
    fn put_samples<G: Gate>(&mut self, job: &Job, gate: &G) -> Went
        requires step { MayStep job.now self.old }
        requires kind { (task_at job.now.graph self.old.number).kind ≡ kind.Source }
        ensures { KeepsTask job.now self.old self.new }
    {
        let samples = self.samples;
        let begun = self.begun;
        if begun >= samples.len() as u64 {
            self.over = true;
            return Went::Ready;
        }
        let steps = self.steps(job, gate).min(samples.len() as u64 - begun);
        enter(gate, &mut self.entered, self.number, begun);
        let values = &samples[begun as usize..(begun + steps) as usize];
        let (k, p) = output_of(job, self.number, 0);
        let single = job.graph().phaser(p).single;
        match self.holds[k].put_all(values, single, &mut self.places) {
            Ok(()) => {
                self.begun = begun + steps;
                self.entered = false;
                Went::Moved(p)
            }
            Err(held) => held.on(p),
        }
    }

    /// Begins steps of a filter, a peer or a sink, by their first wait.
    fn first_wait<G: Gate>(&mut self, job: &Job, gate: &G) -> Went
        requires step { MayStep job.now self.old }
        requires kind { (task_at job.now.graph self.old.number).kind ≢ kind.Source }
        requires split { (task_at job.now.graph self.old.number).kind ≢ kind.Split }
        requires decimate { (task_at job.now.graph self.old.number).kind ≢ kind.Decimate }
        requires join { (task_at job.now.graph self.old.number).kind ≢ kind.Join }
        ensures { KeepsTask job.now self.old self.new }
    {
        let steps = self.steps(job, gate) as usize;
        if self.begun.checked_add(steps as u64).is_none() {
            return self.meet(Went::Stuck);
        }
        let sink = job.graph().is_sink(self.number);
        if !make_room(&mut self.lines, sink, steps) {
            return Went::OutOfMemory;
        }
        enter(gate, &mut self.entered, self.number, self.begun);
        let k = first_input_of(job, self.number, self.begun);
        let p = input_of(job, self.number, k);
        match get_into(&mut self.holds[k], &mut self.outcomes, steps) {
            Ok(Given::Values(count)) => {
                let got = &self.outcomes[..count];
                let (filter, made) = (&mut self.filter, &mut self.made);
                let Some(owed) = owed_after(job, self.number, self.begun, filter, made, got) else {
                    return self.meet(Went::TooBig);
                };
                keep(&mut self.lines, sink, got);
                self.owed = owed;
                self.begun += count as u64;
                self.entered = false;
                Went::Moved(p)
            }
            Ok(Given::Ended) => {
                self.over = true;
                Went::Ready
            }
            Err(held) => held.on(p),
        }
    }
}

/// Waits for the next values, `most` at most, which come into the first of these places.
fn get_first(hold: &mut Hold, places: &mut [Outcome], most: usize) -> Result<Given, Held>
    requires { most ≤ length places.old }
    ensures call { HoldGoesOn (WaitGave result (take most places.new)) hold.old hold.new }
    ensures few { IfOk result (IsAtMost most) }
    ensures places { length places.new ≡ length places.old }
{
    hold.get(&mut places[..most])
}

/// The same into a list of places, which stays as long.
pub fn get_into(hold: &mut Hold, places: &mut Vec<Outcome>, most: usize) -> Result<Given, Held>
    requires { most ≤ vec_len places.old }
    ensures call { HoldGoesOn (WaitGave result (take most places.new.items)) hold.old hold.new }
    ensures few { IfOk result (IsAtMost most) }
    ensures places { length places.new.items ≡ length places.old.items }
{
    get_first(hold, places, most)
}

/// Whether none of these outcomes is out of range.
pub fn all_fit(outcomes: &[Outcome]) -> bool
    ensures { result ≡ true → All (λ outcome. is_too_big outcome ≡ false) outcomes.now }
{
    for outcome in outcomes {
        if is_too_big(*outcome) {
            return false;
        }
    }
    true
}

/// Whether an outcome is out of range.
pub fn is_too_big(outcome: Outcome) -> bool
    ensures { result ≡ is_too_big outcome }
{
    matches!(outcome, Outcome::TooBig)
}

/// What task number `t`, which is no source, owes after the first wait of its next steps, which got
/// these outcomes, one for each; it began so many before. A filter takes them, and what it makes is
/// put to `made`. None where an outcome, or what a filter makes, is out of range.
fn owed_after(
    job: &Job,
    t: usize,
    begun: u64,
    filter: &mut Option<Fir>,
    made: &mut Vec<i64>,
    got: &[Outcome],
) -> Option<Owed>
    requires task { t < length job.now.graph.tasks }
    requires source { (task_at job.now.graph t).kind ≢ kind.Source }
    requires filter { (taken : List ℤ) × HasFilter (task_at job.now.graph t) filter.old taken }
    requires made { (made.old.items ≡ []) × (length got.now ≤ vec_capacity made.old) }
    requires block { (1 ≤ length got.now)
        × IsBlock (task_at job.now.graph t).kind (length got.now) }
    ensures taken { IfSome result (λ owed.
        HasTakenFirst job.now t begun got.now filter.old filter.new owed made.new.items) }
    ensures others { (task_at job.now.graph t).kind ≢ kind.Fir → made.new.items ≡ [] }
    ensures room { (length made.new.items ≤ length got.now)
        × (vec_capacity made.new ≡ vec_capacity made.old) }
{
    if !all_fit(got) {
        return None;
    }
    match kind_of(job, t) {
        Kind::Fir => filter_all(job, t, filter, got, made).then_some(Owed::Nothing),
        _ => {
            let x = number_taken(got[0]);
            Some(owed_after_wait(job, t, begun, filter, x))
        }
    }
}

/// Makes what the filter of task number `t` makes of these outcomes, and tells whether all of it is
/// in range. There is room for it.
fn filter_all(
    job: &Job,
    t: usize,
    filter: &mut Option<Fir>,
    outcomes: &[Outcome],
    made: &mut Vec<i64>,
) -> bool
    requires task { t < length job.now.graph.tasks }
    requires kind { (task_at job.now.graph t).kind ≡ kind.Fir }
    requires filter { (taken : List ℤ) × HasFilter (task_at job.now.graph t) filter.old taken }
    requires made { (made.old.items ≡ []) × (length outcomes.now ≤ vec_capacity made.old) }
    ensures made { result ≡ true → (taken : List ℤ)
        → HasFilter (task_at job.now.graph t) filter.old taken
        → let task = task_at job.now.graph t in
        map ranged (outputs_of_block task.taps task.form taken (map number outcomes.now))
        ≡ map (λ v. Ok v) made.new.items }
    ensures filter { result ≡ true → (taken : List ℤ)
        → HasFilter (task_at job.now.graph t) filter.old taken
        → HasFilter (task_at job.now.graph t) filter.new (taken ++ map number outcomes.now) }
    ensures few { length made.new.items ≤ length outcomes.now }
    ensures room { vec_capacity made.new ≡ vec_capacity made.old }
{
    let mut at = 0;
    while at < outcomes.len() {
        let end = outcomes.len().min(at + AT_ONCE);
        let numbers = numbers_of(&outcomes[at..end]);
        let Ok(()) = filtered_all(job, t, filter, &numbers[..end - at], made) else {
            return false;
        };
        at = end;
    }
    true
}

/// The numbers of these outcomes, at most 16, and zeros behind them.
fn numbers_of(outcomes: &[Outcome]) -> [i64; AT_ONCE]
    requires { length outcomes.now ≤ 16 }
    ensures { take (length outcomes.now) result ≡ map number outcomes.now }
{
    let mut numbers = [0; AT_ONCE];
    for i in 0..outcomes.len() {
        numbers[i] = number_taken(outcomes[i]);
    }
    numbers
}

/// Enters the next step of a task, where no worker has.
pub fn enter<G: Gate>(gate: &G, entered: &mut bool, task: usize, step: u64) {
    if !*entered {
        *entered = true;
        gate.at(task, step);
    }
}

/// Makes room for so many more of what a sink takes, and tells whether there is room. Other tasks
/// need none.
fn make_room(lines: &mut Vec<i64>, sink: bool, steps: usize) -> bool
    ensures items { lines.new.items ≡ lines.old.items }
    ensures room { result ≡ true → sink ≡ true
        → vec_len lines.new + steps ≤ vec_capacity lines.new }
{
    if sink {
        return lines.reserve(steps).is_ok();
    }
    true
}

/// Keeps the numbers of what a sink got, for which there is room. Other tasks keep nothing.
fn keep(lines: &mut Vec<i64>, sink: bool, outcomes: &[Outcome])
    requires { sink ≡ true → vec_len lines.old + length outcomes.now ≤ vec_capacity lines.old }
    ensures kept { sink ≡ true → lines.new.items ≡ lines.old.items ++ map number outcomes.now }
{
    if sink {
        keep_all(lines, outcomes);
    }
}

/// Keeps the numbers of these outcomes, for which there is room.
pub fn keep_all(lines: &mut Vec<i64>, outcomes: &[Outcome])
    requires { vec_len lines.old + length outcomes.now ≤ vec_capacity lines.old }
    ensures kept { lines.new.items ≡ lines.old.items ++ map number outcomes.now }
    ensures room { vec_capacity lines.new ≡ vec_capacity lines.old }
{
    for outcome in outcomes {
        lines.push_reserved(number_taken(*outcome));
    }
}
