//! The turn of a task, by what it does next.
ghost use Rattle.std.specs.Prelude.{◌≡◌, ◌≢◌, ◌<◌, ◌≤◌, ◌+◌, ◌++◌, ◌∷◌, [], ℕ, ℤ, List, true, length, map, drop, slice_get, Some, None, Ok, IfSome, IfOk, IfErr, OnOk, OnErr, if◌then◌else◌, vec_capacity};
ghost use Rattle.std.specs.List.{All, position_from};
ghost use Rattle.graph_base.specs.Graphs.{task_at};
ghost use Rattle.graph_base.specs.declared.line.Kind.TheVariants.{Fir as filters};
ghost use Rattle.phase_history.specs.Histories.{History, done_of};
ghost use Rattle.stream_filters.specs.Range.{ranged};
ghost use Rattle.graph_runs.specs.Moments.{Moment};
ghost use Rattle.graph_runs.specs.Answers.{values_up_to, told_got};
ghost use Rattle.graph_runs.specs.Turned.{with_at};
ghost use Rattle.graph_runs.specs.Nexts as turns;
ghost use Rattle.graph_runs.specs.Nexts.{is_live, number_on};
ghost use Rattle.stream_job.specs.Turning.{IsRegistration, HadTurn, HadTurnBy, told_of};
ghost use Rattle.stream_job.specs.Stepping.{HasDone, HasRoomIn, HasRoomNext, IsNextIn, MayDo, MayStep, OwesMade, is_value_out, with_more, child_refusal, add_event, LineHasBegun};
ghost use Rattle.stream_job.specs.Buffers.{HasPlaces, most_steps};
ghost use Rattle.stream_job.specs.Plans.{IsPlan};
ghost use Rattle.stream_job.specs.SinkLines.{kept_of};
ghost use Rattle.stream_lists.specs.Jobs.{with_samples};
ghost use Rattle.stream_lists.specs.Lists.{is_sink_at};

use crate::buffers::Buffers;
use crate::machine::Machine;
use crate::made::Made;
use crate::plan::Plan;
use crate::step::{SizedStep, Step};
use crate::task_state::TaskState;
use crate::turned::Turned;
use graph_lang::Place;
use graph_runs::{
    Owed, input_of, number_taken, output_of, owed_after_exchange, owed_after_signal, sized,
};
use phase_accum::Outcome;
use phase_base::Mode;
use phase_core::{Got, GotBlock, RegisterRefusal};
use std::alloc::AllocError;
use stream_filters::TooBigValue;
use stream_lists::Job;

impl Machine {
    ghost use Rattle.stream_job.specs.Machines.{HasCores, HasRoom, IsLiveSome, IsMachineAt, IsSome, MayHaveCome, kept_behind, most_in, next_by};

    /// Gives a turn to task number `t`, which, where it is a source, has these samples still to
    /// signal: it makes its next call, which is this one, of at most so many steps. Where it is a
    /// sink, there is room for what it gets.
    pub fn make(
        &mut self,
        job: &Job,
        plan: &Plan,
        buffers: &mut Buffers,
        t: usize,
        awaits: &[i64],
        sized: SizedStep,
    ) -> Result<Made, AllocError>
        requires came { (s : List (List ℤ)) × MayHaveCome job.now self.old t awaits.now s
            × HasRoomNext sized.most (with_samples s job.now) self.old t }
        requires step { (s : List (List ℤ)) (m : Moment)
            → MayHaveCome job.now self.old t awaits.now s
            → IsMachineAt (with_samples s job.now) m self.old
            → turns.next_of (with_samples s job.now) m t ≡ next_by sized.step }
        requires most { MayStep job.now self.old t sized.most
            × (sized.most ≤ most_steps job.now t) }
        requires plan { IsPlan job.now plan.now }
        requires places { HasPlaces job.now buffers.old }
        ensures made { IfOk result (λ made. (s : List (List ℤ))
            → MayHaveCome job.now self.old t awaits.now s
            → HadTurn sized.most (with_samples s job.now) self.old self.new t made) }
        ensures err { OnErr result (self.new ≡ self.old) }
        ensures memory { OnErr result ((s : List (List ℤ)) (m : Moment)
            → MayHaveCome job.now self.old t awaits.now s
            → IsMachineAt (with_samples s job.now) m self.old
            → IsRegistration (turns.next_of (with_samples s job.now) m t)) }
        ensures places { buffers.new ≡ buffers.old }
    {
        sized::turns_up_to();
        match sized.step {
            Step::NotLive => Ok(Made::Nothing),
            Step::Register { child } => self.register_child(job, t, child),
            Step::Leave => Ok(self.leave(job, t)),
            Step::Sample => Ok(self.signal_samples(job, plan, buffers, t, awaits, sized.most)),
            Step::Signal { output } => Ok(self.signal_owed(job, buffers, t, output)),
            Step::Wait { input } => Ok(self.wait_first(job, plan, buffers, t, input, sized.most)),
            Step::Exchange => Ok(self.wait_exchange(job, t)),
        }
    }

    /// A task leaves the first phaser that it has not left.
    pub fn leave(&mut self, job: &Job, t: usize) -> Made
        requires { MayDo job.now self.old t turns.leaves }
        ensures { HasDone job.now self.old self.new t turns.leaves result }
    {
        let state = &self.tasks[t];
        let left = state.left;
        let number = state.numbers[left];
        let last = left + 1 >= state.numbers.len();
        let phaser = job.graph().registration(t, left).phaser;
        let Ok(()) = self.drop_on(job, phaser, number) else {
            unreachable!()
        };
        self.tasks[t].left = left + 1;
        Made::Event {
            phaser,
            told: if last { Turned::Ended } else { Turned::Moved },
        }
    }

    /// A source signals the next of the samples that it has still to signal, at most so many.
    pub fn signal_samples(
        &mut self,
        job: &Job,
        plan: &Plan,
        buffers: &mut Buffers,
        t: usize,
        awaits: &[i64],
        most: u64,
    ) -> Made
        requires next { (s : List (List ℤ)) × MayHaveCome job.now self.old t awaits.now s
            × IsNextIn most (with_samples s job.now) self.old t turns.samples }
        requires plan { IsPlan job.now plan.now }
        requires places { HasPlaces job.now buffers.old }
        ensures made { (s : List (List ℤ)) → MayHaveCome job.now self.old t awaits.now s
            → IsNextIn most (with_samples s job.now) self.old t turns.samples
            → HadTurn most (with_samples s job.now) self.old self.new t result }
        ensures places { buffers.new ≡ buffers.old }
    {
        let (k, phaser) = output_of(job, t, 0);
        let state = &self.tasks[t];
        let begun = state.begun;
        let number = state.numbers[k];
        let many = plan.block(job, t, begun, most).min(awaits.len() as u64);
        let samples = &awaits[..many as usize];
        let parcels = &mut buffers.parcels;
        let Ok(_) = self.signal_values_on(job, phaser, number, samples, parcels) else {
            return Made::Blocked { phaser };
        };
        self.tasks[t].begun = begun + many;
        Made::Event {
            phaser,
            told: Turned::Moved,
        }
    }

    /// A task signals what it owes on this output.
    fn signal_owed(&mut self, job: &Job, buffers: &mut Buffers, t: usize, output: usize) -> Made
        requires next { MayDo job.now self.old t (turns.signals output) }
        requires places { HasPlaces job.now buffers.old }
        ensures made { HasDone job.now self.old self.new t (turns.signals output) result }
        ensures places { buffers.new ≡ buffers.old }
    {
        let state = &self.tasks[t];
        let begun = state.begun;
        if !state.made.is_empty() {
            let all = state.most;
            return self.signal_made(job, buffers, t, all);
        }
        let Owed::Value { value, .. } = state.owed else {
            unreachable!()
        };
        match value {
            Ok(x) => self.signal_value(job, buffers, t, output, x),
            Err(_) => Made::OutOfRange { step: begun - 1 },
        }
    }

    /// A filter signals the first of what it has made, at most so many, where these are in range.
    pub fn signal_made(&mut self, job: &Job, buffers: &mut Buffers, t: usize, most: u64) -> Made
        requires next { MayDo job.now self.old t (turns.signals 0) }
        requires made { OwesMade self.old t }
        requires most { (1 ≤ most) × (most ≤ most_in self.old t) }
        requires places { HasPlaces job.now buffers.old }
        ensures made { (s : List (List ℤ)) (steps : ℕ)
            → IsNextIn steps (with_samples s job.now) self.old t (turns.signals 0)
            → HadTurnBy 1 most (with_samples s job.now) self.old self.new t result }
        ensures places { buffers.new ≡ buffers.old }
    {
        let state = &self.tasks[t];
        let first = state.begun - state.made.len() as u64;
        let many = state.made.len().min(most as usize);
        if let Some(place) = put_values(&state.made[..many], &mut buffers.values) {
            return Made::OutOfRange {
                step: first + place as u64,
            };
        }
        let (k, phaser) = output_of(job, t, 0);
        let number = self.tasks[t].numbers[k];
        let parcels = &mut buffers.parcels;
        let Ok(_) = self.signal_values_on(job, phaser, number, &buffers.values, parcels) else {
            return Made::Blocked { phaser };
        };
        drop_first(&mut self.tasks[t].made, many);
        Made::Event {
            phaser,
            told: Turned::Moved,
        }
    }

    /// A task that is no filter signals this value, which is in range, on this output.
    pub fn signal_value(
        &mut self,
        job: &Job,
        buffers: &mut Buffers,
        t: usize,
        output: usize,
        x: i64,
    ) -> Made
        requires next { MayDo job.now self.old t (turns.signals output) }
        requires places { HasPlaces job.now buffers.old }
        requires kind { (task_at job.now.graph t).kind ≢ filters }
        requires value { (s : List (List ℤ)) (steps : ℕ) (m : Moment)
            → IsNextIn steps (with_samples s job.now) self.old t (turns.signals output)
            → IsMachineAt (with_samples s job.now) m self.old
            → map ranged (values_up_to (most_in self.old t) (with_samples s job.now) m t output)
            ≡ Ok x ∷ [] }
        ensures made { HasDone job.now self.old self.new t (turns.signals output) result }
        ensures places { buffers.new ≡ buffers.old }
    {
        let (k, phaser) = output_of(job, t, output);
        let number = self.tasks[t].numbers[k];
        let parcels = &mut buffers.parcels;
        let Ok(_) = self.signal_values_on(job, phaser, number, &[x], parcels) else {
            return Made::Blocked { phaser };
        };
        self.tasks[t].owed = owed_after_signal(job, t, output, x);
        Made::Event {
            phaser,
            told: Turned::Moved,
        }
    }

    /// A task waits on this input for its next steps, at most so many.
    fn wait_first(
        &mut self,
        job: &Job,
        plan: &Plan,
        buffers: &mut Buffers,
        t: usize,
        k: usize,
        most: u64,
    ) -> Made
        requires next { (s : List (List ℤ))
            × IsNextIn most (with_samples s job.now) self.old t (turns.waits k)
            × HasRoomNext most (with_samples s job.now) self.old t }
        requires plan { IsPlan job.now plan.now }
        requires places { HasPlaces job.now buffers.old }
        ensures made { (s : List (List ℤ))
            → IsNextIn most (with_samples s job.now) self.old t (turns.waits k)
            → HadTurn most (with_samples s job.now) self.old self.new t result }
        ensures places { buffers.new ≡ buffers.old }
    {
        let phaser = input_of(job, t, k);
        let number = self.tasks[t].numbers[k];
        let steps = plan.block(job, t, self.tasks[t].begun, most) as usize;
        let sink = self.sink_of(job, t);
        let places = &mut buffers.outcomes;
        match self.wait_block_into(job, phaser, number, places, steps) {
            Ok(GotBlock::Values { phase, count }) => {
                let got = &buffers.outcomes[..count as usize];
                self.tasks[t].take(job, t, got, &mut buffers.values);
                self.keep(sink, got);
                Made::Event {
                    phaser,
                    told: told_got(phaser, phase, got),
                }
            }
            Ok(GotBlock::Ended) => unreachable!(),
            Err(_) => Made::Blocked { phaser },
        }
    }

    /// The place among the lines of a task that is a sink.
    pub fn sink_of(&self, job: &Job, t: usize) -> Option<usize>
        requires task { t < length job.now.graph.tasks }
        requires state { t < length self.now.tasks.items }
        ensures { (state : TaskState) → slice_get self.now.tasks.items t ≡ Some state
            → result ≡ (if is_sink_at job.now t then Some state.sink else None) }
    {
        if job.graph().is_sink(t) {
            return Some(self.tasks[t].sink);
        }
        None
    }

    /// Keeps the values of a sink before the first that is too big, for which there is room.
    pub fn keep(&mut self, sink: Option<usize>, outcomes: &[Outcome])
        requires there { IfSome sink (λ i. i < length self.old.lines.items) }
        requires room { IfSome sink (HasRoomIn self.old.lines.items (length outcomes.now)) }
        ensures lines { (given : ℕ → List ℤ) → map (kept_behind given) self.new.lines.items
            ≡ with_more sink (kept_of outcomes.now) (map (kept_behind given) self.old.lines.items) }
        ensures starts { map (λ line. line.start) self.new.lines.items
            ≡ map (λ line. line.start) self.old.lines.items }
        ensures own { (room : ℕ → ℕ) → All (HasRoom room) self.old.lines.items
            → All (HasRoom room) self.new.lines.items }
        ensures cores { self.new.cores ≡ self.old.cores }
        ensures tasks { self.new.tasks ≡ self.old.tasks }
    {
        if let Some(i) = sink {
            keep_values(&mut self.lines[i].values, outcomes);
        }
    }

    /// A peer waits on E.
    fn wait_exchange(&mut self, job: &Job, t: usize) -> Made
        requires { MayDo job.now self.old t turns.exchanges }
        ensures { HasDone job.now self.old self.new t turns.exchanges result }
    {
        let phaser = input_of(job, t, 1);
        let state = &self.tasks[t];
        let number = state.numbers[1];
        let Owed::Exchange { x } = state.owed else {
            unreachable!()
        };
        match self.wait_on(job, phaser, number) {
            Ok(Got::Value { phase, outcome }) => {
                self.tasks[t].owed = owed_after_exchange(job, t, x, number_taken(outcome));
                Made::Event {
                    phaser,
                    told: told_got(phaser, phase, &[outcome]),
                }
            }
            Ok(Got::Ended) => unreachable!(),
            Err(_) => Made::Blocked { phaser },
        }
    }

    /// A task registers its child on the next phaser of the child's line.
    pub fn register_child(&mut self, job: &Job, t: usize, c: usize) -> Result<Made, AllocError>
        requires { MayDo job.now self.old t (turns.registers c) }
        ensures made { IfOk result
            (HasDone job.now self.old self.new t (turns.registers c)) }
        ensures err { OnErr result (self.new ≡ self.old) }
    {
        let _all = job.graph().registrations(c);
        let made = self.tasks[c].numbers.len();
        let registration = job.graph().registration(c, made);
        let phaser = registration.phaser;
        let parent = self.number_on(job, t, phaser);
        let Some(number) = self.core(job, phaser).next_number() else {
            unreachable!()
        };
        let mode = registration.mode;
        let refusal = match self.add_on(job, c, phaser, parent, number, mode) {
            Ok(()) => {
                self.tasks[c].numbers.push_reserved(number);
                return Ok(Made::Event {
                    phaser,
                    told: Turned::Moved,
                });
            }
            Err(refusal) => refusal,
        };
        match refusal {
            RegisterRefusal::OutOfMemory => Err(AllocError),
            _ => unreachable!(),
        }
    }

    /// Registers task `c` as this child of a task on phaser `p`: in this mode, or, where it is a
    /// sink that joins now, at the first phase that is not complete, where its line then begins.
    fn add_on(
        &mut self,
        job: &Job,
        c: usize,
        p: usize,
        parent: u64,
        child: u64,
        mode: Mode,
    ) -> Result<(), RegisterRefusal>
        requires machine { IsSome job.now self.old }
        requires places { (p < length job.now.graph.phasers)
            × (c < length job.now.graph.tasks) }
        ensures refused { IfErr result (λ e. e ≢ RegisterRefusal.OutOfMemory
            → (h : ℕ → History) → HasCores job.now h self.old.cores.items
            → child_refusal job.now c (h p) parent child mode ≡ Some e) }
        ensures ok { OnOk result ((h : ℕ → History) → HasCores job.now h self.old.cores.items
            → child_refusal job.now c (h p) parent child mode ≡ None) }
        ensures cores { OnOk result ((h : ℕ → History) → HasCores job.now h self.old.cores.items
            → HasCores job.now (with_at p (add_event job.now c parent child mode ∷ h p) h)
            self.new.cores.items) }
        ensures lines { OnOk result ((s : List (List ℤ)) (m : Moment)
            → IsMachineAt (with_samples s job.now) m self.old
            → LineHasBegun (with_samples s job.now) m c (done_of (m.history p)) self.old.lines.items
            self.new.lines.items) }
        ensures err { OnErr result (self.new ≡ self.old) }
        ensures tasks { self.new.tasks ≡ self.old.tasks }
    {
        if !job.graph().task(c).joins_now {
            return self.register_on(job, p, parent, child, mode);
        }
        let phase = self.register_now_on(job, p, parent, child)?;
        let sink = self.tasks[c].sink;
        self.lines[sink].start = Some(phase);
        Ok(())
    }

    /// The number of a live task on a phaser, 0 where it has none.
    fn number_on(&self, job: &Job, t: usize, p: usize) -> u64
        requires { IsLiveSome job.now self.now t }
        ensures { (s : List (List ℤ)) (m : Moment) → IsMachineAt (with_samples s job.now) m self.now
            → is_live job.now m t ≡ true → number_on m t p ≡ result }
    {
        for k in 0..job.graph().registrations(t) {
            if job.graph().registration(t, k).phaser == p {
                return self.tasks[t].numbers[k];
            }
        }
        0
    }
}

/// Keeps the values before the first that is too big, for which there is room.
fn keep_values(values: &mut Vec<i64>, outcomes: &[Outcome])
    requires { length values.old.items + length outcomes.now ≤ vec_capacity values.old }
    ensures values { values.new.items ≡ values.old.items ++ kept_of outcomes.now }
    ensures room { vec_capacity values.new ≡ vec_capacity values.old }
{
    for outcome in outcomes {
        if *outcome == Outcome::TooBig {
            return;
        }
        values.push_reserved(number_taken(*outcome));
    }
}

/// Puts these values in place of those that are there, up to the first that is out of range, and
/// answers its place, where one is.
pub fn put_values(made: &[Result<i64, TooBigValue>], values: &mut Vec<i64>) -> Option<usize>
    requires room { length made.now ≤ vec_capacity values.old }
    ensures some { result ≡ position_from is_value_out 0 made.now }
    ensures none { result ≡ None → map (λ x. Ok x) values.new.items ≡ made.now }
    ensures room { vec_capacity values.new ≡ vec_capacity values.old }
{
    values.clear();
    for place in 0..made.len() {
        let Ok(x) = made[place] else {
            return Some(place);
        };
        values.push_reserved(x);
    }
    None
}

/// Lets go of the first of these values, so many.
fn drop_first(made: &mut Vec<Result<i64, TooBigValue>>, many: usize)
    requires { many ≤ length made.old.items }
    ensures items { made.new.items ≡ drop many made.old.items }
    ensures room { vec_capacity made.new ≡ vec_capacity made.old }
{
    made.copy_within(many.., 0);
    made.truncate(made.len() - many);
}

/// What a turn tells of a wait that got these, the first of this phase.
fn told_got(phaser: usize, phase: u64, outcomes: &[Outcome]) -> Turned
    requires { phase + length outcomes.now ≤ 18446744073709551615 }
    ensures { told_of result ≡ told_got phaser phase outcomes.now }
{
    let mut at = phase;
    for outcome in outcomes {
        if *outcome == Outcome::TooBig {
            return Turned::TooBig {
                place: Place::Phaser(phaser),
                phase: at,
            };
        }
        at += 1;
    }
    Turned::Moved
}
