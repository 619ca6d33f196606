//! The turns of a run that is fed.
ghost use Rattle.std.specs.Prelude.{◌≡◌, ◌≢◌, ◌<◌, ◌≤◌, ◌+◌, ◌-◌, ◌||◌, nat_lt, ℕ, ℤ, List, Ok, IfOk, OnErr, length, map, false, true, None, Some};
ghost use Rattle.stream_lists.specs.Jobs.{with_samples};
ghost use Rattle.stream_lists.specs.Ranges.{answer_of};
ghost use Rattle.graph_base.specs.declared.place.Place.{Place as PlaceValue};
ghost use Rattle.graph_base.specs.declared.line.Kind.TheVariants.{Fir as filters};
ghost use Rattle.graph_base.specs.Graphs.{phaser_at, task_at};
ghost use Rattle.graph_base.specs.Registrations.{signalled_by};
ghost use Rattle.graph_runs.specs.Answers.{output_at};
ghost use Rattle.graph_runs.specs.Feeds.{IsFed};
ghost use Rattle.graph_runs.specs.Moments.{Moment, started};
ghost use Rattle.graph_runs.specs.Settled.{IsFaultAt, IsReady};
ghost use Rattle.graph_runs.specs.TaskPlaces.{registration_of_output};
ghost use Rattle.phase_history.specs.Refusals.{is_ahead};
ghost use Rattle.stream_job.specs.Rounds.{first_met};

use crate::buffers::OWN_STEPS;
use crate::look::Look;
use crate::plan_blocks::line_block;
use crate::sink_lines::LINE_ROOM;
use crate::stopped::Stopped;
use crate::stream::Stream;
use crate::stream_stops::awaited;
use crate::went::Went;
use graph_base::Kind;
use graph_lang::Place;
use graph_runs::{feeds, input_of, kind_of, outcomes, output_of};
use phase_base::PHASES_MAX;
use std::alloc::AllocError;

/// The turns that a task gets one after the other, while it moves, at most.
const TURNS: usize = 64;

/// The rounds of turns that one call makes at most, in each of which some task moves.
pub const ROUNDS: u32 = u32::MAX;

impl Stream {
    ghost use Rattle.stream_job.specs.Buffers.{most_steps};
    ghost use Rattle.stream_job.specs.Stepping.{HasPhases, MayStep};
    ghost use Rattle.stream_job.specs.Machines.{kept_behind};
    ghost use Rattle.stream_job.specs.InRange.{stands_before};
    ghost use Rattle.stream_job.specs.Rounds.{LookTells, StandsSome, met_in, of_look, of_moved, of_went};
    ghost use Rattle.stream_job.specs.Streams.{IsSameRun, IsStreamAt, MayMove, Meets, StreamGoesOn, StreamMoves, StreamStopsAt, ended_at, rests};
    ghost use Rattle.stream_job.specs.declared.stopped.Stopped.TheVariants.{Done, Paused, TooBig};
    ghost use Rattle.stream_job.specs.declared.look.Look.TheVariants.{Moved};
    ghost use Rattle.stream_job.specs.declared.went.Went.TheVariants.{Before, Stays};

    /// Gives turns to the tasks until none can move, and returns why.
    ///
    /// A source that was not told to have ended waits for a sample where it has none left, but a
    /// child that is due there comes first. A sink without room is told before a hungry source,
    /// since to read it may let others move. Done is said once no task is left: then the sinks have
    /// all that they get, whatever samples go on so.
    ///
    /// No task takes a value out of range: it stands before it, and the others go on. Once no other
    /// task can move, and no sink is without room, it is told where the first of these tasks
    /// stands, in the order of their lines, and so it is by a later call. It is a value of every
    /// run whose samples go on so.
    ///
    /// A child's registration may ask for memory, and nothing else does. Where there is none, no
    /// value is lost, and the call can be made again.
    pub fn run(&mut self) -> Result<Stopped, AllocError>
        ensures goes_on { StreamGoesOn self.old self.new }
        ensures stops { IfOk result (λ stop. (s : List (List ℤ)) (m : Moment)
            (given : ℕ → List ℤ) → IsStreamAt self.new s m given
            → StreamStopsAt self.new s m given stop) }
        ensures done { IfOk result (λ stop. stop ≡ Done → (s : List (List ℤ)) (m : Moment)
            (given : ℕ → List ℤ) (more : List (List ℤ)) → IsStreamAt self.new s m given
            → IsFed (with_samples s self.new.job) (ended_at self.new) more
            → IsReady (with_samples more self.new.job)
            → answer_of (started (with_samples more self.new.job) m)
            ≡ Ok (map (kept_behind given) self.new.machine.lines.items)) }
        ensures too_big { IfOk result (λ stop. (place : PlaceValue) (n : ℕ)
            → stop ≡ TooBig place n → (s : List (List ℤ)) (m : Moment) (given : ℕ → List ℤ)
            (more : List (List ℤ)) → IsStreamAt self.new s m given
            → IsFed (with_samples s self.new.job) (ended_at self.new) more
            → IsReady (with_samples more self.new.job)
            → IsFaultAt (started (with_samples more self.new.job) m) (place, n)) }
        ensures meets { IfOk result (λ stop. (place : PlaceValue) (n : ℕ)
            → stop ≡ TooBig place n → (s : List (List ℤ)) (m : Moment) (given : ℕ → List ℤ)
            → IsStreamAt self.new s m given
            → Meets (with_samples s self.new.job) (ended_at self.new) m given (place, n)) }
        // Paused is told only behind so many events.
        ensures paused { IfOk result (λ stop. stop ≡ Paused
            → StreamMoves ROUNDS self.old self.new) }
    {
        self.forget_met();
        let Look::Still { before } = self.settle()? else {
            return Ok(Stopped::Paused);
        };
        feeds::runs_go_on();
        outcomes::all_gone();
        let stop = self.stop(before);
        self.meet(stop);
        Ok(stop)
    }

    /// Forgets where a value out of range was met: it is looked for again.
    fn forget_met(&mut self)
        ensures stands { (s : List (List ℤ)) (m : Moment) (given : ℕ → List ℤ)
            → IsStreamAt self.old s m given → IsStreamAt self.new s m given }
        ensures met { self.new.met ≡ None }
        ensures others { IsSameRun self.old self.new }
    {
        self.met = None;
    }

    /// Keeps where a value out of range is, where a stop tells of one.
    fn meet(&mut self, stop: Stopped)
        requires met { self.old.met ≡ None }
        requires stands { (s : List (List ℤ)) (m : Moment) (given : ℕ → List ℤ)
            (place : PlaceValue) (n : ℕ) → stop ≡ TooBig place n → IsStreamAt self.old s m given
            → StandsSome (with_samples s self.old.job) m (place, n) }
        ensures stands { (s : List (List ℤ)) (m : Moment) (given : ℕ → List ℤ)
            → IsStreamAt self.old s m given → IsStreamAt self.new s m given }
        ensures stood { (s : List (List ℤ)) (m : Moment) (given : ℕ → List ℤ)
            → IsStreamAt self.new s m given → IsStreamAt self.old s m given }
        ensures met { self.new.met ≡ met_in stop }
        ensures others { IsSameRun self.old self.new }
    {
        if let Stopped::TooBig { place, phase } = stop {
            self.met = Some((place, phase));
        }
    }

    /// Gives rounds of turns, and looks behind the last whether some task may move.
    fn settle(&mut self) -> Result<Look, AllocError>
        requires met { self.old.met ≡ None }
        ensures moves { IfOk result (λ look. StreamMoves (of_look ROUNDS look) self.old self.new) }
        ensures err { OnErr result (StreamMoves 0 self.old self.new) }
        ensures met { self.new.met ≡ None }
        ensures tells { IfOk result (LookTells self.new) }
        ensures moved { result ≡ Ok Moved → (s : List (List ℤ)) (m : Moment)
            (given : ℕ → List ℤ) → IsStreamAt self.new s m given → MayMove self.new s m given }
    {
        if let Look::Still { before } = self.rounds()? {
            return Ok(Look::Still { before });
        }
        if self.all_rest() {
            return Ok(Look::Still { before: None });
        }
        Ok(Look::Moved)
    }

    /// Gives rounds of turns until no task moves, or so many as one call makes at most.
    fn rounds(&mut self) -> Result<Look, AllocError>
        requires met { self.old.met ≡ None }
        ensures moves { IfOk result (λ look. StreamMoves (of_look ROUNDS look) self.old self.new) }
        ensures err { OnErr result (StreamMoves 0 self.old self.new) }
        ensures met { self.new.met ≡ None }
        ensures tells { IfOk result (LookTells self.new) }
    {
        for _ in 0..ROUNDS {
            if let Look::Still { before } = self.round_or_look()? {
                return Ok(Look::Still { before });
            }
        }
        Ok(Look::Moved)
    }

    /// Gives a round of turns, and where no task moves in it, looks whether one can.
    fn round_or_look(&mut self) -> Result<Look, AllocError>
        requires met { self.old.met ≡ None }
        ensures moves { IfOk result (λ look. StreamMoves (of_look 1 look) self.old self.new) }
        ensures err { OnErr result (StreamMoves 0 self.old self.new) }
        ensures met { self.new.met ≡ None }
        ensures tells { IfOk result (LookTells self.new) }
    {
        if self.round()? {
            return Ok(Look::Moved);
        }
        self.look()
    }

    /// Gives turns to each task, in the order of their lines, and to each of them while it moves.
    /// Returns whether some task moved.
    fn round(&mut self) -> Result<bool, AllocError>
        requires met { self.old.met ≡ None }
        ensures moves { IfOk result (λ moved. StreamMoves (of_moved moved) self.old self.new) }
        ensures err { OnErr result (StreamMoves 0 self.old self.new) }
        ensures met { self.new.met ≡ None }
    {
        let mut moved = false;
        for t in 0..self.job.graph().tasks() {
            moved |= self.turns(t)?;
        }
        Ok(moved)
    }

    /// Gives turns to a task while it moves, and returns whether it did.
    fn turns(&mut self, t: usize) -> Result<bool, AllocError>
        requires met { self.old.met ≡ None }
        requires task { t < length self.old.job.graph.tasks }
        ensures moves { IfOk result (λ moved. StreamMoves (of_moved moved) self.old self.new) }
        ensures err { OnErr result (StreamMoves 0 self.old self.new) }
        ensures met { self.new.met ≡ None }
    {
        let passed = self.pass_on(t);
        for made in 0..TURNS {
            let most = self.own_steps(t);
            let Went::On = self.turn(t, most)? else {
                return Ok(passed || made > 0);
            };
        }
        Ok(true)
    }

    /// Lets a splitter, a decimator or a joiner make steps one after the other, and returns whether
    /// it made an event. Another task does nothing.
    fn pass_on(&mut self, t: usize) -> bool
        requires met { self.old.met ≡ None }
        requires task { t < length self.old.job.graph.tasks }
        ensures moves { StreamMoves (of_moved result) self.old self.new }
        ensures met { self.new.met ≡ None }
    {
        feeds::feeds_go_on();
        let (plan, buffers) = (&self.plan, &mut self.buffers);
        let moved = self.machine.pass_on(&self.job, plan, buffers, t);
        self.plan.pass(&self.job, &self.machine.tasks, t);
        moved
    }

    /// Gives a turn by its line to each task that does not rest, until one moves. Where none does,
    /// tells where the first of them stands before a value out of range.
    fn look(&mut self) -> Result<Look, AllocError>
        requires met { self.old.met ≡ None }
        ensures moves { IfOk result (λ look. StreamMoves (of_look 1 look) self.old self.new) }
        ensures err { OnErr result (StreamMoves 0 self.old self.new) }
        ensures met { self.new.met ≡ None }
        ensures tells { IfOk result (LookTells self.new) }
    {
        let mut before = None;
        for t in 0..self.job.graph().tasks() {
            if !self.rests(t) {
                let block = line_block(&self.job, t);
                match self.turn(t, block)? {
                    Went::On => return Ok(Look::Moved),
                    Went::Before { place, phase } => before = first_of(before, place, phase),
                    Went::Stays => unreachable!(),
                }
            }
        }
        Ok(Look::Still { before })
    }

    /// Gives a turn of at most so many steps to a task, where it waits for no sample and has room.
    fn turn(&mut self, t: usize, most: u64) -> Result<Went, AllocError>
        requires met { self.old.met ≡ None }
        requires task { t < length self.old.job.graph.tasks }
        requires most { MayStep self.old.job self.old.machine t most
            × (most ≤ most_steps self.old.job t) }
        ensures moves { IfOk result (λ went. StreamMoves (of_went went) self.old self.new) }
        ensures err { OnErr result (StreamMoves 0 self.old self.new) }
        ensures met { self.new.met ≡ None }
        ensures stays { result ≡ Ok Stays → most ≡ (task_at self.old.job.graph t).block
            → (s : List (List ℤ)) (m : Moment) (given : ℕ → List ℤ)
            → IsStreamAt self.old s m given
            → rests (with_samples s self.old.job) (ended_at self.old) m given t ≡ true }
        ensures before { (place : PlaceValue) (phase : ℕ) → result ≡ Ok (Before place phase)
            → (self.new ≡ self.old) × ((s : List (List ℤ)) (m : Moment) (given : ℕ → List ℤ)
            → IsStreamAt self.old s m given
            → stands_before (with_samples s self.old.job) m t ≡ Some (place, phase)) }
    {
        if self.is_hungry(t) {
            return Ok(Went::Stays);
        }
        if self.is_full_by(t, most) {
            return Ok(Went::Stays);
        }
        feeds::feeds_go_on();
        let awaits = awaited(&self.job, &self.plan, &self.machine, &self.inputs, t);
        let (plan, buffers) = (&self.plan, &mut self.buffers);
        let went = self.machine.go(&self.job, plan, buffers, t, awaits, most)?;
        self.plan.pass(&self.job, &self.machine.tasks, t);
        Ok(went)
    }

    /// How many steps the next turn of a task makes at most: a block of its line; or, of a source,
    /// a filter or a sink whose line names none, as many as there is room for.
    fn own_steps(&self, t: usize) -> u64
        requires { t < length self.now.job.graph.tasks }
        ensures may { MayStep self.now.job self.now.machine t result }
        ensures few { result ≤ most_steps self.now.job t }
    {
        let job = &self.job;
        let block = line_block(job, t);
        if block > 1 {
            return block;
        }
        if job.graph().is_source(t) {
            let (k, p) = output_of(job, t, 0);
            let bound = job.graph().phaser(p).bound;
            return own_steps(bound, self.phases_left(t, k, p, bound));
        }
        if job.graph().is_sink(t) {
            let p = input_of(job, t, 0);
            return own_steps(job.graph().phaser(p).bound, self.values_left(t));
        }
        if kind_of(job, t) == Kind::Fir {
            return self.filter_steps(t);
        }
        block
    }

    /// How many steps the next turn of a filter whose line names no block makes at most: as many as
    /// one event signals, and no more than its output has room for, but for one.
    fn filter_steps(&self, t: usize) -> u64
        requires task { t < length self.now.job.graph.tasks }
        requires kind { (task_at self.now.job.graph t).kind ≡ filters }
        ensures may { MayStep self.now.job self.now.machine t result }
        ensures few { result ≤ most_steps self.now.job t }
        ensures room { 1 < result → (s : List (List ℤ)) (m : Moment) (given : ℕ → List ℤ)
            → IsStreamAt self.now s m given → HasPhases self.now.job m t result }
    {
        let state = &self.machine.tasks[t];
        if state.most == 1 || !state.made.is_empty() {
            return 1;
        }
        let (k, p) = output_of(&self.job, t, 0);
        let bound = self.job.graph().phaser(p).bound;
        own_steps(state.most, self.phases_left(t, k, p, bound))
    }

    /// How many phases a task may signal now on its first output, phaser `p` of this bound, where
    /// it is by its registration `k`. With bound 1 it does not look.
    fn phases_left(&self, t: usize, k: usize, p: usize, bound: u64) -> u64
        requires task { t < length self.now.job.graph.tasks }
        requires output { 0 < length (signalled_by (task_at self.now.job.graph t)) }
        requires place { (k ≡ registration_of_output (task_at self.now.job.graph t) 0)
            × (p ≡ output_at self.now.job t 0) }
        requires bound { bound ≡ (phaser_at self.now.job.graph p).bound }
        ensures { bound ≢ 1 → (s : List (List ℤ)) (m : Moment) (given : ℕ → List ℤ)
            → IsStreamAt self.now s m given → HasPhases self.now.job m t result }
    {
        if bound == 1 {
            return 1;
        }
        let numbers = &self.machine.tasks[t].numbers;
        if k >= numbers.len() {
            return 0;
        }
        let core = self.machine.core(&self.job, p);
        let Some(entry) = core.view(numbers[k]) else {
            return 0;
        };
        phases_left(entry.signal_phase, core.least_wait(), bound)
    }

    /// For how many values the line of a sink has room, as a hint for how many steps it makes.
    fn values_left(&self, t: usize) -> u64 {
        let Some(state) = self.machine.tasks.get(t) else {
            return 0;
        };
        let Some(line) = self.machine.lines.get(state.sink) else {
            return 0;
        };
        LINE_ROOM.saturating_sub(line.values.len() as u64)
    }
}

/// So many steps of its own accord, by the bound of the phaser of a task and what there is room
/// for: one at least.
fn own_steps(bound: u64, room: u64) -> u64
    requires { 1 ≤ bound }
    ensures some { 1 ≤ result }
    ensures few { result ≤ OWN_STEPS }
    ensures bound { result ≤ bound }
    ensures room { 1 < result → result ≤ room }
{
    OWN_STEPS.min(bound).min(room).max(1)
}

/// How many phases may be signalled from this one on, where this is the slowest waiter: none past
/// the last, and none that is ahead of the waiter by the bound.
fn phases_left(from: u64, slowest: Option<u64>, bound: u64) -> u64
    ensures { (many : ℕ) → 1 ≤ many → many ≤ result
        → (nat_lt PHASES_MAX (from + many) || is_ahead slowest bound (from + many - 1)) ≡ false }
{
    let left = PHASES_MAX.saturating_sub(from);
    match slowest {
        None => left,
        Some(slowest) => left.min(slowest.saturating_add(bound).saturating_sub(from)),
    }
}

/// Where the first of two values is, where there is one before this.
fn first_of(before: Option<(Place, u64)>, place: Place, phase: u64) -> Option<(Place, u64)>
    ensures { result ≡ first_met before (place, phase) }
{
    match before {
        None => Some((place, phase)),
        Some(at) => Some(at),
    }
}
