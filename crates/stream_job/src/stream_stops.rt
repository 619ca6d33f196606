//! Where a run that is fed stops.
ghost use Rattle.std.specs.Prelude.{◌≡◌, ◌≢◌, ◌<◌, ◌+◌, ◌-◌, ◌&&◌, ℕ, ℤ, List, IfSome, None, false, length, nat_lt, not, true};
ghost use Rattle.std.specs.List.{find, list_all};
ghost use Rattle.stream_lists.specs.Jobs.{with_samples};
ghost use Rattle.stream_lists.specs.Lists.{is_sink_at};
ghost use Rattle.graph_base.specs.Graphs.{sources_of};
ghost use Rattle.graph_runs.specs.Feeds.{is_starved};
ghost use Rattle.graph_runs.specs.Moments.{Moment};
ghost use Rattle.graph_runs.specs.NextBlocks.{block_up_to};
ghost use Rattle.graph_runs.specs.Nexts.{next_of};
ghost use Rattle.stream_job.specs.Stepping.{HasRoomNext, MayStep};
ghost use Rattle.stream_job.specs.Machines.{IsMachineAt, IsSome, MayHaveCome, next_by};
ghost use Rattle.stream_job.specs.Plans.{IsPlan};
ghost use Rattle.stream_job.specs.SinkLines.{kept_by};
ghost use Rattle.stream_job.specs.Streams.{AreInputs, AreKept};

use crate::input::Input;
use crate::machine::Machine;
use crate::plan::Plan;
use crate::plan_blocks::line_block;
use crate::sink_lines::line_room;
use crate::step::Step;
use crate::stopped::Stopped;
use crate::stream::Stream;
use graph_lang::Place;
use graph_runs::{is_cut, until_of};
use stream_lists::Job;

impl Stream {
    ghost use Rattle.stream_job.specs.Rounds.{LooksSo, StopsSo};
    ghost use Rattle.stream_job.specs.declared.stopped.Stopped.TheVariants.{Paused};
    ghost use Rattle.stream_job.specs.Streams.{IsStreamAt, all_tasks, ended_at, first_full, first_hungry, is_full, is_full_by, is_hungry, line_room, rests};

    /// Why no task can move, where the first that does not rest stands before this value out of
    /// range.
    pub(crate) fn stop(&self, before: Option<(Place, u64)>) -> Stopped
        requires met { self.now.met ≡ None }
        requires looked { LooksSo self.now (length self.now.job.graph.tasks) before }
        ensures stops { (s : List (List ℤ)) (m : Moment) (given : ℕ → List ℤ)
            → IsStreamAt self.now s m given → StopsSo self.now s m given before result }
        ensures paused { result ≢ Paused }
    {
        if let Some(t) = self.first_full() {
            let sink = self.machine.tasks[t].sink;
            return Stopped::Full { sink };
        }
        if let Some((place, phase)) = before {
            return Stopped::TooBig { place, phase };
        }
        if let Some(t) = self.first_hungry() {
            let source = self.plan.tasks[t].source;
            return Stopped::Hungry { source };
        }
        if self.machine.has_live(&self.job) {
            return Stopped::Stalled;
        }
        Stopped::Done
    }

    /// Whether no task makes an event now.
    pub(crate) fn all_rest(&self) -> bool
        requires { self.now.met ≡ None }
        ensures { (s : List (List ℤ)) (m : Moment) (given : ℕ → List ℤ)
            → IsStreamAt self.now s m given → let job = with_samples s self.now.job in
            list_all (rests job (ended_at self.now) m given) (all_tasks job) ≡ result }
    {
        for t in 0..self.job.graph().tasks() {
            if !self.rests(t) {
                return false;
            }
        }
        true
    }

    /// The first sink that has no room.
    fn first_full(&self) -> Option<usize>
        ensures { (s : List (List ℤ)) (m : Moment) (given : ℕ → List ℤ)
            → IsStreamAt self.now s m given
            → first_full (with_samples s self.now.job) m given ≡ result }
    {
        for t in 0..self.job.graph().tasks() {
            if self.is_full(t) {
                return Some(t);
            }
        }
        None
    }

    /// The first source that waits for a sample.
    fn first_hungry(&self) -> Option<usize>
        ensures { (s : List (List ℤ)) (m : Moment) (given : ℕ → List ℤ)
            → IsStreamAt self.now s m given
            → first_hungry (with_samples s self.now.job) (ended_at self.now) m ≡ result }
    {
        for t in 0..self.job.graph().tasks() {
            if self.is_hungry(t) {
                return Some(t);
            }
        }
        None
    }

    /// Whether a task makes no event now.
    pub(crate) fn rests(&self, t: usize) -> bool
        requires { t < length self.now.job.graph.tasks }
        ensures { (s : List (List ℤ)) (m : Moment) (given : ℕ → List ℤ)
            → IsStreamAt self.now s m given
            → rests (with_samples s self.now.job) (ended_at self.now) m given t ≡ result }
    {
        let awaits = awaited(&self.job, &self.plan, &self.machine, &self.inputs, t);
        if self.machine.is_held_up(&self.job, &self.plan, t, awaits) {
            return true;
        }
        if self.is_hungry(t) {
            return true;
        }
        self.is_full(t)
    }

    /// What a task does next.
    pub(crate) fn step(&self, t: usize) -> Step
        requires { t < length self.now.job.graph.tasks }
        ensures { (s : List (List ℤ)) (m : Moment) (given : ℕ → List ℤ)
            → IsStreamAt self.now s m given
            → next_of (with_samples s self.now.job) m t ≡ next_by result }
    {
        let awaits = awaited(&self.job, &self.plan, &self.machine, &self.inputs, t);
        self.machine.next(&self.job, &self.plan, t, awaits)
    }

    /// Whether a task is a source that waits for a sample.
    pub fn is_hungry(&self, t: usize) -> bool
        requires { t < length self.now.job.graph.tasks }
        ensures { (s : List (List ℤ)) (m : Moment) (given : ℕ → List ℤ)
            → IsStreamAt self.now s m given
            → is_hungry (with_samples s self.now.job) (ended_at self.now) m t ≡ result }
    {
        if !self.is_starved(t) {
            return false;
        }
        matches!(self.step(t), Step::Leave)
    }

    /// Whether a task is a source that has signalled all samples that came, has not ended, and is
    /// not at its `until`.
    fn is_starved(&self, t: usize) -> bool
        requires { t < length self.now.job.graph.tasks }
        ensures { (s : List (List ℤ)) (m : Moment) (given : ℕ → List ℤ)
            → IsStreamAt self.now s m given → (is_starved (with_samples s self.now.job) m t
            && not (ended_at self.now t)) ≡ result }
    {
        if !self.job.graph().is_source(t) {
            return false;
        }
        if self.inputs[self.plan.tasks[t].source].ended {
            return false;
        }
        let begun = self.machine.tasks[t].begun;
        if is_cut(until_of(&self.job, t), begun) {
            return false;
        }
        awaited(&self.job, &self.plan, &self.machine, &self.inputs, t).is_empty()
    }

    /// Whether a task is a sink that waits next and has no room for a block of its line.
    fn is_full(&self, t: usize) -> bool
        requires { t < length self.now.job.graph.tasks }
        ensures { (s : List (List ℤ)) (m : Moment) (given : ℕ → List ℤ)
            → IsStreamAt self.now s m given
            → is_full (with_samples s self.now.job) m given t ≡ result }
    {
        self.is_full_by(t, line_block(&self.job, t))
    }

    /// Whether a task is a sink that waits next and has no room for what it may get by so many
    /// steps.
    pub fn is_full_by(&self, t: usize, most: u64) -> bool
        requires task { t < length self.now.job.graph.tasks }
        requires most { MayStep self.now.job self.now.machine t most }
        ensures full { (s : List (List ℤ)) (m : Moment) (given : ℕ → List ℤ)
            → IsStreamAt self.now s m given
            → is_full_by most (with_samples s self.now.job) m given t ≡ result }
        ensures room { result ≡ false → (s : List (List ℤ)) (m : Moment) (given : ℕ → List ℤ)
            → IsStreamAt self.now s m given
            → HasRoomNext most (with_samples s self.now.job) self.now.machine t }
    {
        if !self.job.graph().is_sink(t) {
            return false;
        }
        if !self.lacks_room(t, most) {
            return false;
        }
        matches!(self.step(t), Step::Wait { .. })
    }

    /// Whether a sink has no room for its next block of at most so many steps.
    fn lacks_room(&self, t: usize, most: u64) -> bool
        requires task { t < length self.now.job.graph.tasks }
        requires sink { is_sink_at self.now.job t ≡ true }
        requires most { MayStep self.now.job self.now.machine t most }
        ensures lacks { (s : List (List ℤ)) (m : Moment) (given : ℕ → List ℤ)
            → IsStreamAt self.now s m given
            → let job = with_samples s self.now.job in
            nat_lt (line_room job t)
            (length (kept_by job m t) - length (given t) + block_up_to most job m t) ≡ result }
        ensures room { result ≡ false → (s : List (List ℤ)) (m : Moment) (given : ℕ → List ℤ)
            → IsStreamAt self.now s m given
            → HasRoomNext most (with_samples s self.now.job) self.now.machine t }
    {
        let state = &self.machine.tasks[t];
        let steps = self.plan.block(&self.job, t, state.begun, most);
        let kept = self.machine.lines[state.sink].values.len() as u64;
        let room = line_room(&self.job, t);
        kept > room || room - kept < steps
    }
}

/// The samples that a task, where it is a source, has still to signal.
pub fn awaited<'a>(
    job: &Job,
    plan: &Plan,
    machine: &Machine,
    inputs: &'a [Input],
    t: usize,
) -> &'a [i64]
    requires task { t < length job.now.graph.tasks }
    requires plan { IsPlan job.now plan.now }
    requires machine { IsSome job.now machine.now }
    requires inputs { AreInputs job.now inputs.now }
    ensures { (s : List (List ℤ)) (m : Moment) → length s ≡ sources_of job.now.graph
        → IsMachineAt (with_samples s job.now) m machine.now
        → AreKept job.now s m inputs.now → MayHaveCome job.now machine.now t result.now s }
{
    if !job.graph().is_source(t) {
        return &[];
    }
    inputs[plan.tasks[t].source].awaits(machine.tasks[t].begun)
}
