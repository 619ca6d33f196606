//! A run of a graph on one thread.
ghost use Rattle.std.specs.Prelude.{◌≡◌, ◌≢◌, ◌<◌, ℕ, Some, None, Ok, [], length, get_or, map, IfOk, OnOk, OnErr, true, false};
ghost use mathlib.Core.List.{IsPrefix};
ghost use Rattle.stream_eval.specs.Results.{sink_values};
ghost use Rattle.stream_lists.specs.Lists.{is_sink_at, numbers_of, sinks_of, taken_from};
ghost use Rattle.stream_lists.specs.Spans.{span_in};
ghost use Rattle.graph_base.specs.Graphs.{task_at};
ghost use Rattle.stream_lists.specs.Ranges.{answer_of};
ghost use Rattle.graph_runs.specs.Moments.{Moment, started};
ghost use Rattle.graph_runs.specs.Beginnings.{opening};
ghost use Rattle.graph_runs.specs.Nexts.{is_live, next_of, registrations_at};
ghost use Rattle.graph_runs.specs.Answers.{is_stalled, turn_tells};

use crate::buffers::Buffers;
use crate::machine::Machine;
use crate::opening::opened_lines;
use crate::parked::Parked;
use crate::plan::Plan;
use crate::plan_blocks::line_block;
use crate::step::{SizedStep, Step};
use crate::turned::Turned;
use graph_lang::Place;
use graph_runs::{moments, outcomes, turns};
use phase_base::Entry;
use std::alloc::{AllocError, Global};
use std::marker::Model;
use stream_eval::Lines;
use stream_lists::Job;

/// A run of a graph on one thread, which goes on by turns of its tasks.
///
/// **Moments.** A world stands for moments of the run: the events on each phaser so far, and how
/// far each task has come.
#[derive(Drop)]
pub struct World<'a> {
    job: &'a Job,
    plan: Plan,
    machine: Machine,
    buffers: Buffers,
    // where a value was out of range
    met: Option<(Place, u64)>,
    parked: Parked,
}

impl<'a> Model for World<'a> {
    ghost use Rattle.std.specs.Prelude.{◌≡◌, length};
    ghost use Rattle.std.specs.List.{All};
    ghost use Rattle.graph_runs.specs.Moments.{Moment};
    ghost use Rattle.stream_job.specs.Worlds.{WorldState, IsWorldAt};
    ghost use Rattle.stream_job.specs.Blocking.{AreBlocked};
    ghost use Rattle.stream_job.specs.Machines.{HasLineSizes, IsLineOf, IsMachineAt, KeepsLines, none_given};
    ghost use Rattle.stream_job.specs.Plans.{IsPlan};
    ghost use Rattle.stream_job.specs.Buffers.{HasPlaces};

    ghost Value = { WorldState };

    ghost view = { λ w. record {
      job = w.job.now;
      machine = w.machine;
      met = w.met;
      parked = w.parked;
    } };

    ghost invariant = { λ w. ((m : Moment) × IsWorldAt (record {
      job = w.job.now;
      machine = w.machine;
      met = w.met;
      parked = w.parked;
    }) m) × (length w.parked ≡ length w.job.now.graph.phasers) × IsPlan w.job.now w.plan
        × HasPlaces w.job.now w.buffers × HasLineSizes w.job.now w.machine };
}

impl<'a> World<'a> {
    ghost use Rattle.stream_job.specs.Machines.{next_by};
    ghost use Rattle.stream_job.specs.Worlds.{IsWorldAt};
    ghost use Rattle.stream_job.specs.Standing.{standing_on};
    ghost use Rattle.stream_job.specs.SinkLines.{kept_by, sink_begins_at};
    ghost use Rattle.stream_job.specs.Turning.{told_of, met_by, after_turn_of, parked_by, IsRegistration};

    /// Makes a run of a job at its opening: on each phaser a founder has registered the tasks
    /// without a parent, in the order of their lines, as 1, 2, .., and has left.
    ///
    /// It takes memory for a slot of each phase that a phaser may have open, an entry for each
    /// registration, the window of each filter, a block of each filter and some for the greatest
    /// block, a list for each phaser and one of each task's children, and all values that each sink
    /// takes where the run comes to its end, 8 bytes for a value.
    pub fn new(alloc: Global, job: &'a Job) -> Result<World<'a>, AllocError>
        ensures job { IfOk result (λ world. world.job ≡ job.now) }
        ensures opening { IfOk result (λ world. IsWorldAt world (opening job.now)) }
        ensures met { IfOk result (λ world. world.met ≡ None) }
        ensures parked { IfOk result (λ world. (p : ℕ) → get_or world.parked p [] ≡ []) }
    {
        let plan = Plan::new(alloc, job)?;
        let machine = Machine::new(alloc, job, opened_lines(alloc, job)?, 1)?;
        let buffers = Buffers::new(alloc, job)?;
        let parked = Parked::new(alloc, job.graph().phasers())?;
        Ok(World {
            job,
            plan,
            machine,
            buffers,
            met: None,
            parked,
        })
    }

    /// Returns the job that is run. It takes no memory.
    pub fn job(&self) -> &Job
        ensures { result.now ≡ self.now.job }
    {
        self.job
    }

    /// Returns what task number `task` does next: nothing, where it is not live or there is none of
    /// this number. It takes no memory.
    pub fn next(&self, task: usize) -> Step
        ensures next { (m : Moment) → IsWorldAt self.now m
            → next_of self.now.job m task ≡ next_by result }
        // A world stands for some moment, whatever was done with it before.
        ensures stands { (m : Moment) × IsWorldAt self.now m }
    {
        let awaits = self.machine.awaits(self.job, &self.plan, task);
        self.machine.next(self.job, &self.plan, task, awaits)
    }

    /// Returns each sink's number and what it has taken so far, in the order of the lines. A value
    /// that is too big is not among them, and what came behind it in its block is not either. A
    /// sink that joins now and is registered has the phase at which it began. It takes no memory.
    ///
    /// Where no value was out of range and no task is live, they are all that the sinks get.
    pub fn lines(&self) -> &[Lines]
        ensures kept { (m : Moment) → IsWorldAt self.now m → map sink_values result.now
            ≡ map (λ t. (t, kept_by self.now.job m t)) (sinks_of self.now.job) }
        ensures taken { (m : Moment) → IsWorldAt self.now m → self.now.met ≡ None
            → map sink_values result.now
            ≡ map (λ t. (t, m.taken t 0)) (sinks_of self.now.job) }
        ensures begin { (m : Moment) (t : ℕ) → IsWorldAt self.now m
            → t < length self.now.job.graph.tasks → is_sink_at self.now.job t ≡ true
            → IsPrefix (kept_by self.now.job m t)
            (taken_from (numbers_of (started self.now.job m)) (task_at self.now.job.graph t)
            (span_in (started self.now.job m) t) 0) }
        ensures all { (m : Moment) → IsWorldAt self.now m → self.now.met ≡ None
            → ((t : ℕ) → is_live self.now.job m t ≡ false)
            → answer_of (started self.now.job m) ≡ Ok (map sink_values result.now) }
        ensures starts { (m : Moment) → IsWorldAt self.now m → map (λ line. line.start) result.now
            ≡ map (sink_begins_at self.now.job m) (sinks_of self.now.job) }
    {
        moments::takes();
        outcomes::all_gone();
        &self.machine.lines
    }

    /// Returns the tasks that were blocked on a phaser since its last event. It takes no memory.
    pub fn parked(&self, phaser: usize) -> &[usize]
        requires { phaser < length self.now.job.graph.phasers }
        ensures { result.now ≡ get_or self.now.parked phaser [] }
    {
        self.parked.on(phaser)
    }

    /// Returns the mode and the phases of task number `task` on a phaser of its line, while it is
    /// registered there: on that of its registration number `k`, counted from 0 over its inputs and
    /// then its outputs, or over X, E and Y of a peer. It takes no memory.
    pub fn standing(&self, task: usize, k: usize) -> Option<Entry>
        requires task { task < length self.now.job.graph.tasks }
        requires registration { k < length (registrations_at self.now.job task) }
        ensures { (m : Moment) → IsWorldAt self.now m → result ≡ standing_on self.now.job m task k }
    {
        self.machine.standing(self.job, task, k)
    }

    /// Returns whether no task can move: some task is live, and the turn of each live task would be
    /// blocked. After a value out of range no run is stalled. It takes no memory.
    ///
    /// It looks at each task, and asks the phasers for those alone that stand in no list of
    /// `parked`.
    pub fn stalled(&self) -> bool
        ensures stalled { (m : Moment) → IsWorldAt self.now m → self.now.met ≡ None
            → is_stalled self.now.job m ≡ result }
        ensures met { self.now.met ≢ None → result ≡ false }
    {
        self.met.is_none() && self.machine.is_stalled(self.job, &self.plan, &self.parked)
    }

    /// Gives a turn to task number `task`: it makes its next call, or tells why it makes none. A
    /// task whose line names a block makes so many steps by one call, but none past its `until` or
    /// past the boundary of a child. After a value out of range each turn tells it again, and does
    /// nothing.
    ///
    /// A child's registration may ask for memory, and no other call does. Where there is none, the
    /// world is as it was, and the turn can be given again.
    pub fn turn(&mut self, task: usize) -> Result<Turned, AllocError>
        ensures table { IfOk result (λ told. (m : Moment) → IsWorldAt self.old m
            → turn_tells self.old.job self.old.met m task ≡ Some (told_of told)) }
        ensures after { OnOk result ((m : Moment) → IsWorldAt self.old m
            → IsWorldAt self.new (after_turn_of self.old m task)) }
        ensures met { IfOk result (λ told. self.new.met ≡ met_by self.old.met told) }
        ensures parked { OnOk result ((m : Moment) → IsWorldAt self.old m
            → self.new.parked ≡ parked_by self.old m task) }
        ensures job { self.new.job ≡ self.old.job }
        ensures err { OnErr result (self.new ≡ self.old) }
        ensures memory { OnErr result ((m : Moment) → IsWorldAt self.old m
            → IsRegistration (next_of self.old.job m task)) }
    {
        if let Some((place, phase)) = self.met {
            return Ok(Turned::TooBig { place, phase });
        }
        turns::turns_stay_reached();
        let block = line_block(self.job, task);
        let awaits = self.machine.awaits(self.job, &self.plan, task);
        let (plan, buffers) = (&self.plan, &mut self.buffers);
        let sized = SizedStep {
            step: self.machine.next(self.job, plan, task, awaits),
            most: block,
        };
        let made = self
            .machine
            .make(self.job, plan, buffers, task, awaits, sized)?;
        self.parked.note(made, task);
        self.plan.pass(self.job, &self.machine.tasks, task);
        let told = made.told(task);
        self.met = told.too_big();
        Ok(told)
    }
}
