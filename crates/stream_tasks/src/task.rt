//! A task with its registrations.
ghost use Rattle.std.specs.Prelude.{◌≡◌, length, None, IfErr, IfOk, OnOk};
ghost use Rattle.stream_tasks.specs.Standings.{PutsStands};
ghost use Rattle.stream_tasks.specs.TaskLefts.{IsTaskLeft};
ghost use Rattle.graph_base.specs.Graphs.{task_at};
ghost use Rattle.graph_runs.specs.Nexts.{registrations_at};
ghost use Rattle.stream_tasks.specs.Seeds.{seed_state, IsSeed, HasRegistrationRoom, HasReceivedFirst};

use crate::ending::task_left::TaskLeft;
use crate::gate::Gate;
use crate::hold::Hold;
use crate::run::Run;
use crate::seed::Seed;
use crate::task_state::TaskState;
use crate::unregistered::Unregistered;
use crate::went::Went;
use graph_runs::beginnings::roots_begin;
use graph_runs::ends::first_calls;
use std::alloc::AllocError;
use std::marker::{Model, PhantomData};
use std::sync::Wait;
use stream_lists::{Job, Stand};

/// A task of a run with its registrations: whoever has it makes its next event.
///
/// **End.** It cannot be thrown away. `end` and `dismiss` end it.
pub struct Task<'a, J: Run> {
    job: &'a Job,
    state: TaskState<'a>,
    /// The place, among its children, of the one that it is registering.
    registering: Option<usize>,
    of: PhantomData<J>,
}

impl<'a, J: Run> Model for Task<'a, J> {
    ghost use Rattle.std.specs.Prelude.{◌≡◌, ℕ};
    ghost use Rattle.stream_tasks.specs.Registering.{IsWith};
    ghost use Rattle.stream_tasks.specs.Tasks.{IsTask};

    ghost Value = { ℕ };

    ghost view = { λ t. t.state.number };

    ghost invariant = { λ t. (t.job.now ≡ J.job) × IsTask J.job J.spots t.state
        × IsWith J.job J.spots t.state t.registering };
}

impl<'a, J: Run> Task<'a, J> {
    /// Begins a task without a parent, which its founders have registered on all phasers of its
    /// line. It takes no memory.
    pub fn root(job: &'a Job, seed: Seed<'a>) -> Task<'a, J>
        requires job { job.now ≡ J.job }
        requires root { (task_at job.now.graph (seed_state seed).number).parent ≡ None }
        requires seed { IsSeed job.now (seed_state seed) }
        requires room { HasRegistrationRoom 9 (seed_state seed) }
        requires received { HasReceivedFirst job.now J.spots (seed_state seed) }
        requires all { length (seed_state seed).holds.items
            ≡ length (registrations_at job.now (seed_state seed).number) }
        ensures { result ≡ (seed_state seed.entry).number }
    {
        let _few = job.graph().registrations(seed.number());
        let _lines = job.graph().tasks();
        roots_begin();
        first_calls();
        Task {
            job,
            state: seed.open(),
            registering: None,
            of: PhantomData,
        }
    }

    /// Its number.
    pub fn number(&self) -> usize
        ensures { result ≡ self.now }
    {
        self.state.number
    }

    /// The phasers of its line, as bits: bit `p` for phaser number `p`.
    pub fn phasers(&self) -> u64 {
        let mut set = 0u64;
        for k in 0..self.job.graph().registrations(self.state.number) {
            let p = self.job.graph().registration(self.state.number, k).phaser;
            set |= 1u64.wrapping_shl((p & 63) as u32);
        }
        set
    }

    /// How much its steps did so far, where a multiplication of a filter counts 1.
    pub fn effort(&self) -> u64 {
        let taps = self.job.graph().task(self.state.number).taps.len() as u64;
        self.state.begun.saturating_mul(taps.saturating_add(16))
    }

    /// Makes its next event, where it can: one call at most. But a joiner may wait on each of its
    /// inputs in one turn, for values that are there, and tells of these waits by one turn each.
    ///
    /// Where a child comes it registers the child on the phasers of its line, one after the other,
    /// and then answers `Registered` until `deliver` has given the child. It takes memory for a
    /// sink's list, and where it registers.
    pub fn turn<G: Gate>(&mut self, gate: &G) -> Went {
        if self.state.met {
            return Went::Stuck;
        }
        if let Some(i) = self.registering {
            return self.state.register(self.job, i);
        }
        match self.state.due(self.job) {
            Some(i) => {
                self.registering = self.state.begin(i);
                Went::Ready
            }
            None => self.state.turn(self.job, gate),
        }
    }

    /// Returns the child of this number, of which `turn` has answered that it is registered, as a
    /// task of its own. Else it comes back. It takes no memory.
    pub fn deliver(
        &mut self,
        unregistered: Unregistered<'a, J>,
    ) -> Result<Task<'a, J>, Unregistered<'a, J>>
        ensures child { IfOk result (λ child. child ≡ unregistered.entry) }
        ensures back { IfErr result (λ back. back ≡ unregistered.entry) }
        ensures same { self.new ≡ self.old }
    {
        let Some(i) = self.registering else {
            return Err(unregistered);
        };
        if !self.state.is_registered(self.job, i, unregistered.number()) {
            return Err(unregistered);
        }
        self.registering = None;
        Ok(Task {
            job: self.job,
            state: self.state.deliver(i, unregistered.open()),
            registering: None,
            of: PhantomData,
        })
    }

    /// Puts where it stands behind these, on each phaser that it has not left, in the order of its
    /// registrations. It takes memory for them.
    pub fn stand(&self, stands: &mut Vec<Stand>) -> Result<(), AllocError>
        ensures { OnOk result (PutsStands J.job self.now stands.old.items stands.new.items) }
    {
        let task = self.state.number;
        let end = self.state.next_end(self.job);
        for k in 0..self.job.graph().registrations(task) {
            let at = self.job.graph().registration(task, k);
            let Some(Some(entry)) = self.state.holds.get(k).map(Hold::entry) else {
                continue;
            };
            stands.push(Stand {
                task,
                phaser: at.phaser,
                entry,
                next: end.call_on(at.input, at.output),
            })?;
        }
        Ok(())
    }

    /// Leaves all phasers, by waiting, and forgets all: after a fault.
    pub fn dismiss<W: Wait>(self, rt: &W) {
        let Task {
            job: _,
            state,
            registering: _,
            of: _,
        } = self;
        state.dismiss(rt);
    }

    /// Returns what it leaves behind, where it has left all its phasers. Else it comes back.
    pub fn end<W: Wait>(self, rt: &W) -> Result<TaskLeft<'a>, Self>
        ensures { IfOk result (IsTaskLeft J.job J.spots) }
    {
        if !self.state.is_gone() {
            return Err(self);
        }
        let Task {
            job: _,
            state,
            registering: _,
            of: _,
        } = self;
        Ok(state.end(rt))
    }
}
