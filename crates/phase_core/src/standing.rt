//! How many tasks are registered, and for which of them a phaser waits.
ghost use Rattle.std.specs.Prelude.{◌≡◌, ◌-◌};
ghost use Rattle.phase_history.specs.Histories.{History};
ghost use Rattle.phase_core.specs.Cores.{StandsFor};
ghost use Rattle.phase_core.specs.Standings.{missing_of, slowest_of, standing_after};

use crate::late_tasks::LateTasks;
use crate::phaser_core::PhaserCore;
use phase_accum::Accumulate;
use phase_ring::Role;

/// How many tasks are registered, and how far the first phase that is not complete has come.
#[derive(Clone, Copy, Debug, PartialEq, Eq)]
pub struct Standing {
    /// How many tasks are registered.
    pub tasks: u64,
    /// How many of them signal.
    pub signallers: u64,
    /// How many of them wait. A task may do both.
    pub waiters: u64,
    /// The first phase that is not complete, counted from 0.
    pub phase: u64,
    /// How many of the signallers have signalled that phase.
    pub signalled: u64,
}

impl Standing {
    /// Returns how many of the signallers have not signalled the phase.
    pub fn missing(self) -> u64
        ensures { result ≡ self.signallers - self.signalled }
    {
        self.signallers.saturating_sub(self.signalled)
    }
}

impl<A: Accumulate> PhaserCore<A> {
    /// Returns how many tasks are registered, and how many of the signallers have signalled the
    /// first phase that is not complete. It looks at each task, and takes no memory.
    pub fn standing(&self) -> Standing
        ensures { (h : History) → StandsFor A.operation self.now h → result ≡ standing_after h }
    {
        let registry = &self.registry;
        let phase = self.done();
        let members = registry.members();
        let signalled = members
            .iter()
            .filter(|m| m.entry.mode.signals() && phase < m.entry.signal_phase)
            .count();
        Standing {
            tasks: registry.tasks(),
            signallers: registry.signallers(),
            waiters: registry.waiters(),
            phase,
            signalled: signalled as u64,
        }
    }

    /// Returns who is missing: the signallers that have not signalled the first phase that is not
    /// complete. It takes no memory.
    pub fn missing(&self) -> LateTasks<'_>
        ensures { (h : History) → StandsFor A.operation self.now h → result ≡ missing_of h }
    {
        LateTasks {
            members: self.registry.members(),
            role: Role::Signaller,
            phase: self.done(),
        }
    }

    /// Returns who holds the bound back: the waiters that have still to get the least wait phase of
    /// all waiters. It takes no memory.
    pub fn slowest(&self) -> LateTasks<'_>
        ensures { (h : History) → StandsFor A.operation self.now h → result ≡ slowest_of h }
    {
        LateTasks {
            members: self.registry.members(),
            role: Role::Waiter,
            phase: self.least_wait().unwrap_or(0),
        }
    }
}
