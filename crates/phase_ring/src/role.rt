//! The two ways in which a task stands at a phase.
ghost use Rattle.std.specs.Prelude.{◌≡◌};
ghost use Rattle.phase_ring.specs.Standings.{takes_part, phase_for};

use phase_base::Entry;

/// In which of its two ways a task stands at a phase.
#[derive(Clone, Copy, Debug, PartialEq, Eq)]
pub enum Role {
    /// The task's next signal joins the phase.
    Signaller,
    /// The task's next wait asks for the phase.
    Waiter,
}

impl Role {
    /// Returns whether a task with this entry stands anywhere in the role.
    pub fn is_of(self, entry: Entry) -> bool
        ensures { result ≡ takes_part self entry }
    {
        match self {
            Role::Signaller => entry.mode.signals(),
            Role::Waiter => entry.mode.waits(),
        }
    }

    /// Returns at which phase a task with this entry stands in the role, where it does.
    pub fn phase_of(self, entry: Entry) -> u64
        ensures { result ≡ phase_for self entry }
    {
        match self {
            Role::Signaller => entry.signal_phase,
            Role::Waiter => entry.wait_phase,
        }
    }
}
