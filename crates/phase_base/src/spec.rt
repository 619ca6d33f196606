//! The limits that a phaser is made with.
ghost use Rattle.std.specs.Prelude.{◌≡◌, ◌↔◌, ◌<◌, ◌⊎◌};
ghost use Rattle.phase_base.specs.Limits.{limits, AreLimits, IsBound};

use crate::limits::{BOUND_MAX, PHASES_MAX};
use std::marker::Model;
use thiserror::Error;

/// Why limits were refused.
#[derive(Clone, Copy, Debug, PartialEq, Eq, Hash, Error)]
pub enum SpecFault {
    /// The bound is 0 or above `BOUND_MAX`.
    #[error("the bound is not from 1 to {BOUND_MAX}")]
    BadBound,
    /// The number of phases is 0 or above `PHASES_MAX`.
    #[error("the number of phases is not from 1 to {PHASES_MAX}")]
    BadPhases,
}

/// The limits of a phaser: its bound and its number of phases, both in phases.
#[derive(Clone, Copy, Debug, PartialEq, Eq)]
pub struct Spec {
    bound: u64,
    phases_max: u64,
}

impl Model for Spec {
    ghost use Rattle.phase_base.specs.Limits.{Limits, limits, AreLimits};

    ghost Value = { Limits };

    ghost view = { λ s. limits s.bound s.phases_max };

    ghost invariant = { λ s. AreLimits (limits s.bound s.phases_max) };

    ghost inverse = { λ l. record { bound = l.bound; phases_max = l.phases_max } };
}

impl Spec {
    /// Makes the limits of a phaser whose signallers may be `bound` phases ahead of its slowest
    /// waiter, and which has at most `phases_max` phases.
    ///
    /// A bad bound is answered as `BadBound` also where the number of phases is bad.
    pub fn new(bound: u64, phases_max: u64) -> Result<Spec, SpecFault>
        ensures ok { (result ≡ Ok (limits bound phases_max)) ↔ AreLimits (limits bound phases_max) }
        ensures bad_bound { (result ≡ Err SpecFault.BadBound)
            ↔ ((bound < 1) ⊎ (BOUND_MAX < bound)) }
        ensures bad_phases { (result ≡ Err SpecFault.BadPhases)
            ↔ (IsBound bound × ((phases_max < 1) ⊎ (PHASES_MAX < phases_max))) }
    {
        if bound < 1 || bound > BOUND_MAX {
            return Err(SpecFault::BadBound);
        }
        if phases_max < 1 || phases_max > PHASES_MAX {
            return Err(SpecFault::BadPhases);
        }
        Ok(Spec { bound, phases_max })
    }

    /// Returns how far the signallers may be ahead of the slowest waiter, in phases.
    pub fn bound(self) -> u64
        ensures value { result ≡ self.bound }
        ensures limits { AreLimits self }
    {
        self.bound
    }

    /// Returns how many phases the phaser may have.
    pub fn phases_max(self) -> u64
        ensures value { result ≡ self.phases_max }
        ensures limits { AreLimits self }
    {
        self.phases_max
    }
}
