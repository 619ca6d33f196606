//! What a wait for a block of phases got.
ghost use Rattle.std.specs.Prelude.{◌≡◌, ◌<◌, ◌≤◌, [], ◌∷◌, ◌++◌, length};
ghost use Rattle.phase_script.specs.declared.values.TheConstants.{VALUES_MAX};

use crate::values::VALUES_MAX;
use phase_accum::Outcome;
use std::marker::Model;

/// What a wait for a block of phases got: a value or none for each phase, in the order of the
/// phases.
#[derive(Drop)]
pub struct Outcomes {
    places: [Outcome; VALUES_MAX],
    count: usize,
}

impl Model for Outcomes {
    ghost use Rattle.std.specs.Prelude.{◌≤◌, List, take};
    ghost use Rattle.phase_accum.specs.declared.outcome.Outcome.{Outcome};
    ghost use Rattle.phase_script.specs.declared.values.TheConstants.{VALUES_MAX};

    ghost Value = { List Outcome };

    ghost view = { λ v. take v.count v.places };

    ghost invariant = { λ v. v.count ≤ VALUES_MAX };
}

impl Outcomes {
    /// Makes what a wait for no phase got. It takes no memory.
    pub fn new() -> Outcomes
        ensures { result ≡ [] }
    {
        Outcomes {
            places: [Outcome::Empty; VALUES_MAX],
            count: 0,
        }
    }

    /// Forgets what the phases gave. It takes no memory.
    pub fn clear(&mut self)
        ensures { self.new ≡ [] }
    {
        self.count = 0;
    }

    /// Puts what the next phase gave behind the others, where there are fewer than `VALUES_MAX`. It
    /// takes no memory.
    pub fn push(&mut self, outcome: Outcome)
        requires { length self.old < VALUES_MAX }
        ensures { self.new ≡ self.old ++ outcome ∷ [] }
    {
        self.places[self.count] = outcome;
        self.count += 1;
    }

    /// Returns what the phases gave.
    pub fn as_slice(&self) -> &[Outcome]
        ensures outcomes { result.now ≡ self.now }
        ensures few { length self.now ≤ VALUES_MAX }
    {
        &self.places[..self.count]
    }
}
