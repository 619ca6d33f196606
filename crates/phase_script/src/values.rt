//! The values of a block of phases.
ghost use Rattle.std.specs.Prelude.{◌≡◌, ◌<◌, ◌≤◌, [], ◌∷◌, ◌++◌, length};

use std::marker::Model;

/// The most values of a `block` line, and the most phases that a `take` line asks for.
pub const VALUES_MAX: usize = 16;

/// The values of a block of phases, one for each phase, in the order of the phases.
#[derive(Drop)]
pub struct Values {
    places: [i64; VALUES_MAX],
    count: usize,
}

impl Model for Values {
    ghost use Rattle.std.specs.Prelude.{◌≤◌, List, ℤ, take};
    ghost use Rattle.phase_script.specs.declared.values.TheConstants.{VALUES_MAX};

    ghost Value = { List ℤ };

    ghost view = { λ v. take v.count v.places };

    ghost invariant = { λ v. v.count ≤ VALUES_MAX };
}

impl Values {
    /// Makes a block of no value. It takes no memory.
    pub fn new() -> Values
        ensures { result ≡ [] }
    {
        Values {
            places: [0; VALUES_MAX],
            count: 0,
        }
    }

    /// Forgets the values. It takes no memory.
    pub fn clear(&mut self)
        ensures { self.new ≡ [] }
    {
        self.count = 0;
    }

    /// Puts one more value behind the others, where there are fewer than `VALUES_MAX`. It takes no
    /// memory.
    pub fn push(&mut self, value: i64)
        requires { length self.old < VALUES_MAX }
        ensures { self.new ≡ self.old ++ value ∷ [] }
    {
        self.places[self.count] = value;
        self.count += 1;
    }

    /// Returns the values.
    pub fn as_slice(&self) -> &[i64]
        ensures values { result.now ≡ self.now }
        ensures few { length self.now ≤ VALUES_MAX }
    {
        &self.places[..self.count]
    }
}
