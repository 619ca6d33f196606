//! The function that is applied once to the value of a phase.
ghost use Rattle.std.specs.Prelude.{◌≡◌, ◌↔◌, ◌⊎◌, ◌<ℤ◌, IsErr};
ghost use Rattle.phase_accum.specs.Ranges.{IsRange};
ghost use Rattle.phase_accum.specs.declared.outcome.TheConstants.{NO_VALUE};

use crate::range::{BadClamp, Range};

/// A function of the value of a phase. It leaves `Empty` and `TooBig`.
#[derive(Clone, Copy, Debug, PartialEq, Eq)]
pub enum Single {
    /// Changes the sign.
    Neg,
    /// Takes the magnitude.
    Abs,
    /// Divides by two, rounded down.
    Halve,
    /// Takes the nearest value of the range.
    Clamp(Range),
}

impl Single {
    /// Returns the single that changes the sign.
    pub fn neg() -> Single
        ensures { result ≡ Single.Neg }
    {
        Single::Neg
    }

    /// Returns the single that takes the magnitude.
    pub fn abs() -> Single
        ensures { result ≡ Single.Abs }
    {
        Single::Abs
    }

    /// Returns the single that divides by two, rounded down.
    pub fn halve() -> Single
        ensures { result ≡ Single.Halve }
    {
        Single::Halve
    }

    /// Returns the single that takes the nearest value of the range from `low` to `high`, both ends
    /// included. `BadClamp` where `low` is above `high`, or an end is `NO_VALUE`.
    pub fn clamp(low: i64, high: i64) -> Result<Single, BadClamp>
        ensures ok { (result ≡ Ok (Single.Clamp (low, high))) ↔ IsRange (low, high) }
        ensures bad_clamp { IsErr result
            ↔ ((high <ℤ low) ⊎ (low ≡ NO_VALUE) ⊎ (high ≡ NO_VALUE)) }
    {
        Ok(Single::Clamp(Range::new(low, high)?))
    }
}
