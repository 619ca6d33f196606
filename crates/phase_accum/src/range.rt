//! The range of a clamp.
ghost use Rattle.std.specs.Prelude.{◌≡◌, ◌↔◌, IsOk, IfOk};
ghost use Rattle.phase_accum.specs.Ranges.{IsRange};

use crate::outcome::NO_VALUE;
use std::marker::Model;
use thiserror::Error;

/// Why a clamp was refused: its low end is above its high end, or an end is `NO_VALUE`.
#[derive(Clone, Copy, Debug, PartialEq, Eq, Hash, Error)]
#[error("a clamp needs a low end at most its high end, and neither may be {NO_VALUE}")]
pub struct BadClamp;

/// The range of a clamp: its low end and its high end, which are values and belong to it.
#[derive(Clone, Copy, Debug, PartialEq, Eq)]
pub struct Range {
    low: i64,
    high: i64,
}

impl Model for Range {
    ghost use Rattle.std.specs.Prelude.{ℤ};
    ghost use Rattle.phase_accum.specs.Ranges.{IsRange};

    ghost Value = { ℤ × ℤ };

    ghost view = { λ r. (r.low, r.high) };

    ghost invariant = { λ r. IsRange (r.low, r.high) };

    ghost inverse = { λ r. record { low = r.0; high = r.1 } };
}

impl Range {
    /// Makes the range of a clamp. `BadClamp` where `low` is above `high`, or an end is `NO_VALUE`.
    pub fn new(low: i64, high: i64) -> Result<Range, BadClamp>
        ensures ok { IsOk result ↔ IsRange (low, high) }
        ensures ends { IfOk result (λ range. range ≡ (low, high)) }
    {
        if low == NO_VALUE || high == NO_VALUE || low > high {
            return Err(BadClamp);
        }
        Ok(Range { low, high })
    }

    /// Returns the low end.
    pub fn low(self) -> i64
        ensures value { result ≡ self.0 }
        ensures range { IsRange self }
    {
        self.low
    }

    /// Returns the high end.
    pub fn high(self) -> i64
        ensures value { result ≡ self.1 }
        ensures range { IsRange self }
    {
        self.high
    }
}
