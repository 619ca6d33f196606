//! A single applied to the value of a phase.
ghost use Rattle.std.specs.Prelude.{◌≡◌, Some};
ghost use Rattle.phase_accum.specs.Values.{applied, IsInRange};

use crate::outcome::Outcome;
use crate::single::Single;

/// Applies a single to the value of a phase. `Empty` and `TooBig` stay.
pub fn apply(single: Single, outcome: Outcome) -> Outcome
    requires { IsInRange outcome }
    ensures value { result ≡ applied (Some single) outcome }
    ensures range { IsInRange result }
{
    let Outcome::Value(value) = outcome else {
        return outcome;
    };
    Outcome::Value(match single {
        Single::Neg => -value,
        Single::Abs => value.abs(),
        Single::Halve => value.div_euclid(2),
        Single::Clamp(range) => value.max(range.low()).min(range.high()),
    })
}
