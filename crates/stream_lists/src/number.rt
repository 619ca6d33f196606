//! The number that a phaser's list has for the value of a phase.
ghost use Rattle.std.specs.Prelude.{◌≡◌};
ghost use Rattle.phase_accum.specs.Sends.{IsSend};
ghost use Rattle.phase_accum.specs.Values.{IsInRange};
ghost use Rattle.stream_lists.specs.Lists.{number};

use phase_accum::Outcome;

/// Returns the number of a value, which is 0 where there is none or it is out of range. It takes no
/// memory.
pub fn number_of(outcome: Outcome) -> i64
    requires range { IsInRange outcome }
    ensures value { result ≡ number outcome }
    ensures send { IsSend result }
{
    match outcome {
        Outcome::Value(value) => value,
        Outcome::Empty => 0,
        Outcome::TooBig => 0,
    }
}
