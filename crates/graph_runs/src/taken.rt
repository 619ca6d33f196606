//! The number of what a wait got.
ghost use Rattle.std.specs.Prelude.{◌≡◌};
ghost use Rattle.stream_lists.specs.Lists.{number};

use phase_accum::Outcome;

/// Returns the number that a task takes of a value, which is 0 where there is none or it is out of
/// range. It takes no memory.
pub fn number_taken(outcome: Outcome) -> i64
    ensures { result ≡ number outcome }
{
    match outcome {
        Outcome::Value(value) => value,
        Outcome::Empty => 0,
        Outcome::TooBig => 0,
    }
}
