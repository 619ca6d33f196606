//! The numbers behind the constants. The contract of the function is the law.
ghost use Rattle.std.specs.Prelude.{◌≡◌, ◌^◌};

use crate::job::SAMPLES_MAX;
use crate::sample_counts::COUNT_MAX;
use crate::span::LENGTH_MAX;

/// The limits of a list, in phases, and of a source, in samples: of those that a job keeps, and of
/// those that come in pieces.
pub fn limits_are()
    ensures lengths { LENGTH_MAX ≡ 2 ^ 124 }
    ensures samples { SAMPLES_MAX ≡ 67108864 }
    ensures counts { COUNT_MAX ≡ 2 ^ 53 }
{}
