//! Numbers in their one form.
ghost use Rattle.std.specs.Prelude.{◌≡◌, ℤ, IfSome, IfNone};
ghost use Rattle.std.specs.Fmt.{signed_decimal};
ghost use Rattle.phase_accum.specs.Sends.{IsSend};

use phase_accum::MAGNITUDE_MAX;
use phase_base::int;

/// The value that the word spells.
pub fn value_of(word: &[u8]) -> Option<i64>
    ensures some { IfSome result (λ v. (word.now ≡ signed_decimal v) × IsSend v) }
    ensures none { IfNone result ((v : ℤ) → IsSend v → word.now ≡ signed_decimal v → ⊥) }
{
    int(word, MAGNITUDE_MAX)
}
