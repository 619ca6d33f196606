//! The numbers of a line.

ghost use Rattle.std.specs.Prelude.{◌≡◌, ◌≤◌, nat_abs, IfSome};
ghost use Rattle.phase_script.specs.Numbers.{most, nat_of, int_of};

use phase_accum::MAGNITUDE_MAX;

/// Reads the word as a number.
pub fn nat(word: &[u8]) -> Option<u64>
    ensures value { result ≡ nat_of word.now }
    ensures small { IfSome result (λ n. n ≤ most) }
{
    phase_base::nat(word, MAGNITUDE_MAX)
}

/// Reads the word as a signed number.
pub fn int(word: &[u8]) -> Option<i64>
    ensures value { result ≡ int_of word.now }
    ensures small { IfSome result (λ v. nat_abs v ≤ most) }
{
    phase_base::int(word, MAGNITUDE_MAX)
}
