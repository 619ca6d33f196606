//! What the numbers of a line are.
ghost use Rattle.std.specs.Prelude.{◌≡◌, ◌<◌, ◌≤◌, ◌^◌, IfSome, IfNone, IsTrue, unsigned_abs};
ghost use Rattle.phase_base.specs.Numbers.{is_nat, nat_value, is_int, int_value};

use phase_base::nat;

/// Returns the number that a word writes, where it is at most the limit. It takes no memory.
pub fn nat_within(word: &[u8], limit: u64) -> Option<u64>
    requires nat { IsTrue (is_nat word.now) }
    requires limit { limit < 2 ^ 63 }
    ensures some { IfSome result (λ n. (n ≡ nat_value word.now) × (n ≤ limit)) }
    ensures none { IfNone result (limit < nat_value word.now) }
{
    nat(word, limit)
}

/// Returns the number that a word, perhaps with a minus, writes, where its magnitude is at most the
/// limit. It takes no memory.
pub fn int_within(word: &[u8], limit: u64) -> Option<i64>
    requires int { IsTrue (is_int word.now) }
    requires limit { limit < 2 ^ 63 }
    ensures some { IfSome result (λ v. (v ≡ int_value word.now) × (unsigned_abs v ≤ limit)) }
    ensures none { IfNone result (limit < unsigned_abs (int_value word.now)) }
{
    match word {
        [b'-', digits @ ..] => Some(-(nat_within(digits, limit)? as i64)),
        _ => Some(nat_within(word, limit)? as i64),
    }
}
