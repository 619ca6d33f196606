//! Numbers in decimal.
ghost use Rattle.std.specs.Prelude.{◌≡◌, ◌<◌, ◌≤◌, ◌^◌, IfSome, unsigned_abs};
ghost use Rattle.std.specs.List.{list_all};
ghost use Rattle.phase_base.specs.Numbers.{begins_plainly, is_nat, is_int, nat_within, int_within};
ghost use Rattle.phase_base.specs.Words.{is_digit};

use crate::word::is_digit;

/// Whether there is a byte, and no `0` stands before others.
fn begins_plainly(word: &[u8]) -> bool
    ensures { result ≡ begins_plainly word.now }
{
    !word.is_empty() && !(word[0] == b'0' && word.len() != 1)
}

/// Whether each byte is a digit.
fn are_digits(word: &[u8]) -> bool
    ensures { result ≡ list_all is_digit word.now }
{
    word.iter().all(|b| is_digit(*b))
}

/// Whether the word is a number without a sign: digits, of which the first is not 0, or `0` alone.
/// It may be any number. It takes no memory.
pub fn is_nat(word: &[u8]) -> bool
    ensures { result ≡ is_nat word.now }
{
    begins_plainly(word) && are_digits(word)
}

/// Whether the word is a number, perhaps with a minus. `-0` is none. It may be any number. It takes
/// no memory.
pub fn is_int(word: &[u8]) -> bool
    ensures { result ≡ is_int word.now }
{
    match word {
        [] => false,
        [b'-', digits @ ..] => is_nat(digits) && digits != b"0".as_slice(),
        _ => is_nat(word),
    }
}

/// Returns the number without a sign that a word is, where it is one of at most the limit. It takes
/// no memory.
#[tactic(auto, unfolding(crate::specs::Numbers::nat_within))]
pub fn nat(word: &[u8], limit: u64) -> Option<u64>
    requires { limit < 2 ^ 63 }
    ensures value { result ≡ nat_within limit word.now }
    ensures small { IfSome result (λ n. n ≤ limit) }
{
    if !begins_plainly(word) {
        return None;
    }
    let mut n = 0u64;
    for b in word {
        if !is_digit(*b) {
            return None;
        }
        if n > limit / 10 {
            return None;
        }
        n = n * 10 + u64::from(*b - b'0');
    }
    if n > limit { None } else { Some(n) }
}

/// Returns the number that a word, perhaps with a minus, is, where it is one of a magnitude of at
/// most the limit. `-0` is none. It takes no memory.
#[tactic(auto, unfolding(crate::specs::Numbers::int_within))]
pub fn int(word: &[u8], limit: u64) -> Option<i64>
    requires { limit < 2 ^ 63 }
    ensures value { result ≡ int_within limit word.now }
    ensures small { IfSome result (λ v. unsigned_abs v ≤ limit) }
{
    let [first, more @ ..] = word else {
        return None;
    };
    if *first == b'-' {
        let n = nat(more, limit)?;
        if n == 0 {
            return None;
        }
        return Some(-(n as i64));
    }
    let n = nat(word, limit)?;
    Some(n as i64)
}
